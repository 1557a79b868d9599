//! Events as one line of text each, so that a row wants one text.

use crate::line::RowFault;
use ev_types::{Blob, Event, Memory, Text};
use std::alloc::Global;
use std::fmt::{Display, Write};

pub fn shown(text: &Option<Text>) -> &str {
    match text {
        Some(text) => text.as_str(),
        None => "-",
    }
}

/// Appends what is printed of the value.
pub fn put_shown<T: Display + Copy>(line: &mut String, value: T) -> Result<(), RowFault> {
    write!(line, "{value}")?;
    Ok(())
}

/// Appends the bytes of what is printed of the value.
pub fn put_printed<T: Display + Copy>(
    alloc: Global,
    out: &mut Blob,
    value: T,
) -> Result<(), RowFault> {
    let printed = format!(in alloc; "{value}")?;
    out.append(alloc, printed.as_bytes())?;
    Ok(())
}

/// Appends a blank, except at the begin of the line.
pub fn put_blank(line: &mut String) -> Result<(), RowFault> {
    if !line.is_empty() {
        line.push_str(" ")?;
    }
    Ok(())
}

/// Appends the name of a cause, where the text of the fault does not end with it.
pub fn end_with_name(printed: &mut String, name: &str) -> Result<(), Memory> {
    if !printed.as_str().ends_with(name) {
        write!(printed, ", named {name}")?;
    }
    Ok(())
}

/// Appends that another length is counted, where there are not as many bytes as were counted.
pub fn put_miscount(alloc: Global, out: &mut Blob, counted: usize) -> Result<(), RowFault> {
    if out.len() == counted {
        return Ok(());
    }
    put_printed(alloc, out, ", and another length is counted")
}

/// Appends host, service, state, description; time in seconds and in microseconds; ttl; the metric in its three forms;
/// then each tag, and each attribute.
pub fn put_event(line: &mut String, event: &Event) -> Result<(), RowFault> {
    let (host, service) = (shown(&event.host), shown(&event.service));
    let (state, description) = (shown(&event.state), shown(&event.description));
    write!(line, "{host} {service} {state} {description} ")?;
    let (time, micros, ttl) = (event.time, event.time_micros, event.ttl);
    let (metric, raw_d, raw_f) = (event.metric, event.raw_d, event.raw_f);
    write!(
        line,
        "{time} {micros:?} {ttl:?} {metric:?} {raw_d:?} {raw_f:?}"
    )?;
    for tag in event.tags.as_slice() {
        write!(line, " #{}", tag.as_str())?;
    }
    for attribute in event.attributes.as_slice() {
        write!(
            line,
            " {}={}",
            attribute.key.as_str(),
            shown(&attribute.value)
        )?;
    }
    Ok(())
}

/// Appends each event after a bar.
pub fn put_events(line: &mut String, events: &[Event]) -> Result<(), RowFault> {
    for event in events {
        line.push_str(" | ")?;
        put_event(line, event)?;
    }
    Ok(())
}
