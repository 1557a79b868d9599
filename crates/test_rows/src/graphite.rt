//! Rows of lines after Graphite's plain text, which the command `graphite` answers.

use crate::call::{Given, call_with};
use crate::events::NOW;
use crate::line::{RowFault, split_word};
use crate::reading::readable;
use crate::shown::put_event;
use crate::spelled::read_spelled;
use ev_types::Blob;
use riemann_msg::read_msg;
use std::alloc::Global;

/// What the command leaves of a text. Before the text is a word that says the host part, or 0 for none.
fn converted(alloc: Global, asked: &str) -> Result<Given, RowFault> {
    let (part, text) = split_word(asked)?;
    let text = read_spelled(alloc, text)?;
    if part == "0" {
        let (given, _) = call_with(alloc, "graphite f", text.as_slice())?;
        return Ok(given);
    }
    let arguments = format!(in alloc; "graphite f --host {part}")?;
    let (given, _) = call_with(alloc, arguments.as_str(), text.as_slice())?;
    Ok(given)
}

/// Appends the event of a line in one line, or why there is none.
pub fn line_answer(alloc: Global, asked: &str, shown: &mut String) -> Result<(), RowFault> {
    let given = converted(alloc, asked)?;
    if let Some(body) = given.out.text.as_slice().get(4..) {
        let msg = readable(read_msg(alloc, body, NOW))?;
        let event = msg.events.as_slice().first().ok_or(RowFault::Unreadable)?;
        return put_event(shown, event);
    }
    let refused = readable(str::from_utf8(given.err.text.as_slice()))?;
    if refused.is_empty() {
        shown.push_str("skipped")?;
        return Ok(());
    }
    let (_, why) = split_refused(refused)?;
    shown.push_str("line refused: ")?;
    shown.push_str(why)?;
    Ok(())
}

/// Appends the frames of a text, and then the number of each refused line, and its cause.
pub fn text_answer(alloc: Global, asked: &str, out: &mut Blob) -> Result<(), RowFault> {
    let given = converted(alloc, asked)?;
    out.append(alloc, given.out.text.as_slice())?;
    let refused = readable(str::from_utf8(given.err.text.as_slice()))?;
    for line in refused.split_terminator('\n') {
        let (number, why) = split_refused(line)?;
        for part in [" ", number, " ", why] {
            out.append(alloc, part.as_bytes())?;
        }
    }
    Ok(())
}

/// The number of the line that is refused, and its cause.
fn split_refused(line: &str) -> Result<(&str, &str), RowFault> {
    let line = line.trim_end();
    let line = line
        .strip_prefix("riemann: line ")
        .ok_or(RowFault::Unreadable)?;
    line.split_once(" refused: ").ok_or(RowFault::Unreadable)
}
