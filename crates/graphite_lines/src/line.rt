//! What a line says.

ghost use Rattle.std.specs.Prelude.{◌≡◌, ◌≤◌, ◌++◌, ◌∷◌, [], IfOk};
ghost use Rattle.std.specs.Option.{ForSome, option_copied};
ghost use Rattle.graphite_lines.specs.Lines.{line_says, said_by};
ghost use Rattle.graphite_lines.specs.Reading.{Parses, ParsesWords, Reads, said_event};

use crate::number::{read_time, read_value};
use crate::path::{Placed, place, read_path};
use crate::words::{LineWords, split_line};
use crate::{LineFault, LineWhy};
use ev_types::{Event, Memory, Text};
use std::alloc::Global;

/// What an accepted line says, with its texts where they are in the line.
#[derive(Clone, Copy)]
pub(crate) struct Said<'a> {
    pub(crate) placed: Placed<'a>,
    pub(crate) metric: i64,
    pub(crate) time: i64,
}

/// The event that a line says: a path, a value and a time, with spaces and tabs between and around these words. It is
/// `None` where the line has no words.
///
/// The path is the service. With a `host_part`, from 1 to 64, and a path of more parts between its dots, the part of
/// that number is the host, counted from 1, and the others are the service. The value is the metric.
pub fn read_line(
    alloc: Global,
    line: &[u8],
    host_part: Option<u32>,
) -> Result<Option<Event>, LineFault>
    requires { ForSome host_part (λ part. (1 ≤ part) × (part ≤ 64)) }
    ensures { Reads (line_says host_part line.now) result }
{
    match parse_line(line, host_part) {
        Ok(Some(said)) => match event_said(alloc, &said) {
            Ok(event) => Ok(Some(event)),
            Err(_) => Err(LineFault::Memory),
        },
        Ok(None) => Ok(None),
        Err(why) => Err(LineFault::Refused { why }),
    }
}

/// What the line says. It takes no memory.
#[tactic(auto, unfolding(crate::specs::Lines::line_says))]
pub(crate) fn parse_line(line: &[u8], host_part: Option<u32>) -> Result<Option<Said<'_>>, LineWhy>
    requires { ForSome host_part (λ part. (1 ≤ part) × (part ≤ 64)) }
    ensures { Parses (line_says host_part line.now) result }
{
    match split_line(line) {
        LineWords::Nothing => Ok(None),
        LineWords::Other => Err(LineWhy::Words),
        LineWords::Three { path, value, time } => match parse_words(path, value, time, host_part) {
            Ok(said) => Ok(Some(said)),
            Err(why) => Err(why),
        },
    }
}

/// What three words say.
fn parse_words<'a>(
    path: &'a [u8],
    value: &'a [u8],
    time: &'a [u8],
    host_part: Option<u32>,
) -> Result<Said<'a>, LineWhy>
    requires { ForSome host_part (λ part. (1 ≤ part) × (part ≤ 64)) }
    ensures { ParsesWords
        (said_by host_part (path.now ∷ (value.now ∷ (time.now ∷ [])))) result }
{
    let Some(path) = read_path(path) else {
        return Err(LineWhy::Path);
    };
    let Some(metric) = read_value(value) else {
        return Err(LineWhy::Value);
    };
    let Some(time) = read_time(time) else {
        return Err(LineWhy::Time);
    };
    Ok(Said {
        placed: place(path, host_part),
        metric,
        time,
    })
}

/// The event, with copies of its texts.
fn event_said(alloc: Global, said: &Said) -> Result<Event, Memory>
    ensures { IfOk result (λ event. event ≡ said_event said.now) }
{
    let mut event = Event::at(alloc, said.time);
    event.service = Some(joined(alloc, said.placed.front, said.placed.back)?);
    event.host = copied(alloc, said.placed.host)?;
    event.metric = Some(said.metric);
    Ok(event)
}

/// The text of the two, one after the other.
fn joined(alloc: Global, front: &str, back: &str) -> Result<Text, Memory>
    ensures { IfOk result (λ text. text ≡ front.now ++ back.now) }
{
    if front.is_empty() {
        return Text::from_str(alloc, back);
    }
    if back.is_empty() {
        return Text::from_str(alloc, front);
    }
    let mut chars = String::from_str(alloc, front)?;
    chars.push_str(back)?;
    Ok(Text::from_string(chars))
}

fn copied(alloc: Global, text: Option<&str>) -> Result<Option<Text>, Memory>
    ensures { IfOk result (λ copy. copy ≡ option_copied text.entry) }
{
    match text {
        Some(text) => Ok(Some(Text::from_str(alloc, text)?)),
        None => Ok(None),
    }
}
