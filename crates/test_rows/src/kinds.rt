//! The kinds of rows of one line.

use crate::events::Named;
use crate::line::{RowFault, said, split_word};
use crate::reading::{read_moment, two_texts};
use crate::shown::put_shown;
use crate::spelled::{read_number, read_spelled};
use crate::tally::Tally;
use crate::{configs, fields, forms, frames, graphite, messages, plans, queries, suites, values};
use ev_types::Blob;
use list_laws::{is_prefix, window_of};
use std::alloc::Global;

/// Judges a row of this kind by what comes of it. Bytes can be spelled in what is wanted.
pub fn judge_row(
    alloc: Global,
    kind: &str,
    asked: &str,
    wanted: &str,
    named: &[Named],
    tally: &mut Tally,
) -> Result<(), RowFault> {
    let wanted = read_spelled(alloc, wanted)?;
    let came = answer(alloc, kind, asked, wanted.as_slice(), named)?;
    Ok(tally.judge(kind, asked, wanted.as_slice(), came.as_slice())?)
}

/// What comes of a row of this kind.
fn answer(
    alloc: Global,
    kind: &str,
    asked: &str,
    wanted: &[u8],
    named: &[Named],
) -> Result<Blob, RowFault> {
    match kind {
        "config"
        | "written"
        | "patterns"
        | "plan"
        | "forms"
        | "form-count"
        | "lines"
        | "tests"
        | "read-frames"
        | "rewritten"
        | "query" => {
            let text = read_spelled(alloc, asked)?;
            text_answer(alloc, kind, text.as_slice(), wanted)
        }
        "put" | "varint" | "tag-and-length" | "frames" | "graphite" => {
            let mut out = Blob::fresh(alloc);
            put_bytes(alloc, kind, asked, &mut out)?;
            Ok(out)
        }
        _ => {
            let mut line = String::new(alloc);
            put_line(alloc, kind, asked, named, &mut line)?;
            Ok(said(line))
        }
    }
}

/// What comes of a row that asks for something of bytes that are spelled.
fn text_answer(alloc: Global, kind: &str, text: &[u8], wanted: &[u8]) -> Result<Blob, RowFault> {
    match kind {
        "config" => configs::config_answer(alloc, text),
        "written" => configs::written_again(alloc, text, wanted),
        "patterns" => configs::patterns_answer(alloc, text),
        "plan" => plans::plan_answer(alloc, text),
        "tests" => suites::tests_answer(alloc, text),
        "read-frames" => frames::read_frames_answer(alloc, text),
        "rewritten" => messages::written_answer(alloc, text),
        "query" => queries::query_answer(alloc, text),
        _ => forms::forms_answer(alloc, kind, text),
    }
}

/// What comes of a row of a kind that writes bytes.
fn put_bytes(alloc: Global, kind: &str, asked: &str, out: &mut Blob) -> Result<(), RowFault> {
    match kind {
        "put" => fields::put_answer(alloc, asked, out),
        "varint" => fields::varint_answer(alloc, asked, out),
        "tag-and-length" => fields::tag_answer(alloc, asked, out),
        "frames" => frames::frames_answer(alloc, asked, out),
        _ => graphite::text_answer(alloc, asked, out),
    }
}

/// What comes of a row of a kind that writes a line.
fn put_line(
    alloc: Global,
    kind: &str,
    asked: &str,
    named: &[Named],
    line: &mut String,
) -> Result<(), RowFault> {
    match kind {
        "value" => values::value_answer(alloc, asked, named, line),
        "means" => values::means_answer(alloc, asked, line),
        "shares" => values::shares_answer(alloc, asked, named, line),
        "key" => values::key_answer(alloc, asked, named, line),
        "copy" => values::copy_answer(alloc, asked, named, line),
        "item" => values::item_answer(alloc, asked, named, line),
        "expires" => values::expires_answer(alloc, asked, line),
        "set" => values::set_answer(alloc, asked, named, line),
        "tag" => values::tag_answer(alloc, asked, named, line),
        "reborn" => values::reborn_answer(alloc, asked, named, line),
        _ => put_number(alloc, kind, asked, named, line),
    }
}

fn put_number(
    alloc: Global,
    kind: &str,
    asked: &str,
    named: &[Named],
    line: &mut String,
) -> Result<(), RowFault> {
    match kind {
        "ttl" => messages::ttl_answer(asked, line),
        "ttl-bits" => messages::ttl_bits_answer(asked, line),
        "fields" => fields::fields_answer(alloc, asked, line),
        "graphite-line" => graphite::line_answer(alloc, asked, line),
        "like" => queries::like_answer(alloc, asked, line),
        "prefix" => prefix_answer(asked, line),
        "window" => window_answer(asked, line),
        _ => {
            let bytes = read_spelled(alloc, asked)?;
            put_line_of(alloc, kind, bytes.as_slice(), named, line)
        }
    }
}

/// Appends what comes of a row that asks something of bytes.
fn put_line_of(
    alloc: Global,
    kind: &str,
    bytes: &[u8],
    named: &[Named],
    line: &mut String,
) -> Result<(), RowFault> {
    match kind {
        "message" => messages::message_answer(alloc, bytes, named, line),
        "event" => messages::event_answer(alloc, bytes, named, line),
        "pattern-count" => queries::pattern_count_answer(alloc, bytes, line),
        "holds" => queries::holds_answer(alloc, bytes, named, line),
        "build" => queries::build_answer(alloc, bytes, line),
        "text" => values::text_answer(alloc, bytes, line),
        _ => Err(RowFault::Unreadable),
    }
}

/// Appends whether the second of two texts begins with the first.
fn prefix_answer(asked: &str, line: &mut String) -> Result<(), RowFault> {
    let (front, whole) = two_texts(asked)?;
    put_shown(line, is_prefix(front.as_bytes(), whole.as_bytes()))
}

/// Appends the number of the window of a moment, by the moment at which the first begins and the length of each.
fn window_answer(asked: &str, line: &mut String) -> Result<(), RowFault> {
    let (moment, rest) = split_word(asked)?;
    let (start, length) = split_word(rest)?;
    let moment = read_moment(moment)?;
    let start = read_moment(start)?;
    let length = u64::from(read_number(length)?);
    if length == 0 || moment < start {
        return Err(RowFault::Unreadable);
    }
    put_shown(line, window_of(moment, start, length))
}
