//! Converting a text, once it is read.

ghost use Rattle.std.specs.Prelude.{◌≡◌, ◌≤◌, ◌++◌, IfOk, OnOk};
ghost use Rattle.std.specs.Option.{ForSome};
ghost use Rattle.command_io.specs.Endings.{IsRefusalOrMemory};
ghost use Rattle.command_texts.specs.Converts.{ConvertsText, refused_line, refused_text};
ghost use Rattle.graphite_lines.specs.Frames.{frames_in, refused_lines};

use crate::write::{Converted, write_converted};
use command_io::{MEMORY_LINE, Status, put_line};
use ev_types::{Blob, Memory};
use graphite_lines::{BadLine, BadLines, frames_are_read_back, graphite_frames};
use itoa::Buffer;
use ports::Sink;
use std::alloc::Global;

/// Converts the text, and writes what comes of it.
pub(crate) fn convert_text<O: Sink, E: Sink>(
    alloc: Global,
    text: &[u8],
    host_part: Option<u32>,
    out: &mut O,
    err: &mut E,
) -> Status
    requires { ForSome host_part (λ part. (1 ≤ part) × (part ≤ 64)) }
    ensures ends { ConvertsText host_part text.now (O.report out.old) (O.report out.new)
        (E.report err.old) (E.report err.new) result }
    ensures untouched { IsRefusalOrMemory result → out.new ≡ out.old }
    ensures no_line { result ≡ Status.Done → err.new ≡ err.old }
{
    frames_are_read_back();
    match convert(alloc, text, host_part) {
        Ok(made) => write_converted(&made, out, err),
        Err(_) => {
            put_line(err, &[MEMORY_LINE]);
            Status::Memory
        }
    }
}

/// The frames of the accepted lines, and the lines that say which are refused.
fn convert(alloc: Global, text: &[u8], host_part: Option<u32>) -> Result<Converted, Memory>
    requires { ForSome host_part (λ part. (1 ≤ part) × (part ≤ 64)) }
    ensures { IfOk result (λ made. (made.frames ≡ frames_in host_part text.now)
        × (made.refused ≡ refused_text (refused_lines host_part text.now))) }
{
    let mut frames = Blob::fresh(alloc);
    let mut bad = BadLines::fresh(alloc);
    graphite_frames(alloc, text, host_part, &mut frames, &mut bad)?;
    let refused = refused_text(alloc, bad.as_slice())?;
    Ok(Converted { frames, refused })
}

/// A line for each refused one.
fn refused_text(alloc: Global, bad: &[BadLine]) -> Result<Blob, Memory>
    ensures { IfOk result (λ text. text ≡ refused_text bad.now) }
{
    let mut text = Blob::fresh(alloc);
    for line in bad {
        put_refused(alloc, *line, &mut text)?;
    }
    Ok(text)
}

/// Appends the line that says why this one is refused.
fn put_refused(alloc: Global, bad: BadLine, text: &mut Blob) -> Result<(), Memory>
    ensures { OnOk result (text.new ≡ text.old ++ refused_line bad) }
{
    let mut digits = Buffer::new();
    text.append(alloc, b"riemann: line ")?;
    text.append(alloc, digits.format(bad.line).as_bytes())?;
    text.append(alloc, b" refused: ")?;
    text.append(alloc, bad.why.name().as_bytes())?;
    text.push(alloc, b'\n')?;
    Ok(())
}
