//! The frames of a text.

ghost use Rattle.std.specs.Prelude.{◌≡◌, ◌≤◌, ◌++◌, ◌∷◌, [], OnOk, OnErr};
ghost use Rattle.std.specs.Option.{ForSome};
ghost use Rattle.list_laws.specs.Prefix.{IsPrefix};
ghost use Rattle.graphite_lines.specs.Frames.{accepted, frames_in, frames_with, refused_from, refused_lines};

use crate::line::parse_line;
use crate::lines::cut_line;
use crate::put::put_frame;
use crate::{BadLine, BadLines};
use ev_types::{Blob, Memory};
use std::alloc::Global;

/// Appends to `out` one frame of one event for each line of the text that is accepted, and to `bad` each line that is
/// refused. Lines end with LF or the end of the text, and one CR before LF is no part of a line. What each line says,
/// and the `host_part`, are as in [`crate::read_line`]. If memory runs out, both lists still begin with what they had.
pub fn graphite_frames(
    alloc: Global,
    text: &[u8],
    host_part: Option<u32>,
    out: &mut Blob,
    bad: &mut BadLines,
) -> Result<(), Memory>
    requires { ForSome host_part (λ part. (1 ≤ part) × (part ≤ 64)) }
    ensures frames { OnOk result (out.new ≡ out.old ++ frames_in host_part text.now) }
    ensures refused { OnOk result (bad.new ≡ bad.old ++ refused_lines host_part text.now) }
    ensures out_begins { OnErr result (IsPrefix out.old out.new) }
    ensures bad_begins { OnErr result (IsPrefix bad.old bad.new) }
{
    let mut left = text;
    let mut number: u64 = 1;
    'lines: loop {
        let (line, rest) = cut_line(left);
        take_line(alloc, number, line, host_part, out, bad)?;
        let Some(rest) = rest else {
            return Ok(());
        };
        left = rest;
        number += 1;
    }
}

/// Appends the frame of the line of this number, or the line where it is refused.
#[tactic(auto, unfolding(crate::specs::Frames::accepted, crate::specs::Frames::frames_with, crate::specs::Frames::refused_from))]
fn take_line(
    alloc: Global,
    number: u64,
    line: &[u8],
    host_part: Option<u32>,
    out: &mut Blob,
    bad: &mut BadLines,
) -> Result<(), Memory>
    requires { ForSome host_part (λ part. (1 ≤ part) × (part ≤ 64)) }
    ensures frames { OnOk result (out.new
        ≡ out.old ++ frames_with (accepted host_part (line.now ∷ []))) }
    ensures refused { OnOk result (bad.new
        ≡ bad.old ++ refused_from number host_part (line.now ∷ [])) }
    ensures out_begins { OnErr result (IsPrefix out.old out.new) }
    ensures bad_begins { OnErr result (IsPrefix bad.old bad.new) }
{
    match parse_line(line, host_part) {
        Ok(Some(said)) => put_frame(alloc, said, out),
        Ok(None) => Ok(()),
        Err(why) => bad.push(alloc, BadLine { line: number, why }),
    }
}
