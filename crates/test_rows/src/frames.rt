//! Rows of frames.

use crate::line::RowFault;
use crate::shown::put_printed;
use crate::spelled::read_spelled;
use ev_types::{Blob, Memory};
use frame_link::{FirstFrame, FrameLink, Taken};
use std::alloc::Global;

/// How many frames are taken of a link after each piece, at most.
const MOST_FRAMES: u32 = 4;

/// Appends the body, and a bar after it.
fn put_body(alloc: Global, body: &[u8], bodies: &mut Blob) -> Result<(), Memory> {
    bodies.append(alloc, body)?;
    bodies.push(alloc, b'|')
}

/// Appends each body that is whole, with a bar after it. Returns the length that is too long, if there is one.
fn take_all(alloc: Global, link: &mut FrameLink, bodies: &mut Blob) -> Result<Option<u32>, Memory> {
    for _ in 0..MOST_FRAMES {
        match link.take(alloc) {
            Taken::Whole(body) => put_body(alloc, body.as_slice(), bodies)?,
            Taken::NotYet => return Ok(None),
            Taken::TooLong { length } => return Ok(Some(length)),
            Taken::Memory => return Err(Memory),
        }
    }
    Ok(None)
}

/// Appends the bodies that a link hands out, each with a bar after it, where it gets pieces with ` / ` between them.
/// Then comes the length that is too long at the last of them.
pub fn frames_answer(alloc: Global, asked: &str, bodies: &mut Blob) -> Result<(), RowFault> {
    let mut link = FrameLink::fresh(alloc);
    let mut last = None;
    for piece in asked.split(" / ") {
        let piece = read_spelled(alloc, piece)?;
        link.push(alloc, piece.as_slice())?;
        last = take_all(alloc, &mut link, bodies)?;
    }
    if let Some(length) = last {
        put_printed(alloc, bodies, "too long ")?;
        put_printed(alloc, bodies, length)?;
    }
    Ok(())
}

/// The bodies that are read where they are in a link that gets the bytes, and how many bytes are left.
pub fn read_frames_answer(alloc: Global, bytes: &[u8]) -> Result<Blob, RowFault> {
    let mut link = FrameLink::fresh(alloc);
    let mut bodies = Blob::fresh(alloc);
    link.push(alloc, bytes)?;
    for _ in 0..MOST_FRAMES {
        if let FirstFrame::Whole(body) = link.front() {
            let length = body.len();
            put_body(alloc, body, &mut bodies)?;
            link.advance(length);
        }
    }
    let left = format!(in alloc; " {} left", link.len())?;
    bodies.append(alloc, left.as_bytes())?;
    Ok(bodies)
}
