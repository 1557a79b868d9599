ghost use Rattle.std.specs.Prelude.{◌≡◌, ◌<◌, ◌^◌, true, false, [], length, OnOk, OnErr};
ghost use Rattle.framing.specs.Frames.{HasFrame, IsOversized, Represents, first_body, length_at};
ghost use Rattle.frame_link.specs.Held.{pushed, HandsOut, Lends, Takes, KeepsOnPush, KeepsOnTake};

use crate::buffer::{FirstFrame, FrameBuffer, Look, first_frame, look_at};
use ev_types::{Blob, Memory};
use std::alloc::Global;
use std::marker::Model;

/// The bytes of one link that were not handed out as frames yet. Contracts see them, and whether there was a length
/// over the limit: from then on nothing more is taken in or handed out.
#[derive(Drop)]
pub struct FrameLink {
    buffer: FrameBuffer,
    stopped: bool,
}

/// What [`FrameLink::take`] found.
#[derive(Drop)]
pub enum Taken {
    /// The body of the first frame, which is removed.
    Whole(Blob),
    /// The first frame is not whole yet.
    NotYet,
    /// The next frame's length in bytes, which is over [`BODY_LIMIT`](framing::BODY_LIMIT).
    TooLong { length: u32 },
    /// The first frame is whole, but memory ran out for a copy of its body. The frame stays.
    Memory,
}

impl Model for FrameLink {
    ghost use Rattle.std.specs.Prelude.{◌≡◌, true};
    ghost use Rattle.framing.specs.Frames.{IsOversized};
    ghost use Rattle.frame_link.specs.Held.{Held};

    ghost Value = { Held };

    ghost view = { λ link. record { bytes = link.buffer; stopped = link.stopped } };

    ghost invariant = { λ link. link.stopped ≡ true → IsOversized link.buffer };
}

impl FrameLink {
    /// A link of which nothing came. It takes no memory.
    pub fn fresh(alloc: Global) -> FrameLink
        ensures nothing { result.bytes ≡ [] }
        ensures goes_on { result.stopped ≡ false }
        ensures keeps { Represents result.bytes [] [] }
    {
        FrameLink {
            buffer: FrameBuffer::fresh(alloc),
            stopped: false,
        }
    }

    /// Takes in the piece that came next. `Memory`: out of memory, and nothing has changed. Once [`FrameLink::take`]
    /// answered [`Taken::TooLong`], each piece is left out.
    pub fn push(&mut self, alloc: Global, piece: &[u8]) -> Result<(), Memory>
        ensures ok { OnOk result (self.new ≡ pushed piece.now self.old) }
        ensures err { OnErr result (self.new ≡ self.old) }
        ensures keeps { OnOk result (KeepsOnPush piece.now self.old self.new) }
    {
        if !self.stopped {
            self.buffer.push(alloc, piece)?;
        }
        Ok(())
    }

    /// How many bytes are held, which are those that were not handed out as frames yet. They are fewer than 2^63.
    pub fn len(&self) -> usize
        ensures value { result ≡ length self.now.bytes }
        ensures bound { result < 2 ^ 63 }
    {
        self.buffer.len()
    }

    /// Lends the body of the first frame, if that frame is whole. It takes no memory.
    pub fn front(&self) -> FirstFrame<'_>
        ensures { Lends self.now.bytes result }
    {
        first_frame(self.buffer.as_slice())
    }

    /// Removes the first frame, which is whole and has a body of `length` bytes. It takes no memory.
    pub fn advance(&mut self, length: usize)
        requires whole { HasFrame self.old.bytes }
        requires size { length ≡ length_at self.old.bytes }
        ensures removes { HandsOut self.old (first_body self.old.bytes) self.new }
        ensures keeps { KeepsOnTake self.old (Taken.Whole (first_body self.old.bytes)) self.new }
    {
        self.buffer.advance(4 + length);
    }

    /// Hands out the first frame's body, if that frame is whole. Only a body takes memory, and after [`Taken::Memory`]
    /// nothing has changed. After one answer [`Taken::TooLong`] all later answers are [`Taken::TooLong`].
    pub fn take(&mut self, alloc: Global) -> Taken
        ensures takes { Takes self.old result self.new }
        ensures keeps { KeepsOnTake self.old result self.new }
        ensures stopped { self.old.stopped ≡ true → IsOversized self.old.bytes }
    {
        match look_at(self.buffer.as_slice()) {
            Look::Partial => Taken::NotYet,
            Look::Oversized { length } => {
                self.stopped = true;
                Taken::TooLong { length }
            }
            Look::Frame { length } => self.take_body(alloc, length),
        }
    }

    /// Copies the first frame's body of `length` bytes out, and removes that frame.
    fn take_body(&mut self, alloc: Global, length: usize) -> Taken
        requires whole { HasFrame self.old.bytes }
        requires size { length ≡ length_at self.old.bytes }
        ensures takes { Takes self.old result self.new }
        ensures keeps { KeepsOnTake self.old result self.new }
    {
        let Ok(body) = Blob::from_slice(alloc, &self.buffer.as_slice()[4..4 + length]) else {
            return Taken::Memory;
        };
        self.advance(length);
        Taken::Whole(body)
    }
}
