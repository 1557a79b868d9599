ghost use Rattle.std.specs.Prelude.{◌≡◌, ◌≤◌, ◌<◌, ◌++◌, ◌^◌, ◌↔◌, [], drop, length, IsTrue, OnOk, OnErr};
ghost use Rattle.frame_link.specs.Held.{Lends};
ghost use Rattle.frame_link.specs.Sight.{Sees};

use bytes::BytesMut;
use ev_types::Memory;
use framing::BODY_LIMIT;
use std::alloc::Global;
use std::marker::Model;

// A buffer that holds no bytes keeps memory for at most this many. A piece of 64 KB and the bytes before it mostly fit.
const KEPT: usize = 131_072;

/// The bytes of one link from which no frame was read yet. Contracts see them.
#[derive(Drop)]
pub struct FrameBuffer {
    bytes: BytesMut,
}

/// What [`first_frame`] lends.
#[derive(Clone, Copy)]
pub enum FirstFrame<'a> {
    /// The body of the first frame, where it is in the bytes.
    Whole(&'a [u8]),
    /// The first frame is not whole yet.
    NotYet,
    /// The next frame's length in bytes, which is over [`BODY_LIMIT`].
    TooLong { length: u32 },
}

/// What bytes begin with.
#[derive(Drop)]
pub(crate) enum Look {
    /// Too few bytes for a frame whose length is within the limit, or for a length.
    Partial,
    /// A length over [`BODY_LIMIT`].
    Oversized { length: u32 },
    /// A whole frame with a body of `length` bytes.
    Frame { length: usize },
}

impl Model for FrameBuffer {
    ghost use Rattle.std.specs.Prelude.{ℕ, List};

    ghost Value = { List ℕ };

    ghost view = { λ buffer. buffer.bytes.items };
}

impl FrameBuffer {
    /// No bytes. It takes no memory.
    pub fn fresh(alloc: Global) -> FrameBuffer
        ensures { result ≡ [] }
    {
        FrameBuffer {
            bytes: BytesMut::new(alloc),
        }
    }

    /// Appends the piece that came next. The bytes move to the front of their memory before it grows. `Memory`: out of
    /// memory, and nothing has changed.
    pub fn push(&mut self, _alloc: Global, piece: &[u8]) -> Result<(), Memory>
        ensures ok { OnOk result (self.new ≡ self.old ++ piece.now) }
        ensures err { OnErr result (self.new ≡ self.old) }
    {
        self.bytes.try_reclaim(piece.len());
        self.bytes.extend_from_slice(piece)?;
        Ok(())
    }

    /// How many bytes there are. They are fewer than 2^63.
    pub fn len(&self) -> usize
        ensures value { result ≡ length self.now }
        ensures bound { result < 2 ^ 63 }
    {
        self.bytes.len()
    }

    pub fn is_empty(&self) -> bool
        ensures { IsTrue result ↔ (self.now ≡ []) }
    {
        self.bytes.is_empty()
    }

    pub fn as_slice(&self) -> &[u8]
        ensures { result.now ≡ self.now }
    {
        self.bytes.as_slice()
    }

    /// Removes the first `count` bytes. It takes no memory.
    pub fn advance(&mut self, count: usize)
        requires { count ≤ length self.old }
        ensures { self.new ≡ drop count self.old }
    {
        self.bytes.advance(count);
        self.give_back();
    }

    /// Gives the memory back, if there are no bytes, and it is for more than [`KEPT`] bytes.
    fn give_back(&mut self)
        ensures { self.new ≡ self.old }
    {
        if !self.bytes.is_empty() {
            return;
        }
        self.bytes.clear();
        if self.bytes.capacity() > KEPT {
            let alloc = *self.bytes.allocator();
            self.bytes = BytesMut::new(alloc);
        }
    }
}

/// Lends the body of the first frame of the bytes, if that frame is whole. A frame is a length of four big-endian
/// bytes, at most [`BODY_LIMIT`], and then that many bytes of body. It takes no memory.
pub fn first_frame(bytes: &[u8]) -> FirstFrame<'_>
    ensures { Lends bytes.now result }
{
    match look_at(bytes) {
        Look::Partial => FirstFrame::NotYet,
        Look::Oversized { length } => FirstFrame::TooLong { length },
        Look::Frame { length } => FirstFrame::Whole(&bytes[4..4 + length]),
    }
}

/// Reads the length at the start, where there are four bytes, and compares it with what follows.
#[tactic(auto, unfolding(framing::specs::Frames::length_at))]
pub(crate) fn look_at(bytes: &[u8]) -> Look
    ensures { Sees bytes.now result }
{
    let Some((head, body)) = bytes.split_first_chunk::<4>() else {
        return Look::Partial;
    };
    let length = u32::from_be_bytes(*head);
    if length > BODY_LIMIT {
        Look::Oversized { length }
    } else if body.len() < length as usize {
        Look::Partial
    } else {
        Look::Frame {
            length: length as usize,
        }
    }
}
