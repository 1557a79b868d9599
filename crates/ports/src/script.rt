ghost use Rattle.std.specs.Prelude.{◌≡◌, ◌<◌, ◌≤◌, length, take, true, MatchOption};
ghost use Rattle.ports.specs.Playing.{bytes_of, is_turn_answer, is_turn, what_of};
ghost use Rattle.ports.specs.Links.{IsPieceWithin, piece_of};

use crate::links::{PIECE_LIMIT, What};
use bytes::Bytes;
use ev_types::{Blob, Items};
use std::marker::Model;

/// What links in memory play: turns, and rules for the sends between them.
#[derive(Drop)]
pub struct Script {
    /// The first reading of the clock, in seconds since 1970.
    pub start: u64,
    pub steps: ScriptSteps,
}

/// One line of a script.
#[derive(Drop)]
pub enum Step {
    /// A turn, with its reading of the clock in seconds since 1970.
    Turn { secs: u64, event: LinkEvent },
    /// From here on the link takes `count` more bytes, and then answers [`crate::SendAnswer::Later`].
    Take { link: u64, count: u64 },
    /// The next send on the link fails.
    Fail { link: u64 },
}

impl Step {
    pub(crate) fn is_turn(&self) -> bool
        ensures { result ≡ is_turn self.now }
    {
        matches!(self, Step::Turn { .. })
    }
}

/// The lines of a script, in order.
pub type ScriptSteps = Items<Step>;

/// What happens in a turn of a script.
#[derive(Drop)]
pub enum LinkEvent {
    Idle,
    Opened { link: u64 },
    Read { link: u64, piece: Piece },
    Ended { link: u64 },
    Broken { link: u64 },
    Room { link: u64 },
}

impl LinkEvent {
    /// What the turn is for the server. The bytes of a read are written to the start of `buf`.
    pub(crate) fn write_to(&self, buf: &mut [u8]) -> What
        requires { length buf.old ≡ PIECE_LIMIT }
        ensures what { result ≡ what_of self.now }
        ensures piece { piece_of result buf.new ≡ bytes_of self.now }
        ensures within { IsPieceWithin PIECE_LIMIT result }
        ensures succeeded { is_turn_answer result ≡ true }
    {
        match self {
            LinkEvent::Idle => What::Idle,
            LinkEvent::Opened { link } => What::Opened { link: *link },
            LinkEvent::Read { link, piece } => What::Read {
                link: *link,
                count: piece.write_to(buf),
            },
            LinkEvent::Ended { link } => What::Ended { link: *link },
            LinkEvent::Broken { link } => What::Broken { link: *link },
            LinkEvent::Room { link } => What::Room { link: *link },
        }
    }
}

/// The bytes of one read, from 1 to [`PIECE_LIMIT`] of them.
#[derive(Drop)]
pub struct Piece {
    bytes: PieceBytes,
}

/// Where the bytes of a piece are.
#[derive(Drop)]
enum PieceBytes {
    /// In memory of their own.
    Own(Blob),
    /// In a buffer that other pieces may be parts of too.
    Shared(Bytes),
}

impl Model for Piece {
    ghost use Rattle.std.specs.Prelude.{◌<◌, ◌≤◌, ℕ, List, length};
    ghost use Rattle.ports.specs.PieceBytes.{held_bytes};

    ghost Value = { List ℕ };

    ghost view = { λ piece. held_bytes piece.bytes };

    ghost invariant = { λ piece. (0 < length (held_bytes piece.bytes))
        × (length (held_bytes piece.bytes) ≤ 65536) };
}

impl Piece {
    /// The bytes as a piece, or nothing where they are too few or too many.
    pub fn from_blob(bytes: Blob) -> Option<Piece>
        ensures { MatchOption result
            ((0 < length bytes) × (length bytes ≤ PIECE_LIMIT) → ⊥)
            (λ piece. piece ≡ bytes) }
    {
        if bytes.len() == 0 || bytes.len() > PIECE_LIMIT {
            return None;
        }
        Some(Piece {
            bytes: PieceBytes::Own(bytes),
        })
    }

    /// The bytes as a piece, with no copy.
    pub(crate) fn from_bytes(bytes: Bytes) -> Piece
        requires some { 0 < length bytes }
        requires within { length bytes ≤ PIECE_LIMIT }
        ensures { result ≡ bytes }
    {
        Piece {
            bytes: PieceBytes::Shared(bytes),
        }
    }

    pub fn as_slice(&self) -> &[u8]
        ensures bytes { result.now ≡ self.now }
        ensures some { 0 < length self.now }
        ensures within { length self.now ≤ PIECE_LIMIT }
    {
        match &self.bytes {
            PieceBytes::Own(bytes) => bytes.as_slice(),
            PieceBytes::Shared(bytes) => bytes.as_slice(),
        }
    }

    /// Writes the bytes to the start of `buf`, and gives their number.
    pub(crate) fn write_to(&self, buf: &mut [u8]) -> usize
        requires { length buf.old ≡ PIECE_LIMIT }
        ensures count { result ≡ length self.now }
        ensures bytes { take result buf.new ≡ self.now }
        ensures some { 0 < result }
        ensures within { result ≤ PIECE_LIMIT }
    {
        let bytes = self.as_slice();
        let count = bytes.len();
        buf[..count].copy_from_slice(bytes);
        count
    }
}
