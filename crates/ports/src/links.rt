ghost use Rattle.std.specs.Prelude.{◌≡◌, ◌<◌, [], ◌∷◌, length};
ghost use Rattle.ports.specs.Calls.{AddsCalls};
ghost use Rattle.ports.specs.Links.{listen_entries, next_entries, send_entries, HasListenCause, HasNextCause, IsPieceWithin, IsWithin, MayClose};

use ev_types::{Items, Text};
use std::alloc::Global;

/// The most bytes that one read of a link gives, and the length of the buffer of [`Links::next`].
pub const PIECE_LIMIT: usize = 65_536;

/// The links to clients, and the clock. A turn is a reading of the clock, and what happened, if something did.
pub trait Links {
    ghost use Rattle.ports.specs.Calls.{LinksReport};
    ghost use Rattle.ports.specs.declared.entry.Entry.TheVariants.{Close};

    /// The calls so far, the script that the links play, where they play one, and the count of calls that failed.
    ghost report: { Self → LinksReport };

    /// Starts to listen on `address`, a text `HOST:PORT`.
    fn listen(&mut self, alloc: Global, address: &Text) -> ListenAnswer
        ensures adds { AddsCalls (report self.old) (report self.new)
            (listen_entries address.now result) }
        ensures cause { HasListenCause (report self.old).faults (report self.new).faults result };

    /// Waits for the next turn. `wants` has one want for each connected link, by rising number. The bytes of a read
    /// are the first ones of `buf`.
    fn next(&mut self, alloc: Global, wants: &Wants, buf: &mut [u8]) -> Turn
        requires { length buf.old ≡ PIECE_LIMIT }
        ensures within { IsPieceWithin PIECE_LIMIT result.what }
        ensures adds { AddsCalls (report self.old) (report self.new)
            (next_entries wants.now buf.new result) }
        ensures cause { HasNextCause (report self.old).faults (report self.new).faults
            result.what };

    /// Offers the bytes to the link. A send that fails concerns that link alone, and is not a fault.
    fn send(&mut self, alloc: Global, link: u64, bytes: &[u8]) -> SendAnswer
        requires { 0 < length bytes.now }
        ensures within { IsWithin (length bytes.now) result }
        ensures adds { AddsCalls (report self.old) (report self.new)
            (send_entries link bytes.now result) }
        ensures no_fault { (report self.new).faults ≡ (report self.old).faults };

    /// Closes the link. It always succeeds and takes no memory.
    fn close(&mut self, link: u64)
        requires { MayClose (report self.old).log link }
        ensures adds { AddsCalls (report self.old) (report self.new) (Close link ∷ []) }
        ensures no_fault { (report self.new).faults ≡ (report self.old).faults };
}

/// What [`Links::listen`] answers.
#[derive(Clone, Copy, PartialEq, Eq)]
pub enum ListenAnswer {
    /// The first reading of the clock, in seconds since 1970.
    Ready { secs: u64 },
    /// The address cannot be listened on.
    Failed,
    /// Out of memory.
    Memory,
}

/// A reading of the clock, and what happened, if something did.
#[derive(Clone, Copy, PartialEq, Eq)]
pub struct Turn {
    /// The reading of the clock, in seconds since 1970.
    pub secs: u64,
    pub what: What,
}

/// What happened in a turn.
#[derive(Clone, Copy, Debug, PartialEq, Eq)]
pub enum What {
    /// Nothing.
    Idle,
    /// A client connected. Real links count their numbers up from 0; a script chooses its own.
    Opened { link: u64 },
    /// `count` bytes came, from 1 to [`PIECE_LIMIT`].
    Read { link: u64, count: usize },
    /// The client sends nothing more.
    Ended { link: u64 },
    /// The link broke.
    Broken { link: u64 },
    /// The link may be sent to again.
    Room { link: u64 },
    /// The server is to stop: it asks for no turn after this one.
    Stopped,
    /// The links failed. This is not a turn.
    Failed,
    /// Out of memory. This is not a turn.
    Memory,
}

/// What [`Links::send`] answers.
#[derive(Clone, Copy, PartialEq, Eq)]
pub enum SendAnswer {
    /// The first `count` bytes were taken.
    Took { count: usize },
    /// The link takes nothing now.
    Later,
    /// The link is broken.
    Failed,
    /// Out of memory. No byte was taken.
    Memory,
}

/// What the server waits for on one link.
#[derive(Clone, Copy)]
pub struct Want {
    pub link: u64,
    /// Bytes to read.
    pub read: bool,
    /// Room to send.
    pub room: bool,
}

/// What the server waits for on each connected link, by rising number.
pub type Wants = Items<Want>;
