use crate::links::{ListenAnswer, SendAnswer, Turn, Wants};
use ev_types::{Blob, Items, Text};

/// A call of links that did not answer out of memory, with its arguments and its answer.
#[derive(Drop)]
pub enum Entry {
    Listen {
        address: Text,
        answer: ListenAnswer,
    },
    /// `piece` is the bytes of a read, and empty in any other turn.
    Next {
        wants: Wants,
        turn: Turn,
        piece: Blob,
    },
    Send {
        link: u64,
        bytes: Blob,
        answer: SendAnswer,
    },
    Close {
        link: u64,
    },
}

/// The calls of links, in order.
pub type Entries = Items<Entry>;
