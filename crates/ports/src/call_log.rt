//! The log of the calls of links, which only proofs see.

ghost use Rattle.std.specs.Prelude.{◌≡◌, ℕ, List, ◌≤◌, [], ◌∷◌, ◌++◌, length, take};
ghost use Rattle.ports.specs.Links.{IsPieceWithin, listen_entries, next_entries, piece_of, send_entries};
ghost use Rattle.ports.specs.Marks.{decoded, with_bytes, with_wants};
ghost use Rattle.ports.specs.declared.entry.Entry.TheVariants.{Listen, Next, Send, Close};

use crate::links::{ListenAnswer, PIECE_LIMIT, SendAnswer, Turn, Want, Wants, What};
use ev_types::Text;
use http_server::Log;
use std::marker::Model;

/// The calls of links, in order, which contracts see as entries. It takes no memory, and nothing of it is kept when the
/// program runs.
#[derive(Drop)]
pub struct CallLog {
    // A `Log` is a ghost list: it has no bytes when the program runs.
    marks: Log<Mark, u8>,
}

/// A part of an entry: the bytes and wants of an entry come before the rest of it.
#[derive(Clone, Copy)]
pub(crate) enum Mark {
    Byte(u8),
    Want(Want),
    Listen(ListenAnswer),
    Next(Turn),
    Send { link: u64, answer: SendAnswer },
    Close { link: u64 },
}

impl Model for CallLog {
    ghost use Rattle.std.specs.Prelude.{◌≡◌, List, []};
    ghost use Rattle.ports.specs.declared.entry.Entry.{Entry};

    ghost Value = { List Entry };

    ghost use Rattle.ports.specs.Marks.{decoded, IsBetween};

    ghost view = { λ log. (decoded log.marks.items).entries };

    ghost invariant = { λ log. IsBetween (decoded log.marks.items) };
}

impl CallLog {
    pub fn fresh() -> CallLog
        ensures { result ≡ [] }
    {
        CallLog { marks: Log::new() }
    }

    pub fn listened(&mut self, address: &Text, answer: ListenAnswer)
        ensures { self.new ≡ self.old ++ Listen address.now answer ∷ [] }
    {
        add_bytes(&mut self.marks, address.as_bytes());
        self.marks = self.marks.and(&Mark::Listen(answer), &0);
    }

    pub fn turned(&mut self, wants: &Wants, turn: Turn, piece: &[u8])
        ensures { self.new ≡ self.old ++ Next wants.now turn piece.now ∷ [] }
    {
        add_wants(&mut self.marks, wants.as_slice());
        add_bytes(&mut self.marks, piece);
        self.marks = self.marks.and(&Mark::Next(turn), &0);
    }

    pub fn sent(&mut self, link: u64, bytes: &[u8], answer: SendAnswer)
        ensures { self.new ≡ self.old ++ Send link bytes.now answer ∷ [] }
    {
        add_bytes(&mut self.marks, bytes);
        self.marks = self.marks.and(&Mark::Send { link, answer }, &0);
    }

    pub fn closed(&mut self, link: u64)
        ensures { self.new ≡ self.old ++ Close link ∷ [] }
    {
        self.marks = self.marks.and(&Mark::Close { link }, &0);
    }
}

/// Adds a mark for each byte.
#[tactic(auto, using(crate::proofs::MarkLemmas::byte_more, crate::proofs::MarkLemmas::bytes_all))]
fn add_bytes(marks: &mut Log<Mark, u8>, bytes: &[u8])
    ensures { decoded marks.new.items ≡ with_bytes bytes.now (decoded marks.old.items) }
{
    for byte in bytes {
        *marks = marks.and(&Mark::Byte(*byte), &0);
    }
}

/// Adds a mark for each want.
#[tactic(auto, using(crate::proofs::MarkLemmas::want_more, crate::proofs::MarkLemmas::wants_all))]
fn add_wants(marks: &mut Log<Mark, u8>, wants: &[Want])
    ensures { decoded marks.new.items ≡ with_wants wants.now (decoded marks.old.items) }
{
    for want in wants {
        *marks = marks.and(&Mark::Want(*want), &0);
    }
}

/// The number of bytes that came in a turn.
fn count_read(what: What) -> usize
    ensures within { IsPieceWithin PIECE_LIMIT what → result ≤ PIECE_LIMIT }
    ensures piece { (buf : List ℕ) → take result buf ≡ piece_of what buf }
{
    match what {
        What::Read { link: _, count } => count,
        _ => 0,
    }
}

/// Logs an answer to `listen`, but for one of which memory ran out.
pub fn log_listen(log: &mut CallLog, address: &Text, answer: ListenAnswer)
    ensures { log.new ≡ log.old ++ listen_entries address.now answer }
{
    if answer != ListenAnswer::Memory {
        log.listened(address, answer);
    }
}

/// Logs a turn, with the bytes of a read, but for one of which memory ran out.
pub fn log_turn(log: &mut CallLog, wants: &Wants, turn: Turn, buf: &[u8])
    requires whole { length buf.now ≡ PIECE_LIMIT }
    requires within { IsPieceWithin PIECE_LIMIT turn.what }
    ensures { log.new ≡ log.old ++ next_entries wants.now buf.now turn }
{
    if turn.what != What::Memory {
        log.turned(wants, turn, &buf[..count_read(turn.what)]);
    }
}

/// Logs a send, but for one of which memory ran out.
pub fn log_send(log: &mut CallLog, link: u64, bytes: &[u8], answer: SendAnswer)
    ensures { log.new ≡ log.old ++ send_entries link bytes.now answer }
{
    if answer != SendAnswer::Memory {
        log.sent(link, bytes, answer);
    }
}
