ghost use Rattle.std.specs.Prelude.{◌≡◌, ◌≢◌, length, IfSome};
ghost use Rattle.std.specs.Io.KnownBytes.{Consumes, Keeps};
ghost use Rattle.ports.specs.Links.{IsPieceWithin, IsWithin};
ghost use Rattle.mio_links.specs.Turns.{IsGiven, IsOn};
ghost use Rattle.mio_links.specs.Streams.{EndsAtEnd, Took, piece_found};

use crate::share::Share;
use mio::event::Event;
use ports::{PIECE_LIMIT, SendAnswer, Want, What};
use std::io::{ErrorKind, Read, Write};

/// One client's connection over a stream, and what the system has reported of it. Readiness is reported once, when it
/// changes, so it is kept until a call finds that it has ended.
#[derive(Drop)]
pub(crate) struct Client<S: Read + Write> {
    stream: S,
    // A read may find bytes or the end.
    readable: bool,
    // The end of the bytes, or an error, was reported: the reads go on until they find it.
    ending: bool,
    // An error was reported.
    failed: bool,
    // The last send found no room.
    blocked: bool,
    // There may be room since then.
    roomy: bool,
    // Urgent data was reported. A read stops where it was, and leaves the bytes after it.
    urgent: bool,
    /// The reading of the clock at its last turn.
    pub heard: u64,
    /// How much of it is read at once.
    pub share: Share,
    /// Where it waits for its next turn.
    pub waiting: Waiting,
}

/// Where a client waits for its next turn.
#[derive(Clone, Copy, PartialEq, Eq)]
pub(crate) enum Waiting {
    /// In none of these: it waits for a report of the system, or for a send that has to be tried again.
    Nowhere,
    /// In the queue.
    Queued,
    /// Among those whose last read was dear, for the end of a round.
    PutOff,
    /// Among those of which the server wants to hear nothing for now.
    HeldBack,
}

impl<S: Read + Write> Client<S> {
    /// A client of which nothing was reported yet, and which was accepted at this reading of the clock. So much of it is
    /// read at first.
    pub(crate) fn fresh(stream: S, secs: u64, share: Share) -> Client<S>
        ensures stream { result.stream ≡ stream }
        ensures share { result.share ≡ share }
    {
        Client {
            stream,
            readable: false,
            ending: false,
            failed: false,
            blocked: false,
            roomy: false,
            urgent: false,
            heard: secs,
            share,
            waiting: Waiting::Nowhere,
        }
    }

    /// Keeps what the system reports.
    pub(crate) fn note(&mut self, event: &Event)
        ensures { self.new.stream ≡ self.old.stream }
    {
        if event.is_error() {
            self.failed = true;
        }
        if event.is_read_closed() || event.is_error() {
            self.ending = true;
        }
        if event.is_priority() {
            self.urgent = true;
        }
        if event.is_readable() || self.ending {
            self.readable = true;
        }
        if event.is_writable() || event.is_write_closed() {
            self.roomy = true;
        }
    }

    /// Where it has to wait, by what the server waits for.
    pub(crate) fn next_waiting(&self, want: &Want) -> Waiting {
        if self.has_room() && want.room || self.readable && want.read || self.failed {
            Waiting::Queued
        } else if self.has_room() || self.readable {
            Waiting::HeldBack
        } else {
            Waiting::Nowhere
        }
    }

    /// Whether a send found no room, and there may be some since then.
    pub(crate) fn has_room(&self) -> bool {
        self.blocked && self.roomy
    }

    /// What happened on the link with this number, if it is something that the server waits for. Bytes are read
    /// straight into `buf`.
    #[tactic(auto, using(crate::proofs::StreamLemmas::kept_nothing, crate::proofs::StreamLemmas::took_nothing))]
    pub(crate) fn turn(&mut self, link: u64, want: &Want, buf: &mut [u8]) -> Option<What>
        requires { length buf.old ≡ PIECE_LIMIT }
        ensures within { IfSome result (IsPieceWithin PIECE_LIMIT) }
        ensures share { IfSome result (IsPieceWithin self.new.share.bytes) }
        ensures same_share { self.new.share ≡ self.old.share }
        ensures given { IfSome result IsGiven }
        ensures link { IfSome result (IsOn link) }

        // The bytes of a read are the next ones of the stream, and no other turn takes any.
        ensures bytes { Consumes (S.remaining self.old.stream) (S.remaining self.new.stream)
            (piece_found result buf.new) }
        ensures end { IfSome result (EndsAtEnd (S.remaining self.new.stream)) }
    {
        if self.has_room() && want.room {
            self.blocked = false;
            return Some(What::Room { link });
        }
        if self.readable && want.read {
            return self.read(link, buf);
        }
        if self.failed {
            return Some(self.break_off(link));
        }
        None
    }

    /// Reads once.
    #[tactic(auto, using(crate::proofs::StreamLemmas::kept_nothing, crate::proofs::StreamLemmas::took_nothing))]
    fn read(&mut self, link: u64, buf: &mut [u8]) -> Option<What>
        requires { length buf.old ≡ PIECE_LIMIT }
        ensures within { IfSome result (IsPieceWithin PIECE_LIMIT) }
        ensures share { IfSome result (IsPieceWithin self.new.share.bytes) }
        ensures same_share { self.new.share ≡ self.old.share }
        ensures given { IfSome result IsGiven }
        ensures link { IfSome result (IsOn link) }
        ensures bytes { Consumes (S.remaining self.old.stream) (S.remaining self.new.stream)
            (piece_found result buf.new) }
        ensures end { IfSome result (EndsAtEnd (S.remaining self.new.stream)) }
    {
        match self.stream.read(&mut buf[..self.share.bytes]) {
            Ok(0) => {
                self.readable = false;
                Some(What::Ended { link })
            }
            Ok(count) => {
                // A short read has emptied the socket, but for one that stopped at urgent data. What comes later is
                // reported anew.
                self.readable = count == self.share.bytes || self.ending || self.urgent;
                Some(What::Read { link, count })
            }
            Err(error) => match error.kind() {
                ErrorKind::WouldBlock => {
                    self.readable = false;
                    None
                }
                ErrorKind::Interrupted => None,
                _ => Some(self.break_off(link)),
            },
        }
    }

    /// The link broke. It has no further turn unless the system reports something of it.
    fn break_off(&mut self, link: u64) -> What
        ensures what { result ≡ What.Broken link }
        ensures stream { self.new.stream ≡ self.old.stream }
        ensures same_share { self.new.share ≡ self.old.share }
    {
        self.readable = false;
        self.failed = false;
        self.blocked = false;
        What::Broken { link }
    }

    /// Offers the bytes to the system.
    #[tactic(auto, using(crate::proofs::StreamLemmas::kept_nothing, crate::proofs::StreamLemmas::took_nothing))]
    pub(crate) fn send(&mut self, bytes: &[u8]) -> SendAnswer
        ensures within { IsWithin (length bytes.now) result }
        ensures no_memory { result ≢ SendAnswer.Memory }

        // What was taken is what the stream got.
        ensures bytes { Took (S.contents self.old.stream) (S.contents self.new.stream)
            bytes.now result }
    {
        match self.stream.write(bytes) {
            Ok(0) => self.wait(true),
            Ok(count) => {
                self.blocked = false;
                SendAnswer::Took { count }
            }
            Err(error) => match error.kind() {
                ErrorKind::WouldBlock => self.wait(false),
                ErrorKind::Interrupted => self.wait(true),
                _ => SendAnswer::Failed,
            },
        }
    }

    /// Nothing was taken. Where there may be room all the same, the system does not report it again.
    fn wait(&mut self, roomy: bool) -> SendAnswer
        ensures answer { result ≡ SendAnswer.Later }
        ensures stream { self.new.stream ≡ self.old.stream }
    {
        self.blocked = true;
        self.roomy = roomy;
        SendAnswer::Later
    }
}
