ghost use Rattle.std.specs.Prelude.{◌≡◌, ◌≢◌, ◌<◌, ◌≤◌, [], ◌∷◌, length, IfErr, IfOk};
ghost use Rattle.ports.specs.Calls.{AddsCalls};
ghost use Rattle.ports.specs.Links.{HasListenCause, HasNextCause, IsPieceWithin, IsWithin, listen_entries, next_entries, send_entries};
ghost use Rattle.ports.specs.declared.entry.Entry.TheVariants.{Close};
ghost use Rattle.mio_links.specs.Reports.{report_of};
ghost use Rattle.mio_links.specs.Turns.{IsGiven, OfLink};

use crate::dial::Dial;
use crate::fault::LinksFault;
use crate::links::seconds;
use ev_types::{Memory, Text};
use mio::Events;
use ports::{
    CallLog, Links, ListenAnswer, PIECE_LIMIT, SendAnswer, Turn, Wants, What, log_listen, log_send,
    log_turn,
};
use std::alloc::Global;
use std::net::Net;
use std::time::Clock;

// How many events the system reports at once, at most.
const EVENTS_AT_ONCE: usize = 16;

/// The link of a client to a server over TCP, and the system's clock. `listen` begins to connect to the address. Once it
/// is connected, a turn is that link 0 opened. No turn is [`What::Stopped`]. If no address of a host can be connected to,
/// a call of `listen` or `next` fails.
#[derive(Drop)]
pub struct DialLinks<'a, R: Net + Clock> {
    rt: &'a R,
    events: Events,
    // The connection of the last call of `listen` that succeeded.
    dial: Option<Dial>,
    /// The number of calls of [`Links::listen`] and [`Links::next`] that failed.
    pub faults: u64,
    // The calls so far, which only proofs see.
    calls: CallLog,
}

impl<'a, R: Net + Clock> DialLinks<'a, R> {
    /// A link that is not connected yet.
    pub fn fresh(rt: &'a R, alloc: Global) -> Result<DialLinks<'a, R>, Memory>
        ensures { IfOk result (λ links.
            ⟦<DialLinks<'a, R> as Links>⟧.report links ≡ report_of [] 0) }
    {
        Ok(DialLinks {
            rt,
            events: Events::with_capacity(alloc, EVENTS_AT_ONCE)?,
            dial: None,
            faults: 0,
            calls: CallLog::fresh(),
        })
    }

    /// What a call of `listen` is answered with. A fault is counted.
    fn listen_on(&mut self, alloc: Global, address: &Text) -> ListenAnswer
        ensures cause { HasListenCause self.old.faults self.new.faults result }
        ensures faults { self.old.faults ≤ self.new.faults }
        ensures calls { self.new.calls ≡ self.old.calls }
    {
        match Dial::begin(self.rt, alloc, address) {
            Ok(dial) => {
                self.dial = Some(dial);
                ListenAnswer::Ready {
                    secs: seconds(self.rt),
                }
            }
            Err(LinksFault::Failed) => {
                self.faults = self.faults.saturating_add(1);
                ListenAnswer::Failed
            }
            Err(LinksFault::Memory) => ListenAnswer::Memory,
        }
    }

    /// The next turn but for its time, or why none can be given.
    fn found(&mut self, wants: &Wants, buf: &mut [u8]) -> Result<What, LinksFault>
        requires { length buf.old ≡ PIECE_LIMIT }
        ensures within { IfOk result (IsPieceWithin PIECE_LIMIT) }
        ensures given { IfOk result IsGiven }
        ensures link { IfOk result (λ what. OfLink what (λ link. link ≡ 0)) }
        ensures no_memory { IfErr result (λ fault. fault ≡ LinksFault.Failed) }
        ensures faults { self.new.faults ≡ self.old.faults }
        ensures calls { self.new.calls ≡ self.old.calls }
    {
        let Some(dial) = &mut self.dial else {
            return Err(LinksFault::Failed);
        };
        let what = dial.next(self.rt, &mut self.events, wants, buf)?;
        Ok(what)
    }

    /// The next turn but for its time. A fault is counted.
    #[tactic(auto, using(crate::proofs::TurnLemmas::given_counts, crate::proofs::TurnLemmas::given_goes_on, crate::proofs::TurnLemmas::given_is_no_memory))]
    fn what(&mut self, wants: &Wants, buf: &mut [u8]) -> What
        requires { length buf.old ≡ PIECE_LIMIT }
        ensures within { IsPieceWithin PIECE_LIMIT result }
        ensures cause { HasNextCause self.old.faults self.new.faults result }
        ensures faults { self.old.faults ≤ self.new.faults }
        ensures calls { self.new.calls ≡ self.old.calls }
        ensures link { OfLink result (λ link. link ≡ 0) }
        ensures goes_on { result ≢ What.Stopped }
        ensures no_memory { result ≢ What.Memory }
    {
        match self.found(wants, buf) {
            Ok(what) => what,
            Err(_) => {
                self.faults = self.faults.saturating_add(1);
                What::Failed
            }
        }
    }
}

impl<'a, R: Net + Clock> Links for DialLinks<'a, R> {
    ghost report = { λ links. report_of links.calls links.faults };

    #[tactic(auto, using(crate::proofs::ReportLemmas::reported))]
    fn listen(&mut self, alloc: Global, address: &Text) -> ListenAnswer
        ensures adds { AddsCalls (report_of self.old.calls self.old.faults)
            (report_of self.new.calls self.new.faults)
            (listen_entries address.now result) }
        ensures cause { HasListenCause self.old.faults self.new.faults result }
    {
        let answer = self.listen_on(alloc, address);
        log_listen(&mut self.calls, address, answer);
        answer
    }

    #[tactic(auto, using(crate::proofs::ReportLemmas::reported))]
    fn next(&mut self, _alloc: Global, wants: &Wants, buf: &mut [u8]) -> Turn
        requires { length buf.old ≡ PIECE_LIMIT }
        ensures within { IsPieceWithin PIECE_LIMIT result.what }
        ensures adds { AddsCalls (report_of self.old.calls self.old.faults)
            (report_of self.new.calls self.new.faults)
            (next_entries wants.now buf.new result) }
        ensures cause { HasNextCause self.old.faults self.new.faults result.what }

        // More than links must report: there is one link, no turn is the last, and none needs memory.
        ensures link { OfLink result.what (λ link. link ≡ 0) }
        ensures goes_on { result.what ≢ What.Stopped }
        ensures no_memory { result.what ≢ What.Memory }
    {
        let turn = Turn {
            what: self.what(wants, buf),
            secs: seconds(self.rt),
        };
        log_turn(&mut self.calls, wants, turn, buf);
        turn
    }

    #[tactic(auto, using(crate::proofs::ReportLemmas::reported))]
    fn send(&mut self, _alloc: Global, link: u64, bytes: &[u8]) -> SendAnswer
        requires { 0 < length bytes.now }
        ensures within { IsWithin (length bytes.now) result }
        ensures adds { AddsCalls (report_of self.old.calls self.old.faults)
            (report_of self.new.calls self.new.faults)
            (send_entries link bytes.now result) }
        ensures no_fault { self.new.faults ≡ self.old.faults }

        // More than links must report: it needs no memory.
        ensures no_memory { result ≢ SendAnswer.Memory }
    {
        let answer = match &mut self.dial {
            Some(dial) => dial.send(link, bytes),
            None => SendAnswer::Failed,
        };
        log_send(&mut self.calls, link, bytes, answer);
        answer
    }

    #[tactic(auto, using(crate::proofs::ReportLemmas::reported))]
    fn close(&mut self, link: u64)
        ensures adds { AddsCalls (report_of self.old.calls self.old.faults)
            (report_of self.new.calls self.new.faults)
            (Close link ∷ []) }
        ensures no_fault { self.new.faults ≡ self.old.faults }
    {
        if let Some(dial) = &mut self.dial {
            dial.close(link);
        }
        self.calls.closed(link);
    }
}
