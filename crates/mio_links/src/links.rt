ghost use Rattle.std.specs.Prelude.{◌≡◌, ◌≢◌, ℕ, ◌+◌, ◌<◌, ◌≤◌, [], ◌∷◌, length, nat_lt, if◌then◌else◌, IfOk, OnErr, OnOk};
ghost use Rattle.ev_types.specs.Clock.{seconds_per_turn_limit};
ghost use Rattle.ports.specs.Calls.{AddsCalls};
ghost use Rattle.ports.specs.Links.{HasListenCause, HasNextCause, IsPieceWithin, IsWithin, listen_entries, next_entries, send_entries};
ghost use Rattle.ports.specs.declared.entry.Entry.TheVariants.{Close};
ghost use Rattle.mio_links.specs.Readings.{BeginsAt, TookReading};
ghost use Rattle.mio_links.specs.Reports.{report_of};
ghost use Rattle.mio_links.specs.Turns.{CountsOpened, IsGiven, OfLink, OpensAt};
ghost use Rattle.mio_links.specs.Sockets.{IsFullOn, IsOpenOn, IsWithinShareOn};

use crate::fault::LinksFault;
use crate::readings::Readings;
use crate::sockets::Sockets;
use ev_types::{Memory, Text};
use mio::Events;
use ports::{
    CallLog, Links, ListenAnswer, PIECE_LIMIT, SendAnswer, Turn, Wants, What, log_listen, log_send,
    log_turn,
};
use std::alloc::Global;
use std::net::Net;
use std::time::{Clock, CpuClock, Duration, SystemTime, UNIX_EPOCH};

// How many sources the system reports at once, at most.
const EVENTS_AT_ONCE: usize = 256;

// How many milliseconds a turn waits at most.
const LONGEST_WAIT: u64 = 100;

/// The links to clients over TCP, and the system's clock. Links are numbered from 0 in the order in which they open, and
/// no turn is [`What::Stopped`].
#[derive(Drop)]
pub struct MioLinks<'a, R: Net + Clock + CpuClock> {
    rt: &'a R,
    events: Events,
    /// The readings of the clock since then.
    pub readings: Readings,
    // The link of the last turn, if that was a read.
    last_read: Option<u64>,
    // For how long this thread had used a processor before that turn.
    used: Duration,
    /// The sockets of the last call of [`Links::listen`] that succeeded.
    pub sockets: Option<Sockets>,
    /// How many links opened so far.
    pub opened: u64,
    /// The number of calls of [`Links::listen`] and [`Links::next`] that failed.
    pub faults: u64,
    // The calls so far, which only proofs see.
    calls: CallLog,
}

impl<'a, R: Net + Clock + CpuClock> MioLinks<'a, R> {
    /// Links of which none is open, and that do not listen yet.
    pub fn fresh(rt: &'a R, alloc: Global) -> Result<MioLinks<'a, R>, Memory>
        ensures opened { IfOk result (λ links. links.opened ≡ 0) }
        ensures report { IfOk result (λ links.
            ⟦<MioLinks<'a, R> as Links>⟧.report links ≡ report_of [] 0) }
    {
        Ok(MioLinks {
            rt,
            events: Events::with_capacity(alloc, EVENTS_AT_ONCE)?,
            readings: Readings::first(0),
            last_read: None,
            used: Duration::ZERO,
            sockets: None,
            opened: 0,
            faults: 0,
            calls: CallLog::fresh(),
        })
    }

    /// What a call of `listen` is answered with. A fault is counted.
    fn listen_on(&mut self, alloc: Global, address: &Text) -> ListenAnswer
        ensures cause { HasListenCause self.old.faults self.new.faults result }
        ensures faults { self.old.faults ≤ self.new.faults }
        ensures opened { self.new.opened ≡ self.old.opened }
        ensures calls { self.new.calls ≡ self.old.calls }
        ensures readings { BeginsAt self.new.readings result }
        ensures no_memory { result ≢ ListenAnswer.Memory }
    {
        match Sockets::open(self.rt, alloc, address) {
            Ok(sockets) => {
                self.sockets = Some(sockets);
                self.readings = Readings::first(seconds(self.rt));
                ListenAnswer::Ready {
                    secs: self.readings.last,
                }
            }
            Err(_) => {
                self.faults = self.faults.saturating_add(1);
                ListenAnswer::Failed
            }
        }
    }

    /// Keeps what the server took for the last turn, if that was a read: the time for which it used a processor since
    /// that was asked for. So waits for a disk, which are as long for few bytes, do not count.
    fn weigh_last_read(&mut self)
        ensures opened { self.new.opened ≡ self.old.opened }
        ensures faults { self.new.faults ≡ self.old.faults }
        ensures calls { self.new.calls ≡ self.old.calls }
        ensures readings { self.new.readings ≡ self.old.readings }
    {
        let read = self.last_read.take();
        let Ok(used) = self.rt.thread_cpu_time() else {
            return;
        };
        if let (Some(link), Some(sockets)) = (read, &mut self.sockets) {
            sockets.weigh(link, used.saturating_sub(self.used));
        }
        self.used = used;
    }

    /// What happens in the next turn, or why no turn can be given. The clock is read too, and its reading is the turn's
    /// time.
    fn found(&mut self, wants: &Wants, buf: &mut [u8]) -> Result<What, LinksFault>
        requires { length buf.old ≡ PIECE_LIMIT }
        ensures within { IfOk result (IsPieceWithin PIECE_LIMIT) }
        ensures given { IfOk result IsGiven }
        ensures link { IfOk result (λ what. OfLink what (IsOpenOn self.new.sockets)) }
        ensures share { IfOk result (IsWithinShareOn self.new.sockets) }
        ensures opened { IfOk result (CountsOpened self.old.opened self.new.opened) }
        ensures err { OnErr result (self.new.opened ≡ self.old.opened) }
        ensures faults { self.new.faults ≡ self.old.faults }
        ensures calls { self.new.calls ≡ self.old.calls }
        ensures readings { OnOk result
            (TookReading self.old.readings self.new.readings self.new.readings.last) }
    {
        self.weigh_last_read();
        let Some(sockets) = &mut self.sockets else {
            return Err(LinksFault::Failed);
        };
        let Some(next_link) = self.opened.checked_add(1) else {
            return Err(LinksFault::Failed);
        };
        sockets.refill(wants, &mut self.events, longest_wait(&self.readings))?;
        self.readings.take(seconds(self.rt));
        let what = sockets.next(self.opened, self.readings.last, wants, buf)?;
        self.opened = opened_after(self.opened, next_link, what);
        self.last_read = read_link(what);
        Ok(what)
    }

    /// What happens in the next turn. A fault is counted.
    #[tactic(auto, using(crate::proofs::TurnLemmas::given_counts, crate::proofs::TurnLemmas::given_goes_on))]
    fn what(&mut self, wants: &Wants, buf: &mut [u8]) -> What
        requires { length buf.old ≡ PIECE_LIMIT }
        ensures within { IsPieceWithin PIECE_LIMIT result }
        ensures cause { HasNextCause self.old.faults self.new.faults result }
        ensures faults { self.old.faults ≤ self.new.faults }
        ensures calls { self.new.calls ≡ self.old.calls }
        ensures link { OfLink result (IsOpenOn self.new.sockets) }
        ensures share { IsWithinShareOn self.new.sockets result }
        ensures opened { CountsOpened self.old.opened self.new.opened result }
        ensures goes_on { result ≢ What.Stopped }
        ensures readings { IsGiven result →
            TookReading self.old.readings self.new.readings self.new.readings.last }
    {
        match self.found(wants, buf) {
            Ok(what) => what,
            Err(LinksFault::Failed) => {
                self.faults = self.faults.saturating_add(1);
                What::Failed
            }
            Err(LinksFault::Memory) => What::Memory,
        }
    }
}

impl<'a, R: Net + Clock + CpuClock> Links for MioLinks<'a, R> {
    ghost report = { λ links. report_of links.calls links.faults };

    #[tactic(auto, using(crate::proofs::ReportLemmas::reported))]
    fn listen(&mut self, alloc: Global, address: &Text) -> ListenAnswer
        ensures adds { AddsCalls (report_of self.old.calls self.old.faults)
            (report_of self.new.calls self.new.faults)
            (listen_entries address.now result) }
        ensures cause { HasListenCause self.old.faults self.new.faults result }

        // More than links must report: the numbers of links do not begin again, the readings of the clock do, and no
        // memory is needed.
        ensures opened { self.new.opened ≡ self.old.opened }
        ensures readings { BeginsAt self.new.readings result }
        ensures no_memory { result ≢ ListenAnswer.Memory }
    {
        let answer = self.listen_on(alloc, address);
        log_listen(&mut self.calls, address, answer);
        answer
    }

    #[tactic(auto, using(crate::proofs::ReportLemmas::reported))]
    fn next(&mut self, _alloc: Global, wants: &Wants, buf: &mut [u8]) -> Turn
        requires { length buf.old ≡ PIECE_LIMIT }
        ensures within { IsPieceWithin PIECE_LIMIT result.what }
        ensures adds { AddsCalls (report_of self.old.calls self.old.faults)
            (report_of self.new.calls self.new.faults)
            (next_entries wants.now buf.new result) }
        ensures cause { HasNextCause self.old.faults self.new.faults result.what }

        // More than links must report: the number of a link that opens, that a turn is of an open link, that a read
        // has no more bytes than are read of its link at once, and that no turn is the last.
        ensures opened { CountsOpened self.old.opened self.new.opened result.what }
        ensures link { OfLink result.what (IsOpenOn self.new.sockets) }
        ensures share { IsWithinShareOn self.new.sockets result.what }
        ensures goes_on { result.what ≢ What.Stopped }

        // The second of a turn is the reading of the clock that was taken for it.
        ensures second { result.secs ≡ self.new.readings.last }
        ensures readings { IsGiven result.what →
            TookReading self.old.readings self.new.readings result.secs }
    {
        let turn = Turn {
            what: self.what(wants, buf),
            secs: self.readings.last,
        };
        log_turn(&mut self.calls, wants, turn, buf);
        turn
    }

    #[tactic(auto, using(crate::proofs::ReportLemmas::reported))]
    fn send(&mut self, _alloc: Global, link: u64, bytes: &[u8]) -> SendAnswer
        requires { 0 < length bytes.now }
        ensures within { IsWithin (length bytes.now) result }
        ensures adds { AddsCalls (report_of self.old.calls self.old.faults)
            (report_of self.new.calls self.new.faults)
            (send_entries link bytes.now result) }
        ensures no_fault { self.new.faults ≡ self.old.faults }

        // More than links must report: it opens no link, reads no clock, and needs memory only to queue a link where
        // there is no room.
        ensures opened { self.new.opened ≡ self.old.opened }
        ensures readings { self.new.readings ≡ self.old.readings }
        ensures full { result ≡ SendAnswer.Memory → IsFullOn self.old.sockets }
    {
        let answer = match &mut self.sockets {
            Some(sockets) => sockets.send(link, bytes),
            None => SendAnswer::Failed,
        };
        log_send(&mut self.calls, link, bytes, answer);
        answer
    }

    #[tactic(auto, using(crate::proofs::ReportLemmas::reported))]
    fn close(&mut self, link: u64)
        ensures adds { AddsCalls (report_of self.old.calls self.old.faults)
            (report_of self.new.calls self.new.faults)
            (Close link ∷ []) }
        ensures no_fault { self.new.faults ≡ self.old.faults }

        // More than links must report: it is not open any more, and all others are. Its number is not given again, and
        // no clock is read.
        ensures closed { ¬ IsOpenOn self.new.sockets link }
        ensures others { (other : ℕ) → other ≢ link → IsOpenOn self.old.sockets other
            → IsOpenOn self.new.sockets other }
        ensures opened { self.new.opened ≡ self.old.opened }
        ensures readings { self.new.readings ≡ self.old.readings }
    {
        if let Some(sockets) = &mut self.sockets {
            sockets.close(link);
        }
        self.calls.closed(link);
    }
}

/// The link of the turn, if it is a read.
fn read_link(what: What) -> Option<u64> {
    match what {
        What::Read { link, .. } => Some(link),
        _ => None,
    }
}

/// How many links opened, with this turn, where `next` is one more than before it.
fn opened_after(opened: u64, next: u64, what: What) -> u64
    requires { next ≡ opened + 1 }
    ensures { OpensAt opened what → CountsOpened opened result what }
{
    match what {
        What::Opened { .. } => next,
        _ => opened,
    }
}

/// How many milliseconds the next turn waits for something to happen, at most. A server that is far from the clock is
/// not kept waiting.
fn longest_wait(readings: &Readings) -> u64
    ensures { result ≡ (if nat_lt (readings.now.reached + seconds_per_turn_limit)
        readings.now.last then 0 else 100) }
{
    if readings.are_ahead() {
        0
    } else {
        LONGEST_WAIT
    }
}

/// The reading of the system's clock, in seconds since 1970. A clock before 1970 reads 0.
pub(crate) fn seconds<R: Clock>(rt: &R) -> u64 {
    let Ok(now) = SystemTime::now(rt) else {
        return 0;
    };
    match now.duration_since(UNIX_EPOCH) {
        Ok(since_1970) => since_1970.as_secs(),
        Err(_) => 0,
    }
}
