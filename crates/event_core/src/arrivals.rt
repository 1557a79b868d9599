ghost use Rattle.std.specs.Prelude.{◌≡◌, ◌+◌, ◌-◌, ◌^◌, ◌≤◌, false, List, [], ◌∷◌, ◌++◌, length, replicate, IfOk, IsErr, IsTrue, OnErr, OnOk};
ghost use Rattle.ev_types.specs.Clock.{seconds_per_turn_limit};
ghost use Rattle.ev_types.specs.Interval.{IsInterval};
ghost use Rattle.list_laws.specs.Prefix.{IsPrefix};
ghost use Rattle.index_log.specs.Live.{live_events};
ghost use Rattle.stream_meaning.specs.Arrivals.{Arrival, Elapsed, Post, matching_events};
ghost use Rattle.live_index.specs.Index.{reply_len, visited, Represents as IsIndexOf};
ghost use Rattle.pred_eval.specs.Tree.{Always};
ghost use Rattle.event_core.specs.Core.{config_of, now_of, is_poisoned, state_by, Represents, Receives};

use crate::clock::Clock;
use crate::streams::IndexedStreams;
use ev_types::{Event, Expiry, Memory, Notices};
use live_index::PackedIndex;
use packed_event::PackedRef;
use pred_eval::Pred;
use std::alloc::Global;
use step_count::{Ledger, Steps};
use stream_plan::ReadyPlan;

/// The streams of a plan, the index that they write to, and a clock of seconds. Every `interval` seconds the events
/// that have expired are removed from the index, and a copy of each comes to the streams. After `Memory` of a call that
/// may change it a core is poisoned, and each later call that can answer `Memory` does.
#[derive(Drop)]
pub struct Core {
    streams: IndexedStreams,
    clock: Clock,
    poisoned: bool,
}

impl Core {
    /// A core to which nothing has arrived, at the moment `start`, in seconds since 1970, at most 2^40. The seconds
    /// from one look for expired events to the next are from 1 to 604,800; without an expiry none is looked for.
    pub fn fresh(
        alloc: Global,
        plan: ReadyPlan,
        expiry: Option<Expiry>,
        start: u64,
    ) -> Result<Core, Memory>
        requires moment { start ≤ 2 ^ 40 }
        requires interval { IsInterval expiry }
        ensures config { IfOk result (λ core.
            config_of core ≡ record { plan = plan; expiry = expiry; start = start }) }
        ensures represents { IfOk result (λ core. Represents core []) }
        ensures now { IfOk result (λ core. now_of core ≡ start) }
    {
        Ok(Core {
            streams: IndexedStreams::fresh(alloc, plan, start)?,
            clock: Clock {
                expiry,
                start,
                moment: start,
            },
            poisoned: false,
        })
    }

    /// The moment of the last second that has passed, in seconds since 1970, at most 2^40.
    pub fn now(&self) -> u64
        ensures value { result ≡ now_of self.now }
        ensures bound { result ≤ 2 ^ 40 }
    {
        self.clock.moment
    }

    /// How many events are live.
    pub fn live(&self) -> usize
        ensures { (arrivals : List Arrival) → Represents self.now arrivals
            → result ≡ length (live_events (state_by (config_of self.now) arrivals).log) }
    {
        self.streams.live()
    }

    /// Seconds pass, one after another, until it is the moment `to`, at most 3,600 seconds from now and at most 2^40.
    /// At each of them the streams get a tick; then, where it is time to look, the live events that have expired leave
    /// the index, and come to the streams again, in the order of the index. The notices that the streams give are
    /// appended to `out`. After `Memory` `out` begins with what it had.
    pub fn advance<G: Ledger>(
        &mut self,
        alloc: Global,
        to: u64,
        out: &mut Notices,
        steps: &mut Steps<G>,
    ) -> Result<(), Memory>
        requires from { now_of self.old ≤ to }
        requires hour { to ≤ now_of self.old + seconds_per_turn_limit }
        requires bound { to ≤ 2 ^ 40 }
        ensures now { OnOk result (now_of self.new ≡ to) }
        ensures receives { Receives (replicate (to - now_of self.old) Elapsed) self.old self.new
            out.old out.new steps.old steps.new result }
    {
        if self.poisoned {
            return Err(Memory);
        }
        self.poisoned = true;
        self.streams.pass(alloc, &self.clock, to, out, steps)?;
        self.clock.moment = to;
        self.poisoned = false;
        Ok(())
    }

    /// An event comes to the streams. It is moved out of `event`, and what is left there is not specified. The notices
    /// that the streams give are appended to `out`. After `Memory` `out` begins with what it had.
    pub fn post_from<G: Ledger>(
        &mut self,
        alloc: Global,
        event: &mut Event,
        out: &mut Notices,
        steps: &mut Steps<G>,
    ) -> Result<(), Memory>
        ensures now { now_of self.new ≡ now_of self.old }
        ensures receives { Receives (Post event.old ∷ []) self.old self.new
            out.old out.new steps.old steps.new result }
    {
        if self.poisoned {
            return Err(Memory);
        }
        self.poisoned = true;
        self.streams
            .item(alloc, event, self.clock.moment, out, steps)?;
        self.poisoned = false;
        Ok(())
    }

    /// Posts an event whose bytes lie elsewhere. If the streams need the event itself, it is unpacked into `spare`, and
    /// what is left there is not specified. The notices that the streams give are appended to `out`. After `Memory`
    /// `out` begins with what it had.
    #[inline]
    pub fn post_packed<G: Ledger>(
        &mut self,
        alloc: Global,
        event: &PackedRef<'_>,
        spare: &mut Event,
        out: &mut Notices,
        steps: &mut Steps<G>,
    ) -> Result<(), Memory>
        ensures now { now_of self.new ≡ now_of self.old }
        ensures receives { Receives (Post event.now ∷ []) self.old self.new
            out.old out.new steps.old steps.new result }
    {
        if self.poisoned {
            return Err(Memory);
        }
        self.poisoned = true;
        self.streams
            .packed_item(alloc, event, spare, self.clock.moment, out, steps)?;
        self.poisoned = false;
        Ok(())
    }

    /// The index, in which the live events are found where they lie. There is none after `Memory` of a call that may
    /// change the core.
    pub fn index(&self) -> Result<&PackedIndex, Memory>
        ensures log { IfOk result (λ index. (arrivals : List Arrival) → Represents self.now arrivals
            → IsIndexOf index.now (state_by (config_of self.now) arrivals).log) }
        ensures poisoned { IsTrue (is_poisoned self.now) → IsErr result }
    {
        if self.poisoned {
            return Err(Memory);
        }
        Ok(self.streams.index())
    }

    /// Lists the keys of the index in order, where a search for the predicate has to look at all of them. The list is
    /// kept until a key is added or removed; without it each search walks the keys. The core stays as it is.
    pub fn prepare(&mut self, alloc: Global, pred: &Pred) -> Result<(), Memory>
        ensures same { self.new ≡ self.old }
        ensures poisoned { IsTrue (is_poisoned self.old) → IsErr result }
    {
        if self.poisoned {
            return Err(Memory);
        }
        self.streams.prepare(alloc, pred)
    }

    /// How many bytes a reply has with the live events that meet the predicate, those that the index lends. What
    /// is learned of an event is kept until another one takes its place. After `Memory` the core is as it was; that is
    /// also answered where the bytes are 2^64 or more, which is more than a `usize` can count.
    pub fn found_len<G: Ledger>(
        &mut self,
        alloc: Global,
        pred: &mut Pred,
        steps: &mut Steps<G>,
    ) -> Result<usize, Memory>
        ensures same { self.new ≡ self.old }
        ensures pred { pred.new ≡ pred.old }
        ensures found { IfOk result (λ len. (arrivals : List Arrival) → Represents self.old arrivals
            → len ≡ reply_len (matching_events pred.old
            (state_by (config_of self.old) arrivals).log)) }
        ensures forks { steps.new.forks ≡ steps.old.forks }
        ensures began { steps.new.began ≡ steps.old.began }
        ensures entries { (arrivals : List Arrival) → Represents self.old arrivals
            → steps.new.entries ≤ steps.old.entries + length (visited pred.old
            (live_events (state_by (config_of self.old) arrivals).log)) }
        ensures at_least { steps.old.entries ≤ steps.new.entries }
        ensures poisoned { IsTrue (is_poisoned self.old) → IsErr result }
    {
        if self.poisoned {
            return Err(Memory);
        }
        self.streams.found_len(alloc, pred, steps)
    }

    /// What [`Core::found_len`] gives for the predicate that every event meets. It counts no more entries.
    pub fn all_len<G: Ledger>(
        &mut self,
        alloc: Global,
        pred: &mut Pred,
        steps: &mut Steps<G>,
    ) -> Result<usize, Memory>
        requires { pred.old ≡ Always }
        ensures same { self.new ≡ self.old }
        ensures pred { pred.new ≡ pred.old }
        ensures found { IfOk result (λ len. (arrivals : List Arrival) → Represents self.old arrivals
            → len ≡ reply_len (matching_events pred.old
            (state_by (config_of self.old) arrivals).log)) }
        ensures forks { steps.new.forks ≡ steps.old.forks }
        ensures began { steps.new.began ≡ steps.old.began }
        ensures entries { (arrivals : List Arrival) → Represents self.old arrivals
            → steps.new.entries ≤ steps.old.entries + length (visited pred.old
            (live_events (state_by (config_of self.old) arrivals).log)) }
        ensures at_least { steps.old.entries ≤ steps.new.entries }
        ensures poisoned { IsTrue (is_poisoned self.old) → IsErr result }
    {
        if self.poisoned {
            return Err(Memory);
        }
        self.streams.all_len(alloc, pred, steps)
    }
}
