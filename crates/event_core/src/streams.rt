ghost use Rattle.std.specs.Prelude.{◌≡◌, ◌==◌, ◌+◌, ◌-◌, ◌%◌, ◌^◌, ◌<◌, ◌≤◌, [], ◌++◌, map, replicate, length, IfOk, OnErr, OnOk};
ghost use Rattle.list_laws.specs.Prefix.{IsPrefix};
ghost use Rattle.ev_types.specs.declared.item.Item.TheVariants.{One};
ghost use Rattle.ev_types.specs.Rebirth.{expired_copy};
ghost use Rattle.stream_meaning.specs.History.{since, begun, moment_of};
ghost use Rattle.stream_meaning.specs.declared.entry.Entry.TheVariants.{Tick, Item as In};
ghost use Rattle.stream_meaning.specs.Arrivals.{CoreState, Elapsed, entered, streamed, fed_back, swept, arrived, state_from, matching_events};
ghost use Rattle.index_log.specs.Live.{live_events};
ghost use Rattle.live_index.specs.Index.{reply_len, visited, Represents as IsIndexOf};
ghost use Rattle.pred_eval.specs.Tree.{Always};
ghost use Rattle.event_core.specs.Streams.{plan_of, Holds, Moved, Visited};

use crate::clock::Clock;
use crate::outputs::handle;
use ev_types::{Event, Events, KeepKeys, Memory, Notices, Outputs};
use live_index::PackedIndex;
use packed_event::PackedRef;
use pred_eval::Pred;
use std::alloc::Global;
use step_count::{Ledger, Steps};
use stream_plan::ReadyPlan;
use stream_tree::{Tree, Unseen};

/// Streams, and the index that they write to. After `Memory` nothing is known of them.
#[derive(Drop)]
pub(crate) struct IndexedStreams {
    tree: Tree,
    index: PackedIndex,
    // The outputs of the tree. They are handled at once, so only the list's memory is kept from one call to the next.
    outputs: Outputs,
}

impl IndexedStreams {
    /// The streams of a plan, to which nothing has come, and an index in which nothing was written.
    pub(crate) fn fresh(
        alloc: Global,
        plan: ReadyPlan,
        start: u64,
    ) -> Result<IndexedStreams, Memory>
        requires { start ≤ 2 ^ 40 }
        ensures plan { IfOk result (λ streams. plan_of streams ≡ plan) }
        ensures holds { IfOk result (λ streams.
            Holds streams (record { history = since start; log = [] })) }
    {
        Ok(IndexedStreams {
            tree: Tree::fresh(alloc, plan, start)?,
            index: PackedIndex::fresh(alloc),
            outputs: Outputs::fresh(alloc),
        })
    }

    /// An event comes to the streams at the moment `now`, the one they are at. It is moved out of `event`, and what is
    /// left there is not specified.
    pub(crate) fn item<G: Ledger>(
        &mut self,
        alloc: Global,
        event: &mut Event,
        now: u64,
        out: &mut Notices,
        steps: &mut Steps<G>,
    ) -> Result<(), Memory>
        requires { now ≤ 2 ^ 40 }
        ensures plan { plan_of self.new ≡ plan_of self.old }
        ensures moved { OnOk result ((state : CoreState) → Holds self.old state →
            moment_of state.history ≡ now
            → Moved (plan_of self.old) self.new state
            (entered (plan_of self.old) (In (One event.old)) state)
            out.old steps.old.forks out.new steps.new.forks) }
        ensures visited { (state : CoreState) → Holds self.old state →
            moment_of state.history ≡ now
            → Visited (plan_of self.old) state
            (entered (plan_of self.old) (In (One event.old)) state)
            steps.old.entries steps.new.entries }
        ensures began { (state : CoreState) → Holds self.old state →
            moment_of state.history ≡ now → steps.new.began ≡ steps.old.began }
        ensures prefix { IsPrefix out.old out.new }
    {
        let is_write_due = self
            .tree
            .offer(alloc, event, now, &mut self.outputs, steps)?;
        handle(alloc, &mut self.outputs, &mut self.index, out)?;
        if !is_write_due {
            return Ok(());
        }
        self.index.put(alloc, event)?;
        Ok(())
    }

    /// An event whose bytes lie elsewhere comes to the streams at the moment `now`, the one they are at. It is unpacked
    /// into `spare` if its fields do not say what the streams do with it. What is left in `spare` is not specified.
    #[inline]
    pub(crate) fn packed_item<G: Ledger>(
        &mut self,
        alloc: Global,
        event: &PackedRef<'_>,
        spare: &mut Event,
        now: u64,
        out: &mut Notices,
        steps: &mut Steps<G>,
    ) -> Result<(), Memory>
        requires { now ≤ 2 ^ 40 }
        ensures plan { plan_of self.new ≡ plan_of self.old }
        ensures moved { OnOk result ((state : CoreState) → Holds self.old state →
            moment_of state.history ≡ now
            → Moved (plan_of self.old) self.new state
            (entered (plan_of self.old) (In (One event.now)) state)
            out.old steps.old.forks out.new steps.new.forks) }
        ensures visited { (state : CoreState) → Holds self.old state →
            moment_of state.history ≡ now
            → Visited (plan_of self.old) state
            (entered (plan_of self.old) (In (One event.now)) state)
            steps.old.entries steps.new.entries }
        ensures began { (state : CoreState) → Holds self.old state →
            moment_of state.history ≡ now → steps.new.began ≡ steps.old.began }
        ensures prefix { IsPrefix out.old out.new }
    {
        match self.tree.offer_fields(alloc, event)? {
            Unseen::Nothing => Ok(()),
            Unseen::Write => {
                self.index.put_packed(alloc, event)?;
                Ok(())
            }
            Unseen::Needed => {
                self.seen_item(alloc, event, spare, now, out, steps)?;
                Ok(())
            }
        }
    }

    /// An event whose bytes lie elsewhere is unpacked into `spare`, and comes to the streams from there. An `index` that
    /// is last at the top gets its bytes.
    fn seen_item<G: Ledger>(
        &mut self,
        alloc: Global,
        event: &PackedRef<'_>,
        spare: &mut Event,
        now: u64,
        out: &mut Notices,
        steps: &mut Steps<G>,
    ) -> Result<(), Memory>
        requires { now ≤ 2 ^ 40 }
        ensures plan { plan_of self.new ≡ plan_of self.old }
        ensures moved { OnOk result ((state : CoreState) → Holds self.old state →
            moment_of state.history ≡ now
            → Moved (plan_of self.old) self.new state
            (entered (plan_of self.old) (In (One event.now)) state)
            out.old steps.old.forks out.new steps.new.forks) }
        ensures visited { (state : CoreState) → Holds self.old state →
            moment_of state.history ≡ now
            → Visited (plan_of self.old) state
            (entered (plan_of self.old) (In (One event.now)) state)
            steps.old.entries steps.new.entries }
        ensures began { (state : CoreState) → Holds self.old state →
            moment_of state.history ≡ now → steps.new.began ≡ steps.old.began }
        ensures prefix { IsPrefix out.old out.new }
    {
        event.unpack_into(alloc, spare)?;
        let is_write_due = self
            .tree
            .offer(alloc, spare, now, &mut self.outputs, steps)?;
        handle(alloc, &mut self.outputs, &mut self.index, out)?;
        if !is_write_due {
            return Ok(());
        }
        self.index.put_packed(alloc, event)?;
        Ok(())
    }

    /// A second has passed for the streams, and it is the moment `now`.
    fn tick<G: Ledger>(
        &mut self,
        alloc: Global,
        now: u64,
        out: &mut Notices,
        steps: &mut Steps<G>,
    ) -> Result<(), Memory>
        requires { now ≤ 2 ^ 40 }
        ensures plan { plan_of self.new ≡ plan_of self.old }
        ensures moved { OnOk result ((state : CoreState) → Holds self.old state →
            moment_of state.history + 1 ≡ now
            → Moved (plan_of self.old) self.new state (entered (plan_of self.old) Tick state)
            out.old steps.old.forks out.new steps.new.forks) }
        ensures visited { (state : CoreState) → Holds self.old state →
            moment_of state.history + 1 ≡ now
            → Visited (plan_of self.old) state (entered (plan_of self.old) Tick state)
            steps.old.entries steps.new.entries }
        ensures began { (state : CoreState) → Holds self.old state →
            moment_of state.history + 1 ≡ now → steps.new.began ≡ steps.old.began }
        ensures prefix { IsPrefix out.old out.new }
    {
        self.tree.tick(alloc, now, &mut self.outputs, steps)?;
        handle(alloc, &mut self.outputs, &mut self.index, out)?;
        Ok(())
    }

    /// Expired events come to the streams again, one after another.
    fn stream_again<G: Ledger>(
        &mut self,
        alloc: Global,
        expired: Events,
        keep: &KeepKeys,
        now: u64,
        out: &mut Notices,
        steps: &mut Steps<G>,
    ) -> Result<(), Memory>
        requires { now ≤ 2 ^ 40 }
        ensures plan { plan_of self.new ≡ plan_of self.old }
        ensures moved { OnOk result ((state : CoreState) → Holds self.old state →
            moment_of state.history ≡ now
            → Moved (plan_of self.old) self.new state
            (streamed (plan_of self.old) (map (λ event. expired_copy keep.now event now) expired)
            state)
            out.old steps.old.forks out.new steps.new.forks) }
        ensures visited { (state : CoreState) → Holds self.old state →
            moment_of state.history ≡ now
            → Visited (plan_of self.old) state
            (streamed (plan_of self.old) (map (λ event. expired_copy keep.now event now) expired)
            state)
            steps.old.entries steps.new.entries }
        ensures began { (state : CoreState) → Holds self.old state →
            moment_of state.history ≡ now → steps.new.began ≡ steps.old.began }
        ensures prefix { IsPrefix out.old out.new }
    {
        for event in expired.into_vec() {
            let mut copy = event.reborn(alloc, keep, now)?;
            self.item(alloc, &mut copy, now, out, steps)?;
        }
        Ok(())
    }

    /// The live events that have expired leave the index, and then come again. Which ones these are is known before the
    /// first of them comes.
    fn reap<G: Ledger>(
        &mut self,
        alloc: Global,
        keep: &KeepKeys,
        now: u64,
        out: &mut Notices,
        steps: &mut Steps<G>,
    ) -> Result<(), Memory>
        requires { now ≤ 2 ^ 40 }
        ensures plan { plan_of self.new ≡ plan_of self.old }
        ensures moved { OnOk result ((state : CoreState) → Holds self.old state →
            moment_of state.history ≡ now
            → Moved (plan_of self.old) self.new state (fed_back (plan_of self.old) keep.now state)
            out.old steps.old.forks out.new steps.new.forks) }
        ensures visited { (state : CoreState) → Holds self.old state →
            moment_of state.history ≡ now
            → Visited (plan_of self.old) state (fed_back (plan_of self.old) keep.now state)
            steps.old.entries steps.new.entries }
        ensures began { (state : CoreState) → Holds self.old state →
            moment_of state.history ≡ now → steps.new.began ≡ steps.old.began }
        ensures prefix { IsPrefix out.old out.new }
    {
        let mut expired = Events::fresh(alloc);
        self.index.reap(alloc, now, &mut expired, steps)?;
        self.stream_again(alloc, expired, keep, now, out, steps)?;
        Ok(())
    }

    /// Looks for expired events where the clock says so at the moment `now`: every `interval` seconds from its start
    /// on.
    fn sweep<G: Ledger>(
        &mut self,
        alloc: Global,
        clock: &Clock,
        now: u64,
        out: &mut Notices,
        steps: &mut Steps<G>,
    ) -> Result<(), Memory>
        requires { now ≤ 2 ^ 40 }
        ensures plan { plan_of self.new ≡ plan_of self.old }
        ensures moved { OnOk result ((state : CoreState) → Holds self.old state →
            moment_of state.history ≡ now
            → begun state.history ≡ clock.now.start
            → Moved (plan_of self.old) self.new state
            (swept (plan_of self.old) clock.now.expiry state)
            out.old steps.old.forks out.new steps.new.forks) }
        ensures visited { (state : CoreState) → Holds self.old state →
            moment_of state.history ≡ now
            → begun state.history ≡ clock.now.start
            → Visited (plan_of self.old) state (swept (plan_of self.old) clock.now.expiry state)
            steps.old.entries steps.new.entries }
        ensures began { (state : CoreState) → Holds self.old state →
            moment_of state.history ≡ now → steps.new.began ≡ steps.old.began }
        ensures prefix { IsPrefix out.old out.new }
    {
        let Some(expiry) = &clock.expiry else {
            return Ok(());
        };
        if !is_due(expiry.interval, clock.start, now) {
            return Ok(());
        }
        self.reap(alloc, &expiry.keep, now, out, steps)?;
        Ok(())
    }

    /// A second has passed, and it is the moment `now`.
    fn second<G: Ledger>(
        &mut self,
        alloc: Global,
        clock: &Clock,
        now: u64,
        out: &mut Notices,
        steps: &mut Steps<G>,
    ) -> Result<(), Memory>
        requires { now ≤ 2 ^ 40 }
        ensures plan { plan_of self.new ≡ plan_of self.old }
        ensures moved { OnOk result ((state : CoreState) → Holds self.old state →
            moment_of state.history + 1 ≡ now
            → begun state.history ≡ clock.now.start
            → Moved (plan_of self.old) self.new state
            (arrived (plan_of self.old) clock.now.expiry Elapsed state)
            out.old steps.old.forks out.new steps.new.forks) }
        ensures visited { (state : CoreState) → Holds self.old state →
            moment_of state.history + 1 ≡ now
            → begun state.history ≡ clock.now.start
            → Visited (plan_of self.old) state
            (arrived (plan_of self.old) clock.now.expiry Elapsed state)
            steps.old.entries steps.new.entries }
        ensures began { (state : CoreState) → Holds self.old state →
            moment_of state.history + 1 ≡ now → steps.new.began ≡ steps.old.began }
        ensures prefix { IsPrefix out.old out.new }
    {
        self.tick(alloc, now, out, steps)?;
        self.sweep(alloc, clock, now, out, steps)?;
        Ok(())
    }

    /// The seconds from the clock's moment to the moment `to` pass, one after another.
    pub(crate) fn pass<G: Ledger>(
        &mut self,
        alloc: Global,
        clock: &Clock,
        to: u64,
        out: &mut Notices,
        steps: &mut Steps<G>,
    ) -> Result<(), Memory>
        requires from { clock.now.moment ≤ to }
        requires bound { to ≤ 2 ^ 40 }
        ensures plan { plan_of self.new ≡ plan_of self.old }
        ensures moved { OnOk result ((state : CoreState) → Holds self.old state →
            moment_of state.history ≡ clock.now.moment
            → begun state.history ≡ clock.now.start
            → Moved (plan_of self.old) self.new state
            (state_from (plan_of self.old) clock.now.expiry
            (replicate (to - clock.now.moment) Elapsed) state)
            out.old steps.old.forks out.new steps.new.forks) }
        ensures visited { (state : CoreState) → Holds self.old state →
            moment_of state.history ≡ clock.now.moment
            → begun state.history ≡ clock.now.start
            → Visited (plan_of self.old) state
            (state_from (plan_of self.old) clock.now.expiry
            (replicate (to - clock.now.moment) Elapsed) state)
            steps.old.entries steps.new.entries }
        ensures began { (state : CoreState) → Holds self.old state →
            moment_of state.history ≡ clock.now.moment
            → begun state.history ≡ clock.now.start
            → steps.new.began ≡ steps.old.began }
        ensures prefix { IsPrefix out.old out.new }
    {
        for now in clock.moment..to {
            self.second(alloc, clock, now + 1, out, steps)?;
        }
        Ok(())
    }

    /// The index.
    pub(crate) fn index(&self) -> &PackedIndex
        ensures { (state : CoreState) → Holds self.now state → IsIndexOf result.now state.log }
    {
        &self.index
    }

    /// Lists the keys of the index in order, where a search for the predicate has to look at all of them.
    pub(crate) fn prepare(&mut self, alloc: Global, pred: &Pred) -> Result<(), Memory>
        ensures { self.new ≡ self.old }
    {
        self.index.prepare(alloc, pred)
    }

    /// How many bytes a reply has with the live events that meet the predicate.
    pub(crate) fn found_len<G: Ledger>(
        &mut self,
        alloc: Global,
        pred: &mut Pred,
        steps: &mut Steps<G>,
    ) -> Result<usize, Memory>
        ensures same { self.new ≡ self.old }
        ensures pred { pred.new ≡ pred.old }
        ensures found { IfOk result (λ len. (state : CoreState) → Holds self.old state
            → len ≡ reply_len (matching_events pred.old state.log)) }
        ensures forks { steps.new.forks ≡ steps.old.forks }
        ensures began { steps.new.began ≡ steps.old.began }
        ensures at_least { steps.old.entries ≤ steps.new.entries }
        ensures visited { (state : CoreState) → Holds self.old state →
            steps.new.entries ≤ steps.old.entries
            + length (visited pred.old (live_events state.log)) }
    {
        self.index.found_len(alloc, pred, steps)
    }

    /// The same of the predicate that every event meets, with no look at the events if the index did not change since.
    pub(crate) fn all_len<G: Ledger>(
        &mut self,
        alloc: Global,
        pred: &mut Pred,
        steps: &mut Steps<G>,
    ) -> Result<usize, Memory>
        requires { pred.old ≡ Always }
        ensures same { self.new ≡ self.old }
        ensures pred { pred.new ≡ pred.old }
        ensures found { IfOk result (λ len. (state : CoreState) → Holds self.old state
            → len ≡ reply_len (matching_events pred.old state.log)) }
        ensures forks { steps.new.forks ≡ steps.old.forks }
        ensures began { steps.new.began ≡ steps.old.began }
        ensures at_least { steps.old.entries ≤ steps.new.entries }
        ensures visited { (state : CoreState) → Holds self.old state →
            steps.new.entries ≤ steps.old.entries
            + length (visited pred.old (live_events state.log)) }
    {
        self.index.all_len(alloc, pred, steps)
    }

    /// How many events are live.
    pub(crate) fn live(&self) -> usize
        ensures { (state : CoreState) → Holds self.now state →
            result ≡ length (live_events state.log) }
    {
        self.index.len()
    }
}

/// Whether the moment is a multiple of `interval` seconds after `start`.
fn is_due(interval: u32, start: u64, now: u64) -> bool
    requires { 0 < interval }
    ensures { result ≡ ((now - start) % interval == 0) }
{
    now.saturating_sub(start) % u64::from(interval) == 0
}
