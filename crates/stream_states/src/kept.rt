ghost use Rattle.std.specs.Prelude.{◌≡◌, ◌+◌, ◌≤◌, ◌^◌, ◌&&◌, false, [], is_some, IfOk, IfSome, IsErr, IsOk, IsTrue, OnErr, OnOk};
ghost use Rattle.ev_types.specs.declared.item.Item.TheVariants.{One};
ghost use Rattle.list_laws.specs.Prefix.{IsPrefix};
ghost use Rattle.stream_plan.specs.Kinds.{is_in_range};
ghost use Rattle.stream_plan.specs.Tree.{KindTree, kind_tree};
ghost use Rattle.stream_meaning.specs.Deadlines.{next_deadline};
ghost use Rattle.stream_meaning.specs.Emission.{emissions};
ghost use Rattle.stream_meaning.specs.declared.entry.Entry.TheVariants.{Tick, Item as In};
ghost use Rattle.stream_meaning.specs.History.{History, ◌▸◌, moment_of};
ghost use Rattle.stream_states.specs.Kept.{keeps, kept_kind, kept_poisoned, KeptRepresents, IsFresh, Passes};

use crate::fresh::fresh_of;
use crate::range::is_in_range;
use ev_types::{Emissions, Event, Memory};
use flow_streams::{ChangedState, RunsState};
use rate_streams::{BatchState, RollupState, StableState, ThrottleState};
use std::alloc::Global;
use stream_plan::Kind;
use window_streams::{
    CoalesceState, FixedEventState, FixedTimeState, MovingEventState, MovingTimeState,
};

/// What a stream of one of the kinds that keep something keeps of what came. Once it was out of memory it is poisoned,
/// and each later `item` and `tick` answers `Memory`. The largest states are in boxes, since each state takes as much
/// memory as the largest that is not, and a fork has one for each of its streams that keep something.
pub enum KeptState {
    Changed(ChangedState),
    Runs(Box<RunsState>),
    Throttle(ThrottleState),
    Rollup(RollupState),
    Batch(BatchState),
    Stable(Box<StableState>),
    FixedEvent(FixedEventState),
    MovingEvent(MovingEventState),
    FixedTime(FixedTimeState),
    MovingTime(MovingTimeState),
    Coalesce(CoalesceState),
}

impl Drop for KeptState {
    fn drop(self) {
        match self {
            KeptState::Changed(_state) => {}
            KeptState::Runs(_state) => {}
            KeptState::Throttle(_state) => {}
            KeptState::Rollup(_state) => {}
            KeptState::Batch(_state) => {}
            KeptState::Stable(_state) => {}
            KeptState::FixedEvent(_state) => {}
            KeptState::MovingEvent(_state) => {}
            KeptState::FixedTime(_state) => {}
            KeptState::MovingTime(_state) => {}
            KeptState::Coalesce(_state) => {}
        }
    }
}

impl KeptState {
    /// The state of a stream of the kind that begins at the moment `start`, in seconds since 1970. It is `None` for a
    /// kind that keeps nothing, and for one whose numbers are out of their ranges.
    pub fn fresh(alloc: Global, kind: &Kind, start: u64) -> Result<Option<KeptState>, Memory>
        ensures some { IfOk result (λ kept. is_some kept
            ≡ (keeps (kind_tree kind.now) && is_in_range (kind_tree kind.now))) }
        ensures fresh { IfOk result (λ kept. IfSome kept (λ state.
            IsFresh (kind_tree kind.now) start state)) }
    {
        if !is_in_range(kind) {
            return Ok(None);
        }
        fresh_of(alloc, kind, start)
    }

    /// The event comes at the moment `now`. What the stream passes on is appended to `out`.
    #[tactic(auto, using(crate::proofs::PassLaws::passes_as))]
    pub fn item(
        &mut self,
        alloc: Global,
        event: Event,
        now: u64,
        out: &mut Emissions,
    ) -> Result<(), Memory>
        ensures kind { kept_kind self.new ≡ kept_kind self.old }
        ensures emits { OnOk result ((kind : KindTree) (h : History) →
            KeptRepresents kind self.old h → moment_of h ≡ now → now ≤ 2 ^ 40 →
            Passes out.old out.new (emissions kind (h ▸ In (One event)))) }
        ensures represents { OnOk result ((kind : KindTree) (h : History) →
            KeptRepresents kind self.old h → moment_of h ≡ now → now ≤ 2 ^ 40 →
            KeptRepresents kind self.new (h ▸ In (One event))) }
        ensures poisoned { IsTrue (kept_poisoned self.old) → IsErr result }
        ensures err { OnErr result (IsTrue (kept_poisoned self.new)) }
        ensures sound { OnOk result (kept_poisoned self.new ≡ false) }
        ensures prefix { IsPrefix out.old out.new }
    {
        match self {
            KeptState::Changed(state) => state.item(alloc, event, now, out),
            KeptState::Runs(state) => state.item(alloc, event, now, out),
            KeptState::Throttle(state) => state.item(alloc, event, now, out),
            KeptState::Rollup(state) => state.item(alloc, event, now, out),
            KeptState::Batch(state) => state.item(alloc, event, now, out),
            KeptState::Stable(state) => state.item(alloc, event, now, out),
            KeptState::FixedEvent(state) => state.item(alloc, event, now, out),
            KeptState::MovingEvent(state) => state.item(alloc, event, now, out),
            KeptState::FixedTime(state) => state.item(alloc, event, now, out),
            KeptState::MovingTime(state) => state.item(alloc, event, now, out),
            KeptState::Coalesce(state) => state.item(alloc, event, now, out),
        }
    }

    /// A second passes, which brings the moment `now`. What the stream passes on is appended to `out`. Where that is
    /// nothing, it takes no memory.
    #[tactic(auto, using(crate::proofs::PassLaws::passes_as, crate::proofs::PassLaws::none_passed, crate::proofs::PassLaws::silent_as))]
    pub fn tick(&mut self, alloc: Global, now: u64, out: &mut Emissions) -> Result<(), Memory>
        ensures kind { kept_kind self.new ≡ kept_kind self.old }
        ensures emits { OnOk result ((kind : KindTree) (h : History) →
            KeptRepresents kind self.old h → moment_of h + 1 ≡ now → now ≤ 2 ^ 40 →
            Passes out.old out.new (emissions kind (h ▸ Tick))) }
        ensures represents { OnOk result ((kind : KindTree) (h : History) →
            KeptRepresents kind self.old h → moment_of h + 1 ≡ now → now ≤ 2 ^ 40 →
            KeptRepresents kind self.new (h ▸ Tick)) }
        ensures quiet { (kind : KindTree) (h : History) →
            KeptRepresents kind self.old h → moment_of h + 1 ≡ now →
            emissions kind (h ▸ Tick) ≡ [] → IsOk result }
        ensures poisoned { IsTrue (kept_poisoned self.old) → IsErr result }
        ensures err { OnErr result (IsTrue (kept_poisoned self.new)) }
        ensures sound { OnOk result (kept_poisoned self.new ≡ false) }
        ensures prefix { IsPrefix out.old out.new }
    {
        match self {
            KeptState::Changed(state) => state.tick(alloc, now, out),
            KeptState::Runs(state) => state.tick(alloc, now, out),
            KeptState::Throttle(state) => state.tick(alloc, now, out),
            KeptState::Rollup(state) => state.tick(alloc, now, out),
            KeptState::Batch(state) => state.tick(alloc, now, out),
            KeptState::Stable(state) => state.tick(alloc, now, out),
            KeptState::FixedEvent(state) => state.tick(alloc, now, out),
            KeptState::MovingEvent(state) => state.tick(alloc, now, out),
            KeptState::FixedTime(state) => state.tick(alloc, now, out),
            KeptState::MovingTime(state) => state.tick(alloc, now, out),
            KeptState::Coalesce(state) => state.tick(alloc, now, out),
        }
    }

    /// The moment at which something is passed on next if only seconds follow. It is exact for moments up to 2^40.
    #[tactic(auto, using(crate::proofs::PassLaws::none_passed, crate::proofs::PassLaws::silent_as, crate::proofs::PassLaws::due_as))]
    pub fn due(&self) -> Option<u64>
        ensures due { (kind : KindTree) (h : History) →
            KeptRepresents kind self.now h → moment_of h ≤ 2 ^ 40 →
            result ≡ next_deadline kind h }
        ensures still { (kind : KindTree) (h : History) →
            KeptRepresents kind self.now h → emissions kind (h ▸ Tick) ≡ [] →
            KeptRepresents kind self.now (h ▸ Tick) }
    {
        match self {
            KeptState::Changed(state) => state.due(),
            KeptState::Runs(state) => state.due(),
            KeptState::Throttle(state) => state.due(),
            KeptState::Rollup(state) => state.due(),
            KeptState::Batch(state) => state.due(),
            KeptState::Stable(state) => state.due(),
            KeptState::FixedEvent(state) => state.due(),
            KeptState::MovingEvent(state) => state.due(),
            KeptState::FixedTime(state) => state.due(),
            KeptState::MovingTime(state) => state.due(),
            KeptState::Coalesce(state) => state.due(),
        }
    }
}
