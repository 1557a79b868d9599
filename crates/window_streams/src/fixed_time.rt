ghost use Rattle.std.specs.Prelude.{◌≡◌, ◌<◌, ◌∷◌, ◌++◌, ◌-ℤ◌, [], if◌then◌else◌, OnOk};
ghost use Rattle.list_laws.specs.Prefix.{IsPrefix};
ghost use Rattle.stream_meaning.specs.Came.{vector};
ghost use Rattle.stream_meaning.specs.Emitted.{emitted};
ghost use Rattle.stream_meaning.specs.Windows.{floor_div};
ghost use Rattle.window_streams.specs.Stretch.{stretch_from, is_later, is_same, later_of};

use crate::send::send;
use ev_types::{Emissions, Event, Events, Memory};
use std::alloc::Global;
use std::mem;

/// The numbers of a fixed time window.
#[derive(Clone, Copy, Debug, PartialEq, Eq)]
pub struct FixedTimeParams {
    /// How many seconds a stretch has, from 1 to 604,800.
    pub secs: u32,
}

/// What a fixed time window keeps: the time of the first event, and the events of the latest stretch. Stretches are
/// counted from the first event's time, by the times of the events.
#[derive(Drop)]
pub struct FixedTimeState {
    secs: u32,
    first: Option<i64>,
    latest: u64,
    waiting: Events,
    poisoned: bool,
    ghost positive: { 0 < secs },
}

impl FixedTimeState {
    ghost use Rattle.std.specs.Prelude.{◌≡◌, false, ◌∷◌, ◌++◌, ◌+◌, [], IfOk, IsErr, IsOk, IsTrue, OnErr, OnOk};
    ghost use Rattle.ev_types.specs.declared.item.Item.TheVariants.{One};
    ghost use Rattle.list_laws.specs.Prefix.{IsPrefix};
    ghost use Rattle.stream_meaning.specs.Deadlines.{next_deadline};
    ghost use Rattle.stream_meaning.specs.declared.entry.Entry.TheVariants.{Tick, Item as In};
    ghost use Rattle.stream_meaning.specs.History.{History, ◌▸◌, begun, moment_of, TicksAlone};
    ghost use Rattle.stream_plan.specs.Kinds.{is_secs};
    ghost use Rattle.stream_plan.specs.Tree.{FixedTime};
    ghost use Rattle.window_streams.specs.FixedTime.{FixedTimeRepresents, fixed_time_kind, fixed_time_poisoned, fixed_time_emissions};

    /// The state of a stream to which nothing but seconds has come since the moment `start`.
    pub fn fresh(
        alloc: Global,
        params: FixedTimeParams,
        _start: u64,
    ) -> Result<FixedTimeState, Memory>
        requires secs { IsTrue (is_secs params.secs) }
        ensures kind { IfOk result (λ state. fixed_time_kind state ≡ FixedTime params.secs) }
        ensures represents { IfOk result (λ state. (h : History) → TicksAlone h →
            begun h ≡ _start → FixedTimeRepresents state h) }
    {
        Ok(FixedTimeState {
            secs: params.secs,
            first: None,
            latest: 0,
            waiting: Events::fresh(alloc),
            poisoned: false,
        })
    }

    /// Takes the event that comes at the moment `now`. Where its time is in a later stretch than those before, the
    /// events of the latest stretch are appended to `out` as a vector. Where it is in an earlier one, it is dropped.
    pub fn item(
        &mut self,
        alloc: Global,
        event: Event,
        _now: u64,
        out: &mut Emissions,
    ) -> Result<(), Memory>
        ensures kind { fixed_time_kind self.new ≡ fixed_time_kind self.old }
        ensures emits { OnOk result ((h : History) → FixedTimeRepresents self.old h →
            moment_of h ≡ _now →
            out.new ≡ out.old ++ fixed_time_emissions self.old (h ▸ In (One event))) }
        ensures represents { OnOk result ((h : History) → FixedTimeRepresents self.old h →
            moment_of h ≡ _now → FixedTimeRepresents self.new (h ▸ In (One event))) }
        ensures poisoned { IsTrue (fixed_time_poisoned self.old) → IsErr result }
        ensures err { OnErr result (IsTrue (fixed_time_poisoned self.new)) }
        ensures sound { OnOk result (fixed_time_poisoned self.new ≡ false) }
        ensures prefix { IsPrefix out.old out.new }
    {
        if self.poisoned {
            return Err(Memory);
        }
        self.poisoned = true;
        let first = self.first.unwrap_or(event.time);
        let stretch = stretch_of(self.secs, first, event.time);
        enter(
            alloc,
            &mut self.latest,
            &mut self.waiting,
            stretch,
            event,
            out,
        )?;
        self.first = Some(first);
        self.poisoned = false;
        Ok(())
    }

    /// Takes the second that ends at the moment `now`. Nothing is appended.
    pub fn tick(&mut self, _alloc: Global, _now: u64, out: &mut Emissions) -> Result<(), Memory>
        ensures kind { fixed_time_kind self.new ≡ fixed_time_kind self.old }
        ensures emits { OnOk result ((h : History) → FixedTimeRepresents self.old h →
            moment_of h + 1 ≡ _now →
            out.new ≡ out.old ++ fixed_time_emissions self.old (h ▸ Tick)) }
        ensures represents { OnOk result ((h : History) → FixedTimeRepresents self.old h →
            moment_of h + 1 ≡ _now → FixedTimeRepresents self.new (h ▸ Tick)) }
        ensures quiet { (h : History) → FixedTimeRepresents self.old h →
            moment_of h + 1 ≡ _now →
            fixed_time_emissions self.old (h ▸ Tick) ≡ [] → IsOk result }
        ensures poisoned { IsTrue (fixed_time_poisoned self.old) → IsErr result }
        ensures err { OnErr result (IsTrue (fixed_time_poisoned self.new)) }
        ensures sound { OnOk result (fixed_time_poisoned self.new ≡ false) }
        ensures prefix { IsPrefix out.old out.new }
    {
        if self.poisoned {
            return Err(Memory);
        }
        Ok(())
    }

    /// When it next passes something on if only seconds follow: never.
    pub fn due(&self) -> Option<u64>
        ensures due { (h : History) → FixedTimeRepresents self.now h →
            result ≡ next_deadline (fixed_time_kind self.now) h }
        ensures still { (h : History) → FixedTimeRepresents self.now h →
            fixed_time_emissions self.now (h ▸ Tick) ≡ [] →
            FixedTimeRepresents self.now (h ▸ Tick) }
    {
        None
    }
}

/// The number of the stretch of `secs` seconds in which the time lies, from that of `first` on.
fn stretch_of(secs: u32, first: i64, time: i64) -> Option<u64>
    requires { 0 < secs }
    ensures { result ≡ stretch_from (floor_div (time -ℤ first) secs) }
{
    if time < first {
        return None;
    }
    Some(time.abs_diff(first) / u64::from(secs))
}

/// Puts the event among those that wait where its stretch is the latest one. Those are first passed on where it is a
/// later one. The event of an earlier one is dropped.
fn enter(
    alloc: Global,
    latest: &mut u64,
    waiting: &mut Events,
    stretch: Option<u64>,
    event: Event,
    out: &mut Emissions,
) -> Result<(), Memory>
    ensures latest { OnOk result (latest.new ≡ later_of stretch latest.old) }
    ensures waiting { OnOk result (waiting.new
        ≡ (if is_later stretch latest.old then event ∷ [] else
        (if is_same stretch latest.old then waiting.old ++ event ∷ [] else waiting.old))) }
    ensures sent { OnOk result (out.new ≡ out.old ++ emitted
        (if is_later stretch latest.old then vector waiting.old else [])) }
    ensures prefix { IsPrefix out.old out.new }
{
    let Some(stretch) = stretch else {
        return Ok(());
    };
    if stretch < *latest {
        return Ok(());
    }
    if stretch > *latest {
        *latest = stretch;
        let events = mem::replace(waiting, Events::fresh(alloc));
        send(alloc, events, out)?;
    }
    waiting.push(alloc, event)?;
    Ok(())
}
