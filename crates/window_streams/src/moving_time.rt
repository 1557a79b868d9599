ghost use Rattle.std.specs.Prelude.{◌≡◌, ◌<◌, ◌∷◌, ◌++◌, [], unwrap_or, filter, if◌then◌else◌, OnOk};
ghost use Rattle.std.specs.Int.{int_max};
ghost use Rattle.list_laws.specs.Prefix.{IsPrefix};
ghost use Rattle.stream_meaning.specs.Came.{vector};
ghost use Rattle.stream_meaning.specs.Emitted.{emitted};
ghost use Rattle.stream_meaning.specs.Windows.{is_recent};

use crate::send::{copy_events, send};
use ev_types::{Emissions, Event, Events, Memory};
use std::alloc::Global;
use std::mem;

/// The numbers of a moving time window.
#[derive(Clone, Copy, Debug, PartialEq, Eq)]
pub struct MovingTimeParams {
    /// An event is passed on while its time is less than `secs` seconds before the latest. The range is 1 to 604,800.
    pub secs: u32,
}

/// What a moving time window keeps: the latest time, and the events of the last seconds before it.
#[derive(Drop)]
pub struct MovingTimeState {
    secs: u32,
    latest: Option<i64>,
    recent: Events,
    poisoned: bool,
    ghost positive: { 0 < secs },
}

impl MovingTimeState {
    ghost use Rattle.std.specs.Prelude.{◌≡◌, false, ◌∷◌, ◌++◌, ◌+◌, [], IfOk, IsErr, IsOk, IsTrue, OnErr, OnOk};
    ghost use Rattle.ev_types.specs.declared.item.Item.TheVariants.{One};
    ghost use Rattle.list_laws.specs.Prefix.{IsPrefix};
    ghost use Rattle.stream_meaning.specs.Deadlines.{next_deadline};
    ghost use Rattle.stream_meaning.specs.declared.entry.Entry.TheVariants.{Tick, Item as In};
    ghost use Rattle.stream_meaning.specs.History.{History, ◌▸◌, begun, moment_of, TicksAlone};
    ghost use Rattle.stream_plan.specs.Kinds.{is_secs};
    ghost use Rattle.stream_plan.specs.Tree.{MovingTime};
    ghost use Rattle.window_streams.specs.MovingTime.{MovingTimeRepresents, moving_time_kind, moving_time_poisoned, moving_time_emissions};

    /// The state of a stream to which nothing but seconds has come since the moment `start`.
    pub fn fresh(
        alloc: Global,
        params: MovingTimeParams,
        _start: u64,
    ) -> Result<MovingTimeState, Memory>
        requires secs { IsTrue (is_secs params.secs) }
        ensures kind { IfOk result (λ state. moving_time_kind state ≡ MovingTime params.secs) }
        ensures represents { IfOk result (λ state. (h : History) → TicksAlone h →
            begun h ≡ _start → MovingTimeRepresents state h) }
    {
        Ok(MovingTimeState {
            secs: params.secs,
            latest: None,
            recent: Events::fresh(alloc),
            poisoned: false,
        })
    }

    /// Takes the event that comes at the moment `now`. Where its time is one of the last `secs` seconds up to the
    /// latest time, copies of all events of these seconds are appended to `out` as a vector. Else it is dropped.
    pub fn item(
        &mut self,
        alloc: Global,
        event: Event,
        _now: u64,
        out: &mut Emissions,
    ) -> Result<(), Memory>
        ensures kind { moving_time_kind self.new ≡ moving_time_kind self.old }
        ensures emits { OnOk result ((h : History) → MovingTimeRepresents self.old h →
            moment_of h ≡ _now →
            out.new ≡ out.old ++ moving_time_emissions self.old (h ▸ In (One event))) }
        ensures represents { OnOk result ((h : History) → MovingTimeRepresents self.old h →
            moment_of h ≡ _now → MovingTimeRepresents self.new (h ▸ In (One event))) }
        ensures poisoned { IsTrue (moving_time_poisoned self.old) → IsErr result }
        ensures err { OnErr result (IsTrue (moving_time_poisoned self.new)) }
        ensures sound { OnOk result (moving_time_poisoned self.new ≡ false) }
        ensures prefix { IsPrefix out.old out.new }
    {
        if self.poisoned {
            return Err(Memory);
        }
        self.poisoned = true;
        let latest = latest_with(self.latest, event.time);
        enter(alloc, &mut self.recent, self.secs, latest, event, out)?;
        self.latest = Some(latest);
        self.poisoned = false;
        Ok(())
    }

    /// Takes the second that ends at the moment `now`. Nothing is appended.
    pub fn tick(&mut self, _alloc: Global, _now: u64, out: &mut Emissions) -> Result<(), Memory>
        ensures kind { moving_time_kind self.new ≡ moving_time_kind self.old }
        ensures emits { OnOk result ((h : History) → MovingTimeRepresents self.old h →
            moment_of h + 1 ≡ _now →
            out.new ≡ out.old ++ moving_time_emissions self.old (h ▸ Tick)) }
        ensures represents { OnOk result ((h : History) → MovingTimeRepresents self.old h →
            moment_of h + 1 ≡ _now → MovingTimeRepresents self.new (h ▸ Tick)) }
        ensures quiet { (h : History) → MovingTimeRepresents self.old h →
            moment_of h + 1 ≡ _now →
            moving_time_emissions self.old (h ▸ Tick) ≡ [] → IsOk result }
        ensures poisoned { IsTrue (moving_time_poisoned self.old) → IsErr result }
        ensures err { OnErr result (IsTrue (moving_time_poisoned self.new)) }
        ensures sound { OnOk result (moving_time_poisoned self.new ≡ false) }
        ensures prefix { IsPrefix out.old out.new }
    {
        if self.poisoned {
            return Err(Memory);
        }
        Ok(())
    }

    /// When it next passes something on if only seconds follow: never.
    pub fn due(&self) -> Option<u64>
        ensures due { (h : History) → MovingTimeRepresents self.now h →
            result ≡ next_deadline (moving_time_kind self.now) h }
        ensures still { (h : History) → MovingTimeRepresents self.now h →
            moving_time_emissions self.now (h ▸ Tick) ≡ [] →
            MovingTimeRepresents self.now (h ▸ Tick) }
    {
        None
    }
}

/// Puts the event at the end of the recent ones, of which those stay that are recent at the latest time, and passes
/// copies of them on. An event that is not recent is dropped.
fn enter(
    alloc: Global,
    recent: &mut Events,
    secs: u32,
    latest: i64,
    event: Event,
    out: &mut Emissions,
) -> Result<(), Memory>
    ensures recent { OnOk result (recent.new ≡ (if is_recent secs latest event
        then filter (is_recent secs latest) recent.old ++ event ∷ [] else recent.old)) }
    ensures sent { OnOk result (out.new ≡ out.old ++ emitted (if is_recent secs latest event
        then vector (filter (is_recent secs latest) recent.old ++ event ∷ []) else [])) }
    ensures prefix { IsPrefix out.old out.new }
{
    if !is_recent(secs, latest, &event) {
        return Ok(());
    }
    keep_recent(alloc, recent, secs, latest);
    recent.push(alloc, event)?;
    let copied = copy_events(alloc, recent.as_slice())?;
    send(alloc, copied, out)?;
    Ok(())
}

/// Drops the events that are not recent at the latest time.
fn keep_recent(alloc: Global, recent: &mut Events, secs: u32, latest: i64)
    ensures { recent.new ≡ filter (is_recent secs latest) recent.old }
{
    let mut events = mem::replace(recent, Events::fresh(alloc)).into_vec();
    events.retain(|event| is_recent(secs, latest, event));
    *recent = Events::from_vec(events);
}

/// Whether the event's time is one of the last `secs` seconds up to the latest time.
fn is_recent(secs: u32, latest: i64, event: &Event) -> bool
    ensures { result ≡ is_recent secs latest event.now }
{
    i128::from(latest) - i128::from(secs) < i128::from(event.time)
}

/// The latest time, with one more time.
fn latest_with(latest: Option<i64>, time: i64) -> i64
    ensures { result ≡ int_max (unwrap_or latest time) time }
{
    latest.unwrap_or(time).max(time)
}
