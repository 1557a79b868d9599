ghost use Rattle.std.specs.Prelude.{◌≡◌, ◌≤◌, ◌+◌, ◌∷◌, ◌++◌, [], length, vec_len, OnOk};
ghost use Rattle.stream_meaning.specs.Came.{last_of};

use crate::send::{copy_events, send};
use ev_types::{Emissions, Event, Events, Memory};
use std::alloc::Global;
use std::mem;

/// The numbers of a moving event window.
#[derive(Clone, Copy, Debug, PartialEq, Eq)]
pub struct MovingEventParams {
    /// How many events a vector has at most, from 1 to 1,000,000.
    pub count: u32,
}

/// What a moving event window keeps: the last events, at most one vector of them.
#[derive(Drop)]
pub struct MovingEventState {
    count: u32,
    latest: Events,
    poisoned: bool,
}

impl MovingEventState {
    ghost use Rattle.std.specs.Prelude.{◌≡◌, false, ◌∷◌, ◌++◌, ◌+◌, [], IfOk, IsErr, IsOk, IsTrue, OnErr, OnOk};
    ghost use Rattle.ev_types.specs.declared.item.Item.TheVariants.{One};
    ghost use Rattle.list_laws.specs.Prefix.{IsPrefix};
    ghost use Rattle.stream_meaning.specs.Deadlines.{next_deadline};
    ghost use Rattle.stream_meaning.specs.declared.entry.Entry.TheVariants.{Tick, Item as In};
    ghost use Rattle.stream_meaning.specs.History.{History, ◌▸◌, begun, moment_of, TicksAlone};
    ghost use Rattle.stream_plan.specs.Kinds.{is_count};
    ghost use Rattle.stream_plan.specs.Tree.{MovingEvent};
    ghost use Rattle.window_streams.specs.MovingEvent.{MovingEventRepresents, moving_event_kind, moving_event_poisoned, moving_event_emissions};

    /// The state of a stream to which nothing but seconds has come since the moment `start`.
    pub fn fresh(
        alloc: Global,
        params: MovingEventParams,
        _start: u64,
    ) -> Result<MovingEventState, Memory>
        requires count { IsTrue (is_count params.count) }
        ensures kind { IfOk result (λ state.
            moving_event_kind state ≡ MovingEvent params.count) }
        ensures represents { IfOk result (λ state. (h : History) → TicksAlone h →
            begun h ≡ _start → MovingEventRepresents state h) }
    {
        Ok(MovingEventState {
            count: params.count,
            latest: Events::fresh(alloc),
            poisoned: false,
        })
    }

    /// Takes the event that comes at the moment `now`. Copies of the last `count` events, or of all where fewer came,
    /// are appended to `out` as a vector.
    pub fn item(
        &mut self,
        alloc: Global,
        event: Event,
        _now: u64,
        out: &mut Emissions,
    ) -> Result<(), Memory>
        ensures kind { moving_event_kind self.new ≡ moving_event_kind self.old }
        ensures emits { OnOk result ((h : History) → MovingEventRepresents self.old h →
            moment_of h ≡ _now →
            out.new ≡ out.old ++ moving_event_emissions self.old (h ▸ In (One event))) }
        ensures represents { OnOk result ((h : History) → MovingEventRepresents self.old h →
            moment_of h ≡ _now → MovingEventRepresents self.new (h ▸ In (One event))) }
        ensures poisoned { IsTrue (moving_event_poisoned self.old) → IsErr result }
        ensures err { OnErr result (IsTrue (moving_event_poisoned self.new)) }
        ensures sound { OnOk result (moving_event_poisoned self.new ≡ false) }
        ensures prefix { IsPrefix out.old out.new }
    {
        if self.poisoned {
            return Err(Memory);
        }
        self.poisoned = true;
        push_latest(alloc, &mut self.latest, event, self.count as usize)?;
        let copied = copy_events(alloc, self.latest.as_slice())?;
        send(alloc, copied, out)?;
        self.poisoned = false;
        Ok(())
    }

    /// Takes the second that ends at the moment `now`. Nothing is appended.
    pub fn tick(&mut self, _alloc: Global, _now: u64, out: &mut Emissions) -> Result<(), Memory>
        ensures kind { moving_event_kind self.new ≡ moving_event_kind self.old }
        ensures emits { OnOk result ((h : History) → MovingEventRepresents self.old h →
            moment_of h + 1 ≡ _now →
            out.new ≡ out.old ++ moving_event_emissions self.old (h ▸ Tick)) }
        ensures represents { OnOk result ((h : History) → MovingEventRepresents self.old h →
            moment_of h + 1 ≡ _now → MovingEventRepresents self.new (h ▸ Tick)) }
        ensures quiet { (h : History) → MovingEventRepresents self.old h →
            moment_of h + 1 ≡ _now →
            moving_event_emissions self.old (h ▸ Tick) ≡ [] → IsOk result }
        ensures poisoned { IsTrue (moving_event_poisoned self.old) → IsErr result }
        ensures err { OnErr result (IsTrue (moving_event_poisoned self.new)) }
        ensures sound { OnOk result (moving_event_poisoned self.new ≡ false) }
        ensures prefix { IsPrefix out.old out.new }
    {
        if self.poisoned {
            return Err(Memory);
        }
        Ok(())
    }

    /// When it next passes something on if only seconds follow: never.
    pub fn due(&self) -> Option<u64>
        ensures due { (h : History) → MovingEventRepresents self.now h →
            result ≡ next_deadline (moving_event_kind self.now) h }
        ensures still { (h : History) → MovingEventRepresents self.now h →
            moving_event_emissions self.now (h ▸ Tick) ≡ [] →
            MovingEventRepresents self.now (h ▸ Tick) }
    {
        None
    }
}

/// Appends the event to the latest ones, of which at most `count` stay.
fn push_latest(alloc: Global, latest: &mut Events, event: Event, count: usize) -> Result<(), Memory>
    ensures { OnOk result (length latest.old ≤ count →
        latest.new ≡ last_of count (latest.old ++ event ∷ [])) }
{
    let mut events = mem::replace(latest, Events::fresh(alloc)).into_vec();
    events.push(event)?;
    drop_oldest(&mut events, count);
    *latest = Events::from_vec(events);
    Ok(())
}

/// Drops the first event where there are more than `count`.
fn drop_oldest(events: &mut Vec<Event>, count: usize)
    ensures { vec_len events.old ≤ count + 1 →
        events.new.items ≡ last_of count events.old.items }
{
    if events.len() > count {
        events.remove(0);
    }
}
