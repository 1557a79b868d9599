ghost use Rattle.std.specs.Prelude.{◌≡◌, ◌++◌, [], length, nat_le, if◌then◌else◌, OnErr, OnOk};
ghost use Rattle.stream_meaning.specs.Came.{vector};
ghost use Rattle.stream_meaning.specs.Emitted.{emitted};

use crate::send::send;
use ev_types::{Emissions, Event, Events, Memory};
use std::alloc::Global;
use std::mem;

/// The numbers of a fixed event window.
#[derive(Clone, Copy, Debug, PartialEq, Eq)]
pub struct FixedEventParams {
    /// How many events a vector has, from 1 to 1,000,000.
    pub count: u32,
}

/// What a fixed event window keeps: the events since the last vector.
#[derive(Drop)]
pub struct FixedEventState {
    count: u32,
    waiting: Events,
    poisoned: bool,
}

impl FixedEventState {
    ghost use Rattle.std.specs.Prelude.{◌≡◌, false, ◌++◌, ◌+◌, [], IfOk, IsErr, IsOk, IsTrue, OnErr, OnOk};
    ghost use Rattle.ev_types.specs.declared.item.Item.TheVariants.{One};
    ghost use Rattle.list_laws.specs.Prefix.{IsPrefix};
    ghost use Rattle.stream_meaning.specs.Deadlines.{next_deadline};
    ghost use Rattle.stream_meaning.specs.declared.entry.Entry.TheVariants.{Tick, Item as In};
    ghost use Rattle.stream_meaning.specs.History.{History, ◌▸◌, begun, moment_of, TicksAlone};
    ghost use Rattle.stream_plan.specs.Kinds.{is_count};
    ghost use Rattle.stream_plan.specs.Tree.{FixedEvent};
    ghost use Rattle.window_streams.specs.FixedEvent.{FixedEventRepresents, fixed_event_kind, fixed_event_poisoned, fixed_event_emissions};

    /// The state of a stream to which nothing but seconds has come since the moment `start`.
    pub fn fresh(
        alloc: Global,
        params: FixedEventParams,
        _start: u64,
    ) -> Result<FixedEventState, Memory>
        requires count { IsTrue (is_count params.count) }
        ensures kind { IfOk result (λ state. fixed_event_kind state ≡ FixedEvent params.count) }
        ensures represents { IfOk result (λ state. (h : History) → TicksAlone h →
            begun h ≡ _start → FixedEventRepresents state h) }
    {
        Ok(FixedEventState {
            count: params.count,
            waiting: Events::fresh(alloc),
            poisoned: false,
        })
    }

    /// Takes the event that comes at the moment `now`. Each `count` events are appended to `out` as a vector.
    pub fn item(
        &mut self,
        alloc: Global,
        event: Event,
        _now: u64,
        out: &mut Emissions,
    ) -> Result<(), Memory>
        ensures kind { fixed_event_kind self.new ≡ fixed_event_kind self.old }
        ensures emits { OnOk result ((h : History) → FixedEventRepresents self.old h →
            moment_of h ≡ _now →
            out.new ≡ out.old ++ fixed_event_emissions self.old (h ▸ In (One event))) }
        ensures represents { OnOk result ((h : History) → FixedEventRepresents self.old h →
            moment_of h ≡ _now → FixedEventRepresents self.new (h ▸ In (One event))) }
        ensures poisoned { IsTrue (fixed_event_poisoned self.old) → IsErr result }
        ensures err { OnErr result (IsTrue (fixed_event_poisoned self.new)) }
        ensures sound { OnOk result (fixed_event_poisoned self.new ≡ false) }
        ensures prefix { IsPrefix out.old out.new }
    {
        if self.poisoned {
            return Err(Memory);
        }
        self.poisoned = true;
        self.waiting.push(alloc, event)?;
        send_if_full(alloc, &mut self.waiting, self.count as usize, out)?;
        self.poisoned = false;
        Ok(())
    }

    /// Takes the second that ends at the moment `now`. Nothing is appended.
    pub fn tick(&mut self, _alloc: Global, _now: u64, out: &mut Emissions) -> Result<(), Memory>
        ensures kind { fixed_event_kind self.new ≡ fixed_event_kind self.old }
        ensures emits { OnOk result ((h : History) → FixedEventRepresents self.old h →
            moment_of h + 1 ≡ _now →
            out.new ≡ out.old ++ fixed_event_emissions self.old (h ▸ Tick)) }
        ensures represents { OnOk result ((h : History) → FixedEventRepresents self.old h →
            moment_of h + 1 ≡ _now → FixedEventRepresents self.new (h ▸ Tick)) }
        ensures quiet { (h : History) → FixedEventRepresents self.old h →
            moment_of h + 1 ≡ _now →
            fixed_event_emissions self.old (h ▸ Tick) ≡ [] → IsOk result }
        ensures poisoned { IsTrue (fixed_event_poisoned self.old) → IsErr result }
        ensures err { OnErr result (IsTrue (fixed_event_poisoned self.new)) }
        ensures sound { OnOk result (fixed_event_poisoned self.new ≡ false) }
        ensures prefix { IsPrefix out.old out.new }
    {
        if self.poisoned {
            return Err(Memory);
        }
        Ok(())
    }

    /// When it next passes something on if only seconds follow: never.
    pub fn due(&self) -> Option<u64>
        ensures due { (h : History) → FixedEventRepresents self.now h →
            result ≡ next_deadline (fixed_event_kind self.now) h }
        ensures still { (h : History) → FixedEventRepresents self.now h →
            fixed_event_emissions self.now (h ▸ Tick) ≡ [] →
            FixedEventRepresents self.now (h ▸ Tick) }
    {
        None
    }
}

/// Moves the events into a vector where there are `count` of them.
fn send_if_full(
    alloc: Global,
    waiting: &mut Events,
    count: usize,
    out: &mut Emissions,
) -> Result<(), Memory>
    ensures waiting { OnOk result (waiting.new ≡
        (if nat_le count (length waiting.old) then [] else waiting.old)) }
    ensures sent { OnOk result (out.new ≡ out.old ++ emitted
        (if nat_le count (length waiting.old) then vector waiting.old else [])) }
    ensures err { OnErr result (out.new ≡ out.old) }
{
    if waiting.len() < count {
        return Ok(());
    }
    let events = mem::replace(waiting, Events::fresh(alloc));
    send(alloc, events, out)?;
    Ok(())
}
