ghost use Rattle.std.specs.Prelude.{◌≡◌, ◌+◌, ◌-◌, ◌*◌, ◌/◌, ◌^◌, ◌<◌, ◌≤◌};

use crate::last_events::LastEvents;
use crate::send::send;
use ev_types::{Emissions, Event, LATEST_MOMENT, Memory};
use std::alloc::Global;

/// The numbers of a stream that passes on the last event of each host and service.
#[derive(Clone, Copy, Debug, PartialEq, Eq)]
pub struct CoalesceParams {
    /// After how many seconds the events are passed on again, from 1 to 604,800.
    pub secs: u32,
}

/// What such a stream keeps: of each host and service the last event, where it is passed on at the next boundary. The
/// boundaries are the moments that are a multiple of `secs` seconds after the first one.
#[derive(Drop)]
pub struct CoalesceState {
    secs: u32,
    start: u64,
    boundary: u64,
    last: LastEvents,
    poisoned: bool,
    ghost positive: { 0 < secs },
}

impl CoalesceState {
    ghost use Rattle.std.specs.Prelude.{◌≡◌, false, ◌++◌, ◌+◌, ◌^◌, ◌≤◌, [], IfOk, IsErr, IsOk, IsTrue, OnErr, OnOk};
    ghost use Rattle.ev_types.specs.declared.item.Item.TheVariants.{One};
    ghost use Rattle.list_laws.specs.Prefix.{IsPrefix};
    ghost use Rattle.stream_meaning.specs.Deadlines.{next_deadline};
    ghost use Rattle.stream_meaning.specs.declared.entry.Entry.TheVariants.{Tick, Item as In};
    ghost use Rattle.stream_meaning.specs.History.{History, ◌▸◌, begun, moment_of, TicksAlone};
    ghost use Rattle.stream_plan.specs.Kinds.{is_secs};
    ghost use Rattle.stream_plan.specs.Tree.{Coalesce};
    ghost use Rattle.window_streams.specs.Coalesce.{CoalesceRepresents, coalesce_kind, coalesce_poisoned, coalesce_emissions};

    /// The state of a stream to which nothing but seconds has come since the moment `start`.
    pub fn fresh(alloc: Global, params: CoalesceParams, start: u64) -> Result<CoalesceState, Memory>
        requires secs { IsTrue (is_secs params.secs) }
        ensures kind { IfOk result (λ state. coalesce_kind state ≡ Coalesce params.secs) }
        ensures represents { IfOk result (λ state. (h : History) → TicksAlone h →
            begun h ≡ start → CoalesceRepresents state h) }
    {
        Ok(CoalesceState {
            secs: params.secs,
            start,
            boundary: 0,
            last: LastEvents::fresh(alloc),
            poisoned: false,
        })
    }

    /// Takes the event that comes at the moment `now`, at most 2^40. Nothing is appended.
    pub fn item(
        &mut self,
        _alloc: Global,
        event: Event,
        now: u64,
        out: &mut Emissions,
    ) -> Result<(), Memory>
        ensures kind { coalesce_kind self.new ≡ coalesce_kind self.old }
        ensures emits { OnOk result ((h : History) → CoalesceRepresents self.old h →
            moment_of h ≡ now →
            out.new ≡ out.old ++ coalesce_emissions self.old (h ▸ In (One event))) }
        ensures represents { OnOk result ((h : History) → CoalesceRepresents self.old h →
            moment_of h ≡ now → now ≤ 2 ^ 40 →
            CoalesceRepresents self.new (h ▸ In (One event))) }
        ensures poisoned { IsTrue (coalesce_poisoned self.old) → IsErr result }
        ensures err { OnErr result (IsTrue (coalesce_poisoned self.new)) }
        ensures sound { OnOk result (coalesce_poisoned self.new ≡ false) }
        ensures prefix { IsPrefix out.old out.new }
    {
        if self.poisoned {
            return Err(Memory);
        }
        self.poisoned = true;
        self.last.put(event)?;
        self.boundary = next_boundary(self.start, self.secs, now);
        self.poisoned = false;
        Ok(())
    }

    /// Takes the second that ends at the moment `now`, at most 2^40. At a boundary the last events are appended to
    /// `out` as a vector, and those that have expired are dropped.
    pub fn tick(&mut self, alloc: Global, now: u64, out: &mut Emissions) -> Result<(), Memory>
        ensures kind { coalesce_kind self.new ≡ coalesce_kind self.old }
        ensures emits { OnOk result ((h : History) → CoalesceRepresents self.old h →
            moment_of h + 1 ≡ now →
            out.new ≡ out.old ++ coalesce_emissions self.old (h ▸ Tick)) }
        ensures represents { OnOk result ((h : History) → CoalesceRepresents self.old h →
            moment_of h + 1 ≡ now → now ≤ 2 ^ 40 →
            CoalesceRepresents self.new (h ▸ Tick)) }
        ensures quiet { (h : History) → CoalesceRepresents self.old h →
            moment_of h + 1 ≡ now →
            coalesce_emissions self.old (h ▸ Tick) ≡ [] → IsOk result }
        ensures poisoned { IsTrue (coalesce_poisoned self.old) → IsErr result }
        ensures err { OnErr result (IsTrue (coalesce_poisoned self.new)) }
        ensures sound { OnOk result (coalesce_poisoned self.new ≡ false) }
        ensures prefix { IsPrefix out.old out.new }
    {
        if self.poisoned {
            return Err(Memory);
        }
        if self.last.is_empty() {
            return Ok(());
        }
        if now != self.boundary {
            return Ok(());
        }
        self.poisoned = true;
        let events = self.last.pass(alloc, now.min(LATEST_MOMENT))?;
        self.boundary = now.saturating_add(u64::from(self.secs));
        send(alloc, events, out)?;
        self.poisoned = false;
        Ok(())
    }

    /// When it next passes something on if only seconds follow: at the next boundary, where some event is kept.
    pub fn due(&self) -> Option<u64>
        ensures due { (h : History) → CoalesceRepresents self.now h →
            result ≡ next_deadline (coalesce_kind self.now) h }
        ensures still { (h : History) → CoalesceRepresents self.now h →
            coalesce_emissions self.now (h ▸ Tick) ≡ [] →
            CoalesceRepresents self.now (h ▸ Tick) }
    {
        if self.last.is_empty() {
            return None;
        }
        Some(self.boundary)
    }
}

/// The first boundary after the moment `now`.
fn next_boundary(start: u64, secs: u32, now: u64) -> u64
    requires { 0 < secs }
    ensures { start ≤ now → now ≤ 2 ^ 40 → result
        ≡ start + ((now - start) / secs + 1) * secs }
{
    let secs = u64::from(secs);
    let passed = now.saturating_sub(start) % secs;
    now.saturating_sub(passed).saturating_add(secs)
}
