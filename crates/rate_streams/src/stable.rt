ghost use Rattle.std.specs.Prelude.{◌≡◌, ◌+◌, ◌-◌, ◌≤◌, ◌^◌, true, false, [], ◌∷◌, ◌++◌, nat_le, if◌then◌else◌, IfOk, OnOk, OnErr, IsOk, IsErr, IsTrue};
ghost use Rattle.ev_types.specs.declared.item.Item.TheVariants.{One};
ghost use Rattle.ev_types.specs.Field.{field_value};
ghost use Rattle.list_laws.specs.Prefix.{IsPrefix};
ghost use Rattle.stream_meaning.specs.Came.{each};
ghost use Rattle.stream_meaning.specs.Deadlines.{next_deadline};
ghost use Rattle.stream_meaning.specs.Emitted.{emitted};
ghost use Rattle.stream_meaning.specs.declared.entry.Entry.TheVariants.{Tick, Item as In};
ghost use Rattle.stream_meaning.specs.History.{History, ◌▸◌, begun, moment_of, TicksAlone};
ghost use Rattle.stream_meaning.specs.Runs.{differs_from};
ghost use Rattle.stream_plan.specs.Kinds.{is_in_range};
ghost use Rattle.stream_plan.specs.Tree.{Stable};
ghost use Rattle.rate_streams.specs.Stable.{stable_kind, stable_passes, stable_poisoned, is_stable_due, StableRepresents};

use crate::send::{send_each, send_event};
use ev_types::{
    Emissions, Event, Events, Field, Memory, Value, field_is, field_number, field_text,
};
use std::alloc::Global;
use std::mem;

/// The events of a run that hold the same in `field` wait until the run has held for `secs` seconds; from then on each
/// one passes as it comes. The seconds are 1 to 604,800.
#[derive(Drop)]
pub struct StableParams {
    pub secs: u32,
    pub field: Field,
}

/// What a `stable` keeps between entries: what the field held in the last event, when that run began, and the events of
/// it that wait. Once it was out of memory it is poisoned, and each later `item` and `tick` answers `Memory`.
pub struct StableState {
    secs: u32,
    field: Field,
    last: Option<Value>,
    began: u64,
    waiting: Events,
    poisoned: bool,
}

impl Drop for StableState {
    fn drop(self) {
        let StableState {
            secs: _secs,
            field: _field,
            last: _last,
            began: _began,
            waiting: _waiting,
            poisoned: _poisoned,
        } = self;
    }
}

impl StableState {
    /// The state to which nothing has come, at the moment `start`, in seconds since 1970. It takes no memory.
    pub fn fresh(alloc: Global, params: StableParams, start: u64) -> Result<StableState, Memory>
        requires { IsTrue (is_in_range (Stable params.secs params.field)) }
        ensures ok { IsOk result }
        ensures kind { IfOk result (λ state.
            stable_kind state ≡ Stable params.secs params.field) }
        ensures represents { IfOk result (λ state. (h : History) →
            TicksAlone h → begun h ≡ start → StableRepresents state h) }
    {
        Ok(StableState {
            secs: params.secs,
            field: params.field,
            last: None,
            began: start,
            waiting: Events::fresh(alloc),
            poisoned: false,
        })
    }

    /// The event comes at the moment `now`. Where its run has held long enough, it is appended to `out`; else it waits.
    pub fn item(
        &mut self,
        alloc: Global,
        event: Event,
        now: u64,
        out: &mut Emissions,
    ) -> Result<(), Memory>
        ensures kind { stable_kind self.new ≡ stable_kind self.old }
        ensures emits { OnOk result ((h : History) →
            StableRepresents self.old h → moment_of h ≡ now →
            out.new ≡ out.old ++ emitted (stable_passes self.old (h ▸ In (One event)))) }
        ensures represents { OnOk result ((h : History) →
            StableRepresents self.old h → moment_of h ≡ now →
            StableRepresents self.new (h ▸ In (One event))) }
        ensures poisoned { IsTrue (stable_poisoned self.old) → IsErr result }
        ensures sound { OnOk result (stable_poisoned self.new ≡ false) }
        ensures err { OnErr result (IsTrue (stable_poisoned self.new)) }
        ensures prefix { IsPrefix out.old out.new }
    {
        if self.poisoned {
            return Err(Memory);
        }
        self.poisoned = true;
        self.follow(alloc, &event, now)?;
        self.send_or_keep(alloc, event, now, out)?;
        self.poisoned = false;
        Ok(())
    }

    /// A second passes, which brings the moment `now`. Where it is the one at which the run has held long enough, each
    /// event that waits is appended to `out`; else it takes no memory.
    pub fn tick(&mut self, alloc: Global, now: u64, out: &mut Emissions) -> Result<(), Memory>
        ensures kind { stable_kind self.new ≡ stable_kind self.old }
        ensures emits { OnOk result ((h : History) →
            StableRepresents self.old h → moment_of h + 1 ≡ now →
            out.new ≡ out.old ++ emitted (stable_passes self.old (h ▸ Tick))) }
        ensures represents { OnOk result ((h : History) →
            StableRepresents self.old h → moment_of h + 1 ≡ now →
            StableRepresents self.new (h ▸ Tick)) }
        ensures quiet { (h : History) → StableRepresents self.old h →
            moment_of h + 1 ≡ now →
            stable_passes self.old (h ▸ Tick) ≡ [] → IsOk result }
        ensures poisoned { IsTrue (stable_poisoned self.old) → IsErr result }
        ensures sound { OnOk result (stable_poisoned self.new ≡ false) }
        ensures err { OnErr result (IsTrue (stable_poisoned self.new)) }
        ensures prefix { IsPrefix out.old out.new }
    {
        if self.poisoned {
            return Err(Memory);
        }
        if !self.is_due(now) {
            return Ok(());
        }
        self.poisoned = true;
        let waiting = mem::replace(&mut self.waiting, Events::fresh(alloc));
        send_each(alloc, waiting, out)?;
        self.poisoned = false;
        Ok(())
    }

    /// The moment at which something passes next if only seconds follow. It is exact for moments up to 2^40.
    pub fn due(&self) -> Option<u64>
        ensures due { (h : History) → StableRepresents self.now h → moment_of h ≤ 2 ^ 40 →
            result ≡ next_deadline (stable_kind self.now) h }
        ensures still { (h : History) → StableRepresents self.now h →
            stable_passes self.now (h ▸ Tick) ≡ [] → StableRepresents self.now (h ▸ Tick) }
    {
        if self.waiting.len() == 0 {
            None
        } else {
            Some(self.began.saturating_add(u64::from(self.secs)))
        }
    }

    // Whether events wait whose run has held long enough at the moment `now`.
    fn is_due(&self, now: u64) -> bool
        ensures { result ≡ is_stable_due self.now now }
    {
        self.waiting.len() > 0 && now.saturating_sub(self.began) >= u64::from(self.secs)
    }

    // Begins a new run with the event that comes at the moment `now`, where its field differs from that of the last.
    fn follow(&mut self, alloc: Global, event: &Event, now: u64) -> Result<(), Memory>
        ensures kind { stable_kind self.new ≡ stable_kind self.old }
        ensures followed { OnOk result (
            let differs = differs_from self.old.field self.old.last event.now in
            self.new ≡ record self.old {
              last = Some (field_value event.now self.old.field);
              began = if differs then now else self.old.began;
              waiting = if differs then [] else self.old.waiting;
            }) }
        ensures err { OnErr result (self.new ≡ self.old) }
    {
        if self.differs(event) {
            self.last = Some(value_of(alloc, event, &self.field)?);
            self.began = now;
            self.waiting = Events::fresh(alloc);
        }
        Ok(())
    }

    // Whether the event's field differs from that of the last event, or there was none.
    fn differs(&self, event: &Event) -> bool
        ensures test { result ≡ differs_from self.now.field self.now.last event.now }
        ensures same { result ≡ false →
            self.now.last ≡ Some (field_value event.now self.now.field) }
    {
        match &self.last {
            Some(value) => !field_is(event, &self.field, value),
            None => true,
        }
    }

    // Appends the event where its run has held long enough at the moment `now`; else it waits.
    fn send_or_keep(
        &mut self,
        alloc: Global,
        event: Event,
        now: u64,
        out: &mut Emissions,
    ) -> Result<(), Memory>
        ensures kept { OnOk result (self.new ≡ record self.old {
          waiting = if nat_le self.old.secs (now - self.old.began) then self.old.waiting
              else self.old.waiting ++ event ∷ [];
        }) }
        ensures err { OnErr result (self.new ≡ self.old) }
        ensures sent { OnOk result (out.new ≡ out.old ++ emitted
            (if nat_le self.old.secs (now - self.old.began) then each (event ∷ []) else [])) }
        ensures prefix { IsPrefix out.old out.new }
    {
        if now.saturating_sub(self.began) >= u64::from(self.secs) {
            send_event(alloc, event, out)?;
        } else {
            self.waiting.push(alloc, event)?;
        }
        Ok(())
    }
}

// What the event holds in the field, in memory of its own.
fn value_of(alloc: Global, event: &Event, field: &Field) -> Result<Value, Memory>
    ensures { IfOk result (λ value. value ≡ field_value event.now field.now) }
{
    if let Some(text) = field_text(event, field) {
        return Ok(Value::Text(text.copy(alloc)?));
    }
    match field_number(event, field) {
        Some(number) => Ok(Value::Number(number)),
        None => Ok(Value::Nil),
    }
}
