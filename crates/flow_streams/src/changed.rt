ghost use Rattle.std.specs.Prelude.{◌≡◌, ◌+◌, [], ◌∷◌, ◌++◌, false, if◌then◌else◌, Some, IfOk, IsErr, IsOk, IsTrue, OnErr, OnOk};
ghost use Rattle.ev_types.specs.Field.{field_value};
ghost use Rattle.ev_types.specs.declared.item.Item.TheVariants.{One};
ghost use Rattle.list_laws.specs.Prefix.{IsPrefix};
ghost use Rattle.stream_plan.specs.Tree.{Changed};
ghost use Rattle.stream_meaning.specs.Came.{each};
ghost use Rattle.stream_meaning.specs.Deadlines.{next_deadline};
ghost use Rattle.stream_meaning.specs.Emitted.{emitted};
ghost use Rattle.stream_meaning.specs.declared.entry.Entry.TheVariants.{Tick, Item as In};
ghost use Rattle.stream_meaning.specs.History.{History, ◌▸◌, TicksAlone, begun, moment_of};
ghost use Rattle.stream_meaning.specs.Runs.{differs_from};
ghost use Rattle.flow_streams.specs.Changed.{changed_kind, changed_at, is_poisoned, ChangedRepresents};

use crate::emit::{copy_value, emit_if};
use ev_types::{Emissions, Event, Field, Memory, Value, field_is};
use std::alloc::Global;
use std::snapshot::Snapshot;

/// What a `changed` stream is made from.
#[derive(Drop)]
pub struct ChangedParams {
    pub field: Field,
    /// What the first event's field is compared with. The first event passes where it is absent.
    pub init: Option<Value>,
}

/// What a `changed` stream keeps. It passes on each event whose field differs from that of the event before.
pub struct ChangedState {
    field: Field,
    // What the first event's field is compared with. Only proofs see it, and it has no bytes.
    init: Snapshot<Option<Value>>,
    // What the next event's field is compared with: what the last event's field held, or `init` if none has come.
    last: Option<Value>,
    poisoned: bool,
}

impl Drop for ChangedState {
    fn drop(self) {
        let ChangedState {
            field: _field,
            init: _init,
            last: _last,
            poisoned: _poisoned,
        } = self;
    }
}

impl ChangedState {
    /// The state of a stream that begins at the moment `start`, in seconds since 1970. It takes no memory.
    pub fn fresh(_alloc: Global, params: ChangedParams, start: u64) -> Result<ChangedState, Memory>
        ensures ok { IsOk result }
        ensures kind { IfOk result (λ s. changed_kind s ≡ Changed params.field params.init) }
        ensures represents { IfOk result (λ s. (h : History) → TicksAlone h →
            begun h ≡ start →
            ChangedRepresents s h) }
    {
        let ChangedParams { field, init } = params;
        Ok(ChangedState {
            field,
            init: Snapshot::of(&init),
            last: init,
            poisoned: false,
        })
    }

    /// The event comes at the moment `now`. It is appended to `out` where its field differs from that of the event
    /// before, and takes memory only then. Once the answer was `Memory`, it is from then on.
    pub fn item(
        &mut self,
        alloc: Global,
        event: Event,
        now: u64,
        out: &mut Emissions,
    ) -> Result<(), Memory>
        ensures kind { changed_kind self.new ≡ changed_kind self.old }
        ensures emits { OnOk result ((h : History) → ChangedRepresents self.old h →
            moment_of h ≡ now →
            out.new ≡ out.old ++ emitted (changed_at self.old (h ▸ In (One event)))) }
        ensures represents { OnOk result ((h : History) → ChangedRepresents self.old h →
            moment_of h ≡ now →
            ChangedRepresents self.new (h ▸ In (One event))) }
        ensures memory { (h : History) → ChangedRepresents self.old h → moment_of h ≡ now →
            changed_at self.old (h ▸ In (One event)) ≡ [] → IsOk result }
        ensures poisoned { IsTrue (is_poisoned self.old) → IsErr result }
        ensures err { OnErr result (IsTrue (is_poisoned self.new)) }
        ensures sound { OnOk result (is_poisoned self.new ≡ false) }
        ensures prefix { IsPrefix out.old out.new }
    {
        if self.poisoned {
            return Err(Memory);
        }
        self.poisoned = true;
        let differs = self.follow(alloc, &event)?;
        emit_if(alloc, differs, event, out)?;
        self.poisoned = false;
        Ok(())
    }

    /// Whether the event, which comes at the moment `now`, passes: its field differs from that of the event before.
    /// It takes memory only where it passes. Once the answer was `Memory`, it is from then on.
    pub fn passes(&mut self, alloc: Global, event: &Event, now: u64) -> Result<bool, Memory>
        ensures kind { changed_kind self.new ≡ changed_kind self.old }
        ensures passes { IfOk result (λ passes. (h : History) → ChangedRepresents self.old h →
            moment_of h ≡ now → changed_at self.old (h ▸ In (One event.now))
            ≡ (if passes then each (event.now ∷ []) else [])) }
        ensures represents { OnOk result ((h : History) → ChangedRepresents self.old h →
            moment_of h ≡ now →
            ChangedRepresents self.new (h ▸ In (One event.now))) }
        ensures memory { (h : History) → ChangedRepresents self.old h → moment_of h ≡ now →
            changed_at self.old (h ▸ In (One event.now)) ≡ [] → IsOk result }
        ensures poisoned { IsTrue (is_poisoned self.old) → IsErr result }
        ensures err { OnErr result (IsTrue (is_poisoned self.new)) }
        ensures sound { OnOk result (is_poisoned self.new ≡ false) }
    {
        if self.poisoned {
            return Err(Memory);
        }
        self.poisoned = true;
        let passes = self.follow(alloc, event)?;
        self.poisoned = false;
        Ok(passes)
    }

    /// The second `now` passes. Nothing is appended to `out`, and it takes no memory.
    pub fn tick(&mut self, _alloc: Global, now: u64, out: &mut Emissions) -> Result<(), Memory>
        ensures kind { changed_kind self.new ≡ changed_kind self.old }
        ensures emits { OnOk result ((h : History) → ChangedRepresents self.old h →
            moment_of h + 1 ≡ now →
            out.new ≡ out.old ++ emitted (changed_at self.old (h ▸ Tick))) }
        ensures represents { OnOk result ((h : History) → ChangedRepresents self.old h →
            moment_of h + 1 ≡ now →
            ChangedRepresents self.new (h ▸ Tick)) }
        ensures quiet { (h : History) → ChangedRepresents self.old h →
            moment_of h + 1 ≡ now →
            changed_at self.old (h ▸ Tick) ≡ [] → IsOk result }
        ensures poisoned { IsTrue (is_poisoned self.old) → IsErr result }
        ensures err { OnErr result (IsTrue (is_poisoned self.new)) }
        ensures sound { OnOk result (is_poisoned self.new ≡ false) }
        ensures prefix { IsPrefix out.old out.new }
    {
        if self.poisoned {
            return Err(Memory);
        }
        Ok(())
    }

    /// The next moment at which something is appended if only ticks follow: there is none.
    pub fn due(&self) -> Option<u64>
        ensures due { (h : History) → ChangedRepresents self.now h →
            result ≡ next_deadline (changed_kind self.now) h }
        ensures still { (h : History) → ChangedRepresents self.now h →
            changed_at self.now (h ▸ Tick) ≡ [] →
            ChangedRepresents self.now (h ▸ Tick) }
    {
        None
    }

    /// Whether the event's field differs. If so, what it holds is kept, and only that takes memory.
    fn follow(&mut self, alloc: Global, event: &Event) -> Result<bool, Memory>
        ensures field { self.new.field ≡ self.old.field }
        ensures init { self.new.init ≡ self.old.init }
        ensures poisoned { self.new.poisoned ≡ self.old.poisoned }
        ensures differs { IfOk result (λ differs. differs
            ≡ differs_from self.old.field self.old.last event.now) }
        ensures last { IfOk result (λ differs. self.new.last ≡ (if differs
            then Some (field_value event.now self.old.field) else self.old.last)) }
        ensures memory { differs_from self.old.field self.old.last event.now
            ≡ false → IsOk result }
    {
        if !self.differs(event) {
            return Ok(false);
        }
        self.last = Some(copy_value(alloc, event, &self.field)?);
        Ok(true)
    }

    fn differs(&self, event: &Event) -> bool
        ensures { result ≡ differs_from self.now.field self.now.last event.now }
    {
        match &self.last {
            Some(value) => !field_is(event, &self.field, value),
            None => true,
        }
    }
}
