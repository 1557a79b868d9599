ghost use Rattle.std.specs.Prelude.{◌≡◌, ◌+◌, min, if◌then◌else◌, [], ◌++◌, Some, false, IfOk, IsErr, IsOk, IsTrue, OnErr, OnOk};
ghost use Rattle.ev_types.specs.declared.item.Item.TheVariants.{One};
ghost use Rattle.ev_types.specs.Field.{field_value};
ghost use Rattle.list_laws.specs.Prefix.{IsPrefix};
ghost use Rattle.stream_plan.specs.Tree.{Runs};
ghost use Rattle.stream_meaning.specs.declared.entry.Entry.TheVariants.{Tick, Item as In};
ghost use Rattle.stream_meaning.specs.Deadlines.{next_deadline};
ghost use Rattle.stream_meaning.specs.Emitted.{emitted};
ghost use Rattle.stream_meaning.specs.History.{History, ◌▸◌, TicksAlone, begun, moment_of};
ghost use Rattle.stream_meaning.specs.Runs.{differs_from};
ghost use Rattle.flow_streams.specs.Runs.{runs_kind, runs_at, is_poisoned, RunsRepresents};

use crate::emit::{copy_value, emit_if};
use ev_types::{Emissions, Event, Field, Memory, Value, field_is};
use std::alloc::Global;

/// What a `runs` stream is made from.
#[derive(Drop)]
pub struct RunsParams {
    /// How many events in a row have to hold the same.
    pub count: u32,
    pub field: Field,
}

/// What a `runs` stream keeps. It passes on each event that is the last of `count` whose fields are equal.
pub struct RunsState {
    params: RunsParams,
    // What the field held in the last event.
    last: Option<Value>,
    // How many of the last events hold it, at most `count`.
    length: u32,
    poisoned: bool,
}

impl Drop for RunsState {
    fn drop(self) {
        let RunsState {
            params: _params,
            last: _last,
            length: _length,
            poisoned: _poisoned,
        } = self;
    }
}

impl RunsState {
    /// The state of a stream that begins at the moment `start`, in seconds since 1970. It takes no memory.
    pub fn fresh(_alloc: Global, params: RunsParams, start: u64) -> Result<RunsState, Memory>
        ensures ok { IsOk result }
        ensures kind { IfOk result (λ s. runs_kind s ≡ Runs params.count params.field) }
        ensures represents { IfOk result (λ s. (h : History) → TicksAlone h →
            begun h ≡ start →
            RunsRepresents s h) }
    {
        Ok(RunsState {
            params,
            last: None,
            length: 0,
            poisoned: false,
        })
    }

    /// The event comes at the moment `now`. It is appended to `out` where it is the last of `count` events whose
    /// fields are equal. Once the answer was `Memory`, it is from then on.
    pub fn item(
        &mut self,
        alloc: Global,
        event: Event,
        now: u64,
        out: &mut Emissions,
    ) -> Result<(), Memory>
        ensures kind { runs_kind self.new ≡ runs_kind self.old }
        ensures emits { OnOk result ((h : History) → RunsRepresents self.old h →
            moment_of h ≡ now →
            out.new ≡ out.old ++ emitted (runs_at self.old (h ▸ In (One event)))) }
        ensures represents { OnOk result ((h : History) → RunsRepresents self.old h →
            moment_of h ≡ now →
            RunsRepresents self.new (h ▸ In (One event))) }
        ensures poisoned { IsTrue (is_poisoned self.old) → IsErr result }
        ensures err { OnErr result (IsTrue (is_poisoned self.new)) }
        ensures sound { OnOk result (is_poisoned self.new ≡ false) }
        ensures prefix { IsPrefix out.old out.new }
    {
        if self.poisoned {
            return Err(Memory);
        }
        self.poisoned = true;
        self.follow(alloc, &event)?;
        let is_full = self.length == self.params.count;
        emit_if(alloc, is_full, event, out)?;
        self.poisoned = false;
        Ok(())
    }

    /// The second `now` passes. Nothing is appended to `out`, and it takes no memory.
    pub fn tick(&mut self, _alloc: Global, now: u64, out: &mut Emissions) -> Result<(), Memory>
        ensures kind { runs_kind self.new ≡ runs_kind self.old }
        ensures emits { OnOk result ((h : History) → RunsRepresents self.old h →
            moment_of h + 1 ≡ now →
            out.new ≡ out.old ++ emitted (runs_at self.old (h ▸ Tick))) }
        ensures represents { OnOk result ((h : History) → RunsRepresents self.old h →
            moment_of h + 1 ≡ now →
            RunsRepresents self.new (h ▸ Tick)) }
        ensures quiet { (h : History) → RunsRepresents self.old h → moment_of h + 1 ≡ now →
            runs_at self.old (h ▸ Tick) ≡ [] → IsOk result }
        ensures poisoned { IsTrue (is_poisoned self.old) → IsErr result }
        ensures err { OnErr result (IsTrue (is_poisoned self.new)) }
        ensures sound { OnOk result (is_poisoned self.new ≡ false) }
        ensures prefix { IsPrefix out.old out.new }
    {
        if self.poisoned {
            return Err(Memory);
        }
        Ok(())
    }

    /// The next moment at which something is appended if only ticks follow: there is none.
    pub fn due(&self) -> Option<u64>
        ensures due { (h : History) → RunsRepresents self.now h →
            result ≡ next_deadline (runs_kind self.now) h }
        ensures still { (h : History) → RunsRepresents self.now h →
            runs_at self.now (h ▸ Tick) ≡ [] →
            RunsRepresents self.now (h ▸ Tick) }
    {
        None
    }

    // Counts the event to the run that it goes on with, or begins a new one with it.
    fn follow(&mut self, alloc: Global, event: &Event) -> Result<(), Memory>
        ensures params { self.new.params ≡ self.old.params }
        ensures poisoned { self.new.poisoned ≡ self.old.poisoned }
        ensures last { OnOk result
            (self.new.last ≡ Some (field_value event.now self.old.params.field)) }
        ensures length { OnOk result (self.new.length ≡ min self.old.params.count
            (if differs_from self.old.params.field self.old.last event.now
            then 1 else self.old.length + 1)) }
    {
        if self.differs(event) {
            self.last = Some(copy_value(alloc, event, &self.params.field)?);
            self.length = self.params.count.min(1);
        } else {
            self.length = self.params.count.min(self.length.saturating_add(1));
        }
        Ok(())
    }

    fn differs(&self, event: &Event) -> bool
        ensures { result ≡ differs_from self.now.params.field self.now.last event.now }
    {
        match &self.last {
            Some(value) => !field_is(event, &self.params.field, value),
            None => true,
        }
    }
}
