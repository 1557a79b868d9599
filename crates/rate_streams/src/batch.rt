ghost use Rattle.std.specs.Prelude.{◌≡◌, ◌+◌, ◌≤◌, ◌^◌, true, false, [], ◌++◌, if◌then◌else◌, IfOk, OnOk, OnErr, IsOk, IsErr, IsTrue};
ghost use Rattle.ev_types.specs.declared.item.Item.TheVariants.{One};
ghost use Rattle.list_laws.specs.Prefix.{IsPrefix};
ghost use Rattle.stream_meaning.specs.Came.{vector};
ghost use Rattle.stream_meaning.specs.Deadlines.{next_deadline};
ghost use Rattle.stream_meaning.specs.Emitted.{emitted};
ghost use Rattle.stream_meaning.specs.declared.entry.Entry.TheVariants.{Tick, Item as In};
ghost use Rattle.stream_meaning.specs.History.{History, ◌▸◌, begun, moment_of, TicksAlone};
ghost use Rattle.stream_plan.specs.Kinds.{is_in_range};
ghost use Rattle.stream_plan.specs.Tree.{Batch};
ghost use Rattle.rate_streams.specs.Batch.{batch_kind, batch_passes, batch_poisoned, is_batch_due, is_batch_full, BatchRepresents};

use crate::send::send_vector;
use crate::windows::Windows;
use ev_types::{Emissions, Event, Events, Memory};
use std::alloc::Global;
use std::mem;

/// The events of each window of `secs` seconds pass in vectors of `count`, and the rest when the window ends. The
/// count is 1 to 1,000,000, and a window has 1 to 604,800 seconds.
#[derive(Clone, Copy)]
pub struct BatchParams {
    pub count: u32,
    pub secs: u32,
}

/// What a `batch` keeps between entries: the events that wait for their vector, fewer than `count`, and the number of
/// their window. Once it was out of memory it is poisoned, and each later `item` and `tick` answers `Memory`.
#[derive(Drop)]
pub struct BatchState {
    count: u32,
    windows: Windows,
    window: u64,
    waiting: Events,
    poisoned: bool,
}

impl BatchState {
    /// The state to which nothing has come, at the moment `start`, in seconds since 1970. It takes no memory.
    pub fn fresh(alloc: Global, params: BatchParams, start: u64) -> Result<BatchState, Memory>
        requires { IsTrue (is_in_range (Batch params.count params.secs)) }
        ensures ok { IsOk result }
        ensures kind { IfOk result (λ state. batch_kind state ≡ Batch params.count params.secs) }
        ensures represents { IfOk result (λ state. (h : History) →
            TicksAlone h → begun h ≡ start → BatchRepresents state h) }
    {
        Ok(BatchState {
            count: params.count,
            windows: Windows::new(start, params.secs),
            window: 0,
            waiting: Events::fresh(alloc),
            poisoned: false,
        })
    }

    /// The event comes at the moment `now`. Where it fills a vector, that is appended to `out`.
    pub fn item(
        &mut self,
        alloc: Global,
        event: Event,
        now: u64,
        out: &mut Emissions,
    ) -> Result<(), Memory>
        ensures kind { batch_kind self.new ≡ batch_kind self.old }
        ensures emits { OnOk result ((h : History) →
            BatchRepresents self.old h → moment_of h ≡ now →
            out.new ≡ out.old ++ emitted (batch_passes self.old (h ▸ In (One event)))) }
        ensures represents { OnOk result ((h : History) →
            BatchRepresents self.old h → moment_of h ≡ now →
            BatchRepresents self.new (h ▸ In (One event))) }
        ensures poisoned { IsTrue (batch_poisoned self.old) → IsErr result }
        ensures sound { OnOk result (batch_poisoned self.new ≡ false) }
        ensures err { OnErr result (IsTrue (batch_poisoned self.new)) }
        ensures prefix { IsPrefix out.old out.new }
    {
        if self.poisoned {
            return Err(Memory);
        }
        self.poisoned = true;
        self.window = self.windows.number(now);
        self.waiting.push(alloc, event)?;
        self.send_if_full(alloc, out)?;
        self.poisoned = false;
        Ok(())
    }

    /// A second passes, which brings the moment `now`. Where it ends the window of events that wait, these are appended
    /// to `out` as a vector; else it takes no memory.
    pub fn tick(&mut self, alloc: Global, now: u64, out: &mut Emissions) -> Result<(), Memory>
        ensures kind { batch_kind self.new ≡ batch_kind self.old }
        ensures emits { OnOk result ((h : History) →
            BatchRepresents self.old h → moment_of h + 1 ≡ now →
            out.new ≡ out.old ++ emitted (batch_passes self.old (h ▸ Tick))) }
        ensures represents { OnOk result ((h : History) →
            BatchRepresents self.old h → moment_of h + 1 ≡ now →
            BatchRepresents self.new (h ▸ Tick)) }
        ensures quiet { (h : History) → BatchRepresents self.old h → moment_of h + 1 ≡ now →
            batch_passes self.old (h ▸ Tick) ≡ [] → IsOk result }
        ensures poisoned { IsTrue (batch_poisoned self.old) → IsErr result }
        ensures sound { OnOk result (batch_poisoned self.new ≡ false) }
        ensures err { OnErr result (IsTrue (batch_poisoned self.new)) }
        ensures prefix { IsPrefix out.old out.new }
    {
        if self.poisoned {
            return Err(Memory);
        }
        if !self.is_due(now) {
            return Ok(());
        }
        self.poisoned = true;
        let waiting = mem::replace(&mut self.waiting, Events::fresh(alloc));
        send_vector(alloc, waiting, out)?;
        self.poisoned = false;
        Ok(())
    }

    /// The moment at which something passes next if only seconds follow. It is exact for moments up to 2^40.
    pub fn due(&self) -> Option<u64>
        ensures due { (h : History) → BatchRepresents self.now h → moment_of h ≤ 2 ^ 40 →
            result ≡ next_deadline (batch_kind self.now) h }
        ensures still { (h : History) → BatchRepresents self.now h →
            batch_passes self.now (h ▸ Tick) ≡ [] → BatchRepresents self.now (h ▸ Tick) }
    {
        if self.waiting.len() == 0 {
            None
        } else {
            Some(self.windows.end_of(self.window))
        }
    }

    // Whether events wait whose window has ended by the moment `now`.
    fn is_due(&self, now: u64) -> bool
        ensures { result ≡ is_batch_due self.now now }
    {
        self.waiting.len() > 0 && self.windows.number(now) != self.window
    }

    // Appends the events that wait, where they fill a vector.
    fn send_if_full(&mut self, alloc: Global, out: &mut Emissions) -> Result<(), Memory>
        ensures kept { self.new ≡ record self.old {
          waiting = if is_batch_full self.old then [] else self.old.waiting;
        } }
        ensures sent { OnOk result (out.new ≡ out.old ++ emitted
            (if is_batch_full self.old then vector self.old.waiting else [])) }
        ensures prefix { IsPrefix out.old out.new }
    {
        if self.waiting.len() >= self.count as usize {
            let full = mem::replace(&mut self.waiting, Events::fresh(alloc));
            send_vector(alloc, full, out)?;
        }
        Ok(())
    }
}
