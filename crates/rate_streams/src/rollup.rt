ghost use Rattle.std.specs.Prelude.{◌≡◌, ◌+◌, ◌-◌, ◌≤◌, ◌^◌, true, false, [], ◌∷◌, ◌++◌, nat_lt, if◌then◌else◌, IfOk, OnOk, OnErr, IsOk, IsErr, IsTrue};
ghost use Rattle.ev_types.specs.declared.item.Item.TheVariants.{One};
ghost use Rattle.list_laws.specs.Prefix.{IsPrefix};
ghost use Rattle.stream_meaning.specs.Came.{vector};
ghost use Rattle.stream_meaning.specs.Deadlines.{next_deadline};
ghost use Rattle.stream_meaning.specs.Emitted.{emitted};
ghost use Rattle.stream_meaning.specs.declared.entry.Entry.TheVariants.{Tick, Item as In};
ghost use Rattle.stream_meaning.specs.History.{History, ◌▸◌, begun, moment_of, TicksAlone};
ghost use Rattle.stream_meaning.specs.Rates.{one_if};
ghost use Rattle.stream_plan.specs.Kinds.{is_in_range};
ghost use Rattle.stream_plan.specs.Tree.{Rollup};
ghost use Rattle.rate_streams.specs.Rollup.{rollup_kind, rollup_passes, rollup_poisoned, room_in, is_rollup_due, RollupRepresents};
ghost use Rattle.rate_streams.specs.Windows.{number_at};

use crate::send::{send_alone, send_vector};
use crate::windows::Windows;
use ev_types::{Emissions, Event, Events, Memory};
use std::alloc::Global;
use std::mem;

/// At most `count` vectors pass in each window of `secs` seconds: events one by one, and when the window ends the
/// others in one vector, which is the first of the next window. The count is 1 to 1,000,000, and a window has 1 to
/// 604,800 seconds.
#[derive(Clone, Copy)]
pub struct RollupParams {
    pub count: u32,
    pub secs: u32,
}

/// What a `rollup` keeps between entries: how many vectors may still pass in the window that was entered last, and the
/// events of it that wait for its end. Once it was out of memory it is poisoned, and each later `item` and `tick`
/// answers `Memory`.
#[derive(Drop)]
pub struct RollupState {
    count: u32,
    windows: Windows,
    window: u64,
    room: u32,
    waiting: Events,
    poisoned: bool,
}

impl RollupState {
    /// The state to which nothing has come, at the moment `start`, in seconds since 1970. It takes no memory.
    pub fn fresh(alloc: Global, params: RollupParams, start: u64) -> Result<RollupState, Memory>
        requires { IsTrue (is_in_range (Rollup params.count params.secs)) }
        ensures ok { IsOk result }
        ensures kind { IfOk result (λ state.
            rollup_kind state ≡ Rollup params.count params.secs) }
        ensures represents { IfOk result (λ state. (h : History) →
            TicksAlone h → begun h ≡ start → RollupRepresents state h) }
    {
        Ok(RollupState {
            count: params.count,
            windows: Windows::new(start, params.secs),
            window: 0,
            room: params.count,
            waiting: Events::fresh(alloc),
            poisoned: false,
        })
    }

    /// The event comes at the moment `now`. Where one more vector may pass, it is appended to `out` as a vector; else
    /// it waits.
    pub fn item(
        &mut self,
        alloc: Global,
        event: Event,
        now: u64,
        out: &mut Emissions,
    ) -> Result<(), Memory>
        ensures kind { rollup_kind self.new ≡ rollup_kind self.old }
        ensures emits { OnOk result ((h : History) →
            RollupRepresents self.old h → moment_of h ≡ now →
            out.new ≡ out.old ++ emitted (rollup_passes self.old (h ▸ In (One event)))) }
        ensures represents { OnOk result ((h : History) →
            RollupRepresents self.old h → moment_of h ≡ now →
            RollupRepresents self.new (h ▸ In (One event))) }
        ensures poisoned { IsTrue (rollup_poisoned self.old) → IsErr result }
        ensures sound { OnOk result (rollup_poisoned self.new ≡ false) }
        ensures err { OnErr result (IsTrue (rollup_poisoned self.new)) }
        ensures prefix { IsPrefix out.old out.new }
    {
        if self.poisoned {
            return Err(Memory);
        }
        self.poisoned = true;
        let passes = self.admit(now);
        self.send_or_keep(alloc, passes, event, out)?;
        self.poisoned = false;
        Ok(())
    }

    /// A second passes, which brings the moment `now`. Where it ends the window of events that wait, these are appended
    /// to `out` as one vector; else it takes no memory.
    pub fn tick(&mut self, alloc: Global, now: u64, out: &mut Emissions) -> Result<(), Memory>
        ensures kind { rollup_kind self.new ≡ rollup_kind self.old }
        ensures emits { OnOk result ((h : History) →
            RollupRepresents self.old h → moment_of h + 1 ≡ now →
            out.new ≡ out.old ++ emitted (rollup_passes self.old (h ▸ Tick))) }
        ensures represents { OnOk result ((h : History) →
            RollupRepresents self.old h → moment_of h + 1 ≡ now →
            RollupRepresents self.new (h ▸ Tick)) }
        ensures quiet { (h : History) → RollupRepresents self.old h →
            moment_of h + 1 ≡ now →
            rollup_passes self.old (h ▸ Tick) ≡ [] → IsOk result }
        ensures poisoned { IsTrue (rollup_poisoned self.old) → IsErr result }
        ensures sound { OnOk result (rollup_poisoned self.new ≡ false) }
        ensures err { OnErr result (IsTrue (rollup_poisoned self.new)) }
        ensures prefix { IsPrefix out.old out.new }
    {
        if self.poisoned {
            return Err(Memory);
        }
        if !self.is_due(now) {
            return Ok(());
        }
        self.poisoned = true;
        let waiting = self.roll(alloc, now);
        send_vector(alloc, waiting, out)?;
        self.poisoned = false;
        Ok(())
    }

    /// The moment at which something passes next if only seconds follow. It is exact for moments up to 2^40.
    pub fn due(&self) -> Option<u64>
        ensures due { (h : History) → RollupRepresents self.now h → moment_of h ≤ 2 ^ 40 →
            result ≡ next_deadline (rollup_kind self.now) h }
        ensures still { (h : History) → RollupRepresents self.now h →
            rollup_passes self.now (h ▸ Tick) ≡ [] → RollupRepresents self.now (h ▸ Tick) }
    {
        if self.waiting.len() == 0 {
            None
        } else {
            Some(self.windows.end_of(self.window))
        }
    }

    // Whether events wait whose window has ended by the moment `now`.
    fn is_due(&self, now: u64) -> bool
        ensures { result ≡ is_rollup_due self.now now }
    {
        self.waiting.len() > 0 && self.windows.number(now) != self.window
    }

    // Moves on to the window in which an event comes.
    fn enter(&mut self, window: u64)
        ensures { self.new ≡ record self.old { window = window; room = room_in self.old window } }
    {
        if window != self.window {
            self.window = window;
            self.room = self.count;
        }
    }

    // Counts an event that comes at the moment `now`, and says whether it passes.
    fn admit(&mut self, now: u64) -> bool
        ensures test { result ≡ nat_lt 0 (room_in self.old (number_at self.old.windows now)) }
        ensures counted { self.new ≡ record self.old {
          window = number_at self.old.windows now;
          room = room_in self.old (number_at self.old.windows now) - one_if result;
        } }
    {
        let window = self.windows.number(now);
        self.enter(window);
        let passes = self.room > 0;
        if passes {
            self.room -= 1;
        }
        passes
    }

    // Moves on to the window that begins at the moment `now`, of which the events that wait are the first vector.
    fn roll(&mut self, alloc: Global, now: u64) -> Events
        ensures rolled { result ≡ self.old.waiting }
        ensures turned { self.new ≡ record self.old {
          window = number_at self.old.windows now;
          room = self.old.count - 1;
          waiting = [];
        } }
    {
        self.window = self.windows.number(now);
        self.room = self.count.saturating_sub(1);
        mem::replace(&mut self.waiting, Events::fresh(alloc))
    }

    // Appends the event as a vector where it passes; else it waits.
    fn send_or_keep(
        &mut self,
        alloc: Global,
        passes: bool,
        event: Event,
        out: &mut Emissions,
    ) -> Result<(), Memory>
        ensures kept { OnOk result (self.new ≡ record self.old {
          waiting = if passes then self.old.waiting else self.old.waiting ++ event ∷ [];
        }) }
        ensures err { OnErr result (self.new ≡ self.old) }
        ensures sent { OnOk result (out.new ≡
            out.old ++ emitted (if passes then vector (event ∷ []) else [])) }
        ensures prefix { IsPrefix out.old out.new }
    {
        if passes {
            send_alone(alloc, event, out)?;
        } else {
            self.waiting.push(alloc, event)?;
        }
        Ok(())
    }
}
