ghost use Rattle.std.specs.Prelude.{◌≡◌, ◌+◌, ◌≤◌, ◌^◌, true, false, [], ◌∷◌, ◌++◌, nat_lt, if◌then◌else◌, IfOk, OnOk, OnErr, IsOk, IsErr, IsTrue};
ghost use Rattle.ev_types.specs.declared.item.Item.TheVariants.{One};
ghost use Rattle.list_laws.specs.Prefix.{IsPrefix};
ghost use Rattle.stream_meaning.specs.Came.{each};
ghost use Rattle.stream_meaning.specs.Rates.{one_if};
ghost use Rattle.stream_meaning.specs.Deadlines.{next_deadline};
ghost use Rattle.stream_meaning.specs.Emitted.{emitted};
ghost use Rattle.stream_meaning.specs.declared.entry.Entry.TheVariants.{Tick, Item as In};
ghost use Rattle.stream_meaning.specs.History.{History, ◌▸◌, begun, moment_of, TicksAlone};
ghost use Rattle.stream_plan.specs.Kinds.{is_in_range};
ghost use Rattle.stream_plan.specs.Tree.{Throttle};
ghost use Rattle.rate_streams.specs.Throttle.{throttle_kind, throttle_passes, throttle_poisoned, passed_in, ThrottleRepresents};
ghost use Rattle.rate_streams.specs.Windows.{number_at};

use crate::send::send_event;
use crate::windows::Windows;
use ev_types::{Emissions, Event, Memory};
use std::alloc::Global;

/// At most `count` events pass in each window of `secs` seconds. The count is 1 to 1,000,000, and a window has 1 to
/// 604,800 seconds.
#[derive(Clone, Copy)]
pub struct ThrottleParams {
    pub count: u32,
    pub secs: u32,
}

/// What a `throttle` keeps between entries: how many events passed in the window of the last one. Once it was out of
/// memory it is poisoned, and each later `item` and `tick` answers `Memory`.
#[derive(Drop)]
pub struct ThrottleState {
    count: u32,
    windows: Windows,
    window: u64,
    passed: u32,
    poisoned: bool,
}

impl ThrottleState {
    /// The state to which nothing has come, at the moment `start`, in seconds since 1970. It takes no memory.
    pub fn fresh(
        _alloc: Global,
        params: ThrottleParams,
        start: u64,
    ) -> Result<ThrottleState, Memory>
        requires { IsTrue (is_in_range (Throttle params.count params.secs)) }
        ensures ok { IsOk result }
        ensures kind { IfOk result (λ state.
            throttle_kind state ≡ Throttle params.count params.secs) }
        ensures represents { IfOk result (λ state. (h : History) →
            TicksAlone h → begun h ≡ start → ThrottleRepresents state h) }
    {
        Ok(ThrottleState {
            count: params.count,
            windows: Windows::new(start, params.secs),
            window: 0,
            passed: 0,
            poisoned: false,
        })
    }

    /// The event comes at the moment `now`. Where it passes, it is appended to `out`.
    pub fn item(
        &mut self,
        alloc: Global,
        event: Event,
        now: u64,
        out: &mut Emissions,
    ) -> Result<(), Memory>
        ensures kind { throttle_kind self.new ≡ throttle_kind self.old }
        ensures emits { OnOk result ((h : History) →
            ThrottleRepresents self.old h → moment_of h ≡ now →
            out.new ≡ out.old ++ emitted (throttle_passes self.old (h ▸ In (One event)))) }
        ensures represents { OnOk result ((h : History) →
            ThrottleRepresents self.old h → moment_of h ≡ now →
            ThrottleRepresents self.new (h ▸ In (One event))) }
        ensures poisoned { IsTrue (throttle_poisoned self.old) → IsErr result }
        ensures sound { OnOk result (throttle_poisoned self.new ≡ false) }
        ensures err { OnErr result (IsTrue (throttle_poisoned self.new)) }
        ensures prefix { IsPrefix out.old out.new }
    {
        if self.poisoned {
            return Err(Memory);
        }
        self.poisoned = true;
        let passes = self.admit(now);
        send_if(alloc, passes, event, out)?;
        self.poisoned = false;
        Ok(())
    }

    /// A second passes, which brings the moment `now`. Nothing passes at it.
    pub fn tick(&mut self, _alloc: Global, now: u64, out: &mut Emissions) -> Result<(), Memory>
        ensures kind { throttle_kind self.new ≡ throttle_kind self.old }
        ensures emits { OnOk result ((h : History) →
            ThrottleRepresents self.old h → moment_of h + 1 ≡ now →
            out.new ≡ out.old ++ emitted (throttle_passes self.old (h ▸ Tick))) }
        ensures represents { OnOk result ((h : History) →
            ThrottleRepresents self.old h → moment_of h + 1 ≡ now →
            ThrottleRepresents self.new (h ▸ Tick)) }
        ensures quiet { (h : History) → ThrottleRepresents self.old h →
            moment_of h + 1 ≡ now →
            throttle_passes self.old (h ▸ Tick) ≡ [] → IsOk result }
        ensures poisoned { IsTrue (throttle_poisoned self.old) → IsErr result }
        ensures sound { OnOk result (throttle_poisoned self.new ≡ false) }
        ensures err { OnErr result (IsTrue (throttle_poisoned self.new)) }
        ensures prefix { IsPrefix out.old out.new }
    {
        if self.poisoned {
            return Err(Memory);
        }
        Ok(())
    }

    /// The moment at which something passes next if only seconds follow: there is none.
    pub fn due(&self) -> Option<u64>
        ensures due { (h : History) → ThrottleRepresents self.now h → moment_of h ≤ 2 ^ 40 →
            result ≡ next_deadline (throttle_kind self.now) h }
        ensures still { (h : History) → ThrottleRepresents self.now h →
            throttle_passes self.now (h ▸ Tick) ≡ [] →
            ThrottleRepresents self.now (h ▸ Tick) }
    {
        None
    }

    // Moves on to the window in which an event comes.
    fn enter(&mut self, window: u64)
        ensures { self.new ≡
            record self.old { window = window; passed = passed_in self.old window } }
    {
        if window != self.window {
            self.window = window;
            self.passed = 0;
        }
    }

    // Counts an event that comes at the moment `now`, and says whether it passes.
    fn admit(&mut self, now: u64) -> bool
        ensures test { result ≡
            nat_lt (passed_in self.old (number_at self.old.windows now)) self.old.count }
        ensures counted { self.new ≡ record self.old {
          window = number_at self.old.windows now;
          passed = passed_in self.old (number_at self.old.windows now) + one_if result;
        } }
    {
        let window = self.windows.number(now);
        self.enter(window);
        let passes = self.passed < self.count;
        if passes {
            self.passed += 1;
        }
        passes
    }
}

// Appends the event where it passes.
fn send_if(alloc: Global, passes: bool, event: Event, out: &mut Emissions) -> Result<(), Memory>
    ensures ok { OnOk result (out.new ≡
        out.old ++ emitted (if passes then each (event ∷ []) else [])) }
    ensures prefix { IsPrefix out.old out.new }
{
    if passes {
        send_event(alloc, event, out)?;
    }
    Ok(())
}
