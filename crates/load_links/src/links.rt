ghost use Rattle.std.specs.Prelude.{◌≡◌, ◌+◌, ◌-◌, ◌<◌, ◌≤◌, ◌∷◌, ◌++◌, [], Some, false, length, IfOk, OnOk};
ghost use Rattle.framing.specs.Frames.{frames_of};
ghost use Rattle.load_links.specs.Load.{event_steps, load_script};
ghost use Rattle.ports.specs.Playing.{bytes_taken};

use crate::events::{number_after, push_event, push_query};
use crate::replies::count_frames;
use ev_types::{Memory, Text};
use ports::{
    LinkEvent, Links, ListenAnswer, Script, ScriptLinks, ScriptSteps, SendAnswer, Step, Turn, Wants,
};
use std::alloc::Global;
use std::marker::Model;

/// Links in memory on which one client sends generated events, and then asks for all events. They never fail, and take
/// every send whole. Contracts see the script that they play and the calls so far.
#[derive(Drop)]
pub struct LoadLinks {
    inner: ScriptLinks,
}

impl Model for LoadLinks {
    ghost use Rattle.ports.specs.ScriptLinks.{ScriptedCalls};

    ghost Value = { ScriptedCalls };

    ghost view = { λ links. links.inner };
}

impl LoadLinks {
    /// The links of a load of `count` events, at most 1,000,000, which are drawn from the number `start`.
    pub fn fresh(alloc: Global, count: u64, start: u64) -> Result<LoadLinks, Memory>
        requires { count ≤ 1000000 }
        ensures script { IfOk result (λ links. links.script ≡ load_script count start) }
        ensures log { IfOk result (λ links. links.log ≡ []) }
        ensures poisoned { IfOk result (λ links. links.poisoned ≡ false) }
    {
        let mut steps = ScriptSteps::fresh(alloc);
        push_load(alloc, count, start, &mut steps)?;
        Ok(LoadLinks {
            inner: ScriptLinks::fresh(alloc, Script { start: 0, steps }),
        })
    }

    /// How many whole reply frames were taken from the client's link.
    pub fn replies(&self) -> u64
        ensures { result ≡ length (frames_of (bytes_taken 0 self.now.log)) }
    {
        count_frames(self.inner.taken(0).as_slice())
    }
}

/// Adds all turns of a load to an empty script.
#[tactic(auto, using(crate::proofs::LoadLemmas::turns_whole))]
fn push_load(alloc: Global, count: u64, start: u64, steps: &mut ScriptSteps) -> Result<(), Memory>
    requires count { count ≤ 1000000 }
    requires empty { steps.old ≡ [] }
    ensures { OnOk result (steps.new ≡ (load_script count start).steps) }
{
    push_turn(alloc, 0, LinkEvent::Opened { link: 0 }, steps)?;
    push_events(alloc, count, start, steps)?;
    push_query(alloc, count / 10, steps)?;
    push_turn(alloc, count / 10, LinkEvent::Ended { link: 0 }, steps)
}

/// Adds a turn.
fn push_turn(
    alloc: Global,
    secs: u64,
    event: LinkEvent,
    steps: &mut ScriptSteps,
) -> Result<(), Memory>
    ensures { OnOk result (steps.new ≡ steps.old ++ Step.Turn secs event ∷ []) }
{
    steps.push(alloc, Step::Turn { secs, event })?;
    Ok(())
}

/// Adds the reads of all events.
#[tactic(auto, using(crate::proofs::LoadLemmas::pushed_none, crate::proofs::LoadLemmas::next_number, crate::proofs::LoadLemmas::pushed_more, crate::proofs::LoadLemmas::pushed_all))]
fn push_events(alloc: Global, count: u64, start: u64, steps: &mut ScriptSteps) -> Result<(), Memory>
    requires { count ≤ 1000000 }
    ensures { OnOk result (steps.new ≡ steps.old ++ event_steps start 1 count) }
{
    let mut number = start;
    for i in 1..count + 1 {
        number = number_after(number);
        push_event(alloc, i, number, steps)?;
    }
    Ok(())
}

impl Links for LoadLinks {
    ghost use Rattle.ports.specs.ScriptLinks.{script_report};

    ghost report = { λ links. script_report links };

    fn listen(&mut self, alloc: Global, address: &Text) -> ListenAnswer {
        self.inner.listen(alloc, address)
    }

    fn next(&mut self, alloc: Global, wants: &Wants, buf: &mut [u8]) -> Turn {
        self.inner.next(alloc, wants, buf)
    }

    fn send(&mut self, alloc: Global, link: u64, bytes: &[u8]) -> SendAnswer {
        self.inner.send(alloc, link, bytes)
    }

    fn close(&mut self, link: u64) {
        self.inner.close(link);
    }
}
