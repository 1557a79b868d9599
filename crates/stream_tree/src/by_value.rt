//! The call that takes an event by value.

ghost use Rattle.std.specs.Prelude.{◌≡◌, ◌≤◌, ◌^◌, false, IsErr, IsTrue, OnErr, OnOk};
ghost use Rattle.ev_types.specs.declared.item.Item.TheVariants.{One};
ghost use Rattle.stream_meaning.specs.declared.entry.Entry.TheVariants.{Item as In};
ghost use Rattle.stream_meaning.specs.History.{History, ◌▸◌, moment_of};
ghost use Rattle.stream_meaning.specs.Outputs.{plan_effects};
ghost use Rattle.list_laws.specs.Prefix.{IsPrefix};
ghost use Rattle.stream_tree.specs.Tree.{plan_of, is_poisoned, Represents, Performs, PerformsPart};

use crate::Tree;
use ev_types::{Event, Memory, Output, Outputs};
use std::alloc::Global;
use step_count::{Ledger, Steps};

impl Tree {
    /// The event comes to the streams as by [`Tree::offer`], but by value, and its write is appended to `out` too.
    pub fn item<G: Ledger>(
        &mut self,
        alloc: Global,
        mut event: Event,
        now: u64,
        out: &mut Outputs,
        steps: &mut Steps<G>,
    ) -> Result<(), Memory>
        requires { now ≤ 2 ^ 40 }
        ensures plan { plan_of self.new ≡ plan_of self.old }
        ensures grew { OnOk result ((h : History) → Represents self.old h →
            moment_of h ≡ now →
            Performs out.old steps.old out.new steps.new
            (plan_effects (plan_of self.old) (h ▸ In (One event)))) }
        ensures part { OnErr result ((h : History) → Represents self.old h →
            moment_of h ≡ now →
            PerformsPart out.old steps.old out.new steps.new
            (plan_effects (plan_of self.old) (h ▸ In (One event)))) }
        ensures represents { OnOk result ((h : History) → Represents self.old h →
            moment_of h ≡ now →
            Represents self.new (h ▸ In (One event))) }
        ensures poisoned { IsTrue (is_poisoned self.old) → IsErr result }
        ensures err { OnErr result (IsTrue (is_poisoned self.new)) }
        ensures sound { OnOk result (is_poisoned self.new ≡ false) }
        ensures prefix { IsPrefix out.old out.new }
    {
        if !self.offer(alloc, &mut event, now, out, steps)? {
            return Ok(());
        }
        self.poisoned = true;
        out.push(alloc, Output::Write(event))?;
        self.poisoned = false;
        Ok(())
    }
}
