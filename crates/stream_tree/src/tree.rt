ghost use Rattle.std.specs.Prelude.{◌≡◌, ◌≢◌, ◌≤◌, ◌+◌, ◌^◌, true, false, [], ◌∷◌, IfOk, OnOk, OnErr, IsErr, IsOk, IsTrue};
ghost use Rattle.ev_types.specs.declared.item.Item.TheVariants.{One};
ghost use Rattle.ev_types.specs.declared.item.Output.TheVariants.{Write};
ghost use Rattle.stream_meaning.specs.declared.entry.Entry.TheVariants.{Tick, Item as In};
ghost use Rattle.stream_meaning.specs.History.{History, ◌▸◌, begun, moment_of, TicksAlone};
ghost use Rattle.stream_meaning.specs.Deadlines.{plan_deadline};
ghost use Rattle.stream_meaning.specs.Outputs.{Put, plan_effects};
ghost use Rattle.stream_plan.specs.Ready.{plan_patterns};
ghost use Rattle.list_laws.specs.Prefix.{IsPrefix};
ghost use Rattle.stream_tree.specs.Tree.{plan_of, is_poisoned, Represents, with_write, Performs, PerformsPart};
ghost use Rattle.stream_tree.specs.Unseen.{plan_unseen};

use crate::forest::{Forest, fresh_forest};
use crate::give::{is_alone, offer_forest};
use crate::next::forest_due;
use crate::run::run_forest;
use crate::unseen::{Unseen, forest_unseen, may_be_unseen};
use ev_types::{Event, EventFields, Memory, Outputs};
use std::alloc::Global;
use step_count::{Ledger, Steps};
use stream_meaning::Entry;
use stream_plan::ReadyPlan;
use stream_step::Context;

/// A plan of streams that runs. Once a call ran out of memory it is poisoned, and each later call that can answer
/// `Memory` does.
pub struct Tree {
    plan: ReadyPlan,
    forest: Forest,
    /// The moment at which it began, in seconds since 1970.
    start: u64,
    pub(crate) poisoned: bool,
}

impl Drop for Tree {
    fn drop(self) {
        let Tree {
            plan: _plan,
            forest: _forest,
            start: _start,
            poisoned: _poisoned,
        } = self;
    }
}

impl Tree {
    /// A tree to which nothing has come, at the moment `start`, in seconds since 1970.
    pub fn fresh(alloc: Global, plan: ReadyPlan, start: u64) -> Result<Tree, Memory>
        requires { start ≤ 2 ^ 40 }
        ensures plan { IfOk result (λ tree. plan_of tree ≡ plan) }
        ensures represents { IfOk result (λ tree. (h : History) → TicksAlone h →
            begun h ≡ start → Represents tree h) }
    {
        let forest = fresh_forest(alloc, &plan.plan().streams, &mut 0, start)?;
        Ok(Tree {
            plan,
            forest,
            start,
            poisoned: false,
        })
    }

    /// The event comes to the streams at the moment `now`. Their outputs are appended to `out`, but the write of a last
    /// stream that is an `index` may be left to the caller: the answer is then true, and `event` is as it was. Else the
    /// answer is false, and what is left in `event` is not specified. After `Memory` the tree is poisoned, and a prefix
    /// of the outputs was appended.
    pub fn offer<G: Ledger>(
        &mut self,
        alloc: Global,
        event: &mut Event,
        now: u64,
        out: &mut Outputs,
        steps: &mut Steps<G>,
    ) -> Result<bool, Memory>
        requires { now ≤ 2 ^ 40 }
        ensures plan { plan_of self.new ≡ plan_of self.old }
        ensures grew { IfOk result (λ is_write_due. (h : History) → Represents self.old h →
            moment_of h ≡ now →
            Performs out.old steps.old (with_write is_write_due event.old out.new) steps.new
            (plan_effects (plan_of self.old) (h ▸ In (One event.old)))) }
        ensures part { OnErr result ((h : History) → Represents self.old h →
            moment_of h ≡ now →
            PerformsPart out.old steps.old out.new steps.new
            (plan_effects (plan_of self.old) (h ▸ In (One event.old)))) }
        ensures event { IfOk result (λ is_write_due. is_write_due ≡ true →
            event.new ≡ event.old) }
        ensures represents { OnOk result ((h : History) → Represents self.old h →
            moment_of h ≡ now →
            Represents self.new (h ▸ In (One event.old))) }
        ensures poisoned { IsTrue (is_poisoned self.old) → IsErr result }
        ensures err { OnErr result (IsTrue (is_poisoned self.new)) }
        ensures sound { OnOk result (is_poisoned self.new ≡ false) }
        ensures prefix { IsPrefix out.old out.new }
    {
        if self.poisoned {
            return Err(Memory);
        }
        self.poisoned = true;
        let context = Context {
            patterns: self.plan.patterns(),
            moment: now,
            start: self.start,
        };
        let streams = &self.plan.plan().streams;
        let is_write_due = offer_forest(
            alloc,
            streams,
            &mut self.forest,
            event,
            &context,
            out,
            steps,
        )?;
        self.poisoned = false;
        Ok(is_write_due)
    }

    /// An event comes to the streams, if its fields say what they do with it. They do nothing, or they write the event,
    /// whose write is left to the caller, as [`Tree::offer`] may leave it. If the event itself is needed, nothing has
    /// come to the streams. If no stream has a regular expression, it takes no memory. `Memory`: the tree is poisoned.
    #[inline]
    pub fn offer_fields<E: EventFields>(
        &mut self,
        alloc: Global,
        event: &E,
    ) -> Result<Unseen, Memory>
        ensures plan { plan_of self.new ≡ plan_of self.old }
        ensures answer { IfOk result (λ unseen. (h : History) → Represents self.old h →
            unseen ≡ plan_unseen (plan_of self.old) (E.event event.now)) }
        ensures nothing { IfOk result (λ unseen. unseen ≡ Unseen.Nothing →
            (h : History) → Represents self.old h →
            plan_effects (plan_of self.old) (h ▸ In (One (E.event event.now))) ≡ []) }
        ensures write { IfOk result (λ unseen. unseen ≡ Unseen.Write →
            (h : History) → Represents self.old h →
            plan_effects (plan_of self.old) (h ▸ In (One (E.event event.now)))
            ≡ Put (Write (E.event event.now)) ∷ []) }
        ensures represents { IfOk result (λ unseen. unseen ≢ Unseen.Needed →
            (h : History) → Represents self.old h →
            Represents self.new (h ▸ In (One (E.event event.now)))) }
        ensures unchanged { OnOk result (self.new ≡ self.old) }
        ensures memory { plan_patterns (plan_of self.old) ≡ [] →
            is_poisoned self.old ≡ false → IsOk result }
        ensures poisoned { IsTrue (is_poisoned self.old) → IsErr result }
        ensures err { OnErr result (IsTrue (is_poisoned self.new)) }
        ensures sound { OnOk result (is_poisoned self.new ≡ false) }
    {
        if self.poisoned {
            return Err(Memory);
        }
        if is_alone(&self.plan.plan().streams) {
            return Ok(Unseen::Write);
        }
        let unseen = self.look_at(alloc, event)?;
        Ok(unseen)
    }

    /// What the streams do with the event, if its fields say it. `Memory`: the tree is poisoned.
    fn look_at<E: EventFields>(&mut self, alloc: Global, event: &E) -> Result<Unseen, Memory>
        ensures plan { plan_of self.new ≡ plan_of self.old }
        ensures answer { IfOk result (λ unseen. (h : History) → Represents self.old h →
            unseen ≡ plan_unseen (plan_of self.old) (E.event event.now)) }
        ensures unchanged { OnOk result (self.new ≡ self.old) }
        ensures memory { plan_patterns (plan_of self.old) ≡ [] → IsOk result }
        ensures err { OnErr result (IsTrue (is_poisoned self.new)) }
    {
        let streams = &self.plan.plan().streams;
        if !may_be_unseen(streams) {
            return Ok(Unseen::Needed);
        }
        match forest_unseen(alloc, streams, &self.forest, self.plan.patterns(), event) {
            Ok(unseen) => Ok(unseen),
            Err(Memory) => {
                self.poisoned = true;
                Err(Memory)
            }
        }
    }

    /// One more second has passed, and it is the moment `now`. The outputs of the streams are appended to `out`. Only
    /// forks that are due are entered, and where nothing is due it takes no memory. After `Memory` the tree is
    /// poisoned, and a prefix of the outputs was appended.
    pub fn tick<G: Ledger>(
        &mut self,
        alloc: Global,
        now: u64,
        out: &mut Outputs,
        steps: &mut Steps<G>,
    ) -> Result<(), Memory>
        requires { now ≤ 2 ^ 40 }
        ensures plan { plan_of self.new ≡ plan_of self.old }
        ensures grew { OnOk result ((h : History) → Represents self.old h →
            moment_of h + 1 ≡ now →
            Performs out.old steps.old out.new steps.new
            (plan_effects (plan_of self.old) (h ▸ Tick))) }
        ensures part { OnErr result ((h : History) → Represents self.old h →
            moment_of h + 1 ≡ now →
            PerformsPart out.old steps.old out.new steps.new
            (plan_effects (plan_of self.old) (h ▸ Tick))) }
        ensures quiet { (h : History) → Represents self.old h → moment_of h + 1 ≡ now →
            plan_effects (plan_of self.old) (h ▸ Tick) ≡ [] → IsOk result }
        ensures represents { OnOk result ((h : History) → Represents self.old h →
            moment_of h + 1 ≡ now →
            Represents self.new (h ▸ Tick)) }
        ensures poisoned { IsTrue (is_poisoned self.old) → IsErr result }
        ensures err { OnErr result (IsTrue (is_poisoned self.new)) }
        ensures sound { OnOk result (is_poisoned self.new ≡ false) }
        ensures prefix { IsPrefix out.old out.new }
    {
        if self.poisoned {
            return Err(Memory);
        }
        self.poisoned = true;
        let context = Context {
            patterns: self.plan.patterns(),
            moment: now,
            start: self.start,
        };
        let streams = &self.plan.plan().streams;
        run_forest(
            alloc,
            streams,
            &mut self.forest,
            &Entry::Tick,
            &context,
            out,
            steps,
        )?;
        self.poisoned = false;
        Ok(())
    }

    /// The least moment at which a stream of the tree passes something on next if only seconds follow. It is exact up
    /// to the moment 2^40.
    pub fn next_due(&self) -> Option<u64>
        ensures { (h : History) → Represents self.now h → moment_of h ≤ 2 ^ 40 →
            result ≡ plan_deadline (plan_of self.now) h }
    {
        forest_due(&self.plan.plan().streams, &self.forest)
    }
}
