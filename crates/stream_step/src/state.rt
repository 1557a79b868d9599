ghost use Rattle.std.specs.Prelude.{◌≡◌, ℕ, true, false, ◌≤◌, ◌+◌, ◌^◌, List, ◌++◌, length, Option, IfOk, OnOk};
ghost use Rattle.ev_types.specs.declared.field.Field.{Field};
ghost use Rattle.list_laws.specs.Counts.{greatest};
ghost use Rattle.stream_meaning.specs.Deadlines.{next_deadline};
ghost use Rattle.stream_meaning.specs.History.{History, begun, moment_of, TicksAlone};
ghost use Rattle.stream_plan.specs.Kinds.{is_in_range};
ghost use Rattle.stream_plan.specs.Ready.{kind_patterns};
ghost use Rattle.pred_eval.specs.Tree.{tree_of};
ghost use Rattle.pred_eval.specs.Truth.{searches};
ghost use Rattle.stream_plan.specs.Tree.{KindTree, kind_tree, By, Where};
ghost use Rattle.stream_states.specs.Kept.{keeps};
ghost use Rattle.stream_step.specs.Step.{HasNumbers, is_kept, StateRepresents};

use ev_types::Memory;
use pred_eval::{Rule, pattern_count};
use std::alloc::Global;
use stream_plan::Kind;
use stream_states::KeptState;

/// What a stream keeps between entries.
pub enum State {
    /// Nothing.
    Empty,
    /// The numbers of its rule's regular expressions among those of the plan.
    Rule { first: usize, count: usize },
    /// What a stream of a kind that keeps something has to know of what came.
    Kept(KeptState),
    /// Of a `by`: the number of the first regular expression of its children among those of the plan. Each fork is a
    /// copy of the children, so the regular expressions of all forks have these numbers.
    Forks { first: usize },
}

impl Drop for State {
    fn drop(self) {
        match self {
            State::Empty => {}
            State::Rule {
                first: _first,
                count: _count,
            } => {}
            State::Kept(_kept) => {}
            State::Forks { first: _first } => {}
        }
    }
}

impl State {
    /// The state of a stream that begins at the moment `start`, in seconds since 1970, and to which nothing but ticks
    /// has come. Its own regular expressions, where it has some, are those of the plan from number `next` on, and
    /// `next` becomes the number after them. A `by` has none of its own: those of its children begin at `next`, which
    /// is left there.
    pub fn fresh(alloc: Global, kind: &Kind, next: &mut usize, start: u64) -> Result<State, Memory>
        ensures represents { IfOk result (λ state.
            (before after : List (List ℕ)) (h : History) →
            TicksAlone h → begun h ≡ start → is_in_range (kind_tree kind.now) ≡ true →
            length before ≡ next.old →
            length (kind_patterns (kind_tree kind.now)) ≤ greatest →
            StateRepresents (before ++ (kind_patterns (kind_tree kind.now) ++ after))
            (kind_tree kind.now) state h) }
        ensures forks { IfOk result (λ state. (fields : List Field) (idle : Option ℕ) →
            kind_tree kind.now ≡ By fields idle → state ≡ State.Forks next.old) }
        ensures next { OnOk result
            (next.old + length (kind_patterns (kind_tree kind.now)) ≤ greatest →
            next.new ≡ next.old + length (kind_patterns (kind_tree kind.now))) }
    {
        match KeptState::fresh(alloc, kind, start)? {
            Some(kept) => Ok(State::Kept(kept)),
            None => Ok(State::of_numbers(kind, next)),
        }
    }

    /// The state of a stream that keeps nothing of what comes.
    fn of_numbers(kind: &Kind, next: &mut usize) -> State
        ensures represents { (before after : List (List ℕ)) →
            keeps (kind_tree kind.now) ≡ false →
            length before ≡ next.old →
            length (kind_patterns (kind_tree kind.now)) ≤ greatest →
            HasNumbers (before ++ (kind_patterns (kind_tree kind.now) ++ after))
            (kind_tree kind.now) result }
        ensures bare { is_kept result ≡ false }
        ensures forks { (fields : List Field) (idle : Option ℕ) →
            kind_tree kind.now ≡ By fields idle → result ≡ State.Forks next.old }
        ensures next { next.old + length (kind_patterns (kind_tree kind.now)) ≤ greatest →
            next.new ≡ next.old + length (kind_patterns (kind_tree kind.now)) }
    {
        match kind {
            Kind::Where(rule) => State::of_rule(rule, next),
            Kind::By { .. } => State::Forks { first: *next },
            _ => State::Empty,
        }
    }

    fn of_rule(rule: &Rule, next: &mut usize) -> State
        ensures represents { (before after : List (List ℕ)) →
            length before ≡ next.old → length (searches (tree_of rule.now)) ≤ greatest →
            HasNumbers (before ++ (searches (tree_of rule.now) ++ after))
            (Where (tree_of rule.now)) result }
        ensures bare { is_kept result ≡ false }
        ensures next { next.old + length (searches (tree_of rule.now)) ≤ greatest →
            next.new ≡ next.old + length (searches (tree_of rule.now)) }
    {
        let first = *next;
        let count = pattern_count(rule);
        *next = first.saturating_add(count);
        State::Rule { first, count }
    }

    /// The moment at which the stream passes something on next if only ticks follow. It is exact up to the moment 2^40.
    pub fn due(&self) -> Option<u64>
        ensures { (texts : List (List ℕ)) (kind : KindTree) (h : History) →
            StateRepresents texts kind self.now h → moment_of h ≤ 2 ^ 40 →
            result ≡ next_deadline kind h }
    {
        match self {
            State::Kept(kept) => kept.due(),
            _ => None,
        }
    }
}
