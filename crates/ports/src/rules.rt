//! How the links of a script answer sends.

ghost use Rattle.std.specs.Prelude.{◌≡◌, ℕ, ◌≤◌, ◌==◌, ◌∷◌, ◌++◌, [], length, drop, IfOk, OnOk, OnErr, if◌then◌else◌};
ghost use Rattle.ports.specs.Links.{IsWithin};
ghost use Rattle.ports.specs.Playing.{from_turn, rule_after, rules_at_turn, send_answer, takes_all, with_rule};
ghost use Rattle.ports.specs.Tables.{rules_in, taken_in};

use crate::links::SendAnswer;
use crate::script::Step;
use ev_types::{Blob, Memory};
use std::alloc::Global;
use std::collections::HashMap;

/// How a link answers its sends.
#[derive(Clone, Copy)]
pub struct SendRule {
    /// The number of bytes that it still takes; without one it takes all.
    pub left: Option<u64>,
    /// Whether its next send fails.
    pub fails: bool,
}

impl SendRule {
    /// The rule of a link that takes all.
    pub(crate) fn takes_all() -> SendRule
        ensures { result ≡ takes_all }
    {
        SendRule {
            left: None,
            fails: false,
        }
    }

    /// The answer to a send of `count` bytes.
    pub(crate) fn answer(self, count: usize) -> SendAnswer
        ensures value { result ≡ send_answer self count }
        ensures within { IsWithin count result }
    {
        if self.fails {
            return SendAnswer::Failed;
        }
        match self.left {
            None => SendAnswer::Took { count },
            Some(0) => SendAnswer::Later,
            Some(left) => SendAnswer::Took {
                count: count.min(left as usize),
            },
        }
    }

    /// The rule after a send of `count` bytes.
    pub(crate) fn after(self, count: usize) -> SendRule
        ensures { result ≡ rule_after self count }
    {
        if self.fails {
            return SendRule {
                left: self.left,
                fails: false,
            };
        }
        let left = match self.left {
            Some(left) => Some(left.saturating_sub(count as u64)),
            None => None,
        };
        SendRule {
            left,
            fails: self.fails,
        }
    }
}

/// The rule of the link.
pub(crate) fn rule_of(rules: &HashMap<u64, SendRule>, link: u64) -> SendRule
    ensures { result ≡ rules_in rules.now link }
{
    match rules.get(&link) {
        Some(rule) => *rule,
        None => SendRule::takes_all(),
    }
}

/// Replaces the rule of the link.
pub(crate) fn set_rule(
    rules: &mut HashMap<u64, SendRule>,
    link: u64,
    rule: SendRule,
) -> Result<(), Memory>
    ensures { OnOk result (rules_in rules.new ≡ with_rule link rule (rules_in rules.old)) }
{
    rules.insert(link, rule)?;
    Ok(())
}

/// Makes the lines up to the first turn take effect, and gives their number.
#[tactic(auto, using(crate::proofs::RuleLemmas::turn_at, crate::proofs::RuleLemmas::turn_keeps_at))]
pub(crate) fn apply_rules(
    steps: &[Step],
    rules: &mut HashMap<u64, SendRule>,
) -> Result<usize, Memory>
    ensures within { IfOk result (λ count. count ≤ length steps.now) }
    ensures turn { IfOk result (λ count. drop count steps.now ≡ from_turn steps.now) }
    ensures rules { OnOk result (rules_in rules.new
        ≡ rules_at_turn steps.now (rules_in rules.old)) }
{
    let mut count = 0;
    for step in steps {
        if step.is_turn() {
            return Ok(count);
        }
        apply_rule(step, rules)?;
        count += 1;
    }
    Ok(count)
}

/// Makes a line that is not a turn take effect.
fn apply_rule(step: &Step, rules: &mut HashMap<u64, SendRule>) -> Result<(), Memory>
    ensures { OnOk result (rules_in rules.new
        ≡ rules_at_turn (step.now ∷ []) (rules_in rules.old)) }
{
    match step {
        Step::Turn { .. } => Ok(()),
        Step::Take { link, count } => {
            let rule = SendRule {
                left: Some(*count),
                fails: rule_of(rules, *link).fails,
            };
            set_rule(rules, *link, rule)
        }
        Step::Fail { link } => {
            let rule = SendRule {
                left: rule_of(rules, *link).left,
                fails: true,
            };
            set_rule(rules, *link, rule)
        }
    }
}

/// Adds bytes to those that were taken from the link.
pub(crate) fn add_taken(
    alloc: Global,
    taken: &mut HashMap<u64, Blob>,
    link: u64,
    bytes: &[u8],
) -> Result<(), Memory>
    ensures ok { OnOk result ((other : ℕ) → taken_in taken.new other
        ≡ taken_in taken.old other ++ (if link == other then bytes.now else [])) }
    ensures err { OnErr result ((other : ℕ) →
        taken_in taken.new other ≡ taken_in taken.old other) }
{
    if let Some(blob) = taken.get_mut(&link) {
        blob.append(alloc, bytes)?;
        return Ok(());
    }
    let blob = Blob::from_slice(alloc, bytes)?;
    taken.insert(link, blob)?;
    Ok(())
}
