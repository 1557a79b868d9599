ghost use Rattle.std.specs.Prelude.{◌≡◌, option_copied};
ghost use Rattle.pred_eval.specs.Host.{asked_host, equal_host, first_host};
ghost use Rattle.pred_eval.specs.Tree.{tree_of, trees_in};

use crate::{Rule, Rules};
use ev_types::{Field, Value};

/// The value that the rule asks for, as `host = v` or as the first such part of an `and`.
pub(crate) fn asked_host(rule: &Rule) -> Option<&Value>
    ensures { option_copied result ≡ asked_host (tree_of rule.now) }
{
    match rule {
        Rule::All(rules) => first_host(rules),
        rule => equal_host(rule),
    }
}

fn first_host(rules: &Rules) -> Option<&Value>
    ensures { option_copied result ≡ first_host (trees_in rules.now.items) }
{
    for rule in rules {
        if let Some(value) = equal_host(rule) {
            return Some(value);
        }
    }
    None
}

fn equal_host(rule: &Rule) -> Option<&Value>
    ensures { option_copied result ≡ equal_host (tree_of rule.now) }
{
    match rule {
        Rule::Equal {
            field: Field::Host,
            value,
        } => Some(value),
        _ => None,
    }
}
