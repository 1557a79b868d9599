ghost use Rattle.std.specs.Prelude.{◌≡◌, ℕ, min, List, [], ◌∷◌, length, take, drop, ◌≤◌, IfOk, IsOk, option_copied};
ghost use Rattle.list_laws.specs.Counts.{greatest};
ghost use Rattle.pred_eval.specs.Tree.{tree_of, trees_in};
ghost use Rattle.pred_eval.specs.Truth.{holds, all_hold, any_holds, is_text_with, searches, searches_of};
ghost use Rattle.pred_eval.specs.Search.{finds, AreReadFrom};
ghost use Rattle.pred_eval.specs.Wild.{is_wild};

use crate::wild::is_wild;
use crate::{Finder, Rule, Rules};
use ev_types::{Event, EventFields, Memory, holds_value};
use std::alloc::Global;

/// Whether the event meets the rule, where these are its regular expressions, in the order in which they are written;
/// with others the answer says nothing. Where the rule has none it takes no memory.
pub fn rule_holds(
    alloc: Global,
    rule: &Rule,
    patterns: &[Finder],
    event: &Event,
) -> Result<bool, Memory>
    ensures truth { AreReadFrom (searches (tree_of rule.now)) patterns.now →
        IfOk result (λ met. met ≡ holds (tree_of rule.now) event.now) }
    ensures memory { searches (tree_of rule.now) ≡ [] → IsOk result }
{
    meets(alloc, rule, patterns, event)
}

/// Whether the event, however it is kept, meets the rule, as [`rule_holds`] says.
pub fn rule_holds_of<E: EventFields>(
    alloc: Global,
    rule: &Rule,
    patterns: &[Finder],
    event: &E,
) -> Result<bool, Memory>
    ensures truth { AreReadFrom (searches (tree_of rule.now)) patterns.now →
        IfOk result (λ met. met ≡ holds (tree_of rule.now) (E.event event.now)) }
    ensures memory { searches (tree_of rule.now) ≡ [] → IsOk result }
{
    meets(alloc, rule, patterns, event)
}

#[cycle(meets)]
fn meets<E: EventFields>(
    alloc: Global,
    rule: &Rule,
    patterns: &[Finder],
    event: &E,
) -> Result<bool, Memory>
    ensures truth { AreReadFrom (searches (tree_of rule.now)) patterns.now →
        IfOk result (λ met. met ≡ holds (tree_of rule.now) (E.event event.now)) }
    ensures memory { searches (tree_of rule.now) ≡ [] → IsOk result }
{
    match rule {
        Rule::Always => Ok(true),
        Rule::Never => Ok(false),
        Rule::Not(rule) => Ok(!meets(alloc, rule, patterns, event)?),
        Rule::All(rules) => meets_all(alloc, rules, patterns, event),
        Rule::Any(rules) => meets_any(alloc, rules, patterns, event),
        Rule::Tagged(tag) => Ok(event.is_tagged(tag)),
        Rule::Equal { field, value } => Ok(holds_value(event, field, value)),
        Rule::Order {
            field,
            order,
            number,
        } => match event.number_in(field) {
            Some(value) => Ok(order.holds_of(value, *number)),
            None => Ok(false),
        },
        Rule::Wild { field, pattern } => match event.text_in(field) {
            Some(text) => Ok(is_wild(pattern.as_bytes(), text.as_bytes())),
            None => Ok(false),
        },
        Rule::Search { field, pattern: _ } => search(alloc, patterns, event.text_in(field)),
    }
}

#[cycle(meets)]
fn meets_all<E: EventFields>(
    alloc: Global,
    rules: &Rules,
    patterns: &[Finder],
    event: &E,
) -> Result<bool, Memory>
    ensures truth { AreReadFrom (searches_of (trees_in rules.now.items)) patterns.now →
        IfOk result (λ met. met ≡ all_hold (trees_in rules.now.items) (E.event event.now)) }
    ensures memory { searches_of (trees_in rules.now.items) ≡ [] → IsOk result }
{
    let mut left = patterns;
    for rule in rules {
        let (own, later) = split_patterns(rule, left);
        let met = meets(alloc, rule, own, event)?;
        if !met {
            return Ok(false);
        }
        left = later;
    }
    Ok(true)
}

#[cycle(meets)]
fn meets_any<E: EventFields>(
    alloc: Global,
    rules: &Rules,
    patterns: &[Finder],
    event: &E,
) -> Result<bool, Memory>
    ensures truth { AreReadFrom (searches_of (trees_in rules.now.items)) patterns.now →
        IfOk result (λ met. met ≡ any_holds (trees_in rules.now.items) (E.event event.now)) }
    ensures memory { searches_of (trees_in rules.now.items) ≡ [] → IsOk result }
{
    let mut left = patterns;
    for rule in rules {
        let (own, later) = split_patterns(rule, left);
        let met = meets(alloc, rule, own, event)?;
        if met {
            return Ok(true);
        }
        left = later;
    }
    Ok(false)
}

// The patterns of the rule, and those of the rules after it.
fn split_patterns<'a>(rule: &Rule, patterns: &'a [Finder]) -> (&'a [Finder], &'a [Finder])
    ensures own { length (searches (tree_of rule.now)) ≤ length patterns.now →
        result.0.now ≡ take (length (searches (tree_of rule.now))) patterns.now }
    ensures later { length (searches (tree_of rule.now)) ≤ length patterns.now →
        result.1.now ≡ drop (length (searches (tree_of rule.now))) patterns.now }
{
    if patterns.is_empty() {
        return (patterns, patterns);
    }
    patterns.split_at(pattern_count(rule).min(patterns.len()))
}

/// How many regular expressions the rule has, or the greatest number where there are more.
#[cycle(count)]
pub fn pattern_count(rule: &Rule) -> usize
    ensures { result ≡ min (length (searches (tree_of rule.now))) greatest }
{
    match rule {
        Rule::Not(rule) => pattern_count(rule),
        Rule::All(rules) => count_patterns(rules),
        Rule::Any(rules) => count_patterns(rules),
        Rule::Search { .. } => 1,
        Rule::Always
        | Rule::Never
        | Rule::Tagged(_)
        | Rule::Equal { .. }
        | Rule::Order { .. }
        | Rule::Wild { .. } => 0,
    }
}

#[cycle(count)]
fn count_patterns(rules: &Rules) -> usize
    ensures { result ≡ min (length (searches_of (trees_in rules.now.items))) greatest }
{
    let mut count: usize = 0;
    for rule in rules {
        count = count.saturating_add(pattern_count(rule));
    }
    count
}

// Whether the first of the patterns is found in the text, where there is one.
fn search(alloc: Global, patterns: &[Finder], text: Option<&str>) -> Result<bool, Memory>
    ensures { IfOk result (λ found. (pattern : List ℕ) →
        AreReadFrom (pattern ∷ []) patterns.now →
        found ≡ is_text_with (finds pattern) (option_copied text.entry)) }
{
    match (patterns.first(), text) {
        (Some(finder), Some(text)) => finder.is_found(alloc, text),
        _ => Ok(false),
    }
}
