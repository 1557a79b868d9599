//! Predicates.

ghost use Rattle.std.specs.Prelude.{◌≡◌, ◌≢◌, ◌∷◌, [], length, MatchOption, Ok};
ghost use Rattle.pred_eval.specs.Tree.{tree_of, trees_in, Not, All, Any, none};
ghost use Rattle.sexp_read.specs.Tree.{form_tree, form_trees};
ghost use Rattle.config_terms.specs.Steps.{Gives, GivesAs};
ghost use Rattle.ev_types.specs.Names.{protocol_field, named_field};
ghost use Rattle.config_terms.specs.Words.{rule_word as rule_word_of};
ghost use Rattle.config_terms.specs.Rules.{known_field as known_field_of, symbol_rule as symbol_rule_of, rule_field_at as rule_field_from, equal_rule as equal_rule_of, order_rule as order_rule_of, like_rule as like_rule_of, tagged_rule as tagged_rule_of, sought as sought_in, field_rule as field_rule_of, field_head, symbol_head, headed_rule, word_rule as word_rule_of, all_read, joined, first_read, rules_in as readings_of, rule_at as rule_from, no_form as no_form_at};
ghost use Rattle.config_terms.specs.Arguments.{bound_value, argument_of as argument_from};

use crate::arguments::{Argument, argument_of, field_at, number_at, text_at, value_at, value_of};
use crate::forms::{View, argument, at_most, first, refused, symbol_of, view_of};
use crate::word::{field_of, is, rule_word};
use crate::{Binding, ConfigFault, ConfigWhy, RuleWord};
use ev_types::{Field, Text};
use pred_eval::{Ordering, Rule, Rules};
use sexp_read::Form;
use std::alloc::Global;

/// The refusal at `place` of a symbol that is not a form of its place: for Name where it is bound to nothing, else for
/// Form.
pub fn no_form(env: &[Binding], name: &Text, place: usize) -> ConfigFault
    ensures { result ≡ ConfigFault.Refused (no_form_at place (bound_value name.now env.now)).0
        (no_form_at place (bound_value name.now env.now)).1 }
{
    match value_of(env, name) {
        None => refused(place, ConfigWhy::Name),
        Some(_) => refused(place, ConfigWhy::Form),
    }
}

/// The predicate that a symbol is.
fn symbol_rule(env: &[Binding], name: &Text, start: usize) -> Result<Rule, ConfigFault>
    ensures { GivesAs tree_of result (symbol_rule_of env.now name.now start) }
{
    let bytes = name.as_bytes();
    if is(bytes, b"true") {
        Ok(Rule::Always)
    } else if is(bytes, b"false") || is(bytes, b"nil") {
        Ok(Rule::Never)
    } else {
        Err(no_form(env, name, start))
    }
}

/// The field that a predicate speaks of.
fn rule_field_at(alloc: Global, form: &Form) -> Result<Field, ConfigFault>
    ensures { Gives result (rule_field_from (form_tree form.now)) }
{
    match symbol_of(form) {
        Some(name) => known_field(form.start, name),
        None => field_at(alloc, &[], form),
    }
}

fn known_field(start: usize, name: &Text) -> Result<Field, ConfigFault>
    ensures { Gives result (known_field_of start (protocol_field name.now)) }
{
    match Field::of_protocol(name) {
        Some(field) => Ok(field),
        None => Err(refused(start, ConfigWhy::Name)),
    }
}

/// The rule that the field holds a value.
#[tactic(auto, unfolding(crate::specs::Rules::equal_rule))]
fn equal_rule(
    alloc: Global,
    env: &[Binding],
    start: usize,
    forms: &[Form],
) -> Result<Rule, ConfigFault>
    ensures { GivesAs tree_of result (equal_rule_of env.now start (form_trees forms.now)) }
{
    let field = rule_field_at(alloc, argument(start, 0, forms)?)?;
    let value = value_at(alloc, env, argument(start, 1, forms)?)?;
    at_most(2, forms)?;
    Ok(Rule::Equal { field, value })
}

/// The rule that the number in the field compares in this way with another.
#[tactic(auto, unfolding(crate::specs::Rules::order_rule))]
fn order_rule(
    alloc: Global,
    order: Ordering,
    env: &[Binding],
    start: usize,
    forms: &[Form],
) -> Result<Rule, ConfigFault>
    ensures { GivesAs tree_of result (order_rule_of order env.now start (form_trees forms.now)) }
{
    let field = rule_field_at(alloc, argument(start, 0, forms)?)?;
    let number = number_at(env, argument(start, 1, forms)?)?;
    at_most(2, forms)?;
    Ok(Rule::Order {
        field,
        order,
        number,
    })
}

/// The rule that the field matches a pattern with wild parts.
#[tactic(auto, unfolding(crate::specs::Rules::like_rule))]
fn like_rule(
    alloc: Global,
    env: &[Binding],
    start: usize,
    forms: &[Form],
) -> Result<Rule, ConfigFault>
    ensures { GivesAs tree_of result (like_rule_of env.now start (form_trees forms.now)) }
{
    let field = rule_field_at(alloc, argument(start, 0, forms)?)?;
    let pattern = text_at(alloc, env, argument(start, 1, forms)?)?;
    at_most(2, forms)?;
    Ok(Rule::Wild { field, pattern })
}

/// The rule that an event has a tag.
#[tactic(auto, unfolding(crate::specs::Rules::tagged_rule))]
fn tagged_rule(
    alloc: Global,
    env: &[Binding],
    start: usize,
    forms: &[Form],
) -> Result<Rule, ConfigFault>
    ensures { GivesAs tree_of result (tagged_rule_of env.now start (form_trees forms.now)) }
{
    let tag = text_at(alloc, env, argument(start, 0, forms)?)?;
    at_most(1, forms)?;
    Ok(Rule::Tagged(tag))
}

/// The rule that a pattern is found in the field, or that it holds a value.
fn sought(alloc: Global, env: &[Binding], field: Field, form: &Form) -> Result<Rule, ConfigFault>
    ensures { GivesAs tree_of result (sought_in env.now field (form_tree form.now)
        (argument_from env.now (form_tree form.now))) }
{
    match argument_of(env, form) {
        Argument::Pattern(pattern) => Ok(Rule::Search {
            field,
            pattern: pattern.copy(alloc)?,
        }),
        _ => {
            let value = value_at(alloc, env, form)?;
            Ok(Rule::Equal { field, value })
        }
    }
}

/// The rule of a list that a field begins.
#[tactic(auto, unfolding(crate::specs::Rules::field_rule))]
fn field_rule(
    alloc: Global,
    env: &[Binding],
    field: Field,
    start: usize,
    forms: &[Form],
) -> Result<Rule, ConfigFault>
    ensures { GivesAs tree_of result (field_rule_of env.now field start (form_trees forms.now)) }
{
    let rule = sought(alloc, env, field, argument(start, 0, forms)?)?;
    at_most(1, forms)?;
    Ok(rule)
}

fn negated(alloc: Global, rule: Rule) -> Result<Rule, ConfigFault>
    ensures { GivesAs tree_of result (Ok (Not (tree_of rule))) }
{
    Ok(Rule::Not(Box::new(alloc, rule)?))
}

/// Takes out the part, where there is exactly one.
fn only_part(parts: &mut Rules) -> Option<Rule>
    ensures { MatchOption result ((length parts.old.items ≢ 1) ×
        (parts.new.items ≡ parts.old.items)) (λ part. parts.old.items ≡ part ∷ []) }
{
    if parts.len() == 1 { parts.pop() } else { None }
}

/// The rule that all parts are met, of which there is one at least.
#[tactic(auto, using(crate::proofs::RuleLaws::all_joined, crate::proofs::RuleLaws::one_joined, crate::proofs::RuleLaws::none_joined))]
fn all_of(start: usize, mut parts: Rules) -> Result<Rule, ConfigFault>
    ensures { GivesAs tree_of result (joined All start (trees_in parts.items)) }
{
    if parts.is_empty() {
        return Err(refused(start, ConfigWhy::Arguments));
    }
    match only_part(&mut parts) {
        Some(part) => Ok(part),
        None => Ok(Rule::All(parts)),
    }
}

/// The rule that some part is met, of which there is one at least.
#[tactic(auto, using(crate::proofs::RuleLaws::any_joined, crate::proofs::RuleLaws::one_joined, crate::proofs::RuleLaws::none_joined))]
fn any_of(start: usize, mut parts: Rules) -> Result<Rule, ConfigFault>
    ensures { GivesAs tree_of result (joined Any start (trees_in parts.items)) }
{
    if parts.is_empty() {
        return Err(refused(start, ConfigWhy::Arguments));
    }
    match only_part(&mut parts) {
        Some(part) => Ok(part),
        None => Ok(Rule::Any(parts)),
    }
}

/// The predicate that the form is.
#[cycle(rules)]
#[tactic(auto, using(crate::proofs::FormLaws::start_of_form, crate::proofs::RuleLaws::rule_by_look))]
pub fn rule_at(alloc: Global, env: &[Binding], form: &Form) -> Result<Rule, ConfigFault>
    ensures { GivesAs tree_of result (rule_from env.now (form_tree form.now)) }
{
    match view_of(form) {
        View::Symbol(name) => symbol_rule(env, name, form.start),
        View::Call(name, forms) => call_rule(alloc, env, name, form.start, forms),
        View::Lookup(name, forms) => keyed_rule(alloc, env, name, form.start, forms),
        View::Other => Err(refused(form.start, ConfigWhy::Form)),
    }
}

/// The predicate of a list. The first form of the list is the keyword `name`, and `forms` are the rest.
fn keyed_rule(
    alloc: Global,
    env: &[Binding],
    name: &Text,
    start: usize,
    forms: &[Form],
) -> Result<Rule, ConfigFault>
    ensures { GivesAs tree_of result (headed_rule env.now (field_head (named_field name.now)) start
        (form_trees forms.now) (readings_of env.now (form_trees forms.now))) }
{
    match field_of(alloc, name)? {
        Some(field) => field_rule(alloc, env, field, start, forms),
        None => Err(refused(start, ConfigWhy::Form)),
    }
}

/// The predicate of a list. The first form of the list is the symbol `name`, and `forms` are the rest.
#[cycle(rules)]
fn call_rule(
    alloc: Global,
    env: &[Binding],
    name: &Text,
    start: usize,
    forms: &[Form],
) -> Result<Rule, ConfigFault>
    ensures { GivesAs tree_of result (headed_rule env.now
        (symbol_head (rule_word_of name.now) (protocol_field name.now)) start (form_trees forms.now)
        (readings_of env.now (form_trees forms.now))) }
{
    if let Some(word) = rule_word(name) {
        return word_rule(alloc, env, word, start, forms);
    }
    match Field::of_protocol(name) {
        Some(field) => field_rule(alloc, env, field, start, forms),
        None => Err(refused(start, ConfigWhy::Form)),
    }
}

/// The predicate of a list that the word begins.
#[cycle(rules)]
#[tactic(auto, unfolding(crate::specs::Rules::word_rule))]
fn word_rule(
    alloc: Global,
    env: &[Binding],
    word: RuleWord,
    start: usize,
    forms: &[Form],
) -> Result<Rule, ConfigFault>
    ensures { GivesAs tree_of result (word_rule_of env.now word start (form_trees forms.now)
        (readings_of env.now (form_trees forms.now))) }
{
    match word {
        RuleWord::And => {
            let parts = rules_in(alloc, env, forms)?;
            all_of(start, parts)
        }
        RuleWord::Or => {
            let parts = rules_in(alloc, env, forms)?;
            any_of(start, parts)
        }
        RuleWord::Not => {
            let rule = first_rule(alloc, env, start, forms)?;
            at_most(1, forms)?;
            negated(alloc, rule)
        }
        RuleWord::Tagged => tagged_rule(alloc, env, start, forms),
        RuleWord::Equal => equal_rule(alloc, env, start, forms),
        RuleWord::NotEqual => {
            let rule = equal_rule(alloc, env, start, forms)?;
            negated(alloc, rule)
        }
        RuleWord::Order(order) => order_rule(alloc, order, env, start, forms),
        RuleWord::Like => like_rule(alloc, env, start, forms),
    }
}

/// The predicate that the first form is.
#[cycle(rules)]
#[tactic(auto, unfolding(crate::specs::Rules::rule_at))]
fn first_rule(
    alloc: Global,
    env: &[Binding],
    start: usize,
    forms: &[Form],
) -> Result<Rule, ConfigFault>
    ensures { GivesAs tree_of result
        (first_read start (readings_of env.now (form_trees forms.now))) }
{
    match first(forms) {
        Some((form, _)) => rule_at(alloc, env, form),
        None => Err(refused(start, ConfigWhy::Arguments)),
    }
}

/// The predicates that the forms are.
#[cycle(rules)]
#[tactic(auto, unfolding(crate::specs::Rules::rule_at, crate::specs::Rules::all_read))]
fn rules_in(alloc: Global, env: &[Binding], forms: &[Form]) -> Result<Rules, ConfigFault>
    ensures { GivesAs (λ rules. trees_in rules.items) result
        (all_read none (readings_of env.now (form_trees forms.now))) }
{
    let mut rules = Vec::new(alloc);
    let mut left = forms;
    'rules: while let Some((form, rest)) = first(left) {
        let rule = rule_at(alloc, env, form)?;
        rules.push(rule)?;
        left = rest;
    }
    Ok(rules)
}
