ghost use Rattle.std.specs.Prelude.{◌≡◌, ◌<◌, ◌≤◌, ◌^◌, [], ◌++◌, length, option_copied, IfSome, OnOk, OnErr, IfOk, IsOk};
ghost use Rattle.list_laws.specs.Prefix.{IsPrefix};
ghost use Rattle.std.specs.Option.{option_map};
ghost use Rattle.pred_eval.specs.Tree.{tree_of, trees_in};
ghost use Rattle.pred_eval.specs.Truth.{holds, searches, searches_of};
ghost use Rattle.pred_eval.specs.Search.{AreReadFrom};
ghost use Rattle.pred_eval.specs.Host.{asked_host, NeedsHost};
ghost use Rattle.pred_eval.specs.Building.{texts_of, HasCause, refused_of};

use crate::host::asked_host;
use crate::patterns::build_all;
use crate::truth::{rule_holds, rule_holds_of};
use crate::{BuildFault, Finder, Patterns, Rule, Rules};
use ev_types::{Event, EventFields, Memory, Text, Value};
use std::alloc::Global;
use std::marker::Model;

/// A rule whose regular expressions are built. Contracts see the plain tree of the rule.
#[derive(Drop)]
pub struct Pred {
    rule: Rule,
    patterns: Vec<Finder>,
}

impl Model for Pred {
    ghost use Rattle.pred_eval.specs.Tree.{Tree, tree_of};
    ghost use Rattle.pred_eval.specs.Truth.{searches};
    ghost use Rattle.pred_eval.specs.Search.{AreReadFrom};
    ghost use Rattle.pred_eval.specs.TreeCode.{tree_code};
    ghost use Rattle.std.specs.Coded.{codes};

    ghost Value = { Tree };

    ghost coded = { tree_code (Prim.hlevel codes) };

    ghost view = { λ pred. tree_of pred.rule };

    ghost invariant = { λ pred. AreReadFrom (searches (tree_of pred.rule)) pred.patterns.items };
}

impl Pred {
    /// Builds the regular expressions of the rule, of which there are fewer than 2^32.
    pub fn build<P: Patterns>(
        alloc: Global,
        rule: Rule,
        patterns: &mut P,
    ) -> Result<Pred, BuildFault>
        requires { length (searches (tree_of rule)) < 2 ^ 32 }
        ensures rule { IfOk result (λ pred. pred ≡ tree_of rule) }
        ensures cause { HasCause (searches (tree_of rule)) (P.report patterns.old).refusals
            (P.report patterns.new).refusals result }
        ensures reported { (P.report patterns.new).refused ≡
            option_map (λ texts. texts ++ refused_of (searches (tree_of rule)) result)
            (P.report patterns.old).refused }
        ensures refusals { (P.report patterns.old).refusals ≤ (P.report patterns.new).refusals }
    {
        let patterns = build_patterns(alloc, &rule, patterns)?;
        Ok(Pred { rule, patterns })
    }

    /// Whether the event meets the rule. Where the rule has no regular expression it takes no memory.
    pub fn holds(&mut self, alloc: Global, event: &Event) -> Result<bool, Memory>
        ensures truth { IfOk result (λ met. met ≡ holds self.old event.now) }
        ensures memory { searches self.old ≡ [] → IsOk result }
        ensures same { self.new ≡ self.old }
    {
        rule_holds(alloc, &self.rule, self.patterns.as_slice(), event)
    }

    /// Whether the event meets the rule, however it is kept. If the rule has no regular expression, it takes no memory.
    pub fn holds_of<E: EventFields>(&mut self, alloc: Global, event: &E) -> Result<bool, Memory>
        ensures truth { IfOk result (λ met. met ≡ holds self.old (E.event event.now)) }
        ensures memory { searches self.old ≡ [] → IsOk result }
        ensures same { self.new ≡ self.old }
    {
        rule_holds_of(alloc, &self.rule, self.patterns.as_slice(), event)
    }

    /// The host that an event needs to meet the rule: `v` of `host = v`, or of the first such part of an `and`. `None`
    /// for any other rule.
    pub fn asked_host(&self) -> Option<&Value>
        ensures asked { option_copied result ≡ asked_host self.now }
        ensures needs { IfSome (option_copied result) (NeedsHost self.now) }
    {
        asked_host(&self.rule)
    }
}

/// Appends the texts of the rule's regular expressions, in the order in which they are written. After `Memory` the
/// list has some of them, after those that it had.
#[cycle(collect)]
pub fn append_texts<'a>(
    alloc: Global,
    rule: &'a Rule,
    texts: &mut Vec<&'a Text>,
) -> Result<(), Memory>
    ensures ok { OnOk result
        (texts_of texts.new.items ≡ texts_of texts.old.items ++ searches (tree_of rule.now)) }
    ensures err { OnErr result (IsPrefix (texts_of texts.old.items) (texts_of texts.new.items)) }
{
    match rule {
        Rule::Not(rule) => append_texts(alloc, rule, texts),
        Rule::All(rules) => append_all(alloc, rules, texts),
        Rule::Any(rules) => append_all(alloc, rules, texts),
        Rule::Search { field: _, pattern } => {
            texts.push(pattern)?;
            Ok(())
        }
        Rule::Always
        | Rule::Never
        | Rule::Tagged(_)
        | Rule::Equal { .. }
        | Rule::Order { .. }
        | Rule::Wild { .. } => Ok(()),
    }
}

#[cycle(collect)]
fn append_all<'a>(alloc: Global, rules: &'a Rules, texts: &mut Vec<&'a Text>) -> Result<(), Memory>
    ensures ok { OnOk result
        (texts_of texts.new.items ≡ texts_of texts.old.items
        ++ searches_of (trees_in rules.now.items)) }
    ensures err { OnErr result (IsPrefix (texts_of texts.old.items) (texts_of texts.new.items)) }
{
    for rule in rules {
        append_texts(alloc, rule, texts)?;
    }
    Ok(())
}

// The rule's regular expressions, in the order in which they are written.
fn build_patterns<P: Patterns>(
    alloc: Global,
    rule: &Rule,
    patterns: &mut P,
) -> Result<Vec<Finder>, BuildFault>
    requires { length (searches (tree_of rule.now)) < 2 ^ 32 }
    ensures built { IfOk result (λ regexes. AreReadFrom
        (searches (tree_of rule.now)) regexes.items) }
    ensures cause { HasCause (searches (tree_of rule.now)) (P.report patterns.old).refusals
        (P.report patterns.new).refusals result }
    ensures reported { (P.report patterns.new).refused ≡
        option_map (λ texts. texts ++ refused_of (searches (tree_of rule.now)) result)
        (P.report patterns.old).refused }
    ensures refusals { (P.report patterns.old).refusals ≤ (P.report patterns.new).refusals }
{
    let mut texts = Vec::new(alloc);
    append_texts(alloc, rule, &mut texts)?;
    build_all(alloc, texts.as_slice(), patterns)
}
