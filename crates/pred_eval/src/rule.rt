ghost use Rattle.std.specs.Prelude.{◌≡◌, IfOk};
ghost use Rattle.pred_eval.specs.Tree.{tree_of, trees_in};
ghost use Rattle.pred_eval.specs.Truth.{is_ordered};

use ev_types::{Field, Memory, Text, Value};
use std::alloc::Global;

/// A rule about an event, as a query or a `where` stream states it.
pub enum Rule {
    /// Every event meets it.
    Always,
    /// No event meets it.
    Never,
    Not(Box<Rule>),
    /// Every part is met.
    All(Rules),
    /// Some part is met.
    Any(Rules),
    /// The event has the tag.
    Tagged(Text),
    /// The field holds the value; an absent field holds nil.
    Equal {
        field: Field,
        value: Value,
    },
    /// The field holds a number that compares in this way with the number.
    Order {
        field: Field,
        order: Ordering,
        number: i64,
    },
    /// The field holds a text that matches the pattern as a whole, in which `%` matches any bytes.
    Wild {
        field: Field,
        pattern: Text,
    },
    /// The field holds a text in which the regular expression is found.
    Search {
        field: Field,
        pattern: Text,
    },
}

impl Drop for Rule {
    fn drop(self) {
        match self {
            Rule::Always => {}
            Rule::Never => {}
            Rule::Not(_rule) => {}
            Rule::All(_rules) => {}
            Rule::Any(_rules) => {}
            Rule::Tagged(_tag) => {}
            Rule::Equal {
                field: _field,
                value: _value,
            } => {}
            Rule::Order {
                field: _field,
                order: _order,
                number: _number,
            } => {}
            Rule::Wild {
                field: _field,
                pattern: _pattern,
            } => {}
            Rule::Search {
                field: _field,
                pattern: _pattern,
            } => {}
        }
    }
}

/// Rules, in the order in which they were written.
pub type Rules = Vec<Rule>;

/// How a number compares with another.
#[derive(Clone, Copy, Debug, PartialEq, Eq)]
pub enum Ordering {
    Less,
    LessEqual,
    Greater,
    GreaterEqual,
}

impl Rule {
    /// An equal rule, in memory of its own.
    #[cycle(copy_rule)]
    pub fn copy(&self, alloc: Global) -> Result<Rule, Memory>
        ensures { IfOk result (λ rule. tree_of rule ≡ tree_of self.now) }
    {
        match self {
            Rule::Always => Ok(Rule::Always),
            Rule::Never => Ok(Rule::Never),
            Rule::Not(rule) => Ok(Rule::Not(Box::new(alloc, rule.copy(alloc)?)?)),
            Rule::All(rules) => Ok(Rule::All(copy_rules(alloc, rules)?)),
            Rule::Any(rules) => Ok(Rule::Any(copy_rules(alloc, rules)?)),
            Rule::Tagged(tag) => Ok(Rule::Tagged(tag.copy(alloc)?)),
            Rule::Equal { field, value } => Ok(Rule::Equal {
                field: field.copy(alloc)?,
                value: value.copy(alloc)?,
            }),
            Rule::Order {
                field,
                order,
                number,
            } => Ok(Rule::Order {
                field: field.copy(alloc)?,
                order: *order,
                number: *number,
            }),
            Rule::Wild { field, pattern } => Ok(Rule::Wild {
                field: field.copy(alloc)?,
                pattern: pattern.copy(alloc)?,
            }),
            Rule::Search { field, pattern } => Ok(Rule::Search {
                field: field.copy(alloc)?,
                pattern: pattern.copy(alloc)?,
            }),
        }
    }
}

#[cycle(copy_rule)]
fn copy_rules(alloc: Global, rules: &Rules) -> Result<Rules, Memory>
    ensures { IfOk result (λ copies. trees_in copies.items ≡ trees_in rules.now.items) }
{
    let mut copies = Rules::new(alloc);
    for rule in rules {
        copies.push(rule.copy(alloc)?)?;
    }
    Ok(copies)
}

impl Ordering {
    /// Whether the first number compares in this way with the second.
    pub fn holds_of(self, a: i64, b: i64) -> bool
        ensures { result ≡ is_ordered self a b }
    {
        match self {
            Ordering::Less => a < b,
            Ordering::LessEqual => a <= b,
            Ordering::Greater => a > b,
            Ordering::GreaterEqual => a >= b,
        }
    }
}
