//! The rules that names, tests and parts of a query represent.

ghost use Rattle.std.specs.Prelude.{◌≡◌, ◌≢◌, [], ◌∷◌, length, map, IfOk, MatchOption};
ghost use Rattle.std.specs.Option.{option_map};
ghost use Rattle.pred_eval.specs.Tree.{Not, tree_of};
ghost use Rattle.query_lang.specs.Grammar.{test_of, any_of, all_of};

use crate::token::{Operator, Token};
use ev_types::{Field, Memory, Value};
use pred_eval::{Ordering, Rule, Rules};
use std::alloc::Global;

/// What the field is tested for by the operator and the literal after it, or `None` where these do not go together.
pub(crate) fn test_of(
    alloc: Global,
    field: Field,
    operator: Operator,
    literal: Token,
) -> Result<Option<Rule>, Memory>
    ensures { IfOk result (λ found. option_map tree_of found ≡ test_of field operator literal) }
{
    match operator {
        Operator::Equal => Ok(equality(field, literal)),
        Operator::Unequal => match equality(field, literal) {
            Some(rule) => Ok(Some(negated(alloc, rule)?)),
            None => Ok(None),
        },
        Operator::Order(order) => Ok(comparison(field, order, literal)),
        Operator::Wild => Ok(match literal {
            Token::Quoted(pattern) => Some(Rule::Wild { field, pattern }),
            _ => None,
        }),
        Operator::Search => Ok(match literal {
            Token::Quoted(pattern) => Some(Rule::Search { field, pattern }),
            _ => None,
        }),
    }
}

fn equality(field: Field, literal: Token) -> Option<Rule>
    ensures { option_map tree_of result ≡ test_of field Operator.Equal literal }
{
    let value = match literal {
        Token::Quoted(text) => Value::Text(text),
        Token::Number(number) => Value::Number(number),
        Token::Nil => Value::Nil,
        _ => return None,
    };
    Some(Rule::Equal { field, value })
}

fn comparison(field: Field, order: Ordering, literal: Token) -> Option<Rule>
    ensures { option_map tree_of result ≡ test_of field (Operator.Order order) literal }
{
    match literal {
        Token::Number(number) => Some(Rule::Order {
            field,
            order,
            number,
        }),
        _ => None,
    }
}

pub(crate) fn negated(alloc: Global, rule: Rule) -> Result<Rule, Memory>
    ensures { IfOk result (λ negated. tree_of negated ≡ Not (tree_of rule)) }
{
    Ok(Rule::Not(Box::new(alloc, rule)?))
}

/// The rule of parts that `or` joins. There is at least one part.
#[tactic(auto, using(crate::proofs::Rules::any_rule, crate::proofs::Rules::any_only))]
pub(crate) fn any_of(mut parts: Rules) -> Rule
    ensures { tree_of result ≡ any_of (map tree_of parts.items) }
{
    match only_part(&mut parts) {
        Some(part) => part,
        None => Rule::Any(parts),
    }
}

/// The rule of parts that `and` joins. There is at least one part.
#[tactic(auto, using(crate::proofs::Rules::all_rule, crate::proofs::Rules::all_only))]
pub(crate) fn all_of(mut parts: Rules) -> Rule
    ensures { tree_of result ≡ all_of (map tree_of parts.items) }
{
    match only_part(&mut parts) {
        Some(part) => part,
        None => Rule::All(parts),
    }
}

/// Takes out the part, where there is exactly one.
fn only_part(parts: &mut Rules) -> Option<Rule>
    ensures { MatchOption result
        ((length parts.old.items ≢ 1) × (parts.new.items ≡ parts.old.items))
        (λ part. parts.old.items ≡ part ∷ []) }
{
    if parts.len() == 1 { parts.pop() } else { None }
}
