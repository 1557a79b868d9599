//! Writing rules as queries.

ghost use Rattle.std.specs.Prelude.{◌≡◌, ◌++◌, [], map, OnOk, OnErr, codes, if◌then◌else◌};
ghost use Rattle.std.specs.Fmt.{signed_decimal};
ghost use Rattle.list_laws.specs.Prefix.{IsPrefix};
ghost use Rattle.ev_types.specs.Names.{field_name};
ghost use Rattle.string_literals.specs.Literals.{string_literal};
ghost use Rattle.pred_eval.specs.Tree.{tree_of};
ghost use Rattle.query_lang.specs.Grammar.{listed};
ghost use Rattle.query_lang.specs.Spelling.{spelling, spelling_under, joined_spelling, grouped, groups_any, groups_all, value_spelling, order_symbol};

use ev_types::{Blob, Field, Memory, Text, Value};
use itoa::Buffer;
use pred_eval::{Ordering, Rule};
use std::alloc::Global;
use string_literals::put_literal;

/// What a rule is written under in a query.
#[derive(Clone, Copy, PartialEq, Eq)]
pub(crate) enum Under {
    /// Nothing, or parentheses.
    Query,
    Any,
    All,
    Not,
}

/// Appends the rule as a query, with single spaces between the tokens and parentheses only where they are needed: round
/// All and Any under Not and under All, and round Any under Any. An inequality is written with `not`. Reading the text
/// gives this rule again, if some query states the rule and the text is within the limits of queries. If memory runs
/// out, `out` still begins with what it had.
pub fn write_query(alloc: Global, rule: &Rule, out: &mut Blob) -> Result<(), Memory>
    ensures ok { OnOk result (out.new ≡ out.old ++ spelling (tree_of rule.now)) }
    ensures err { OnErr result (IsPrefix out.old out.new) }
{
    put_rule(alloc, rule, Under::Query, out)?;
    Ok(())
}

/// Appends a rule that is written under another.
#[cycle(spell)]
fn put_rule(alloc: Global, rule: &Rule, under: Under, out: &mut Blob) -> Result<(), Memory>
    ensures ok { OnOk result (out.new ≡ out.old ++ spelling_under under (tree_of rule.now)) }
    ensures err { OnErr result (IsPrefix out.old out.new) }
{
    match rule {
        Rule::Always => out.append(alloc, b"true")?,
        Rule::Never => out.append(alloc, b"false")?,
        Rule::Not(rule) => {
            out.append(alloc, b"not ")?;
            put_rule(alloc, rule, Under::Not, out)?;
        }
        Rule::All(parts) => put_all(alloc, parts.as_slice(), under, out)?,
        Rule::Any(parts) => put_any(alloc, parts.as_slice(), under, out)?,
        Rule::Tagged(tag) => put_tagged(alloc, tag, out)?,
        Rule::Equal { field, value } => put_equal(alloc, field, value, out)?,
        Rule::Order {
            field,
            order,
            number,
        } => put_order(alloc, field, *order, *number, out)?,
        Rule::Wild { field, pattern } => put_pattern(alloc, field, b" =~ ", pattern, out)?,
        Rule::Search { field, pattern } => put_pattern(alloc, field, b" ~= ", pattern, out)?,
    }
    Ok(())
}

/// Appends the parts of All.
#[cycle(spell)]
#[tactic(auto, using(crate::proofs::SpellingLaws::grouped_parts))]
fn put_all(alloc: Global, parts: &[Rule], under: Under, out: &mut Blob) -> Result<(), Memory>
    ensures ok { OnOk result
        (out.new ≡ out.old ++ grouped (groups_all under)
        (joined_spelling (codes " and ") Under.All (listed (map tree_of parts.now)))) }
    ensures err { OnErr result (IsPrefix out.old out.new) }
{
    let group = matches!(under, Under::All | Under::Not);
    put_open(alloc, group, out)?;
    put_parts(alloc, parts, b" and ", Under::All, out)?;
    put_close(alloc, group, out)?;
    Ok(())
}

/// Appends the parts of Any.
#[cycle(spell)]
#[tactic(auto, using(crate::proofs::SpellingLaws::grouped_parts))]
fn put_any(alloc: Global, parts: &[Rule], under: Under, out: &mut Blob) -> Result<(), Memory>
    ensures ok { OnOk result
        (out.new ≡ out.old ++ grouped (groups_any under)
        (joined_spelling (codes " or ") Under.Any (listed (map tree_of parts.now)))) }
    ensures err { OnErr result (IsPrefix out.old out.new) }
{
    let group = !matches!(under, Under::Query);
    put_open(alloc, group, out)?;
    put_parts(alloc, parts, b" or ", Under::Any, out)?;
    put_close(alloc, group, out)?;
    Ok(())
}

/// Appends the parts, with the word between them.
#[cycle(spell)]
#[tactic(auto, using(crate::proofs::SpellingLaws::more_parts, crate::proofs::SpellingLaws::more_all))]
fn put_parts(
    alloc: Global,
    parts: &[Rule],
    word: &[u8],
    under: Under,
    out: &mut Blob,
) -> Result<(), Memory>
    ensures ok { OnOk result
        (out.new ≡ out.old ++ joined_spelling word.now under (listed (map tree_of parts.now))) }
    ensures err { OnErr result (IsPrefix out.old out.new) }
{
    let Some((first, rest)) = parts.split_first() else {
        return Ok(());
    };
    put_rule(alloc, first, under, out)?;
    for part in rest {
        out.append(alloc, word)?;
        put_rule(alloc, part, under, out)?;
    }
    Ok(())
}

fn put_open(alloc: Global, group: bool, out: &mut Blob) -> Result<(), Memory>
    ensures ok { OnOk result (out.new ≡ out.old ++ (if group then codes "( " else [])) }
    ensures err { OnErr result (IsPrefix out.old out.new) }
{
    if group {
        out.append(alloc, b"( ")?;
    }
    Ok(())
}

fn put_close(alloc: Global, group: bool, out: &mut Blob) -> Result<(), Memory>
    ensures ok { OnOk result (out.new ≡ out.old ++ (if group then codes " )" else [])) }
    ensures err { OnErr result (IsPrefix out.old out.new) }
{
    if group {
        out.append(alloc, b" )")?;
    }
    Ok(())
}

fn put_tagged(alloc: Global, tag: &Text, out: &mut Blob) -> Result<(), Memory>
    ensures ok { OnOk result (out.new ≡ out.old ++ (codes "tagged " ++ string_literal tag.now)) }
    ensures err { OnErr result (IsPrefix out.old out.new) }
{
    out.append(alloc, b"tagged ")?;
    put_literal(alloc, tag, out)?;
    Ok(())
}

fn put_equal(alloc: Global, field: &Field, value: &Value, out: &mut Blob) -> Result<(), Memory>
    ensures ok { OnOk result (out.new ≡ out.old
        ++ (field_name field.now ++ (codes " = " ++ value_spelling value.now))) }
    ensures err { OnErr result (IsPrefix out.old out.new) }
{
    out.append(alloc, field.name().as_bytes())?;
    out.append(alloc, b" = ")?;
    match value {
        Value::Nil => out.append(alloc, b"nil")?,
        Value::Number(number) => put_number(alloc, *number, out)?,
        Value::Text(text) => put_literal(alloc, text, out)?,
    }
    Ok(())
}

fn put_order(
    alloc: Global,
    field: &Field,
    order: Ordering,
    number: i64,
    out: &mut Blob,
) -> Result<(), Memory>
    ensures ok { OnOk result
        (out.new ≡ out.old ++ (field_name field.now
        ++ (order_symbol order ++ signed_decimal number))) }
    ensures err { OnErr result (IsPrefix out.old out.new) }
{
    out.append(alloc, field.name().as_bytes())?;
    match order {
        Ordering::Less => out.append(alloc, b" < ")?,
        Ordering::LessEqual => out.append(alloc, b" <= ")?,
        Ordering::Greater => out.append(alloc, b" > ")?,
        Ordering::GreaterEqual => out.append(alloc, b" >= ")?,
    }
    put_number(alloc, number, out)?;
    Ok(())
}

fn put_pattern(
    alloc: Global,
    field: &Field,
    symbol: &[u8],
    pattern: &Text,
    out: &mut Blob,
) -> Result<(), Memory>
    ensures ok { OnOk result
        (out.new ≡ out.old ++ (field_name field.now
        ++ (symbol.now ++ string_literal pattern.now))) }
    ensures err { OnErr result (IsPrefix out.old out.new) }
{
    out.append(alloc, field.name().as_bytes())?;
    out.append(alloc, symbol)?;
    put_literal(alloc, pattern, out)?;
    Ok(())
}

fn put_number(alloc: Global, number: i64, out: &mut Blob) -> Result<(), Memory>
    ensures ok { OnOk result (out.new ≡ out.old ++ signed_decimal number) }
    ensures err { OnErr result (IsPrefix out.old out.new) }
{
    let mut digits = Buffer::new();
    out.append(alloc, digits.format(number).as_bytes())?;
    Ok(())
}
