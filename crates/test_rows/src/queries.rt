//! Rows of queries, and of the rules that they state.

use crate::configs::put_refused;
use crate::events::Named;
use crate::line::RowFault;
use crate::reading::{readable, two_texts};
use crate::shown::{put_blank, put_printed, put_shown};
use crate::spelled::read_spelled;
use ev_types::{Blob, Texts};
use pred_eval::{
    BuildFault, ListPatterns, Patterns, Pred, RegexPatterns, Rule, is_wild, pattern_count,
};
use query_lang::{read_query, write_query};
use std::alloc::Global;
use std::fmt::Write;

/// What is written of a copy of the rule that the text states, or why it states none.
pub fn query_answer(alloc: Global, text: &[u8]) -> Result<Blob, RowFault> {
    let mut out = Blob::fresh(alloc);
    match &read_query(alloc, text) {
        Ok(rule) => write_query(alloc, &rule.copy(alloc)?, &mut out)?,
        Err(fault) => put_printed(alloc, &mut out, fault)?,
    }
    Ok(out)
}

fn rule_of(alloc: Global, text: &[u8]) -> Result<Rule, RowFault> {
    readable(read_query(alloc, text))
}

/// Appends how many patterns the rule has.
pub fn pattern_count_answer(alloc: Global, text: &[u8], line: &mut String) -> Result<(), RowFault> {
    let rule = rule_of(alloc, text)?;
    put_shown(line, pattern_count(&rule))
}

const MOST_PATTERNS: usize = 100;

fn build<P: Patterns>(alloc: Global, rule: Rule, patterns: &mut P) -> Result<Pred, BuildFault> {
    if pattern_count(&rule) > MOST_PATTERNS {
        return Err(BuildFault::Memory);
    }
    Pred::build(alloc, rule, patterns)
}

/// Appends the names of the events of which the rule holds, or `none`. The line is empty before.
pub fn holds_answer(
    alloc: Global,
    text: &[u8],
    named: &[Named],
    line: &mut String,
) -> Result<(), RowFault> {
    let rule = rule_of(alloc, text)?;
    let mut pred = readable(build(alloc, rule, &mut RegexPatterns::fresh()))?;
    for one in named {
        if pred.holds(alloc, &one.event)? {
            put_blank(line)?;
            line.push_str(one.name.as_str())?;
        }
    }
    if line.is_empty() {
        line.push_str("none")?;
    }
    Ok(())
}

/// Appends that a rule is built, or why it is not.
fn put_built(line: &mut String, built: &Result<Pred, BuildFault>) -> Result<(), RowFault> {
    match built {
        Ok(_) => line.push_str("built")?,
        Err(fault) => write!(line, "{fault}")?,
    }
    Ok(())
}

/// Appends what building the rule ends with, where the number of refusals is already the greatest.
fn build_plainly(alloc: Global, rule: Rule, line: &mut String) -> Result<(), RowFault> {
    let mut patterns = RegexPatterns::fresh();
    patterns.refusals = u64::MAX;
    put_built(line, &build(alloc, rule, &mut patterns))?;
    if patterns.refusals != u64::MAX {
        write!(line, ", and counted {}", patterns.refusals)?;
    }
    Ok(())
}

/// Appends what building the rule ends with, and if it is refused, the number of refusals and the texts that were
/// refused.
fn build_listing(alloc: Global, rule: Rule, line: &mut String) -> Result<(), RowFault> {
    let mut patterns = ListPatterns {
        refusals: 0,
        refused: Texts::fresh(alloc),
    };
    let built = build(alloc, rule, &mut patterns);
    put_built(line, &built)?;
    match built {
        Ok(_) => Ok(()),
        Err(_) => put_refused(line, &patterns),
    }
}

/// Appends what building the rule ends with in each of two ways. The second lists the texts that are refused.
pub fn build_answer(alloc: Global, text: &[u8], line: &mut String) -> Result<(), RowFault> {
    build_plainly(alloc, rule_of(alloc, text)?, line)?;
    line.push_str(" / ")?;
    build_listing(alloc, rule_of(alloc, text)?, line)
}

/// Appends whether the first of two texts, a pattern with percent signs, matches the second.
pub fn like_answer(alloc: Global, asked: &str, line: &mut String) -> Result<(), RowFault> {
    let (pattern, text) = two_texts(asked)?;
    let pattern = read_spelled(alloc, pattern)?;
    let text = read_spelled(alloc, text)?;
    put_shown(line, is_wild(pattern.as_slice(), text.as_slice()))
}
