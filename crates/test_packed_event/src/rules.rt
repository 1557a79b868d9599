use ev_types::{Event, Memory};
use packed_event::PackedEvent;
use pred_eval::{Pred, RegexPatterns, Rule, pattern_count};
use query_lang::read_query;
use std::alloc::Global;

/// Queries, each with whether [`FULL`](crate::packed::FULL) meets it and whether [`LAST`](crate::packed::LAST) does.
pub(crate) const QUERIES: &[(&str, bool, bool)] = &[
    ("true", true, true),
    ("false", false, false),
    ("host = \"a\"", true, false),
    ("service = \"s\"", false, true),
    ("state != \"ok\"", false, true),
    ("description = nil", false, true),
    ("host != nil", true, false),
    ("time = 1", true, false),
    ("ttl <= 60", true, false),
    ("time > 1", false, true),
    ("metric < -2", true, false),
    ("metric >= -2", false, false),
    ("service =~ \"%b\"", true, false),
    ("service =~ \"b\"", false, false),
    ("state =~ \"exp%\"", false, true),
    ("service ~= \"^[a-m]*$\"", true, false),
    ("state ~= \"pire\"", false, true),
    ("tagged \"t\"", true, false),
    ("tagged \"\"", true, false),
    ("tagged \"s\"", false, false),
    ("k = \"v\"", true, false),
    ("k =~ \"v%\"", true, false),
    ("l = nil", true, true),
    ("host = \"a\" and not tagged \"s\"", true, false),
    ("metric = 0 or state ~= \"^e\"", false, true),
];

/// The predicate of a rule with at most one regular expression.
fn build(alloc: Global, rule: Rule) -> Result<Pred, Memory> {
    if pattern_count(&rule) > 1 {
        return Err(Memory);
    }
    match Pred::build(alloc, rule, &mut RegexPatterns::fresh()) {
        Ok(pred) => Ok(pred),
        Err(_) => Err(Memory),
    }
}

/// The predicate of a query with at most one regular expression.
fn rule(alloc: Global, query: &str) -> Result<Pred, Memory> {
    match read_query(alloc, query.as_bytes()) {
        Ok(rule) => build(alloc, rule),
        Err(_) => Err(Memory),
    }
}

/// Whether the event, packed and with its own parts, meets the rule where that is `met`. The latter is asked in each of
/// two ways.
fn is_met_by(
    alloc: Global,
    rule: &mut Pred,
    packed: &PackedEvent,
    event: &Event,
    met: bool,
) -> bool {
    let by_packed = rule.holds_of(alloc, packed);
    let by_event = rule.holds(alloc, event);
    let again = rule.holds_of(alloc, event);
    is_answer(by_packed, met) && is_answer(by_event, met) && is_answer(again, met)
}

/// Whether the answer is this one.
fn is_answer(answer: Result<bool, Memory>, wanted: bool) -> bool {
    match answer {
        Ok(answer) => answer == wanted,
        Err(Memory) => false,
    }
}

/// Whether the event meets the rule where that is `met`, and so does the event that owns its parts.
fn is_met(alloc: Global, rule: &mut Pred, packed: &PackedEvent, met: bool) -> bool {
    match packed.unpack(alloc) {
        Ok(event) => is_met_by(alloc, rule, packed, &event, met),
        Err(Memory) => false,
    }
}

/// Whether the query of the row is answered as it says by each of the two events.
fn is_answered(
    alloc: Global,
    row: &(&str, bool, bool),
    full: &PackedEvent,
    last: &PackedEvent,
) -> bool {
    match rule(alloc, row.0) {
        Ok(mut rule) => {
            let by_full = is_met(alloc, &mut rule, full, row.1);
            let by_last = is_met(alloc, &mut rule, last, row.2);
            by_full && by_last
        }
        Err(Memory) => false,
    }
}

/// How many of the queries, from the first one on, are answered as their rows say.
pub(crate) fn answered(alloc: Global, full: &PackedEvent, last: &PackedEvent) -> usize {
    for (number, row) in QUERIES.iter().enumerate() {
        if !is_answered(alloc, row, full, last) {
            return number;
        }
    }
    QUERIES.len()
}
