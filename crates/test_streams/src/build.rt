//! Events, rules and plans, built from texts.

use ev_types::{Attrs, Event, Memory, Tags, Text};
use pred_eval::{Pred, RegexPatterns, Rule, pattern_count};
use query_lang::read_query;
use sexp_config::read_config;
use std::alloc::Global;
use stream_plan::{ReadyPlan, build_plan};

/// The text, or none where it is `-`, or where memory is out. A comparison then fails.
pub(crate) fn text(alloc: Global, chars: &str) -> Option<Text> {
    if chars == "-" {
        return None;
    }
    Text::from_str(alloc, chars).ok()
}

/// An event of this host, service and state, with the time 100 and this ttl.
pub(crate) fn event_of(
    alloc: Global,
    host: Option<Text>,
    service: Option<Text>,
    state: Option<Text>,
    ttl: u32,
) -> Event {
    Event {
        host,
        service,
        state,
        description: None,
        tags: Tags::fresh(alloc),
        time: 100,
        time_micros: None,
        ttl: Some(ttl),
        metric: None,
        raw_d: None,
        raw_f: None,
        attributes: Attrs::fresh(alloc),
    }
}

/// An event of this host and service, each absent where it is `-`, with the time 100 and this ttl.
pub(crate) fn event(alloc: Global, host: &str, service: &str, ttl: u32) -> Event {
    event_of(alloc, text(alloc, host), text(alloc, service), None, ttl)
}

/// The rule of a query with at most one regular expression.
pub(crate) fn rule(alloc: Global, query: &str) -> Result<Pred, Memory> {
    match read_query(alloc, query.as_bytes()) {
        Ok(rule) => built(alloc, rule),
        Err(_) => Err(Memory),
    }
}

/// The rule with its regular expression, of which it has at most one.
fn built(alloc: Global, rule: Rule) -> Result<Pred, Memory> {
    if pattern_count(&rule) > 1 {
        return Err(Memory);
    }
    match Pred::build(alloc, rule, &mut RegexPatterns::fresh()) {
        Ok(pred) => Ok(pred),
        Err(_) => Err(Memory),
    }
}

/// The plan of the configuration.
pub(crate) fn plan(alloc: Global, config: &str) -> Result<ReadyPlan, Memory> {
    match read_config(alloc, config.as_bytes()) {
        Ok(config) => match build_plan(alloc, config.plan, &mut RegexPatterns::fresh()) {
            Ok(plan) => Ok(plan),
            Err(_) => Err(Memory),
        },
        Err(_) => Err(Memory),
    }
}
