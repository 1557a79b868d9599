//! How many entries the calls of an index count.

ghost use Rattle.std.specs.Prelude.{◌≡◌, IfOk};
ghost use Rattle.pred_eval.specs.Tree.{Always};

use crate::build::{event, event_of, rule, text};
use ev_types::{Events, Memory, Text};
use live_index::LiveIndex;
use pred_eval::{Pred, RegexPatterns, Rule};
use std::alloc::Global;
use step_count::{CountLedger, Steps};

/// Steps of which none was counted.
fn no_steps() -> Steps<CountLedger> {
    Steps::fresh(CountLedger {
        forks: 0,
        entries: 0,
    })
}

/// How many entries were counted.
fn entries(steps: &Steps<CountLedger>) -> u64 {
    let CountLedger { forks: _, entries } = *steps.ledger();
    entries
}

/// The ttl of the event of this host and service: three of them have a short one.
fn ttl_of(host: u32, service: u32) -> u32 {
    if service == 4 && host % 40 == 7 {
        5
    } else {
        60
    }
}

/// The letter and the number as a text, or none where memory is out.
fn numbered(alloc: Global, letter: char, number: u32) -> Option<Text> {
    match format!(in alloc; "{letter}{number}") {
        Ok(chars) => text(alloc, chars.as_str()),
        Err(_) => None,
    }
}

/// Writes an event of the host and service. It answers whether memory is left, as all that write do here.
fn write_one(alloc: Global, index: &mut LiveIndex, host: u32, service: u32) -> bool {
    let ttl = ttl_of(host, service);
    let host = numbered(alloc, 'h', host);
    let service = numbered(alloc, 's', service);
    index
        .write(alloc, event_of(alloc, host, service, None, ttl))
        .is_ok()
}

/// Writes events of ten services of the host.
fn write_host(alloc: Global, index: &mut LiveIndex, host: u32) -> bool {
    for service in 0..10 {
        if !write_one(alloc, index, host, service) {
            return false;
        }
    }
    true
}

/// Writes ten events of each of 100 hosts.
fn write_thousand(alloc: Global, index: &mut LiveIndex) -> bool {
    for host in 0..100 {
        if !write_host(alloc, index, host) {
            return false;
        }
    }
    true
}

/// What is asked of an index by a query.
#[derive(Clone, Copy)]
enum Asked {
    /// How many events are copied by a search.
    Copies,
    /// How many bytes a reply has.
    Length,
}

/// Whether a search copies this many events, and visits this many entries.
fn copies(
    alloc: Global,
    index: &mut LiveIndex,
    pred: &mut Pred,
    wanted: usize,
    visited: u64,
) -> bool {
    let mut out = Events::fresh(alloc);
    let mut steps = no_steps();
    let is_searched = index.search(alloc, pred, &mut out, &mut steps).is_ok();
    is_searched && out.len() == wanted && entries(&steps) == visited
}

/// Whether this many bytes are measured, and this many entries were visited.
fn is_length(
    length: Result<usize, Memory>,
    steps: &Steps<CountLedger>,
    wanted: usize,
    visited: u64,
) -> bool {
    match length {
        Ok(length) => length == wanted && entries(steps) == visited,
        Err(Memory) => false,
    }
}

/// Whether a reply has this many bytes, and this many entries are visited to know it.
fn measures(
    alloc: Global,
    index: &mut LiveIndex,
    pred: &mut Pred,
    wanted: usize,
    visited: u64,
) -> bool {
    let mut steps = no_steps();
    let length = index.found_len(alloc, pred, &mut steps);
    is_length(length, &steps, wanted, visited)
}

/// Whether the predicate is answered so, and this many entries are visited.
fn answers_by(
    alloc: Global,
    index: &mut LiveIndex,
    pred: &mut Pred,
    asked: Asked,
    wanted: usize,
    visited: u64,
) -> bool {
    match asked {
        Asked::Copies => copies(alloc, index, pred, wanted, visited),
        Asked::Length => measures(alloc, index, pred, wanted, visited),
    }
}

/// The same, with the predicate of the query.
fn answers(
    alloc: Global,
    index: &mut LiveIndex,
    query: &str,
    asked: Asked,
    wanted: usize,
    visited: u64,
) -> bool {
    match rule(alloc, query) {
        Ok(mut pred) => answers_by(alloc, index, &mut pred, asked, wanted, visited),
        Err(Memory) => false,
    }
}

/// Queries, how many events they find, and how many entries they visit.
const SEARCHES: &[(&str, usize, u64)] = &[
    ("host = \"h7\"", 10, 10),
    (
        "service = \"s1\" and host = \"h7\" and host = \"h8\"",
        0,
        10,
    ),
    ("host = nil", 0, 0),
    ("host = 7", 0, 0),
    ("not host = \"h7\"", 990, 1_000),
    ("service = \"s1\"", 100, 1_000),
];

/// Whether a search visits one host where it asks for one.
fn are_searched(alloc: Global, index: &mut LiveIndex) -> bool {
    for (query, found, visited) in SEARCHES {
        if !answers(alloc, index, query, Asked::Copies, *found, *visited) {
            return false;
        }
    }
    true
}

/// Writes an event of the host and of the service "s1" that is longer than the one in whose place it comes.
fn write_longer(alloc: Global, index: &mut LiveIndex, host: &str) -> bool {
    let mut longer = event(alloc, host, "s1", 60);
    longer.metric = Some(1);
    index.write(alloc, longer).is_ok()
}

/// Whether a reply with the ten events of a host is measured, and again after a longer one takes the place of one of
/// them.
fn are_measured(alloc: Global, index: &mut LiveIndex) -> bool {
    answers(alloc, index, "host = \"h7\"", Asked::Length, 172, 10)
        && write_longer(alloc, index, "h7")
        && answers(alloc, index, "host = \"h7\"", Asked::Length, 174, 10)
}

/// The predicate that every event meets.
fn always(alloc: Global) -> Result<Pred, Memory>
    ensures { IfOk result (λ pred. pred ≡ Always) }
{
    match Pred::build(alloc, Rule::Always, &mut RegexPatterns::fresh()) {
        Ok(pred) => Ok(pred),
        Err(_) => Err(Memory),
    }
}

/// Whether a reply with all events has this many bytes, and this many entries are visited to know it.
fn measures_all_by(
    alloc: Global,
    index: &mut LiveIndex,
    pred: &mut Pred,
    wanted: usize,
    visited: u64,
) -> bool
    requires { pred.old ≡ Always }
{
    let mut steps = no_steps();
    let length = index.all_len(alloc, pred, &mut steps);
    is_length(length, &steps, wanted, visited)
}

/// The same, with the predicate that every event meets.
fn measures_all(alloc: Global, index: &mut LiveIndex, wanted: usize, visited: u64) -> bool {
    match always(alloc) {
        Ok(mut pred) => measures_all_by(alloc, index, &mut pred, wanted, visited),
        Err(Memory) => false,
    }
}

/// Whether a reply with all events is measured once, and again after a longer one takes the place of one of them.
fn are_all_measured(alloc: Global, index: &mut LiveIndex) -> bool {
    measures_all(alloc, index, 17_904, 1_000)
        && measures_all(alloc, index, 17_904, 0)
        && write_longer(alloc, index, "h8")
        && measures_all(alloc, index, 17_906, 1_000)
        && answers(alloc, index, "true", Asked::Length, 17_906, 1_000)
}

/// Whether a look-up visits one event.
fn is_looked_up(alloc: Global, index: &mut LiveIndex) -> bool {
    let (host, service) = (text(alloc, "h7"), text(alloc, "s4"));
    let mut steps = no_steps();
    let found = index
        .get(host.as_ref(), service.as_ref(), &mut steps)
        .is_some();
    found && entries(&steps) == 1
}

/// Whether a reap visits what expires alone.
fn is_reaped(alloc: Global, index: &mut LiveIndex) -> bool {
    let mut out = Events::fresh(alloc);
    let mut steps = no_steps();
    let reaped = index.reap(alloc, 106, &mut out, &mut steps).is_ok();
    reaped && out.len() == 3 && entries(&steps) <= 6
}

/// Whether the calls of an index with a thousand events visit no more than they have to, and 997 are left.
fn are_visited(alloc: Global, index: &mut LiveIndex) -> bool {
    write_thousand(alloc, index)
        && are_searched(alloc, index)
        && are_measured(alloc, index)
        && are_all_measured(alloc, index)
        && is_looked_up(alloc, index)
        && is_reaped(alloc, index)
        && index.len() == 997
}

/// Whether an index visits what is asked for.
fn is_visited(alloc: Global) -> bool {
    let mut index = LiveIndex::fresh(alloc);
    are_visited(alloc, &mut index)
}

#[test]
fn an_index_visits_what_is_asked_for(rt: HostRuntime) {
    assert!(rt; is_visited(rt.alloc()));
}
