//! Trees of streams: the order of notices and writes, and how many forks and entries are counted.

use crate::build::{event, plan};
use ev_types::{Memory, Output, Outputs};
use std::alloc::Global;
use step_count::{CountLedger, Steps};
use stream_tree::Tree;

/// An event of the host comes at the moment, which is at most 2^40.
fn post(
    alloc: Global,
    tree: &mut Tree,
    host: &str,
    now: u64,
    outputs: &mut Outputs,
    steps: &mut Steps<CountLedger>,
) -> bool {
    let event = event(alloc, host, "-", 60);
    tree.item(alloc, event, now.min(1 << 40), outputs, steps)
        .is_ok()
}

/// Events of "a" and "b" come at 100, then a second passes, and one of "cb" comes. It answers whether memory is left.
fn play(
    alloc: Global,
    tree: &mut Tree,
    outputs: &mut Outputs,
    steps: &mut Steps<CountLedger>,
) -> bool {
    post(alloc, tree, "a", 100, outputs, steps)
        && post(alloc, tree, "b", 100, outputs, steps)
        && tree.tick(alloc, 101, outputs, steps).is_ok()
        && post(alloc, tree, "cb", 101, outputs, steps)
}

/// The name of the notice, or `write`.
fn name(output: &Output) -> &str {
    match output {
        Output::Notice(notice) => notice.name.as_str(),
        Output::Write(_) => "write",
    }
}

/// Appends the names of the outputs, each with a blank. Where memory is out, a comparison then fails.
fn put_names(out: &mut String, outputs: &Outputs) {
    for output in outputs.as_slice() {
        let _ = out.push_str(name(output));
        let _ = out.push_str(" ");
    }
}

/// Whether the outputs have these names.
fn are_named(alloc: Global, outputs: &Outputs, names: &str) -> bool {
    let mut out = String::new(alloc);
    put_names(&mut out, outputs);
    out.as_str() == names
}

/// Whether the tree gives outputs of these names.
fn plays_names(
    alloc: Global,
    tree: &mut Tree,
    names: &str,
    steps: &mut Steps<CountLedger>,
) -> bool {
    let mut outputs = Outputs::fresh(alloc);
    play(alloc, tree, &mut outputs, steps) && are_named(alloc, &outputs, names)
}

/// A configuration, the names of its outputs, and how many forks and entries are counted.
type Row = (&'static str, &'static str, u64, u64);

/// Whether the tree gives outputs of the names of the row, and counts as many forks and entries.
fn plays(alloc: Global, tree: &mut Tree, row: &Row) -> bool {
    let mut steps = Steps::fresh(CountLedger {
        forks: 0,
        entries: 0,
    });
    let plays_names = plays_names(alloc, tree, row.1, &mut steps);
    let counts = *steps.ledger();
    plays_names && counts.forks == row.2 && counts.entries == row.3
}

/// The tree of the configuration, at the moment 100.
fn tree(alloc: Global, config: &str) -> Result<Tree, Memory> {
    match plan(alloc, config) {
        Ok(plan) => Tree::fresh(alloc, plan, 100),
        Err(Memory) => Err(Memory),
    }
}

/// Whether the tree of the row's configuration plays the row.
fn gives(alloc: Global, row: &Row) -> bool {
    match tree(alloc, row.0) {
        Ok(mut tree) => plays(alloc, &mut tree, row),
        Err(Memory) => false,
    }
}

const ROWS: &[Row] = &[
    (
        "(streams (where (= host \"a\") (notice \"in\") (else (notice \"out\"))))",
        "in out out ",
        0,
        0,
    ),
    (
        "(streams (with :state \"x\" (notice \"n\") index))",
        "n write n write n write ",
        0,
        0,
    ),
    (
        "(streams (with :state \"x\" (default :state \"y\" (notice \"n\"))) index)",
        "n write n write n write ",
        0,
        0,
    ),
    (
        "(streams (sdo (sdo (notice \"n\") (notice \"m\")) index))",
        "n m write n m write n m write ",
        0,
        0,
    ),
    (
        "(streams (tag \"t\" (tagged \"t\" (notice \"n\")) (tagged \"u\" (notice \"u\"))))",
        "n n n ",
        0,
        0,
    ),
    (
        "(streams (notice \"n\") (notice \"n\"))",
        "n n n n n n ",
        0,
        0,
    ),
    // Each host has a throttle of its own, and each event enters a fork.
    (
        "(streams (by :host (throttle 1 10 (notice \"t\"))))",
        "t t t ",
        3,
        0,
    ),
    // At the second both forks are due.
    (
        "(streams (by :host (stable 1 :state (notice \"s\"))))",
        "s s ",
        5,
        2,
    ),
    // Three rules with a pattern each, one below the other and one beside them.
    (
        "(streams (where (host #\"^a\") (notice \"begin\") (else (where (host #\"b$\") (notice \"end\") (else (notice \"rest\"))))) (where (host #\"^b$\") (notice \"b\") (else (notice \"no\"))))",
        "begin no end b end no ",
        0,
        0,
    ),
];

#[test]
fn outputs_come_in_order(rt: HostRuntime) {
    for row in ROWS {
        let gives = gives(rt.alloc(), row);
        assert!(rt; gives, "{}", row.0);
    }
}
