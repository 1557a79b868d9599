//! Values under numbers, and counts of what is visited.
use linked_slots::StepTable;
use std::alloc::{AllocGlobal, Global};
use std::process::Abort;
use step_count::{CountLedger, Steps};

/// Steps of which none was counted.
pub(crate) fn counter() -> Steps<CountLedger> {
    Steps::fresh(CountLedger {
        forks: 0,
        entries: 0,
    })
}

/// Whether this many forks and entries were counted.
pub(crate) fn is_counted(steps: &Steps<CountLedger>, forks: u64, entries: u64) -> bool {
    let ledger = steps.ledger();
    ledger.forks == forks && ledger.entries == entries
}

/// Whether a value is found by its number, in one visit of an entry, and removed.
fn is_visited(alloc: Global, table: &mut StepTable<u64>, steps: &mut Steps<CountLedger>) -> bool {
    let Ok(number) = table.add(alloc, 7) else {
        return false;
    };
    let value = *table.visit(number, steps);
    let is_there = table.contains(number);
    is_there && value == 7 && is_counted(steps, 0, 1) && table.remove(number) == 7
}

/// Whether that is so in a new table, with a ledger without counts.
fn is_visited_once(alloc: Global) -> bool {
    let mut table: StepTable<u64> = StepTable::fresh(alloc);
    is_visited(alloc, &mut table, &mut counter())
}

#[test]
fn a_table_visits_a_value_by_its_number_and_gives_it_back(rt: HostRuntime) {
    assert!(rt; is_visited_once(rt.alloc()));
}
