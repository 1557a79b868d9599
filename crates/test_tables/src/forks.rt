//! Forks by key.

use crate::steps::{counter, is_counted};
use ev_types::{Event, Field, Fields, Key, Value};
use fork_by::ForkTable;
use list_laws::{Ids, Memory};
use std::alloc::{AllocGlobal, Global};
use std::process::Abort;
use step_count::{CountLedger, Steps};

fn key(alloc: Global, number: i64) -> Result<Key, Memory> {
    let mut key = Key::fresh(alloc);
    key.push(alloc, Value::Number(number))?;
    Ok(key)
}

/// Adds a fork with the value under the key of the number, whose last item came at the moment, and gives its number,
/// unless the key is there.
fn added(
    alloc: Global,
    table: &mut ForkTable<u64>,
    number: i64,
    value: u64,
    now: u64,
) -> Option<usize> {
    let Ok(key) = key(alloc, number) else {
        return None;
    };
    if table.find(&key).is_some() {
        return None;
    }
    table.add(alloc, key, value, now).ok()
}

/// Whether the key of the number has this fork number.
fn is_found(alloc: Global, table: &ForkTable<u64>, number: i64, fork: Option<usize>) -> bool {
    match key(alloc, number) {
        Ok(key) => table.find(&key) == fork,
        Err(Memory) => false,
    }
}

/// The fields of keys that are moments.
fn moments(alloc: Global) -> Result<Fields, Memory> {
    let mut fields = Fields::fresh(alloc);
    fields.push(alloc, Field::Time)?;
    Ok(fields)
}

/// Whether an event of the moment is known to be of this fork.
fn is_known_as(
    alloc: Global,
    table: &ForkTable<u64>,
    fields: &Fields,
    moment: i64,
    fork: Option<usize>,
) -> bool {
    let event = Event::at(alloc, moment);
    table.known(&event, fields) == fork
}

fn is_each_known_as(
    alloc: Global,
    table: &ForkTable<u64>,
    fields: &Fields,
    rows: &[(i64, Option<usize>)],
) -> bool {
    for (moment, fork) in rows {
        if !is_known_as(alloc, table, fields, *moment, *fork) {
            return false;
        }
    }
    true
}

/// Whether events whose moments are these numbers are known to be of these forks, where the keys of forks are moments.
fn are_known_as(alloc: Global, table: &ForkTable<u64>, rows: &[(i64, Option<usize>)]) -> bool {
    match moments(alloc) {
        Ok(fields) => is_each_known_as(alloc, table, &fields, rows),
        Err(Memory) => false,
    }
}

/// Notes an item of the fork of the number, if there is such a fork.
fn touch(table: &mut ForkTable<u64>, number: usize, now: u64) {
    if table.contains(number) {
        table.touch(number, now);
    }
}

/// Adds one to the value of the fork of the number, and returns what it was, if there is such a fork.
fn enter(table: &mut ForkTable<u64>, number: usize, steps: &mut Steps<CountLedger>) -> Option<u64> {
    if !table.contains(number) {
        return None;
    }
    let value = table.enter(number, steps);
    let old = *value;
    *value = old.wrapping_add(1);
    Some(old)
}

/// Asks twice which forks are due at moment 7.
fn ask_twice(
    alloc: Global,
    table: &mut ForkTable<u64>,
    steps: &mut Steps<CountLedger>,
    ids: &mut Ids,
) -> Result<(), Memory> {
    table.due_forks(alloc, 7, ids, steps)?;
    table.due_forks(alloc, 7, ids, steps)
}

/// Whether these forks are given at moment 7, once though it is asked twice, and no fork is due then.
fn are_given_once(
    alloc: Global,
    table: &mut ForkTable<u64>,
    steps: &mut Steps<CountLedger>,
    forks: &[usize],
) -> bool {
    let mut ids = Ids::fresh(alloc);
    let asked = ask_twice(alloc, table, steps, &mut ids).is_ok();
    asked && ids.as_slice() == forks && table.next_due().is_none()
}

/// Sets when forks are due, by their numbers, of those that are there.
fn set_dues(
    alloc: Global,
    table: &mut ForkTable<u64>,
    dues: &[(usize, u64)],
) -> Result<(), Memory> {
    for (number, due) in dues {
        if table.contains(*number) {
            table.set_due(alloc, *number, Some(*due))?;
        }
    }
    Ok(())
}

/// Whether forks that are due at these moments, of which the first one is 5, are given at moment 7 in the order of
/// `forks`, in which they were added.
fn are_due(
    alloc: Global,
    table: &mut ForkTable<u64>,
    steps: &mut Steps<CountLedger>,
    dues: &[(usize, u64)],
    forks: &[usize],
) -> bool {
    set_dues(alloc, table, dues).is_ok()
        && table.next_due() == Some(5)
        && are_given_once(alloc, table, steps, forks)
}

/// The numbers of three forks.
#[derive(Clone, Copy)]
struct ThreeForks {
    first: usize,
    second: usize,
    third: usize,
}

/// Adds forks with the values 10, 20 and 30 under the keys 8, -9 and 7, which begin at these moments.
fn three(alloc: Global, table: &mut ForkTable<u64>, moments: &[u64; 3]) -> Option<ThreeForks> {
    let first = added(alloc, table, 8, 10, moments[0])?;
    let second = added(alloc, table, -9, 20, moments[1])?;
    let third = added(alloc, table, 7, 30, moments[2])?;
    Some(ThreeForks {
        first,
        second,
        third,
    })
}

/// Whether the second of three forks ended, and the others did not.
fn has_second_ended(alloc: Global, table: &mut ForkTable<u64>, forks: ThreeForks) -> bool {
    table.len() == 2
        && is_found(alloc, table, -9, None)
        && is_found(alloc, table, 7, Some(forks.third))
        && table.moment(forks.first) == 3
        && enter(table, forks.third, &mut counter()) == Some(30)
        && !table.contains(forks.second)
}

/// Whether the forks are given at moment 7 in the order in which they were added, where the second was added last.
fn is_second_due_last(alloc: Global, table: &mut ForkTable<u64>, forks: ThreeForks) -> bool {
    let mut steps = counter();
    let dues = [(forks.second, 5), (forks.third, 7), (forks.first, 6)];
    let order = [forks.first, forks.third, forks.second];
    are_due(alloc, table, &mut steps, &dues, &order) && is_counted(&steps, 0, 3)
}

/// Whether of three forks, which begin at the moments 1, 2 and 3, the second ends at 2 if the first got an item at 3;
/// and whether a fork that is added then has its number and comes last.
fn ends_in_order(alloc: Global, table: &mut ForkTable<u64>) -> bool {
    let Some(forks) = three(alloc, table, &[1, 2, 3]) else {
        return false;
    };
    touch(table, forks.first, 3);
    table.drop_idle(2);
    has_second_ended(alloc, table, forks)
        && added(alloc, table, -9, 40, 4) == Some(forks.second)
        && is_second_due_last(alloc, table, forks)
}

/// Whether three forks are known without their keys, and no other one is.
fn are_all_known(alloc: Global, table: &ForkTable<u64>, forks: ThreeForks) -> bool {
    let rows = [
        (8, Some(forks.first)),
        (-9, Some(forks.second)),
        (7, Some(forks.third)),
        (9, None),
    ];
    are_known_as(alloc, table, &rows)
}

/// Whether the second fork ends, so that no event is known to be of it, and the third takes its place, so that it is
/// known once it is noted there.
fn is_third_moved(alloc: Global, table: &mut ForkTable<u64>, forks: ThreeForks) -> bool {
    touch(table, forks.first, 4);
    touch(table, forks.third, 4);
    table.drop_idle(3);
    table.note(alloc, forks.third);
    let rows = [(8, Some(forks.first)), (-9, None), (7, Some(forks.third))];
    are_known_as(alloc, table, &rows)
}

/// Whether three forks are known until they end, and a fork that is added then has the number of the one that ended,
/// and is known by it.
fn are_known(alloc: Global, table: &mut ForkTable<u64>) -> bool {
    let Some(forks) = three(alloc, table, &[3, 3, 3]) else {
        return false;
    };
    are_all_known(alloc, table, forks)
        && is_third_moved(alloc, table, forks)
        && added(alloc, table, -9, 40, 5) == Some(forks.second)
        && are_known_as(alloc, table, &[(-9, Some(forks.second))])
}

/// Whether forks end in order in a new table.
fn is_ended(alloc: Global) -> bool {
    let mut table: ForkTable<u64> = ForkTable::fresh(alloc);
    ends_in_order(alloc, &mut table)
}

/// Whether forks of a new table are known by events until they end.
fn is_known(alloc: Global) -> bool {
    let mut table: ForkTable<u64> = ForkTable::fresh(alloc);
    are_known(alloc, &mut table)
}

#[test]
fn forks_are_given_when_due_known_by_events_and_end(rt: HostRuntime) {
    assert!(rt; is_ended(rt.alloc()));
    assert!(rt; is_known(rt.alloc()));
}
