//! Ids that are due at moments.

use crate::steps::{counter, is_counted};
use list_laws::{Ids, Memory};
use std::alloc::{AllocGlobal, Global};
use std::process::Abort;
use step_count::{CountLedger, Steps};
use tick_schedule::DueQueue;

/// Ids, each with a moment at which it is due.
const DUES: &[(usize, u64)] = &[(3, 10), (1, 10), (2, 11), (5, 4), (5, 12), (6, 1)];

/// Sets when ids are due, and clears one of them and another one that was not due.
fn set_all(alloc: Global, queue: &mut DueQueue) -> Result<(), Memory> {
    for (id, due) in DUES {
        queue.set(alloc, *id, *due)?;
    }
    queue.clear(6);
    queue.clear(7);
    Ok(())
}

/// Whether these ids are due at the moment, and the next one at this moment.
fn gives(
    alloc: Global,
    queue: &mut DueQueue,
    steps: &mut Steps<CountLedger>,
    now: u64,
    wanted: &[usize],
    next: Option<u64>,
) -> bool {
    let mut ids = Ids::fresh(alloc);
    let taken = queue.take_due(alloc, now, &mut ids, steps).is_ok();
    taken && ids.as_slice() == wanted && queue.next_due() == next
}

/// Whether due ids come once, by rising id, and are counted.
fn is_taken(alloc: Global, queue: &mut DueQueue) -> bool {
    let mut steps = counter();
    set_all(alloc, queue).is_ok()
        && gives(alloc, queue, &mut steps, 9, &[], Some(10))
        && gives(alloc, queue, &mut steps, 10, &[1, 3], Some(11))
        && is_counted(&steps, 0, 2)
        && gives(alloc, queue, &mut steps, u64::MAX, &[2, 5], None)
}

#[test]
fn due_ids_come_by_rising_id(rt: HostRuntime) {
    let mut queue = DueQueue::fresh(rt.alloc());
    assert!(rt; is_taken(rt.alloc(), &mut queue));
}
