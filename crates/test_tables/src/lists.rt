//! Lists of ids.
ghost use Rattle.std.specs.Prelude.{◌≡◌, ◌≤◌, [], replicate, IfOk};

use linked_slots::Lists;
use list_laws::Memory;
use std::alloc::{AllocGlobal, Global};
use std::process::Abort;

/// Two lists without ids, with room for two.
fn two_lists(alloc: Global) -> Result<Lists, Memory>
    ensures { IfOk result (λ all. (all.lists ≡ replicate 2 []) × (2 ≤ all.spare)) }
{
    let mut lists = Lists::fresh(alloc, 2)?;
    lists.reserve(alloc, 2)?;
    Ok(lists)
}

/// Whether the first of two ids is alone in the other list once it is moved, and the second in its own.
fn is_moved(alloc: Global) -> bool {
    let Ok(mut lists) = two_lists(alloc) else {
        return false;
    };
    let first = lists.insert(0);
    let second = lists.insert(0);
    lists.move_back(1, first);
    let stayed = lists.front(0) == Some(second) && lists.next(second).is_none();
    let moved = lists.front(1) == Some(first) && lists.next(first).is_none();
    stayed && moved
}

#[test]
fn an_id_is_moved_to_another_list(rt: HostRuntime) {
    assert!(rt; is_moved(rt.alloc()));
}
