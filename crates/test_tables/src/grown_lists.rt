//! Lists that grow at their end.

use list_laws::{Ids, Memory};
use std::alloc::Global;

/// A list of two numbers.
fn two_ids(alloc: Global) -> Result<Ids, Memory> {
    let mut ids = Ids::fresh(alloc);
    ids.push(alloc, 7)?;
    ids.push(alloc, 0)?;
    Ok(Ids::from_vec(ids.into_vec()))
}

/// Whether the numbers are in the order in which they came, and are found by number.
fn are_two_ids(alloc: Global) -> bool {
    match two_ids(alloc) {
        Ok(ids) => ids.as_slice() == [7, 0].as_slice() && ids.len() == 2 && *ids.get(0) == 7,
        Err(Memory) => false,
    }
}

/// Whether the error of lists that cannot grow has its text.
fn is_out_of_memory(alloc: Global) -> bool {
    match format!(in alloc; "{}", Memory) {
        Ok(text) => text.as_str() == "out of memory",
        Err(_) => false,
    }
}

#[test]
fn lists_grow_at_their_end_and_have_their_items_by_number(rt: HostRuntime) {
    assert!(rt; are_two_ids(rt.alloc()));
    assert!(rt; is_out_of_memory(rt.alloc()));
}
