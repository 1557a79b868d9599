//! Numbers in the order in which their forks were added.
ghost use Rattle.std.specs.Prelude.{◌≡◌, [], ◌+◌, ◌≤◌, ◌++◌, length, IfOk, OnOk, OnErr};
ghost use Rattle.std.specs.Map.{values_of};
ghost use Rattle.list_laws.specs.Prefix.{IsPrefix};
ghost use Rattle.fork_by.specs.Order.{put_all, put_one};
ghost use Rattle.fork_by.specs.Slots.{slot_at};

use crate::slots::{Slot, slot_of};
use list_laws::{Ids, Memory};
use std::alloc::Global;
use std::collections::{BTreeMap, BTreeSet};
use step_count::{Ledger, Steps};

/// The numbers under their orders, so that they are in the order in which their forks were added.
pub(crate) fn in_order(
    alloc: Global,
    slots: &Vec<Option<Slot>>,
    numbers: &BTreeSet<usize>,
) -> Result<BTreeMap<u64, usize>, Memory>
    ensures { IfOk result (λ map. map.entries ≡ put_all slots.now.items [] numbers.now.keys) }
{
    let mut map = BTreeMap::new(alloc);
    for number in numbers {
        put(&mut map, slots, *number)?;
    }
    Ok(map)
}

/// Puts the number under its order, if it has one.
pub(crate) fn put(
    map: &mut BTreeMap<u64, usize>,
    slots: &Vec<Option<Slot>>,
    number: usize,
) -> Result<(), Memory>
    ensures { OnOk result (map.new.entries
        ≡ put_one map.old.entries (slot_at number slots.now.items) number) }
{
    if let Some(slot) = slot_of(slots, number) {
        map.insert(slot.order, number)?;
    }
    Ok(())
}

/// Appends the numbers, and counts one entry for each.
pub(crate) fn push_all<G: Ledger>(
    alloc: Global,
    numbers: &BTreeMap<u64, usize>,
    out: &mut Ids,
    steps: &mut Steps<G>,
) -> Result<(), Memory>
    ensures ids { OnOk result (out.new ≡ out.old ++ values_of numbers.now.entries) }
    ensures entries { OnOk result (steps.new.entries
        ≡ steps.old.entries + length (values_of numbers.now.entries)) }
    ensures prefix { OnErr result (IsPrefix out.old out.new) }
    ensures at_most { steps.new.entries
        ≤ steps.old.entries + length (values_of numbers.now.entries) }
    ensures at_least { steps.old.entries ≤ steps.new.entries }
    ensures forks { steps.new.forks ≡ steps.old.forks }
    ensures began { steps.new.began ≡ steps.old.began }
{
    for number in numbers.values() {
        steps.visit_entry();
        out.push(alloc, *number)?;
    }
    Ok(())
}
