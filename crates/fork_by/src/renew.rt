//! Orders that are given anew.
ghost use Rattle.std.specs.Prelude.{◌≡◌, ℕ, List, [], ◌<◌, ◌-◌, ◌^◌, length, IfOk, OnErr};
ghost use Rattle.std.specs.Map.{values_of};
ghost use Rattle.fork_by.specs.Order.{put_all};
ghost use Rattle.fork_by.specs.Renew.{AreOrdered, Renews, renewed};
ghost use Rattle.fork_by.specs.Slots.{slot_at};

use crate::order::put;
use crate::slots::{Slot, set_order};
use ev_types::Key;
use indexmap::IndexMap;
use list_laws::Memory;
use std::alloc::Global;
use std::collections::BTreeMap;

/// The order of the next fork. If no greater one is left, the forks first get new orders, from 0 on, by their old ones.
pub(crate) fn next_order(
    alloc: Global,
    slots: &mut Vec<Option<Slot>>,
    keys: &IndexMap<Key, usize>,
    next: u64,
) -> Result<u64, Memory>
    ensures small { IfOk result (λ order. order < 2 ^ 64 - 1) }
    ensures renews { IfOk result (λ order. (numbers : List ℕ) →
        AreOrdered slots.old.items keys.now.entries next numbers →
        Renews slots.old.items slots.new.items order numbers) }
    ensures err { OnErr result (slots.new.items ≡ slots.old.items) }
{
    if next < u64::MAX {
        return Ok(next);
    }
    let map = all_in_order(alloc, slots, keys)?;
    let numbers = listed(alloc, &map)?;
    Ok(renew(slots, &numbers))
}

/// The numbers of all keys under their orders.
fn all_in_order(
    alloc: Global,
    slots: &Vec<Option<Slot>>,
    keys: &IndexMap<Key, usize>,
) -> Result<BTreeMap<u64, usize>, Memory>
    ensures { IfOk result (λ map. map.entries
        ≡ put_all slots.now.items [] (values_of keys.now.entries)) }
{
    let mut map = BTreeMap::new(alloc);
    for number in keys.values() {
        put(&mut map, slots, *number)?;
    }
    Ok(map)
}

fn listed(alloc: Global, map: &BTreeMap<u64, usize>) -> Result<Vec<usize>, Memory>
    ensures { IfOk result (λ numbers. numbers.items ≡ values_of map.now.entries) }
{
    let mut numbers = Vec::new(alloc);
    for number in map.values() {
        numbers.push(*number)?;
    }
    Ok(numbers)
}

/// Gives the forks of the numbers the orders from 0 on, and gives the order after these.
fn renew(slots: &mut Vec<Option<Slot>>, numbers: &Vec<usize>) -> u64
    ensures slots { (q : ℕ) → slot_at q slots.new.items
        ≡ renewed q 0 numbers.now.items (slot_at q slots.old.items) }
    ensures next { result ≡ length numbers.now.items }
    ensures small { result < 2 ^ 63 }
{
    for i in 0..numbers.len() {
        set_order(slots, numbers[i], i as u64);
    }
    numbers.len() as u64
}
