//! Values and keys that a block lists in their order.

use crate::events::Named;
use crate::line::RowFault;
use crate::tally::Tally;
use crate::values::{read_key, read_value};
use ev_types::{Key, Memory, Value};
use std::alloc::Global;
use std::cmp::Ordering;

/// Values, and keys, that a block lists in their order.
pub struct Rising {
    values: Vec<Value>,
    keys: Vec<Key>,
}

impl Drop for Rising {
    fn drop(self) {
        let Rising {
            values: _values,
            keys: _keys,
        } = self;
    }
}

impl Rising {
    pub fn fresh(alloc: Global) -> Rising {
        Rising {
            values: Vec::new(alloc),
            keys: Vec::new(alloc),
        }
    }

    pub fn push_value(&mut self, alloc: Global, text: &str) -> Result<(), RowFault> {
        let value = read_value(alloc, text)?;
        self.values.push(value.copy(alloc)?)?;
        Ok(())
    }

    pub fn push_key(&mut self, alloc: Global, named: &[Named], text: &str) -> Result<(), RowFault> {
        self.keys.push(read_key(alloc, text, named)?)?;
        Ok(())
    }
}

/// Compares each two values, and each two keys.
pub fn judge_rising(alloc: Global, rising: &Rising, tally: &mut Tally) -> Result<(), Memory> {
    judge_items(alloc, rising.values.as_slice(), tally)?;
    judge_items(alloc, rising.keys.as_slice(), tally)
}

fn judge_items<T: Ord>(alloc: Global, items: &[T], tally: &mut Tally) -> Result<(), Memory> {
    for (place, item) in items.iter().enumerate() {
        judge_item(alloc, place, item, items, tally)?;
    }
    Ok(())
}

/// Compares the order of the item at the place and each item with that of their places.
fn judge_item<T: Ord>(
    alloc: Global,
    place: usize,
    item: &T,
    items: &[T],
    tally: &mut Tally,
) -> Result<(), Memory> {
    for (other_place, other) in items.iter().enumerate() {
        let wanted = order_name(place.cmp(&other_place), place == other_place);
        let came = order_name(item.cmp(other), item == other);
        let asked = format!(in alloc; "{place} {other_place}")?;
        tally.judge("rising", asked.as_str(), wanted.as_bytes(), came.as_bytes())?;
    }
    Ok(())
}

/// The order of two, and whether they are the same.
fn order_name(order: Ordering, same: bool) -> &'static str {
    match (order, same) {
        (Ordering::Less, false) => "Less false",
        (Ordering::Less, true) => "Less true",
        (Ordering::Equal, false) => "Equal false",
        (Ordering::Equal, true) => "Equal true",
        (Ordering::Greater, false) => "Greater false",
        (Ordering::Greater, true) => "Greater true",
    }
}
