//! What is kept of forks under their numbers.
ghost use Rattle.std.specs.Prelude.{◌≡◌, ℕ, ◌<◌, length, None, Some, OnOk};
ghost use Rattle.fork_by.specs.Slots.{slot_at, SetsSlot, at_moment, index_in, moment_in, with_index, with_order};

use list_laws::Memory;

/// What is kept of a fork under its number.
#[derive(Clone, Copy)]
pub(crate) struct Slot {
    /// Where its key is among the keys, and the fork among the forks.
    pub(crate) index: usize,
    /// It is less than that of each fork that was added later.
    pub(crate) order: u64,
    /// The moment of its last item, in seconds since 1970.
    pub(crate) moment: u64,
}

/// What happened to the numbers.
#[derive(Clone, Copy)]
pub(crate) enum Change {
    Added(usize),
    Removed(usize),
}

/// What is kept under the number, if it has a fork.
pub(crate) fn slot_of(slots: &Vec<Option<Slot>>, number: usize) -> Option<Slot>
    ensures { result ≡ slot_at number slots.now.items }
{
    match slots.get(number) {
        Some(Some(slot)) => Some(*slot),
        _ => None,
    }
}

/// Makes a slot for the number.
pub(crate) fn reach(slots: &mut Vec<Option<Slot>>, number: usize) -> Result<(), Memory>
    ensures same { (other : ℕ) → slot_at other slots.new.items ≡ slot_at other slots.old.items }
    ensures slot { OnOk result (number < length slots.new.items) }
{
    while slots.len() <= number {
        slots.push(None)?;
    }
    Ok(())
}

/// Sets what is kept under the number.
pub(crate) fn set_slot(slots: &mut Vec<Option<Slot>>, number: usize, slot: Slot)
    requires { number < length slots.old.items }
    ensures set { SetsSlot slots.old.items slots.new.items number (Some slot) }
    ensures len { length slots.new.items ≡ length slots.old.items }
{
    slots[number] = Some(slot);
}

/// Removes what is kept under the number.
pub(crate) fn clear_slot(slots: &mut Vec<Option<Slot>>, number: usize)
    ensures { SetsSlot slots.old.items slots.new.items number None }
{
    if number < slots.len() {
        slots[number] = None;
    }
}

/// Where the key and the fork of the number are, and 0 where it has none.
pub(crate) fn index_of(slots: &Vec<Option<Slot>>, number: usize) -> usize
    ensures { result ≡ index_in (slot_at number slots.now.items) }
{
    match slot_of(slots, number) {
        Some(slot) => slot.index,
        None => 0,
    }
}

/// The moment of the last item of the fork of the number, and 0 where it has none.
pub(crate) fn moment_of(slots: &Vec<Option<Slot>>, number: usize) -> u64
    ensures { result ≡ moment_in (slot_at number slots.now.items) }
{
    match slot_of(slots, number) {
        Some(slot) => slot.moment,
        None => 0,
    }
}

/// Sets where the key and the fork of the number are.
pub(crate) fn set_index(slots: &mut Vec<Option<Slot>>, number: usize, index: usize)
    ensures { SetsSlot slots.old.items slots.new.items number
        (with_index index (slot_at number slots.old.items)) }
{
    let Some(slot) = slot_of(slots, number) else {
        return;
    };
    let Slot { order, moment, .. } = slot;
    set_slot(
        slots,
        number,
        Slot {
            index,
            order,
            moment,
        },
    );
}

/// Sets the moment of the last item of the fork of the number.
pub(crate) fn set_moment(slots: &mut Vec<Option<Slot>>, number: usize, moment: u64)
    ensures { SetsSlot slots.old.items slots.new.items number
        (at_moment moment (slot_at number slots.old.items)) }
{
    let Some(slot) = slot_of(slots, number) else {
        return;
    };
    let Slot { index, order, .. } = slot;
    set_slot(
        slots,
        number,
        Slot {
            index,
            order,
            moment,
        },
    );
}

/// Sets the order of the fork of the number.
pub(crate) fn set_order(slots: &mut Vec<Option<Slot>>, number: usize, order: u64)
    ensures { SetsSlot slots.old.items slots.new.items number
        (with_order order (slot_at number slots.old.items)) }
{
    let Some(slot) = slot_of(slots, number) else {
        return;
    };
    let Slot { index, moment, .. } = slot;
    set_slot(
        slots,
        number,
        Slot {
            index,
            order,
            moment,
        },
    );
}
