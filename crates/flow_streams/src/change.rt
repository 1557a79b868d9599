ghost use Rattle.std.specs.Prelude.{◌≡◌, IfOk, OnOk};
ghost use Rattle.stream_meaning.specs.Images.{with_sets, with_default, with_defaults, with_tags};

use ev_types::{Event, Memory, Set, Sets, Tags, Value, field_is};
use std::alloc::Global;

/// The event with all sets made, in order. A later set of a field replaces what an earlier one gave it; a value that
/// does not fit its field changes nothing. The event is changed in place. A set of an attribute copies the event's
/// other attributes, and nothing else of it is copied. `Memory`: out of memory.
pub fn apply_sets(alloc: Global, sets: &Sets, event: Event) -> Result<Event, Memory>
    ensures { IfOk result (λ changed. changed ≡ with_sets sets.now event) }
{
    let mut changed = event;
    let sets = sets.as_slice();
    for set in sets {
        changed.set(alloc, &set.field, &set.value)?;
    }
    Ok(changed)
}

/// The event with each set made whose field holds nil by then, in order; a value that does not fit its field changes
/// nothing. The event is changed in place. A set of an attribute copies the event's other attributes, and nothing else
/// of it is copied. `Memory`: out of memory.
pub fn apply_defaults(alloc: Global, sets: &Sets, event: Event) -> Result<Event, Memory>
    ensures { IfOk result (λ changed. changed ≡ with_defaults sets.now event) }
{
    let mut changed = event;
    let sets = sets.as_slice();
    for set in sets {
        apply_default(alloc, set, &mut changed)?;
    }
    Ok(changed)
}

/// The event with each tag that it lacks added after those that it has, in order. The event is changed in place, and
/// nothing of it is copied.
pub fn apply_tags(alloc: Global, tags: &Tags, event: Event) -> Result<Event, Memory>
    ensures { IfOk result (λ changed. changed ≡ with_tags tags.now event) }
{
    let mut changed = event;
    let tags = tags.as_slice();
    for tag in tags {
        changed.add_tag(alloc, tag)?;
    }
    Ok(changed)
}

// Makes the set where its field holds nil.
fn apply_default(alloc: Global, set: &Set, event: &mut Event) -> Result<(), Memory>
    ensures { OnOk result (event.new ≡ with_default event.old set.now) }
{
    if field_is(event, &set.field, &Value::Nil) {
        event.set(alloc, &set.field, &set.value)?;
    }
    Ok(())
}
