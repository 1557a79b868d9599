ghost use Rattle.std.specs.Prelude.{◌≡◌, [], ◌++◌, IsOk, IfOk, OnErr, OnOk};
ghost use Rattle.stream_meaning.specs.Came.{vector};
ghost use Rattle.stream_meaning.specs.Emitted.{emitted};

use ev_types::{Emission, Emissions, Event, Events, Item, Memory};
use std::alloc::Global;

/// Appends the events as one vector for the children, or nothing where there are none. If memory runs out, nothing is
/// appended.
pub(crate) fn send(alloc: Global, events: Events, out: &mut Emissions) -> Result<(), Memory>
    ensures ok { OnOk result (out.new ≡ out.old ++ emitted (vector events)) }
    ensures err { OnErr result (out.new ≡ out.old) }
    ensures nothing { events ≡ [] → IsOk result }
{
    if events.len() == 0 {
        return Ok(());
    }
    let emission = Emission {
        branch: 0,
        item: Item::Many(events),
    };
    out.push(alloc, emission)?;
    Ok(())
}

/// Copies of the events, in order.
pub(crate) fn copy_events(alloc: Global, events: &[Event]) -> Result<Events, Memory>
    ensures { IfOk result (λ copied. copied ≡ events.now) }
{
    let mut copied = Vec::with_capacity(alloc, events.len())?;
    for event in events {
        copied.push(event.copy(alloc)?)?;
    }
    Ok(Events::from_vec(copied))
}
