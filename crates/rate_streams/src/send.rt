ghost use Rattle.std.specs.Prelude.{◌≡◌, [], ◌∷◌, ◌++◌, OnOk, OnErr};
ghost use Rattle.list_laws.specs.Prefix.{IsPrefix};
ghost use Rattle.stream_meaning.specs.Came.{each, vector};
ghost use Rattle.stream_meaning.specs.Emitted.{emitted};

use ev_types::{Emission, Emissions, Event, Events, Item, Memory};
use std::alloc::Global;

/// Appends the event, for the children.
pub(crate) fn send_event(alloc: Global, event: Event, out: &mut Emissions) -> Result<(), Memory>
    ensures ok { OnOk result (out.new ≡ out.old ++ emitted (each (event ∷ []))) }
    ensures err { OnErr result (out.new ≡ out.old) }
    ensures prefix { IsPrefix out.old out.new }
{
    let emission = Emission {
        branch: 0,
        item: Item::One(event),
    };
    out.push(alloc, emission)?;
    Ok(())
}

/// Appends the events as one vector, for the children, and nothing where there is none.
pub(crate) fn send_vector(alloc: Global, events: Events, out: &mut Emissions) -> Result<(), Memory>
    ensures ok { OnOk result (out.new ≡ out.old ++ emitted (vector events)) }
    ensures err { OnErr result (out.new ≡ out.old) }
    ensures prefix { IsPrefix out.old out.new }
{
    if events.len() == 0 {
        return Ok(());
    }
    let emission = Emission {
        branch: 0,
        item: Item::Many(events),
    };
    out.push(alloc, emission)?;
    Ok(())
}

/// Appends each of the events, in their order, for the children.
pub(crate) fn send_each(alloc: Global, events: Events, out: &mut Emissions) -> Result<(), Memory>
    ensures ok { OnOk result (out.new ≡ out.old ++ emitted (each events)) }
    ensures prefix { IsPrefix out.old out.new }
{
    for event in events.into_vec() {
        send_event(alloc, event, out)?;
    }
    Ok(())
}

/// Appends the event as a vector of its own, for the children.
pub(crate) fn send_alone(alloc: Global, event: Event, out: &mut Emissions) -> Result<(), Memory>
    ensures ok { OnOk result (out.new ≡ out.old ++ emitted (vector (event ∷ []))) }
    ensures err { OnErr result (out.new ≡ out.old) }
    ensures prefix { IsPrefix out.old out.new }
{
    let mut events = Events::fresh(alloc);
    events.push(alloc, event)?;
    send_vector(alloc, events, out)?;
    Ok(())
}
