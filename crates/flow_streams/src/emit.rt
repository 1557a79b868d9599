ghost use Rattle.std.specs.Prelude.{◌≡◌, [], ◌∷◌, ◌++◌, false, if◌then◌else◌, IfOk, IsOk, OnErr, OnOk};
ghost use Rattle.ev_types.specs.Field.{field_value};
ghost use Rattle.stream_meaning.specs.Came.{each};
ghost use Rattle.stream_meaning.specs.Emitted.{emitted};

use ev_types::{Emission, Emissions, Event, Field, Item, Memory, Value, field_number, field_text};
use std::alloc::Global;

/// Appends the event to what the children get.
pub(crate) fn emit_event(alloc: Global, event: Event, out: &mut Emissions) -> Result<(), Memory>
    ensures ok { OnOk result (out.new ≡ out.old ++ emitted (each (event ∷ []))) }
    ensures err { OnErr result (out.new ≡ out.old) }
{
    let emission = Emission {
        branch: 0,
        item: Item::One(event),
    };
    out.push(alloc, emission)
}

/// Appends the event to what the children get, if it passes. Only that takes memory.
pub(crate) fn emit_if(
    alloc: Global,
    passes: bool,
    event: Event,
    out: &mut Emissions,
) -> Result<(), Memory>
    ensures ok { OnOk result
        (out.new ≡ out.old ++ emitted (if passes then each (event ∷ []) else [])) }
    ensures err { OnErr result (out.new ≡ out.old) }
    ensures memory { passes ≡ false → IsOk result }
{
    if passes {
        emit_event(alloc, event, out)?;
    }
    Ok(())
}

/// The value that the event holds in the field, in memory of its own.
pub(crate) fn copy_value(alloc: Global, event: &Event, field: &Field) -> Result<Value, Memory>
    ensures { IfOk result (λ value. value ≡ field_value event.now field.now) }
{
    if let Some(text) = field_text(event, field) {
        return Ok(Value::Text(text.copy(alloc)?));
    }
    Ok(match field_number(event, field) {
        Some(number) => Value::Number(number),
        None => Value::Nil,
    })
}
