ghost use Rattle.std.specs.Prelude.{◌≡◌};
ghost use Rattle.ev_types.specs.Names.{field_name, protocol_field, is_hidden, named_field};

use crate::{Field, Text};

impl Field {
    /// The name of the field, by which queries and configurations know it; an attribute's is its key.
    pub fn name(&self) -> &str
        ensures { result.now ≡ field_name self.now }
    {
        match self {
            Field::Host => "host",
            Field::Service => "service",
            Field::State => "state",
            Field::Description => "description",
            Field::Time => "time",
            Field::Ttl => "ttl",
            Field::Metric => "metric",
            Field::Attribute(key) => key.as_str(),
        }
    }

    /// The field of the protocol that has this name, one of seven, or `None` for any other name.
    #[tactic(auto, unfolding(crate::specs::Names::protocol_field))]
    pub fn of_protocol(name: &Text) -> Option<Field>
        ensures { result ≡ protocol_field name.now }
    {
        if name.is(b"host") {
            Some(Field::Host)
        } else if name.is(b"service") {
            Some(Field::Service)
        } else if name.is(b"state") {
            Some(Field::State)
        } else if name.is(b"description") {
            Some(Field::Description)
        } else if name.is(b"time") {
            Some(Field::Time)
        } else if name.is(b"ttl") {
            Some(Field::Ttl)
        } else if name.is(b"metric") {
            Some(Field::Metric)
        } else {
            None
        }
    }

    /// The field that the name means: one of the protocol, the metric for `metric_sint64`, else the attribute of this
    /// key. `metric_f`, `metric_d`, `time_micros` and `tags` mean none.
    #[tactic(auto, unfolding(crate::specs::Names::named_field))]
    pub fn named(name: Text) -> Option<Field>
        ensures { result ≡ named_field name }
    {
        if let Some(field) = Field::of_protocol(&name) {
            Some(field)
        } else if name.is(b"metric_sint64") {
            Some(Field::Metric)
        } else if is_hidden(&name) {
            None
        } else {
            Some(Field::Attribute(name))
        }
    }
}

/// Whether the name is one of the protocol's that means no field.
fn is_hidden(name: &Text) -> bool
    ensures { result ≡ is_hidden name.now }
{
    name.is(b"metric_f") || name.is(b"metric_d") || name.is(b"time_micros") || name.is(b"tags")
}
