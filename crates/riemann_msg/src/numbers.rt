ghost use Rattle.std.specs.Prelude.{◌≡◌};
ghost use Rattle.riemann_msg.specs.Value.{state_fields};
ghost use Rattle.riemann_msg.specs.Numbers.{attributes_field, description_field, error_field, events_field, fields_of_a_state, host_field, key_field, metric_d_field, metric_f_field, metric_sint64_field, ok_field, query_field, service_field, state_field, states_field, string_field, tags_field, time_field, time_micros_field, ttl_field, value_field};
ghost use Rattle.riemann_msg.specs.declared.fields.TheConstants.{ATTRIBUTES, DESCRIPTION, ERROR, EVENTS, HOST, KEY, METRIC_D, METRIC_F, METRIC_SINT64, OK, QUERY, SERVICE, STATE, STATES, STRING, TAGS, TIME, TIME_MICROS, TTL, VALUE};

/// The field numbers of the code are those of Riemann's `proto.proto`. That of states, and which fields a state has,
/// are this project's profile.
pub fn field_numbers_are_given()
    ensures ok { OK ≡ ok_field }
    ensures error { ERROR ≡ error_field }
    ensures states { STATES ≡ states_field }
    ensures query { QUERY ≡ query_field }
    ensures events { EVENTS ≡ events_field }
    ensures string { STRING ≡ string_field }
    ensures key { KEY ≡ key_field }
    ensures value { VALUE ≡ value_field }
    ensures time { TIME ≡ time_field }
    ensures state { STATE ≡ state_field }
    ensures service { SERVICE ≡ service_field }
    ensures host { HOST ≡ host_field }
    ensures description { DESCRIPTION ≡ description_field }
    ensures tags { TAGS ≡ tags_field }
    ensures ttl { TTL ≡ ttl_field }
    ensures attributes { ATTRIBUTES ≡ attributes_field }
    ensures time_micros { TIME_MICROS ≡ time_micros_field }
    ensures metric_sint64 { METRIC_SINT64 ≡ metric_sint64_field }
    ensures metric_d { METRIC_D ≡ metric_d_field }
    ensures metric_f { METRIC_F ≡ metric_f_field }
    ensures of_state { state_fields ≡ fields_of_a_state }
{}
