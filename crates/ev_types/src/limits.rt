ghost use Rattle.std.specs.Prelude.{◌≡◌, pos};
ghost use Rattle.ev_types.specs.Clock.{latest_moment, seconds_per_turn_limit};
ghost use Rattle.ev_types.specs.Limits.{default_ttl, greatest_set_ttl};
ghost use Rattle.ev_types.specs.declared.change.TheConstants.{MAX_TTL};
ghost use Rattle.ev_types.specs.declared.clock.TheConstants.{LATEST_MOMENT, SECONDS_PER_TURN};
ghost use Rattle.ev_types.specs.declared.event.TheConstants.{DEFAULT_TTL};

/// The limits of the code are the numbers that the definitions name.
pub fn limits_are_numbers()
    ensures set_ttl { MAX_TTL ≡ pos greatest_set_ttl }
    ensures ttl { DEFAULT_TTL ≡ default_ttl }
    ensures moment { LATEST_MOMENT ≡ latest_moment }
    ensures turn { SECONDS_PER_TURN ≡ seconds_per_turn_limit }
{}
