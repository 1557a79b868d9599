ghost use Rattle.std.specs.Prelude.{◌≡◌};
ghost use Rattle.command_serve.specs.Limits.{event_limit};
ghost use Rattle.command_serve.specs.declared.play.TheConstants.{EVENT_LIMIT};

/// The limits of the code are the numbers that the definitions name.
pub fn limits_are_numbers()
    ensures events { EVENT_LIMIT ≡ event_limit }
{}
