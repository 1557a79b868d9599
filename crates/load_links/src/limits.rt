ghost use Rattle.std.specs.Prelude.{◌≡◌};
ghost use Rattle.load_links.specs.Limits.{increment, multiplier};
ghost use Rattle.load_links.specs.declared.events.TheConstants.{INCREMENT, MULTIPLIER};

/// The generator of the code multiplies and adds the numbers that the definitions name.
pub fn generator_is_given()
    ensures multiplier { MULTIPLIER ≡ multiplier }
    ensures increment { INCREMENT ≡ increment }
{}
