ghost use Rattle.std.specs.Prelude.{◌≡◌};
ghost use Rattle.ports.specs.Limits.{piece_limit};
ghost use Rattle.ports.specs.declared.links.TheConstants.{PIECE_LIMIT};

/// The limits of the code are the numbers that the definitions name.
pub fn limits_are_numbers()
    ensures piece { PIECE_LIMIT ≡ piece_limit }
{}
