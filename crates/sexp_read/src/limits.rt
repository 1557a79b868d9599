ghost use Rattle.std.specs.Prelude.{◌≡◌};
ghost use Rattle.sexp_read.specs.Limits.{byte_limit, depth_limit};
ghost use Rattle.sexp_read.specs.declared.read.TheConstants.{DEEPEST, LONGEST};

/// The limits of the code are the numbers that the definitions name.
pub fn limits_are_numbers()
    ensures bytes { LONGEST ≡ byte_limit }
    ensures depth { DEEPEST ≡ depth_limit }
{}
