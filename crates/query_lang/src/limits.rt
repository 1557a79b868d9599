ghost use Rattle.std.specs.Prelude.{◌≡◌};
ghost use Rattle.query_lang.specs.Limits.{byte_limit, opening_limit};
ghost use Rattle.query_lang.specs.declared.parser.TheConstants.{MAX_OPENINGS};
ghost use Rattle.query_lang.specs.declared.read.TheConstants.{MAX_BYTES};

/// The limits of the code are the numbers that the definitions name.
pub fn limits_are_numbers()
    ensures bytes { MAX_BYTES ≡ byte_limit }
    ensures openings { MAX_OPENINGS ≡ opening_limit }
{}
