ghost use Rattle.std.specs.Prelude.{◌≡◌};
ghost use Rattle.config_tests.specs.Limits.{test_limit, tick_limit};
ghost use Rattle.config_tests.specs.declared.draft.TheConstants.{MAX_SECONDS, MAX_TICK};

/// The limits of the code are the numbers that the definitions name.
pub fn limits_are_numbers()
    ensures tick { MAX_TICK ≡ tick_limit }
    ensures test { MAX_SECONDS ≡ test_limit }
{}
