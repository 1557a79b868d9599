ghost use Rattle.std.specs.Prelude.{◌≡◌};
ghost use Rattle.sexp_config.specs.Limits.{default_interval, default_port, greatest_port};
ghost use Rattle.sexp_config.specs.declared.expiry.TheConstants.{DEFAULT_INTERVAL};
ghost use Rattle.sexp_config.specs.declared.server.TheConstants.{DEFAULT_PORT, MAX_PORT};

/// The defaults and the greatest port of the code are the numbers that the definitions name.
pub fn defaults_are_numbers()
    ensures port { DEFAULT_PORT ≡ default_port }
    ensures greatest { MAX_PORT ≡ greatest_port }
    ensures interval { DEFAULT_INTERVAL ≡ default_interval }
{}
