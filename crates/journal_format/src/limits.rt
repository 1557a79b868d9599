ghost use Rattle.std.specs.Prelude.{◌≡◌};
ghost use Rattle.journal_format.specs.Limits.{config_limit, journal_limit, piece_limit, step_limit, summary_limit};
ghost use Rattle.journal_format.specs.declared.limits.TheConstants.{CONFIG_LIMIT, JOURNAL_LIMIT, PIECE_LIMIT, STEP_LIMIT, SUMMARY_LIMIT};

/// The most bytes of a configuration.
pub const CONFIG_LIMIT: usize = 1_048_576;

/// The most bytes of a journal, without what follows its closed gate.
pub const JOURNAL_LIMIT: usize = 67_108_864;

/// The most summaries of a record.
pub const SUMMARY_LIMIT: usize = 257;

/// The most bytes of a piece that was read.
pub const PIECE_LIMIT: usize = 65_536;

/// The most bytes of a record with a gate.
pub const STEP_LIMIT: usize = 69_929;

/// The limits of the code are the numbers that the definitions name.
pub fn limits_are_numbers()
    ensures config { CONFIG_LIMIT ≡ config_limit }
    ensures journal { JOURNAL_LIMIT ≡ journal_limit }
    ensures summaries { SUMMARY_LIMIT ≡ summary_limit }
    ensures piece { PIECE_LIMIT ≡ piece_limit }
    ensures step { STEP_LIMIT ≡ step_limit }
{}
