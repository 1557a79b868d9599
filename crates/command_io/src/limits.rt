ghost use Rattle.std.specs.Prelude.{◌≡◌};
ghost use Rattle.command_io.specs.Limits.{config_limit, file_limit};
ghost use Rattle.command_io.specs.declared.limits.TheConstants.{CONFIG_LIMIT, FILE_LIMIT};

/// The greatest number of bytes of a configuration, and of its tests.
pub const CONFIG_LIMIT: u64 = 1_048_576;

/// The greatest number of bytes of a file that is fed, and of a script.
pub const FILE_LIMIT: u64 = 67_108_864;

/// The limits of the code are the numbers that the definitions name.
pub fn limits_are_numbers()
    ensures config { CONFIG_LIMIT ≡ config_limit }
    ensures file { FILE_LIMIT ≡ file_limit }
{}
