/// The last moment of a clock, in seconds since 1970.
pub const LATEST_MOMENT: u64 = 1 << 40;

/// How many seconds pass in one turn at most: an hour.
pub const SECONDS_PER_TURN: u64 = 3600;
