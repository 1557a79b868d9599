ghost use Rattle.std.specs.Prelude.{◌≡◌, ◌<◌, ◌^◌};

/// The windows in which a stream counts its events: each has `secs` seconds, and the first one begins at the moment
/// `start`, in seconds since 1970. Windows are numbered from 0.
#[derive(Drop)]
pub(crate) struct Windows {
    start: u64,
    secs: u32,
    ghost positive: { 0 < secs },
    ghost bounded: { secs < 2 ^ 32 },
}

impl Windows {
    ghost use Rattle.rate_streams.specs.Windows.{number_at, end_at};

    pub(crate) fn new(start: u64, secs: u32) -> Windows
        requires { 0 < secs }
        ensures start { result.start ≡ start }
        ensures secs { result.secs ≡ secs }
    {
        Windows { start, secs }
    }

    /// The number of the window in which the moment `now` is.
    pub(crate) fn number(&self, now: u64) -> u64
        ensures { result ≡ number_at self.now now }
    {
        now.saturating_sub(self.start) / u64::from(self.secs)
    }

    /// The first moment after the window with this number.
    pub(crate) fn end_of(&self, window: u64) -> u64
        ensures { end_at self.now window < 2 ^ 64 → result ≡ end_at self.now window }
    {
        let length = window
            .saturating_add(1)
            .saturating_mul(u64::from(self.secs));
        self.start.saturating_add(length)
    }
}
