ghost use Rattle.std.specs.Prelude.{◌≡◌, ◌≤◌, false};
ghost use Rattle.std.specs.Duration.{as_nanos};
ghost use Rattle.mio_links.specs.Shares.{is_long, weighed};

use ports::PIECE_LIMIT;
use std::time::Duration;

/// The fewest bytes of a client that are read at once.
pub const LEAST_SHARE: usize = 512;

// A read is dear if the server takes more nanoseconds for it than this.
const LONG: u128 = 20_000_000;

// It is cheap if the server takes fewer than this.
const SHORT: u128 = 5_000_000;

/// How many bytes of a client are read at once, by what its reads cost the server.
#[derive(Clone, Copy)]
pub struct Share {
    /// From [`LEAST_SHARE`] to [`PIECE_LIMIT`].
    pub bytes: usize,
    /// Whether the server took long for the last read.
    pub is_dear: bool,
    ghost least: { 512 ≤ bytes },
    ghost most: { bytes ≤ 65_536 },
}

impl Share {
    /// As little as is read of a client whose reads were not weighed yet.
    pub fn first() -> Share
        ensures bytes { result.bytes ≡ 512 }
        ensures cheap { result.is_dear ≡ false }
    {
        Share {
            bytes: LEAST_SHARE,
            is_dear: false,
        }
    }

    /// As much as a read can give.
    pub fn whole() -> Share
        ensures bytes { result.bytes ≡ PIECE_LIMIT }
        ensures cheap { result.is_dear ≡ false }
    {
        Share {
            bytes: PIECE_LIMIT,
            is_dear: false,
        }
    }

    /// Takes what the server took for a read. After a dear one half as much is read at once, and after a cheap one
    /// twice as much.
    pub fn weigh(&mut self, taken: Duration)
        ensures bytes { self.new.bytes ≡ weighed self.old.bytes (as_nanos taken) }
        ensures dear { self.new.is_dear ≡ is_long (as_nanos taken) }
    {
        let nanos = taken.as_nanos();
        self.is_dear = nanos > LONG;
        if self.is_dear {
            self.bytes = LEAST_SHARE.max(self.bytes / 2);
        } else if nanos < SHORT {
            self.bytes = PIECE_LIMIT.min(2 * self.bytes);
        }
    }
}
