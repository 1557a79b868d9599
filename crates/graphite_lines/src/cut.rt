//! Looking for a byte.

ghost use Rattle.std.specs.Prelude.{◌≡◌, ◌<◌, ◌==◌, length, MatchOption};
ghost use Rattle.std.specs.List.{position_or_len};

use memchr::memchr;

/// The place of the first such byte.
pub(crate) fn find_byte(wanted: u8, bytes: &[u8]) -> Option<usize>
    ensures { MatchOption result
        (position_or_len (λ byte. byte == wanted) bytes.now ≡ length bytes.now)
        (λ at. (at ≡ position_or_len (λ byte. byte == wanted) bytes.now)
        × (at < length bytes.now)) }
{
    memchr(wanted, bytes)
}
