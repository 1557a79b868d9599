//! Varints in their shortest spelling.

ghost use Rattle.std.specs.Prelude.{◌≡◌, ℕ, ◌∷◌, ◌<◌, ◌≤◌, List, length, IfSome, Some};
ghost use Rattle.std.specs.Option.{option_map};
ghost use Rattle.packed_event.specs.Reading.{Gives, varint_part};

/// The varint at the start of the bytes, and the bytes after it. `None`: there is none, it is not in its shortest
/// spelling, or it is 2^64 or more. It is quick for one byte, for three, as most metrics have, and for the five of a
/// time.
#[tactic(auto, unfolding(crate::specs::Reading::varint_part))]
#[inline(always)]
pub(crate) fn varint(bytes: &[u8]) -> Option<(u64, &[u8])>
    ensures reads { Gives (λ read. (read.0, read.1.now)) result (varint_part bytes.now) }
    ensures shorter { IfSome result (λ read. length read.1.now < length bytes.now) }
{
    let [first, rest @ ..] = bytes else {
        return None;
    };
    if *first < 128 {
        return Some((u64::from(*first), rest));
    }
    if let Some(read) = three_bytes(bytes) {
        return Some(read);
    }
    if let Some(read) = five_bytes(bytes) {
        return Some(read);
    }
    long_varint(*first, rest)
}

/// The same, for a varint that mostly has one byte. The calls for a longer one return a number and a slice, so that no
/// room for their results is cleared.
#[tactic(auto, unfolding(crate::specs::Reading::varint_part))]
#[inline(always)]
pub(crate) fn short_varint(bytes: &[u8]) -> Option<(u64, &[u8])>
    ensures reads { Gives (λ read. (read.0, read.1.now)) result (varint_part bytes.now) }
    ensures shorter { IfSome result (λ read. length read.1.now < length bytes.now) }
{
    match bytes {
        [value @ 0..=127, rest @ ..] => Some((u64::from(*value), rest)),
        _ => {
            let value = value_of_varint(bytes)?;
            Some((value, after_varint(bytes)))
        }
    }
}

/// The varint at the start of the bytes, if it has three bytes, and the bytes after it.
#[inline(always)]
fn three_bytes(bytes: &[u8]) -> Option<(u64, &[u8])>
    ensures reads { IfSome result (λ read. varint_part bytes.now ≡ Some (read.0, read.1.now)) }
    ensures shorter { IfSome result (λ read. length read.1.now < length bytes.now) }
{
    let (first, rest) = bytes.split_first_chunk::<3>()?;
    let [a, b, c] = *first;
    if a < 128 || b < 128 || c == 0 || c >= 128 {
        return None;
    }
    let value = u64::from(a % 128) + u64::from(b % 128) * 0x80 + u64::from(c) * 0x4000;
    Some((value, rest))
}

/// The varint at the start of the bytes, if it has five bytes, and the bytes after it.
#[inline(always)]
fn five_bytes(bytes: &[u8]) -> Option<(u64, &[u8])>
    ensures reads { IfSome result (λ read. varint_part bytes.now ≡ Some (read.0, read.1.now)) }
    ensures shorter { IfSome result (λ read. length read.1.now < length bytes.now) }
{
    let (first, rest) = bytes.split_first_chunk::<5>()?;
    let [a, b, c, d, e] = *first;
    if a < 128 || b < 128 || c < 128 || d < 128 || e == 0 || e >= 128 {
        return None;
    }
    let low = u64::from(a % 128) + u64::from(b % 128) * 0x80 + u64::from(c % 128) * 0x4000;
    let value = low + u64::from(d % 128) * 0x20_0000 + u64::from(e) * 0x1000_0000;
    Some((value, rest))
}

/// The value of the varint at the start of the bytes.
#[inline(never)]
fn value_of_varint(bytes: &[u8]) -> Option<u64>
    ensures { Gives (λ value. value) result (option_map (λ read. read.0) (varint_part bytes.now)) }
{
    let (value, _) = varint(bytes)?;
    Some(value)
}

/// The bytes after the varint at their start. Without one, all of them.
#[inline(never)]
fn after_varint(bytes: &[u8]) -> &[u8]
    ensures after { (read : ℕ × List ℕ) → varint_part bytes.now ≡ Some read → result.now ≡ read.1 }
    ensures shorter { (read : ℕ × List ℕ) → varint_part bytes.now ≡ Some read
        → length result.now < length bytes.now }
{
    match varint(bytes) {
        Some((_, rest)) => rest,
        None => bytes,
    }
}

/// The varint of which the first byte was taken from the bytes, and the bytes after it.
fn long_varint(first: u8, bytes: &[u8]) -> Option<(u64, &[u8])>
    requires { 128 ≤ first }
    ensures reads { Gives (λ read. (read.0, read.1.now)) result
        (varint_part (first ∷ bytes.now)) }
    ensures shorter { IfSome result (λ read. length read.1.now < length bytes.now) }
{
    let mut value = u64::from(first % 128);
    let mut unit = 128;
    let mut more = 8u32;
    let mut rest = bytes;
    'digits: while let Some((byte, after)) = rest.split_first() {
        if more == 0 {
            return if *byte == 1 {
                Some((value + unit, after))
            } else {
                None
            };
        }
        if *byte == 0 {
            return None;
        }
        value += u64::from(*byte % 128) * unit;
        if *byte < 128 {
            return Some((value, after));
        }
        unit *= 128;
        more -= 1;
        rest = after;
    }
    None
}
