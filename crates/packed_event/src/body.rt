//! The bodies of fields, each read at the start of bytes and given with the bytes after it.

ghost use Rattle.std.specs.Prelude.{◌≡◌, ◌+◌, ◌<◌, ◌≤◌, length, take, drop, IfOk, IfSome, IsTrue};
ghost use Rattle.std.specs.Int.{w32, w64};
ghost use Rattle.std.specs.Option.{option_map};
ghost use Rattle.std.specs.Str.{IsAscii, IsUtf8, is_utf8};
ghost use Rattle.packed_event.specs.Reading.{Gives, after_tag, bytes_part, int64_part, number_part, optional, text_length, text_part, ttl_part};

use crate::varint::{short_varint, varint};
use ev_types::{Memory, Text};
use riemann_msg::{bits_of_ttl, ttl_of_bits};
use std::alloc::Global;
use std::str::from_utf8_unchecked;

/// The high bit of each byte.
const HIGH_BITS: u64 = 0x8080_8080_8080_8080;

/// Bytes after their length.
#[inline(always)]
pub(crate) fn counted(bytes: &[u8]) -> Option<(&[u8], &[u8])>
    ensures reads { Gives (λ read. (read.0.now, read.1.now)) result (bytes_part bytes.now) }
    ensures within { IfSome result (λ read.
        length read.0.now + length read.1.now < length bytes.now) }
{
    let (len, rest) = length_at(bytes)?;
    Some(rest.split_at(len))
}

/// The length that the bytes begin with, and the bytes after it. Those are at least as many.
#[tactic(auto, unfolding(crate::specs::Reading::bytes_part))]
#[inline(always)]
fn length_at(bytes: &[u8]) -> Option<(usize, &[u8])>
    ensures reads { Gives (λ read. (take read.0 read.1.now, drop read.0 read.1.now)) result
        (bytes_part bytes.now) }
    ensures enough { IfSome result (λ read. read.0 ≤ length read.1.now) }
    ensures shorter { IfSome result (λ read. length read.1.now < length bytes.now) }
{
    let (len, rest) = short_varint(bytes)?;
    if len > rest.len() as u64 {
        return None;
    }
    Some((len as usize, rest))
}

/// Bytes after their length, if they are UTF-8.
#[tactic(auto, unfolding(crate::specs::Reading::text_part))]
#[inline(always)]
pub(crate) fn text(bytes: &[u8]) -> Option<(&[u8], &[u8])>
    ensures reads { Gives (λ read. (read.0.now, read.1.now)) result (text_part bytes.now) }
    ensures within { IfSome result (λ read.
        length read.0.now + length read.1.now < length bytes.now) }
    ensures utf8 { IfSome result (λ read. IsUtf8 read.0.now) }
{
    let (len, rest) = length_at(bytes)?;
    if !begins_with_utf8(rest, len) {
        return None;
    }
    Some(rest.split_at(len))
}

/// Whether the first `len` bytes are UTF-8.
#[inline(always)]
fn begins_with_utf8(bytes: &[u8], len: usize) -> bool
    requires { len ≤ length bytes.now }
    ensures { result ≡ is_utf8 (take len bytes.now) }
{
    is_short_ascii(bytes, len) || is_utf8(&bytes[..len])
}

/// Whether the first `len` bytes are at most 16 and seen to be ASCII. Up to eight are read with the bytes after them.
#[inline(always)]
fn is_short_ascii(bytes: &[u8], len: usize) -> bool
    requires { len ≤ length bytes.now }
    ensures { IsTrue result → IsAscii (take len bytes.now) }
{
    if len <= 8 {
        return match bytes.first_chunk::<8>() {
            Some(eight) => are_ascii(eight),
            None => false,
        };
    }
    if len > 16 {
        return false;
    }
    let text = &bytes[..len];
    match (text.first_chunk::<8>(), text.last_chunk::<8>()) {
        (Some(first), Some(last)) => are_ascii(first) & are_ascii(last),
        _ => false,
    }
}

/// Whether all eight bytes are ASCII.
#[inline(always)]
fn are_ascii(bytes: &[u8; 8]) -> bool
    ensures { IsTrue result → IsAscii bytes.now }
{
    u64::from_le_bytes(*bytes) & HIGH_BITS == 0
}

// Most texts are ASCII, which is quicker to test for than UTF-8.
#[inline(never)]
fn is_utf8(bytes: &[u8]) -> bool
    ensures { result ≡ is_utf8 bytes.now }
{
    bytes.is_ascii() || simdutf8::is_utf8(bytes)
}

/// A text of these bytes.
#[inline]
pub(crate) fn owned(alloc: Global, bytes: &[u8]) -> Result<Text, Memory>
    requires { IsUtf8 bytes.now }
    ensures { IfOk result (λ text. text ≡ bytes.now) }
{
    Text::from_str(alloc, unsafe { from_utf8_unchecked(bytes) })
}

/// A text of these bytes, if there are any.
#[inline]
pub(crate) fn owned_option(alloc: Global, bytes: Option<&[u8]>) -> Result<Option<Text>, Memory>
    requires { IfSome bytes (λ bytes. IsUtf8 bytes.now) }
    ensures { IfOk result (λ text. text ≡ option_map (λ bytes. bytes.now) bytes.entry) }
{
    match bytes {
        Some(bytes) => Ok(Some(owned(alloc, bytes)?)),
        None => Ok(None),
    }
}

/// The bytes after the tag, if they begin with it.
#[tactic(auto, unfolding(crate::specs::Reading::after_tag))]
#[inline(always)]
pub(crate) fn after_tag(tag: u8, bytes: &[u8]) -> Option<&[u8]>
    ensures reads { Gives (λ rest. rest.now) result (after_tag tag bytes.now) }
    ensures shorter { IfSome result (λ rest. length rest.now < length bytes.now) }
{
    match bytes {
        [first, rest @ ..] if *first == tag => Some(rest),
        _ => None,
    }
}

/// The text after the tag, if the bytes begin with the tag. Otherwise no text, and all the bytes.
#[tactic(auto, unfolding(crate::specs::Reading::optional))]
#[inline(always)]
pub(crate) fn optional_text(tag: u8, bytes: &[u8]) -> Option<(Option<&[u8]>, &[u8])>
    ensures reads { Gives (λ read. (option_map (λ text. text.now) read.0, read.1.now)) result
        (optional tag text_part bytes.now) }
    ensures within { IfSome result (λ read. text_length (option_map (λ text. text.now) read.0)
        + length read.1.now ≤ length bytes.now) }
    ensures utf8 { IfSome result (λ read. IfSome read.0 (λ text. IsUtf8 text.now)) }
{
    match bytes {
        [first, rest @ ..] if *first == tag => {
            let (text, rest) = text(rest)?;
            Some((Some(text), rest))
        }
        _ => Some((None, bytes)),
    }
}

/// Four bytes, little-endian.
#[inline(always)]
pub(crate) fn four(bytes: &[u8]) -> Option<(u32, &[u8])>
    ensures { Gives (λ read. (read.0, read.1.now)) result (number_part w32 bytes.now) }
{
    let (four, rest) = bytes.split_first_chunk::<4>()?;
    Some((u32::from_le_bytes(*four), rest))
}

/// Eight bytes, little-endian.
#[inline(always)]
pub(crate) fn eight(bytes: &[u8]) -> Option<(u64, &[u8])>
    ensures { Gives (λ read. (read.0, read.1.now)) result (number_part w64 bytes.now) }
{
    let (eight, rest) = bytes.split_first_chunk::<8>()?;
    Some((u64::from_le_bytes(*eight), rest))
}

/// A signed number of 64 bits.
#[tactic(auto, unfolding(crate::specs::Reading::int64_part))]
#[inline(always)]
pub(crate) fn int64(bytes: &[u8]) -> Option<(i64, &[u8])>
    ensures reads { Gives (λ read. (read.0, read.1.now)) result (int64_part bytes.now) }
    ensures shorter { IfSome result (λ read. length read.1.now < length bytes.now) }
{
    let (value, rest) = varint(bytes)?;
    Some((value.cast_signed(), rest))
}

/// A ttl in whole seconds, in the bits that this server writes for it. The other bits of 0, those of its negative, are
/// not.
#[tactic(auto, unfolding(crate::specs::Reading::ttl_part))]
#[inline(always)]
pub(crate) fn ttl(bytes: &[u8]) -> Option<(u32, &[u8])>
    ensures { Gives (λ read. (read.0, read.1.now)) result (ttl_part bytes.now) }
{
    let (bits, rest) = four(bytes)?;
    let ttl = ttl_of_bits(bits)?;
    if bits_of_ttl(ttl) != bits {
        return None;
    }
    Some((ttl, rest))
}

/// The bytes after the tag and their length, if the bytes begin with the tag. Otherwise none, and all the bytes.
#[tactic(auto, unfolding(crate::specs::Reading::optional))]
#[inline(always)]
pub(crate) fn optional_counted(tag: u8, bytes: &[u8]) -> Option<(Option<&[u8]>, &[u8])>
    ensures { Gives (λ read. (option_map (λ text. text.now) read.0, read.1.now)) result
        (optional tag bytes_part bytes.now) }
{
    match bytes {
        [first, rest @ ..] if *first == tag => {
            let (text, rest) = counted(rest)?;
            Some((Some(text), rest))
        }
        _ => Some((None, bytes)),
    }
}
