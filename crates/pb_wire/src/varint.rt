//! Base-128 varints, read and written.

ghost use Rattle.std.specs.Prelude.{◌≡◌, ◌+◌, ◌^◌, ◌<◌, ◌≤◌, ◌++◌, length, IfOk, OnOk, OnErr};
ghost use Rattle.pb_wire.specs.Varint.{varint_at, spelled_within, varint};
ghost use Rattle.list_laws.specs.Prefix.{IsPrefix};

use crate::reader::WireWhy;
use ev_types::{Blob, Memory};
use std::alloc::Global;

/// How many bytes of a varint have all their bits in its value.
const WHOLE_BYTES: usize = 9;

/// The varint at the start of the bytes, and how many bytes it has.
#[inline(always)]
pub fn varint_at(bytes: &[u8]) -> Result<(u64, usize), WireWhy>
    ensures read { result ≡ varint_at bytes.now }
    ensures within { IfOk result (λ read. (0 < read.1) × (read.1 ≤ length bytes.now)) }
{
    match bytes {
        [first @ 0..=127, ..] => Ok((u64::from(*first), 1)),
        _ => long_varint_at(bytes),
    }
}

/// The same, of a varint of any length.
fn long_varint_at(bytes: &[u8]) -> Result<(u64, usize), WireWhy>
    ensures read { result ≡ varint_at bytes.now }
    ensures within { IfOk result (λ read. (0 < read.1) × (read.1 ≤ length bytes.now)) }
{
    let mut value = 0;
    let mut unit = 1;
    for i in 0..bytes.len().min(WHOLE_BYTES) {
        let byte = bytes[i];
        value += u64::from(byte % 128) * unit;
        if byte < 128 {
            return Ok((value, i + 1));
        }
        unit *= 128;
    }
    if bytes.len() <= WHOLE_BYTES {
        return Err(WireWhy::Short);
    }
    let tenth = bytes[WHOLE_BYTES];
    if tenth >= 128 {
        return Err(WireWhy::Varint);
    }
    Ok((value + u64::from(tenth % 2) * unit, WHOLE_BYTES + 1))
}

/// Appends the shortest varint of the number. If memory runs out, `out` still begins with what it had.
#[tactic(auto, unfolding(crate::specs::Varint::varint))]
pub fn put_varint(alloc: Global, out: &mut Blob, value: u64) -> Result<(), Memory>
    ensures ok { OnOk result (out.new ≡ out.old ++ varint value) }
    ensures err { OnErr result (IsPrefix out.old out.new) }
{
    put_varint_within(alloc, 9, value, out)?;
    Ok(())
}

/// Appends the shortest spelling of the number, in `more` bytes and one at most.
#[tactic(auto, unfolding(crate::specs::Varint::spelled_within))]
fn put_varint_within(alloc: Global, more: u32, value: u64, out: &mut Blob) -> Result<(), Memory>
    requires few { more ≤ 9 }
    requires fits { value < 128 ^ (more + 1) }
    ensures ok { OnOk result (out.new ≡ out.old ++ spelled_within more value) }
    ensures err { OnErr result (IsPrefix out.old out.new) }
{
    if value < 128 {
        out.push(alloc, value as u8)?;
        return Ok(());
    }
    out.push(alloc, (128 + value % 128) as u8)?;
    put_varint_within(alloc, more - 1, value / 128, out)?;
    Ok(())
}

/// How many bytes the shortest varint of the number has.
#[tactic(auto, unfolding(crate::specs::Varint::varint))]
pub fn varint_len(value: u64) -> usize
    ensures length { result ≡ length (varint value) }
    ensures few { result ≤ 10 }
{
    varint_len_within(9, value)
}

/// How many bytes it has, where `more` bytes and one are enough.
#[tactic(auto, unfolding(crate::specs::Varint::spelled_within))]
fn varint_len_within(more: u32, value: u64) -> usize
    requires few { more ≤ 9 }
    requires fits { value < 128 ^ (more + 1) }
    ensures length { result ≡ length (spelled_within more value) }
    ensures few { result ≤ more + 1 }
{
    if value < 128 {
        1
    } else {
        1 + varint_len_within(more - 1, value / 128)
    }
}
