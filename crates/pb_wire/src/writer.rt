//! Writing fields.

ghost use Rattle.std.specs.Prelude.{◌≡◌, ◌^◌, ◌<◌, ◌++◌, OnOk, OnErr};
ghost use Rattle.list_laws.specs.Prefix.{IsPrefix};
ghost use Rattle.pb_wire.specs.Spelling.{Bytes, bytes_head, content_of, field_spelling};
ghost use Rattle.pb_wire.specs.Varint.{varint};

use crate::varint::put_varint;
use ev_types::{Blob, Memory};
use std::alloc::Global;

/// What a field is to hold.
#[derive(Clone, Copy)]
pub enum PutBody<'a> {
    Varint(u64),
    /// Eight bytes, little-endian.
    Eight(u64),
    /// Bytes after their length.
    Bytes(&'a [u8]),
    /// Four bytes, little-endian.
    Four(u32),
}

/// Appends the shortest spelling of a field, in the Protocol Buffers wire format. Its number is from 1 to 2^29 - 1.
/// If memory runs out, `out` still begins with what it had.
#[tactic(auto, unfolding(crate::specs::Spelling::field_spelling))]
pub fn put_field(
    alloc: Global,
    out: &mut Blob,
    number: u32,
    body: PutBody<'_>,
) -> Result<(), Memory>
    requires positive { 0 < number }
    requires small { number < 2 ^ 29 }
    ensures ok { OnOk result (out.new ≡ out.old
        ++ field_spelling number (content_of body.entry)) }
    ensures err { OnErr result (IsPrefix out.old out.new) }
{
    match body {
        PutBody::Varint(value) => put_two(alloc, out, number * 8, value),
        PutBody::Eight(value) => put_fixed(alloc, out, number * 8 + 1, &value.to_le_bytes()),
        PutBody::Bytes(bytes) => put_bytes(alloc, out, number, bytes),
        PutBody::Four(value) => put_fixed(alloc, out, number * 8 + 5, &value.to_le_bytes()),
    }
}

/// Appends a tag, and a number as a varint.
fn put_two(alloc: Global, out: &mut Blob, tag: u32, value: u64) -> Result<(), Memory>
    ensures ok { OnOk result (out.new ≡ out.old ++ (varint tag ++ varint value)) }
    ensures err { OnErr result (IsPrefix out.old out.new) }
{
    put_varint(alloc, out, u64::from(tag))?;
    put_varint(alloc, out, value)
}

/// Appends a tag and a body that is not led by its length.
fn put_fixed(alloc: Global, out: &mut Blob, tag: u32, body: &[u8]) -> Result<(), Memory>
    ensures ok { OnOk result (out.new ≡ out.old ++ (varint tag ++ body.now)) }
    ensures err { OnErr result (IsPrefix out.old out.new) }
{
    put_varint(alloc, out, u64::from(tag))?;
    out.append(alloc, body)
}

/// Appends a field of bytes.
#[tactic(auto, unfolding(crate::specs::Spelling::field_spelling, crate::specs::Spelling::bytes_head))]
fn put_bytes(alloc: Global, out: &mut Blob, number: u32, bytes: &[u8]) -> Result<(), Memory>
    requires positive { 0 < number }
    requires small { number < 2 ^ 29 }
    ensures ok { OnOk result (out.new ≡ out.old ++ field_spelling number (Bytes bytes.now)) }
    ensures err { OnErr result (IsPrefix out.old out.new) }
{
    put_tag_and_length(alloc, out, number, bytes.len())?;
    out.append(alloc, bytes)
}

/// Appends the tag and the length of a field of `length` bytes. The caller appends the bytes after them. The field's
/// number is from 1 to 2^29 - 1. If memory runs out, `out` still begins with what it had.
#[tactic(auto, unfolding(crate::specs::Spelling::bytes_head))]
pub fn put_tag_and_length(
    alloc: Global,
    out: &mut Blob,
    number: u32,
    length: usize,
) -> Result<(), Memory>
    requires positive { 0 < number }
    requires small { number < 2 ^ 29 }
    ensures ok { OnOk result (out.new ≡ out.old ++ bytes_head number length) }
    ensures err { OnErr result (IsPrefix out.old out.new) }
{
    put_two(alloc, out, number * 8 + 2, length as u64)
}
