//! Reading fields, one after the other.

ghost use Rattle.std.specs.Prelude.{◌≡◌, ◌<◌, ◌≤◌, length, IfOk};
ghost use Rattle.pb_wire.specs.Fields.{Advances, next_at, next_place, varint_from, tag_from, body_from, eight_body, four_body, bytes_body, field_from};

use crate::varint::varint_at;
use std::marker::Model;

/// What a reader finds at its place.
#[derive(Clone, Copy)]
pub enum Next {
    /// All bytes were read.
    End,
    /// A field, whose tag begins at `place` in the reader's bytes. Its number is from 1 to 2^29 - 1.
    Field {
        number: u32,
        body: Body,
        place: usize,
    },
    /// No field begins at `place`, which is before the end of the reader's bytes.
    Refused {
        place: usize,
        why: WireWhy,
    },
}

/// The body of a field.
#[derive(Clone, Copy, Debug)]
pub enum Body {
    /// A varint, modulo 2^64.
    Varint(u64),
    /// Eight bytes, little-endian.
    Eight(u64),
    /// The bytes from `start` to just before `end`, counted in the reader's bytes.
    Bytes { start: usize, end: usize },
    /// Four bytes, little-endian.
    Four(u32),
}

/// Why no field begins at a place. The tag is looked at first, and then the body.
#[derive(Clone, Copy, Debug)]
pub enum WireWhy {
    /// The bytes end within a varint or within the body, or the body's length is greater than the bytes that are
    /// left.
    Short,
    /// Ten bytes of a varint all have the high bit.
    Varint,
    /// The tag is 2^32 or more, or the field's number is 0.
    Tag,
    /// The type of the body is 3, 4, 6 or 7.
    Wire,
}

/// Reads the fields that bytes spell in the Protocol Buffers wire format, from the start on. Contracts see the bytes
/// and the place that it has come to.
#[derive(Drop)]
pub struct FieldReader<'a> {
    bytes: &'a [u8],
    place: usize,
}

impl<'a> Model for FieldReader<'a> {
    ghost use Rattle.std.specs.Prelude.{◌≤◌, length};
    ghost use Rattle.pb_wire.specs.Fields.{Cursor};

    ghost Value = { Cursor };

    ghost view = { λ reader. record { bytes = reader.bytes.now; place = reader.place } };

    ghost invariant = { λ reader. reader.place ≤ length reader.bytes.now };
}

impl<'a> FieldReader<'a> {
    /// A reader at the first of the bytes.
    pub fn over(bytes: &'a [u8]) -> FieldReader<'a>
        ensures { result ≡ record { bytes = bytes.now; place = 0 } }
    {
        FieldReader { bytes, place: 0 }
    }

    /// Reads the next field, and goes on after it. At the end and where no field begins it goes no further, so it
    /// answers the same again. It takes no memory.
    #[inline(always)]
    pub fn next(&mut self) -> Next
        ensures answer { result ≡ next_at self.old.bytes self.old.place }
        ensures moves { self.new ≡ record {
          bytes = self.old.bytes;
          place = next_place self.old.bytes self.old.place;
        } }
        ensures steps { Advances self.old result self.new }
    {
        let (next, place) = step(self.bytes, self.place);
        self.place = place;
        next
    }
}

/// What is at the place, and the place to go on at.
#[inline(always)]
fn step(bytes: &[u8], place: usize) -> (Next, usize)
    requires { place ≤ length bytes.now }
    ensures answer { result.0 ≡ next_at bytes.now place }
    ensures moves { result.1 ≡ next_place bytes.now place }
    ensures within { result.1 ≤ length bytes.now }
    ensures steps { Advances (record { bytes = bytes.now; place = place }) result.0
        (record { bytes = bytes.now; place = result.1 }) }
{
    if place == bytes.len() {
        return (Next::End, place);
    }
    match field_from(bytes, place) {
        Ok((number, body, after)) => (
            Next::Field {
                number,
                body,
                place,
            },
            after,
        ),
        Err(why) => (Next::Refused { place, why }, place),
    }
}

/// The number and the body of the field at the place, and the place just past it.
#[tactic(auto, unfolding(crate::specs::Fields::field_from))]
#[inline(always)]
fn field_from(bytes: &[u8], place: usize) -> Result<(u32, Body, usize), WireWhy>
    requires { place ≤ length bytes.now }
    ensures { result ≡ field_from bytes.now place }
{
    let (tag, place) = tag_from(bytes, place)?;
    let (body, place) = body_from(tag % 8, bytes, place)?;
    Ok((tag / 8, body, place))
}

/// The tag at the place, and the place just past it.
#[tactic(auto, unfolding(crate::specs::Fields::tag_from))]
#[inline(always)]
fn tag_from(bytes: &[u8], place: usize) -> Result<(u32, usize), WireWhy>
    requires { place ≤ length bytes.now }
    ensures read { result ≡ tag_from bytes.now place }
    ensures within { IfOk result (λ tag. (place < tag.1) × (tag.1 ≤ length bytes.now)) }
{
    let (tag, place) = varint_from(bytes, place)?;
    if tag < 8 || tag > u64::from(u32::MAX) {
        return Err(WireWhy::Tag);
    }
    Ok((tag as u32, place))
}

/// The body at the place, of the type that the tag gives, and the place just past it.
#[tactic(auto, unfolding(crate::specs::Fields::body_from))]
#[inline(always)]
fn body_from(kind: u32, bytes: &[u8], place: usize) -> Result<(Body, usize), WireWhy>
    requires { place ≤ length bytes.now }
    ensures { result ≡ body_from kind bytes.now place }
{
    match kind {
        0 => {
            let (value, place) = varint_from(bytes, place)?;
            Ok((Body::Varint(value), place))
        }
        1 => eight_body(bytes, place),
        2 => bytes_body(bytes, place),
        5 => four_body(bytes, place),
        _ => Err(WireWhy::Wire),
    }
}

/// The eight bytes at the place, and the place just past them.
#[tactic(auto, unfolding(crate::specs::Fields::bytes_from))]
#[inline(always)]
fn eight_body(bytes: &[u8], place: usize) -> Result<(Body, usize), WireWhy>
    requires { place ≤ length bytes.now }
    ensures { result ≡ eight_body bytes.now place }
{
    match bytes[place..].first_chunk::<8>() {
        Some(eight) => Ok((Body::Eight(u64::from_le_bytes(*eight)), place + 8)),
        None => Err(WireWhy::Short),
    }
}

/// The four bytes at the place, and the place just past them.
#[tactic(auto, unfolding(crate::specs::Fields::bytes_from))]
#[inline(always)]
fn four_body(bytes: &[u8], place: usize) -> Result<(Body, usize), WireWhy>
    requires { place ≤ length bytes.now }
    ensures { result ≡ four_body bytes.now place }
{
    match bytes[place..].first_chunk::<4>() {
        Some(four) => Ok((Body::Four(u32::from_le_bytes(*four)), place + 4)),
        None => Err(WireWhy::Short),
    }
}

/// The length at the place and that many bytes after it, and the place just past them.
#[tactic(auto, unfolding(crate::specs::Fields::bytes_from))]
#[inline(always)]
fn bytes_body(bytes: &[u8], place: usize) -> Result<(Body, usize), WireWhy>
    requires { place ≤ length bytes.now }
    ensures { result ≡ bytes_body bytes.now place }
{
    let (size, start) = varint_from(bytes, place)?;
    if size > (bytes.len() - start) as u64 {
        return Err(WireWhy::Short);
    }
    let end = start + size as usize;
    Ok((Body::Bytes { start, end }, end))
}

/// The varint at the place, and the place just past it.
#[tactic(auto, unfolding(crate::specs::Fields::varint_from))]
#[inline(always)]
fn varint_from(bytes: &[u8], place: usize) -> Result<(u64, usize), WireWhy>
    requires { place ≤ length bytes.now }
    ensures read { result ≡ varint_from bytes.now place }
    ensures within { IfOk result (λ read. (place < read.1) × (read.1 ≤ length bytes.now)) }
{
    let (value, size) = varint_at(&bytes[place..])?;
    Ok((value, place + size))
}
