//! Rows of the fields of messages.

ghost use Rattle.std.specs.Prelude.{◌≤◌, ◌<◌, IfOk};

use crate::line::{RowFault, split_word};
use crate::reading::read_long;
use crate::shown::put_miscount;
use crate::spelled::{read_number, read_spelled};
use ev_types::Blob;
use pb_wire::{FieldReader, Next, PutBody, put_field, put_tag_and_length, put_varint, varint_len};
use std::alloc::Global;
use std::fmt::Write;

/// Appends the first answers of a reader of these bytes, as many as the first word says: a field's place, number and
/// body, a fault's place and cause, or the end.
pub fn fields_answer(alloc: Global, asked: &str, line: &mut String) -> Result<(), RowFault> {
    let (count, bytes) = split_word(asked)?;
    let count = read_number(count)?;
    let bytes = read_spelled(alloc, bytes)?;
    let mut reader = FieldReader::over(bytes.as_slice());
    for _ in 0..count {
        match reader.next() {
            Next::End => line.push_str("end;")?,
            Next::Field {
                number,
                body,
                place,
            } => write!(line, "{place}: {number} {body:?};")?,
            Next::Refused { place, why } => write!(line, "{place}: {why:?};")?,
        }
    }
    Ok(())
}

/// Two bytes before a field.
const BEFORE: &[u8] = b"ab";

/// Appends what is written of a field with a number in its range, after two other bytes.
pub fn put_answer(alloc: Global, asked: &str, out: &mut Blob) -> Result<(), RowFault> {
    let (number, body) = split_word(asked)?;
    let number = read_field_number(number)?;
    let (kind, value) = split_word(body)?;
    let mut longer = Blob::from_slice(alloc, BEFORE)?;
    match kind {
        "varint" => put_field(
            alloc,
            &mut longer,
            number,
            PutBody::Varint(read_long(value)?),
        )?,
        "four" => put_field(
            alloc,
            &mut longer,
            number,
            PutBody::Four(read_number(value)?),
        )?,
        "eight" => put_field(
            alloc,
            &mut longer,
            number,
            PutBody::Eight(read_long(value)?),
        )?,
        _ => {
            let bytes = read_spelled(alloc, value)?;
            put_field(alloc, &mut longer, number, PutBody::Bytes(bytes.as_slice()))?;
        }
    }
    let field = longer
        .as_slice()
        .strip_prefix(BEFORE)
        .ok_or(RowFault::Unreadable)?;
    Ok(out.append(alloc, field)?)
}

/// The number of a field, from 1 to 2^29 - 1.
fn read_field_number(word: &str) -> Result<u32, RowFault>
    ensures { IfOk result (λ number. (1 ≤ number) × (number < 536_870_912)) }
{
    let number = read_number(word)?;
    if number == 0 || number >= 1 << 29 {
        return Err(RowFault::Unreadable);
    }
    Ok(number)
}

/// Appends the varint of the number, which has the length that is counted. There are no bytes before.
pub fn varint_answer(alloc: Global, asked: &str, out: &mut Blob) -> Result<(), RowFault> {
    let value = read_long(asked)?;
    put_varint(alloc, out, value)?;
    put_miscount(alloc, out, varint_len(value))
}

/// Appends the tag of the field of the number, and the length of its bytes.
pub fn tag_answer(alloc: Global, asked: &str, out: &mut Blob) -> Result<(), RowFault> {
    let (number, length) = split_word(asked)?;
    let number = read_field_number(number)?;
    let length = read_number(length)?;
    put_tag_and_length(alloc, out, number, length as usize)?;
    Ok(())
}
