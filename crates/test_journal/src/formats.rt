ghost use Rattle.journal_format.specs.Spelling.{IsRecord};

use journal_format::{
    Found, NoJournal, SendEnd, Summary, TurnRecord, find_gate, push_head, push_read_turn,
    push_record, push_turn, read_record,
};
use std::alloc::Global;

/// The configuration of the journals here.
pub(crate) const CONFIG: &[u8; 15] = b"(streams index)";

/// A journal of that configuration with one record, of a `listen` at second 0.
pub(crate) const JOURNAL: &[u8; 33] =
    b"\x01\x00\x00\x00\x0f(streams index)\x01\x00\x00\x00\x00\x00\x00\x00\x00\x00\x00\x00\x00";

/// That record.
pub(crate) const LISTEN: &[u8; 11] = b"\x00\x00\x00\x00\x00\x00\x00\x00\x00\x00\x00";

/// The record of a read of two bytes on link 7 at second 10, after sends of which 5 bytes were taken and the last none.
const READ: &[u8; 42] =
    b"\x00\x01\x00\x00\x00\x00\x00\x00\x00\x07\x00\x00\x00\x00\x00\x00\x00\x05\x01\x00\x00\x00\x00\x00\x00\x00\x0a\x03\x00\x00\x00\x00\x00\x00\x00\x07\x00\x00\x00\x02ab";

/// Whether the record is written as these bytes.
fn is_written(alloc: Global, entry: &TurnRecord, bytes: &[u8]) -> bool
    requires { IsRecord entry.now }
{
    let mut whole = Vec::new(alloc);
    let is_pushed = push_record(alloc, &mut whole, entry).is_ok();
    is_pushed && whole.as_slice() == bytes
}

/// Whether the record is written as these bytes from its parts.
fn is_written_in_parts(alloc: Global, entry: &TurnRecord, bytes: &[u8]) -> bool
    requires { IsRecord entry.now }
{
    let mut parts = Vec::new(alloc);
    let summaries = entry.summaries.as_slice();
    let is_pushed = push_turn(alloc, &mut parts, summaries, entry.secs, &entry.event).is_ok();
    is_pushed && parts.as_slice() == bytes
}

/// Whether the record is written as these bytes in each of two ways.
fn is_written_twice(alloc: Global, entry: &TurnRecord, bytes: &[u8]) -> bool
    requires { IsRecord entry.now }
{
    let whole = is_written(alloc, entry, bytes);
    let parts = is_written_in_parts(alloc, entry, bytes);
    whole && parts
}

/// Whether the bytes are read as one record, and that is written so.
fn is_written_again(alloc: Global, bytes: &[u8]) -> bool {
    match read_record(alloc, bytes) {
        Ok((entry, rest)) => {
            let written = is_written_twice(alloc, &entry, bytes);
            rest.is_empty() && written
        }
        Err(_) => false,
    }
}

/// Whether the record of a read is written from its bytes.
fn is_read_written(alloc: Global) -> bool {
    let summaries = [Summary {
        link: 7,
        taken: 5,
        end: SendEnd::Later,
    }];
    let mut bytes = Vec::new(alloc);
    let is_pushed = push_read_turn(alloc, &mut bytes, &summaries, 10, 7, b"ab").is_ok();
    is_pushed && bytes.as_slice() == READ.as_slice()
}

/// Bytes, each with whether they are a record.
const RECORDS: &[(&[u8], bool)] = &[(LISTEN, true), (READ, true), (b"\x00\x00", false)];

/// Whether the bytes of each row are read as a record where it says so.
fn are_written_again(alloc: Global) -> bool {
    for (bytes, is_record) in RECORDS {
        if is_written_again(alloc, bytes) != *is_record {
            return false;
        }
    }
    true
}

/// The head of the journal, after its first byte.
const HEAD: &[u8; 19] = b"\x00\x00\x00\x0f(streams index)";

/// Whether the head of the journal is written.
fn is_head_written(alloc: Global) -> bool {
    let mut bytes = Vec::new(alloc);
    let is_pushed = push_head(alloc, &mut bytes, CONFIG).is_ok();
    is_pushed && bytes.as_slice() == HEAD.as_slice()
}

/// How many bytes of the journal there are, and what is found in them.
const GATES: &[(usize, Result<Found, NoJournal>)] = &[
    (
        33,
        Ok(Found {
            gate: 32,
            has_record: true,
        }),
    ),
    (32, Err(NoJournal::Refused { place: 32 })),
    (0, Err(NoJournal::Refused { place: 0 })),
];

/// Whether this is found in so many bytes of the journal.
fn is_found(alloc: Global, count: usize, wanted: &Result<Found, NoJournal>) -> bool {
    match JOURNAL.as_slice().get(..count) {
        Some(bytes) => bytes.len() < 1000 && find_gate(alloc, bytes) == *wanted,
        None => false,
    }
}

#[test]
fn records_and_heads_are_written_and_a_journal_is_found(rt: HostRuntime) {
    let again = are_written_again(rt.alloc());
    assert!(rt; again);
    let read_written = is_read_written(rt.alloc());
    assert!(rt; read_written);
    let head_written = is_head_written(rt.alloc());
    assert!(rt; head_written);
    for (count, wanted) in GATES {
        let is_found = is_found(rt.alloc(), *count, wanted);
        assert!(rt; is_found, "{count} bytes");
    }
}
