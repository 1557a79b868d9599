//! Where the journal in bytes ends.

ghost use Rattle.std.specs.Prelude.{◌≤◌, true, length, MatchResult};
ghost use Rattle.journal_format.specs.Limits.{journal_limit};
ghost use Rattle.journal_format.specs.Finding.{HasFront, IsFound, IsHead, IsWhyNoHead, IsWhyNoRecord, IsWhyNone, TakesRecord};

use crate::limits::CONFIG_LIMIT;
use crate::numbers::u32_at;
use crate::reader::read_record;
use crate::unread::Unread;
use std::alloc::Global;
use thiserror::Error;

/// The end of a journal.
#[derive(Clone, Copy, PartialEq, Eq)]
pub struct Found {
    /// The place of its closed gate.
    pub gate: u64,
    /// Whether it has a record.
    pub has_record: bool,
}

/// Why bytes hold no journal.
#[derive(Clone, Copy, Debug, PartialEq, Eq, Error)]
pub enum NoJournal {
    /// The gate, length, configuration or record that begins at `place` does not fit.
    #[error("not a journal from byte {place} on")]
    Refused { place: u64 },
    #[error("out of memory")]
    Memory,
}

/// The end of the journal that the bytes hold, or the first place at which they do not fit. They are at most as many as
/// a journal may have.
pub fn find_gate(alloc: Global, bytes: &[u8]) -> Result<Found, NoJournal>
    requires { length bytes.now ≤ journal_limit }
    ensures { IsFound bytes.now result }
{
    match after_head(bytes) {
        Ok(records) => find_closed(alloc, bytes, records),
        Err(why) => Err(why),
    }
}

/// What follows the head of a journal.
fn after_head(bytes: &[u8]) -> Result<&[u8], NoJournal>
    ensures { MatchResult result (λ rest. HasFront true bytes.now rest.now)
        (IsWhyNone bytes.now) }
{
    match bytes.split_first() {
        Some((gate, head)) if *gate != 0 => after_config(head),
        _ => Err(NoJournal::Refused { place: 0 }),
    }
}

/// What follows the length and the configuration.
fn after_config(bytes: &[u8]) -> Result<&[u8], NoJournal>
    ensures { MatchResult result (λ rest. IsHead bytes.now rest.now) (IsWhyNoHead bytes.now) }
{
    let Ok((size, rest)) = u32_at(bytes) else {
        return Err(NoJournal::Refused { place: 1 });
    };
    let size = size as usize;
    if size > CONFIG_LIMIT {
        return Err(NoJournal::Refused { place: 1 });
    }
    if size > rest.len() {
        return Err(NoJournal::Refused { place: 5 });
    }
    let (_, rest) = rest.split_at(size);
    Ok(rest)
}

/// The first closed gate after the records. `records` is what follows the head in `bytes`.
fn find_closed(alloc: Global, bytes: &[u8], records: &[u8]) -> Result<Found, NoJournal>
    requires front { HasFront true bytes.now records.now }
    requires limit { length bytes.now ≤ journal_limit }
    ensures { IsFound bytes.now result }
{
    let mut first = true;
    let mut rest = records;
    'records: while let Some((gate, after)) = rest.split_first() {
        let place = (bytes.len() - rest.len()) as u64;
        if *gate == 0 {
            return Ok(Found {
                gate: place,
                has_record: !first,
            });
        }
        rest = match after_record(alloc, first, after) {
            Ok(rest) => rest,
            Err(Unread::Refused) => return Err(NoJournal::Refused { place: place + 1 }),
            Err(Unread::Memory) => return Err(NoJournal::Memory),
        };
        first = false;
    }
    Err(NoJournal::Refused {
        place: bytes.len() as u64,
    })
}

/// What follows the record at the start of the bytes, which is that of a `listen` exactly where it is the first.
fn after_record(alloc: Global, first: bool, bytes: &[u8]) -> Result<&[u8], Unread>
    ensures { MatchResult result (λ rest. TakesRecord first bytes.now rest.now)
        (IsWhyNoRecord first bytes.now) }
{
    match read_record(alloc, bytes) {
        Ok((entry, rest)) => {
            if entry.event.is_listen() == first {
                Ok(rest)
            } else {
                Err(Unread::Refused)
            }
        }
        Err(why) => Err(why),
    }
}
