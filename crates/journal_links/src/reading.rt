//! Reading the journal that a file holds.

ghost use Rattle.std.specs.Prelude.{◌≡◌, ℕ, List, true, IfOk};
ghost use Rattle.std.specs.List.{list_all};
ghost use Rattle.std.specs.Option.{option_map};
ghost use Rattle.journal_format.specs.Journals.{Journal};
ghost use Rattle.journal_format.specs.declared.turn_record.TurnRecord.{TurnRecord};
ghost use Rattle.journal_links.specs.Reading.{ArePair, EndWith, Heads, IsOrMemory, IsWhole, has_event};

use ev_types::{Blob, Items};
use journal_format::{TurnRecord, Unread, read_record};
use std::alloc::Global;
use turn_journal::JournalFault;

/// The records of a journal, in order.
pub type TurnRecords = Items<TurnRecord>;

/// The configuration and the records of the journal that these bytes are, up to its closed gate.
pub fn read_journal(alloc: Global, bytes: &[u8]) -> Result<(Blob, TurnRecords), JournalFault>
    ensures read { (journal : Journal) → IsWhole journal bytes.now →
        IsOrMemory (journal.config, journal.records) result }
    ensures events { IfOk result (λ read. list_all has_event read.1 ≡ true) }
{
    match split_head(bytes) {
        Some((config, records)) => read_parts(alloc, config, records),
        None => Err(JournalFault::Refused { place: 0 }),
    }
}

/// The configuration of a journal, and what follows it.
fn split_head(bytes: &[u8]) -> Option<(&[u8], &[u8])>
    ensures { (config more : List ℕ) → Heads bytes.now config more →
        ArePair config more (option_map (λ parts. (parts.0.now, parts.1.now)) result) }
{
    let (_, head) = bytes.split_first()?;
    let (size, rest) = head.split_first_chunk::<4>()?;
    let size = u32::from_be_bytes(*size) as usize;
    if size > rest.len() {
        return None;
    }
    Some(rest.split_at(size))
}

fn read_parts(
    alloc: Global,
    config: &[u8],
    records: &[u8],
) -> Result<(Blob, TurnRecords), JournalFault>
    ensures read { (all : List TurnRecord) → EndWith true all records.now →
        IsOrMemory (config.now, all) result }
    ensures events { IfOk result (λ read. list_all has_event read.1 ≡ true) }
{
    let config = Blob::from_slice(alloc, config)?;
    match read_records(alloc, records) {
        Ok(records) => Ok((config, records)),
        Err(fault) => Err(fault),
    }
}

/// The records up to the first closed gate.
fn read_records(alloc: Global, bytes: &[u8]) -> Result<TurnRecords, JournalFault>
    ensures read { (all : List TurnRecord) → EndWith true all bytes.now → IsOrMemory all result }
    ensures events { IfOk result (λ records. list_all has_event records ≡ true) }
{
    let mut records = TurnRecords::fresh(alloc);
    let mut rest = bytes;
    'records: while let Some((gate, after)) = rest.split_first() {
        if *gate == 0 {
            return Ok(records);
        }
        let (entry, next) = match read_record(alloc, after) {
            Ok(read) => read,
            Err(Unread::Refused) => return Err(JournalFault::Refused { place: 0 }),
            Err(Unread::Memory) => return Err(JournalFault::Memory),
        };
        records.push(alloc, entry)?;
        rest = next;
    }
    Err(JournalFault::Refused { place: 0 })
}
