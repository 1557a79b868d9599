//! The journal in the file of a name.

ghost use Rattle.std.specs.Prelude.{◌≡◌, ◌≢◌, ◌+◌, ◌≤◌, false, true, length, Err, IfErr, IfOk, OnOk};
ghost use Rattle.std.specs.List.{list_all};
ghost use Rattle.std.specs.Option.{ForSome, option_map};
ghost use Rattle.command_record.specs.Opening.{BeginsJournal, IsReadOrMemory, LoadsJournal};
ghost use Rattle.disk_port.specs.Past.{synced, text_of};
ghost use Rattle.journal_format.specs.Journals.{Journal};
ghost use Rattle.journal_format.specs.Limits.{config_limit};
ghost use Rattle.journal_links.specs.Resuming.{Resumes};
ghost use Rattle.turn_journal.specs.Beginning.{blank_end};
ghost use Rattle.turn_journal.specs.Loading.{HasFaultCause, IsSyncedOrNot, IsWhyRefused};
ghost use Rattle.turn_journal.specs.Standing.{IsReady};
ghost use Rattle.journal_links.specs.Reading.{IsWhole, has_event};

use disk_port::Disk;
use ev_types::{Blob, Text};
use journal_format::Found;
use journal_links::{TurnRecords, read_journal};
use std::alloc::Global;
use turn_journal::{JournalFault, begin_on, load_on};

/// Opens the file of the name, which it makes if there is none, and begins a journal of this configuration in it. It
/// gives the end of the journal.
pub(crate) fn begin_in<D: Disk>(
    alloc: Global,
    name: &Text,
    config: &[u8],
    disk: &mut D,
) -> Result<Found, JournalFault>
    requires { length config.now ≤ config_limit }
    ensures begins { BeginsJournal name.now config.now (D.report disk.old) (D.report disk.new)
        result }
    ensures ready { IfOk result (λ found. IsReady (D.report disk.new).past found.gate
        found.has_record) }
    ensures end { IfOk result (λ found. found ≡ blank_end config.now) }
{
    match disk.create(alloc, name) {
        Ok(()) => begin_on(alloc, disk, config),
        Err(error) => Err(JournalFault::from(error)),
    }
}

/// A journal that was loaded.
#[derive(Drop)]
pub(crate) struct Loaded {
    /// Its end.
    pub found: Found,
    pub config: Blob,
    pub records: TurnRecords,
}

/// Opens the file of the name, which is there, and loads the journal in it.
pub(crate) fn load_from<D: Disk>(
    alloc: Global,
    name: &Text,
    disk: &mut D,
) -> Result<Loaded, JournalFault>
    ensures loads { LoadsJournal name.now (D.report disk.old) (D.report disk.new) result }
    ensures ready { IfOk result (λ loaded. IsReady (D.report disk.new).past loaded.found.gate
        loaded.found.has_record) }
    ensures blank { IfOk result (λ loaded. loaded.found.has_record ≡ false →
        loaded.found.gate ≤ config_limit + 5) }
    ensures events { IfOk result (λ loaded. list_all has_event loaded.records ≡ true) }
{
    match disk.open(alloc, name) {
        Ok(()) => load_open(alloc, disk),
        Err(error) => Err(JournalFault::from(error)),
    }
}

/// Loads the journal in the disk's file.
fn load_open<D: Disk>(alloc: Global, disk: &mut D) -> Result<Loaded, JournalFault>
    ensures loaded { IfOk result (λ loaded. ForSome (D.report disk.old).past (λ past.
        Resumes past loaded.found loaded.config loaded.records)) }
    ensures ready { IfOk result (λ loaded. IsReady (D.report disk.new).past loaded.found.gate
        loaded.found.has_record) }
    ensures blank { IfOk result (λ loaded. loaded.found.has_record ≡ false →
        loaded.found.gate ≤ config_limit + 5) }
    ensures events { IfOk result (λ loaded. list_all has_event loaded.records ≡ true) }
    ensures synced { OnOk result ((D.report disk.new).past
        ≡ option_map synced (D.report disk.old).past) }
    ensures refused { IfErr result (λ fault. ForSome (D.report disk.old).past (λ past.
        IsWhyRefused (text_of past) fault)) }
    ensures unwritten { IsSyncedOrNot (D.report disk.old).past (D.report disk.new).past }
    ensures opened { (D.report disk.new).opened ≡ (D.report disk.old).opened }
    ensures cause { HasFaultCause (D.report disk.old).faults (D.report disk.new).faults result }
{
    let (found, bytes) = match load_on(alloc, disk) {
        Ok(loaded) => loaded,
        Err(fault) => return Err(fault),
    };
    read_loaded(alloc, found, bytes.as_slice())
}

/// Reads the journal that these bytes are, which ends so. Such bytes are not refused, and no disk is called.
fn read_loaded(alloc: Global, found: Found, bytes: &[u8]) -> Result<Loaded, JournalFault>
    ensures found { IfOk result (λ loaded. loaded.found ≡ found) }
    ensures read { (journal : Journal) → IsWhole journal bytes.now →
        IsReadOrMemory journal result }
    ensures events { IfOk result (λ loaded. list_all has_event loaded.records ≡ true) }
    ensures no_disk { result ≢ Err JournalFault.DiskFault }
{
    match read_journal(alloc, bytes) {
        Ok(read) => {
            let (config, records) = read;
            Ok(Loaded {
                found,
                config,
                records,
            })
        }
        Err(JournalFault::Refused { place }) => Err(JournalFault::Refused { place }),
        Err(JournalFault::DiskFault | JournalFault::Memory) => Err(JournalFault::Memory),
    }
}
