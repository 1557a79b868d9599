ghost use Rattle.std.specs.Prelude.{◌≡◌, ◌+◌, ◌≤◌, false, length, take, IfOk, IfErr, OnOk};
ghost use Rattle.std.specs.Option.{ForSome, option_map};
ghost use Rattle.disk_port.specs.Past.{synced, text_of};
ghost use Rattle.disk_port.specs.Calls.{HasCause};
ghost use Rattle.journal_format.specs.Limits.{config_limit, journal_limit};
ghost use Rattle.turn_journal.specs.Loading.{HasFaultCause, IsLoaded, IsSyncedOrNot, IsWhyRefused, IsWhyUnfit};
ghost use Rattle.journal_format.specs.Finding.{Ends};
ghost use Rattle.turn_journal.specs.Standing.{IsReady};

use crate::fault::JournalFault;
use disk_port::{Disk, DiskError};
use ev_types::{Blob, Memory};
use journal_format::{Found, JOURNAL_LIMIT, NoJournal, find_gate};
use std::alloc::Global;

/// Syncs, and finds the journal in the disk's file. It gives the end of the journal, and its bytes. It writes nothing.
pub fn load_on<D: Disk>(alloc: Global, disk: &mut D) -> Result<(Found, Blob), JournalFault>
    ensures ok { IfOk result (λ loaded. ForSome (D.report disk.old).past (λ past.
        IsLoaded past loaded.0 loaded.1)) }
    ensures ready { IfOk result (λ loaded. IsReady (D.report disk.new).past
        loaded.0.gate loaded.0.has_record) }
    ensures synced { OnOk result ((D.report disk.new).past
        ≡ option_map synced (D.report disk.old).past) }
    // The gate of a journal without a record is at most so far from the start.
    ensures blank { IfOk result (λ loaded. loaded.0.has_record ≡ false →
        loaded.0.gate ≤ config_limit + 5) }
    ensures refused { IfErr result (λ fault. ForSome (D.report disk.old).past (λ past.
        IsWhyRefused (text_of past) fault)) }
    ensures any_moment { IsSyncedOrNot (D.report disk.old).past (D.report disk.new).past }
    ensures opened { (D.report disk.new).opened ≡ (D.report disk.old).opened }
    ensures cause { HasFaultCause (D.report disk.old).faults (D.report disk.new).faults result }
{
    match read_file(alloc, disk) {
        Ok(bytes) => journal_in(alloc, bytes),
        Err(error) => Err(JournalFault::from(error)),
    }
}

/// Syncs, and reads the first bytes of the file, as many as a journal may have.
fn read_file<D: Disk>(alloc: Global, disk: &mut D) -> Result<Vec<u8>, DiskError>
    ensures bytes { IfOk result (λ bytes. ForSome (D.report disk.old).past (λ past.
        bytes.items ≡ take journal_limit (text_of past))) }
    ensures within { IfOk result (λ bytes. length bytes.items ≤ journal_limit) }
    ensures synced { OnOk result ((D.report disk.new).past
        ≡ option_map synced (D.report disk.old).past) }
    ensures any_moment { IsSyncedOrNot (D.report disk.old).past (D.report disk.new).past }
    ensures opened { (D.report disk.new).opened ≡ (D.report disk.old).opened }
    ensures cause { HasCause (D.report disk.old).faults (D.report disk.new).faults result }
{
    match disk.sync(alloc) {
        Ok(()) => read_front(alloc, disk),
        Err(error) => Err(error),
    }
}

/// Reads the first bytes of the file, as many as a journal may have.
fn read_front<D: Disk>(alloc: Global, disk: &mut D) -> Result<Vec<u8>, DiskError>
    ensures bytes { IfOk result (λ bytes. ForSome (D.report disk.old).past (λ past.
        bytes.items ≡ take journal_limit (text_of past))) }
    ensures within { IfOk result (λ bytes. length bytes.items ≤ journal_limit) }
    ensures past { (D.report disk.new).past ≡ (D.report disk.old).past }
    ensures opened { (D.report disk.new).opened ≡ (D.report disk.old).opened }
    ensures cause { HasCause (D.report disk.old).faults (D.report disk.new).faults result }
{
    match disk.length(alloc) {
        Ok(length) => read_first(alloc, disk, length.min(JOURNAL_LIMIT as u64) as usize),
        Err(error) => Err(error),
    }
}

/// Reads the first `count` bytes of the file, or all where it has fewer.
fn read_first<D: Disk>(alloc: Global, disk: &mut D, count: usize) -> Result<Vec<u8>, DiskError>
    ensures bytes { IfOk result (λ bytes. ForSome (D.report disk.old).past (λ past.
        bytes.items ≡ take count (text_of past))) }
    ensures within { IfOk result (λ bytes. length bytes.items ≤ count) }
    ensures past { (D.report disk.new).past ≡ (D.report disk.old).past }
    ensures opened { (D.report disk.new).opened ≡ (D.report disk.old).opened }
    ensures cause { HasCause (D.report disk.old).faults (D.report disk.new).faults result }
{
    let mut bytes = zeros(alloc, count)?;
    match disk.read(alloc, 0, bytes.as_mut_slice()) {
        Ok(read) => {
            bytes.truncate(read);
            Ok(bytes)
        }
        Err(error) => Err(error),
    }
}

fn zeros(alloc: Global, count: usize) -> Result<Vec<u8>, Memory>
    ensures { IfOk result (λ bytes. length bytes.items ≡ count) }
{
    let bytes = vec![in alloc; 0; count]?;
    Ok(bytes)
}

/// The end of the journal that the bytes hold, and its bytes.
#[tactic(auto, using(crate::proofs::LoadLaws::blank_gate))]
fn journal_in(alloc: Global, bytes: Vec<u8>) -> Result<(Found, Blob), JournalFault>
    requires { length bytes.items ≤ journal_limit }
    ensures found { IfOk result (λ loaded. Ends bytes.items loaded.0 ×
        (loaded.1 ≡ take (loaded.0.gate + 1) bytes.items)) }
    ensures blank { IfOk result (λ loaded. loaded.0.has_record ≡ false →
        loaded.0.gate ≤ config_limit + 5) }
    ensures refused { IfErr result (IsWhyUnfit bytes.items) }
{
    let found = match find_gate(alloc, bytes.as_slice()) {
        Ok(found) => found,
        Err(NoJournal::Refused { place }) => return Err(JournalFault::Refused { place }),
        Err(NoJournal::Memory) => return Err(JournalFault::Memory),
    };
    let mut bytes = bytes;
    bytes.truncate(found.gate as usize + 1);
    Ok((found, Blob::from_vec(bytes)))
}
