ghost use Rattle.std.specs.Prelude.{◌≡◌, true};
ghost use Rattle.turn_journal.specs.Standing.{IsNext};

use crate::disks::disk_of;
use crate::formats::{CONFIG, JOURNAL, LISTEN};
use disk_port::{Disk, DiskError, MemDisk};
use ev_types::Memory;
use journal_format::read_record;
use std::alloc::Global;
use turn_journal::{JournalFault, JournalFile, begin_on, load_on};

/// Whether the bytes are a record that may come next in a journal.
fn is_next(alloc: Global, has_record: bool, bytes: &[u8]) -> bool
    ensures { result ≡ true → IsNext has_record bytes.now }
{
    match read_record(alloc, bytes) {
        Ok((entry, rest)) => {
            let is_first = !has_record;
            rest.is_empty() && entry.event.is_listen() == is_first
        }
        Err(_) => false,
    }
}

/// Adds the record that the bytes are, if they are one that may come next in a short journal.
fn add<D: Disk>(
    alloc: Global,
    file: &mut JournalFile<'_, D>,
    bytes: &[u8],
) -> Result<(), DiskError> {
    if file.failed || file.gate > 1000 || bytes.len() > 1000 {
        return Err(DiskError::Failed);
    }
    if !is_next(alloc, file.has_record, bytes) {
        return Err(DiskError::Failed);
    }
    file.append(alloc, bytes)
}

/// Whether a record is added to the journal, as its first one.
fn is_added<D: Disk>(alloc: Global, file: &mut JournalFile<'_, D>) -> bool {
    let added = add(alloc, file, LISTEN).is_ok();
    added && file.gate == 32 && file.has_record && !file.failed
}

/// Whether a journal is begun in an empty file, and a record added.
fn is_begun<D: Disk>(alloc: Global, disk: &mut D) -> bool {
    let mut room = Vec::new(alloc);
    match JournalFile::begin(alloc, disk, &mut room, CONFIG) {
        Ok(mut file) => is_added(alloc, &mut file),
        Err(_) => false,
    }
}

/// Whether this is the journal, and its bytes.
fn is_whole<D: Disk>(file: &JournalFile<'_, D>, bytes: &[u8]) -> bool {
    bytes == JOURNAL.as_slice() && file.gate == 32 && file.has_record
}

/// Whether the journal is loaded.
fn is_loaded<D: Disk>(alloc: Global, disk: &mut D) -> Result<bool, JournalFault> {
    let mut room = Vec::new(alloc);
    match JournalFile::load(alloc, disk, &mut room) {
        Ok((file, bytes)) => Ok(is_whole(&file, bytes.as_slice())),
        Err(fault) => Err(fault),
    }
}

/// Whether a journal is begun on the empty disk, added to and loaded.
fn keeps_journal(alloc: Global, disk: &mut MemDisk) -> bool {
    let begun = is_begun(alloc, disk);
    let written = disk.file.as_slice() == JOURNAL.as_slice();
    let loaded = matches!(is_loaded(alloc, disk), Ok(true));
    begun && written && loaded
}

/// Whether no journal is begun over one.
fn is_taken(alloc: Global, disk: &mut MemDisk) -> bool {
    matches!(
        begin_on(alloc, disk, CONFIG),
        Err(JournalFault::Refused { place: 0 })
    )
}

/// Whether a journal that is cut is refused.
fn is_cut_refused(alloc: Global, disk: &mut MemDisk) -> bool {
    matches!(
        is_loaded(alloc, disk),
        Err(JournalFault::Refused { place: 21 })
    )
}

/// What a disk shows.
enum Shown {
    /// A journal is begun, added to and loaded.
    Kept,
    /// No journal is begun over the one that it has.
    Taken,
    /// Its journal, which is cut, is refused at a place.
    CutRefused,
    /// No journal is loaded, since its file is empty.
    EmptyRefused,
}

/// Whether the disk shows this.
fn shows(alloc: Global, disk: &mut MemDisk, shown: &Shown) -> bool {
    match shown {
        Shown::Kept => keeps_journal(alloc, disk),
        Shown::Taken => is_taken(alloc, disk),
        Shown::CutRefused => is_cut_refused(alloc, disk),
        Shown::EmptyRefused => load_on(alloc, disk).is_err(),
    }
}

/// Whether a disk with these bytes shows this.
fn is_shown(alloc: Global, bytes: &[u8], shown: &Shown) -> bool {
    match disk_of(alloc, bytes, None) {
        Ok(mut disk) => shows(alloc, &mut disk, shown),
        Err(Memory) => false,
    }
}

/// The first 25 bytes of the journal.
const CUT: &[u8; 25] = b"\x01\x00\x00\x00\x0f(streams index)\x01\x00\x00\x00\x00";

/// Bytes on a disk, each with what it shows.
const ROWS: &[(&[u8], Shown)] = &[
    (b"", Shown::Kept),
    (JOURNAL, Shown::Taken),
    (CUT, Shown::CutRefused),
    (b"", Shown::EmptyRefused),
];

#[test]
fn a_journal_is_kept_and_files_are_refused_at_a_place(rt: HostRuntime) {
    for (bytes, shown) in ROWS {
        let is_shown = is_shown(rt.alloc(), bytes, shown);
        assert!(rt; is_shown);
    }
}
