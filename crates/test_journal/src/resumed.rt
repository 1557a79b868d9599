use crate::disks::disk_of;
use crate::formats::CONFIG;
use crate::recorded::{RECORDED, is_listened, is_next, is_played, two_turns};
use crate::replayed::count_records;
use disk_port::{Disk, MemDisk};
use ev_types::Memory;
use journal_links::{JournalLinks, JournalRoom};
use ports::{Links, ListenAnswer, SendAnswer, What};
use std::alloc::Global;
use turn_journal::JournalFault;

/// Whether turns are given, and those of other links after them if the run goes on. The last turn is recorded, and is
/// none that the journal had.
fn plays<L: Links, D: Disk>(
    alloc: Global,
    links: &mut JournalLinks<'_, L, D>,
    goes_on: bool,
) -> bool {
    let played = is_played(alloc, links);
    let others = !goes_on || gives_others(alloc, links);
    played && others && !links.replayed() && !links.disk_failed()
}

/// Whether the `listen` fails for the disk, and the call after it is out of memory.
fn stops<L: Links, D: Disk>(alloc: Global, links: &mut JournalLinks<'_, L, D>) -> bool {
    let failed = is_listened(alloc, links, ListenAnswer::Failed);
    let disk_failed = links.disk_failed();
    let ended = is_next(alloc, links, What::Memory);
    failed && disk_failed && ended && !links.disk_failed()
}

/// Whether the turns of other links are given.
fn gives_others<L: Links>(alloc: Global, links: &mut L) -> bool {
    let broken = is_next(alloc, links, What::Broken { link: 0 });
    let opened = is_next(alloc, links, What::Opened { link: 1 });
    let sent = links.send(alloc, 1, b"d") == SendAnswer::Took { count: 1 };
    let next = is_next(alloc, links, What::Read { link: 1, count: 2 });
    broken && opened && sent && next
}

/// Whether the first turn of a journal that has a later one is given as such.
fn is_replayed<L: Links, D: Disk>(alloc: Global, links: &mut JournalLinks<'_, L, D>) -> bool {
    let listened = is_listened(alloc, links, ListenAnswer::Ready { secs: 0 });
    let before = links.replayed();
    let opened = is_next(alloc, links, What::Opened { link: 0 });
    listened && !before && opened && links.replayed()
}

/// What is asked of links with a journal.
#[derive(Clone, Copy)]
enum Asked {
    /// Whether turns are given and recorded, where the journal begins.
    Plays,
    /// Whether the `listen` fails for the disk, where the journal begins.
    Stops,
    /// Whether all turns of the journal are given again, its link 0 is broken, and link 0 of the inner links is link 1.
    GoesOn,
    /// Whether the first turn of two of the journal is given again as one that has a later one.
    IsReplayed,
}

/// Whether the links answer what is asked, and are of the configuration before and after that.
fn answers<L: Links, D: Disk>(
    alloc: Global,
    links: &mut JournalLinks<'_, L, D>,
    asked: Asked,
) -> bool {
    let config = links.config().as_slice() == CONFIG.as_slice();
    let answered = match asked {
        Asked::Plays => plays(alloc, links, false),
        Asked::Stops => stops(alloc, links),
        Asked::GoesOn => plays(alloc, links, true),
        Asked::IsReplayed => is_replayed(alloc, links),
    };
    config && answered && links.config().as_slice() == CONFIG.as_slice()
}

/// Whether links whose journal begins on the disk, or is there, answer what is asked.
fn ask_over<L: Links, D: Disk>(
    alloc: Global,
    inner: &mut L,
    disk: &mut D,
    room: &mut JournalRoom,
    asked: Asked,
) -> Result<bool, JournalFault> {
    let made = match asked {
        Asked::Plays | Asked::Stops => JournalLinks::record(alloc, inner, disk, room, CONFIG),
        Asked::GoesOn | Asked::IsReplayed => JournalLinks::resume(alloc, inner, disk, room),
    };
    match made {
        Ok(mut links) => Ok(answers(alloc, &mut links, asked)),
        Err(fault) => Err(fault),
    }
}

/// Whether links over two turns, with a journal on the disk, answer what is asked.
fn ask(alloc: Global, disk: &mut MemDisk, asked: Asked) -> Result<bool, JournalFault> {
    let mut inner = two_turns(alloc)?;
    let mut room = JournalRoom::fresh(alloc);
    ask_over(alloc, &mut inner, disk, &mut room, asked)
}

/// Whether a run is recorded on the empty disk, and goes on with other links.
fn is_kept(alloc: Global, disk: &mut MemDisk) -> bool {
    let begun = matches!(ask(alloc, disk, Asked::Plays), Ok(true));
    let recorded = disk.file.as_slice() == RECORDED.as_slice();
    let resumed = matches!(ask(alloc, disk, Asked::GoesOn), Ok(true));
    let records = count_records(alloc, disk.file.as_slice());
    begun && recorded && resumed && matches!(records, Ok(6))
}

/// Whether the disk is refused at its first byte.
fn is_refused(answer: Result<bool, JournalFault>) -> bool {
    matches!(answer, Err(JournalFault::Refused { place: 0 }))
}

/// What a disk shows.
enum Shown {
    /// A run is recorded on it, and goes on with other links.
    Kept,
    /// The turns before the last of its journal are known.
    Replayed,
    /// No run is begun over its journal.
    NotBegun,
    /// No run is resumed of it, since it has no journal.
    NotResumed,
    /// It stops after its journal was begun, which ends the run.
    Ended,
}

/// Whether the disk shows this.
fn shows(alloc: Global, disk: &mut MemDisk, shown: &Shown) -> bool {
    match shown {
        Shown::Kept => is_kept(alloc, disk),
        Shown::Replayed => matches!(ask(alloc, disk, Asked::IsReplayed), Ok(true)),
        Shown::NotBegun => is_refused(ask(alloc, disk, Asked::Plays)),
        Shown::NotResumed => is_refused(ask(alloc, disk, Asked::GoesOn)),
        Shown::Ended => { matches!(ask(alloc, disk, Asked::Stops), Ok(true)) && disk.faults == 1 }
    }
}

/// Bytes on a disk, the number of the call at which it stops, if it does, and what it shows.
type Row = (&'static [u8], Option<u64>, Shown);

const ROWS: &[Row] = &[
    (b"", None, Shown::Kept),
    (RECORDED, None, Shown::Replayed),
    (RECORDED, None, Shown::NotBegun),
    (b"", None, Shown::NotResumed),
    (b"", Some(10), Shown::Ended),
];

/// Whether a disk shows what its row says.
fn is_shown(alloc: Global, row: &Row) -> bool {
    match disk_of(alloc, row.0, row.1) {
        Ok(mut disk) => shows(alloc, &mut disk, &row.2),
        Err(Memory) => false,
    }
}

#[test]
fn runs_are_recorded_and_resumed_on_disks(rt: HostRuntime) {
    for (number, row) in ROWS.iter().enumerate() {
        let is_shown = is_shown(rt.alloc(), row);
        assert!(rt; is_shown, "row {number}");
    }
}
