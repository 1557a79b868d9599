ghost use Rattle.std.specs.Prelude.{◌≡◌, length, vec_len, IfOk};

use crate::disks::disk_of;
use crate::formats::CONFIG;
use disk_port::{Disk, MemDisk};
use ev_types::{Blob, Memory, Text};
use ports::{
    Links, ListenAnswer, PIECE_LIMIT, ScriptLinks, SendAnswer, Turn, Wants, What, feed_links,
};
use recorded_links::{RecordRoom, RecordedLinks};
use std::alloc::Global;
use turn_journal::JournalFile;

/// The journal of a `listen`, of link 0 that opens, and, after a send of three bytes on it, of a read of two, at second
/// 0.
pub(crate) const RECORDED: &[u8; 96] =
    b"\x01\x00\x00\x00\x0f(streams index)\x01\x00\x00\x00\x00\x00\x00\x00\x00\x00\x00\x00\x01\x00\x00\x00\x00\x00\x00\x00\x00\x00\x00\x02\x00\x00\x00\x00\x00\x00\x00\x00\x01\x00\x01\x00\x00\x00\x00\x00\x00\x00\x00\x00\x00\x00\x00\x00\x00\x00\x03\x00\x00\x00\x00\x00\x00\x00\x00\x00\x03\x00\x00\x00\x00\x00\x00\x00\x00\x00\x00\x00\x02hi\x00";

/// A buffer for the bytes of a turn.
pub(crate) fn buffer(alloc: Global) -> Result<Vec<u8>, Memory>
    ensures { IfOk result (λ buf. vec_len buf ≡ PIECE_LIMIT) }
{
    Ok(vec![in alloc; 0; PIECE_LIMIT]?)
}

/// Whether this is what the links answer to `listen`.
pub(crate) fn is_listened<L: Links>(alloc: Global, links: &mut L, answer: ListenAnswer) -> bool {
    match Text::from_str(alloc, "h:1") {
        Ok(address) => links.listen(alloc, &address) == answer,
        Err(Memory) => false,
    }
}

/// Whether the next turn, whose bytes come to `buf`, is this one, at second 0.
fn is_next_in<L: Links>(alloc: Global, links: &mut L, buf: &mut [u8], what: What) -> bool
    requires { length buf.old ≡ PIECE_LIMIT }
{
    let wants = Wants::fresh(alloc);
    links.next(alloc, &wants, buf) == Turn { secs: 0, what }
}

/// Whether the next turn is this one, at second 0.
pub(crate) fn is_next<L: Links>(alloc: Global, links: &mut L, what: What) -> bool {
    match buffer(alloc) {
        Ok(mut buf) => is_next_in(alloc, links, buf.as_mut_slice(), what),
        Err(Memory) => false,
    }
}

/// Whether a `listen` and two turns are given, and a send between them is taken.
pub(crate) fn is_played<L: Links>(alloc: Global, links: &mut L) -> bool {
    let ready = is_listened(alloc, links, ListenAnswer::Ready { secs: 0 });
    let opened = is_next(alloc, links, What::Opened { link: 0 });
    let sent = links.send(alloc, 0, b"abc") == SendAnswer::Took { count: 3 };
    let read = is_next(alloc, links, What::Read { link: 0, count: 2 });
    ready && opened && sent && read
}

/// What is asked of links that record.
#[derive(Clone, Copy)]
enum Asked {
    /// Whether a `listen` and two turns are given and recorded.
    Plays,
    /// Whether the `listen` fails for the disk, and the call after it is out of memory.
    Stops,
}

/// Whether these turns are recorded.
fn plays<L: Links, D: Disk>(alloc: Global, links: &mut RecordedLinks<'_, L, D>) -> bool {
    let played = is_played(alloc, links);
    played && !links.spent && !links.disk_failed
}

/// Whether the `listen` fails for the disk, and the call after it is out of memory.
fn stops<L: Links, D: Disk>(alloc: Global, links: &mut RecordedLinks<'_, L, D>) -> bool {
    let failed = is_listened(alloc, links, ListenAnswer::Failed);
    let spent = links.disk_failed && links.spent;
    let ended = is_next(alloc, links, What::Memory);
    failed && spent && ended
}

fn answers<L: Links, D: Disk>(
    alloc: Global,
    links: &mut RecordedLinks<'_, L, D>,
    asked: Asked,
) -> bool {
    match asked {
        Asked::Plays => plays(alloc, links),
        Asked::Stops => stops(alloc, links),
    }
}

/// Whether links that record over these answer what is asked.
fn record_over<L: Links, D: Disk>(
    alloc: Global,
    inner: &mut L,
    disk: &mut D,
    room: &mut RecordRoom,
    asked: Asked,
) -> bool {
    match JournalFile::begin(alloc, disk, &mut room.written, CONFIG) {
        Ok(journal) => {
            let mut links = RecordedLinks::over(inner, journal, None, &mut room.turns);
            answers(alloc, &mut links, asked)
        }
        Err(_) => false,
    }
}

/// Links on which link 0 opens and reads two bytes.
pub(crate) fn two_turns(alloc: Global) -> Result<ScriptLinks, Memory> {
    feed_links(alloc, Blob::from_slice(alloc, b"hi")?)
}

/// Whether links that record over two turns on this disk answer what is asked.
fn record(alloc: Global, disk: &mut MemDisk, asked: Asked) -> bool {
    let mut room = RecordRoom::fresh(alloc);
    match two_turns(alloc) {
        Ok(mut inner) => record_over(alloc, &mut inner, disk, &mut room, asked),
        Err(Memory) => false,
    }
}

/// Whether the turns are recorded on the empty disk.
fn is_recorded(alloc: Global, disk: &mut MemDisk) -> bool {
    let played = record(alloc, disk, Asked::Plays);
    played && disk.file.as_slice() == RECORDED.as_slice()
}

/// Whether the run ends on a disk that stops after its journal was begun.
fn is_ended(alloc: Global, disk: &mut MemDisk) -> bool {
    let stopped = record(alloc, disk, Asked::Stops);
    stopped && disk.faults == 1
}

/// Whether the run ends on an empty disk that stops at the call of the number `stop`, or, if none does, is recorded.
fn is_recorded_until(alloc: Global, stop: Option<u64>) -> bool {
    match disk_of(alloc, b"", stop) {
        Ok(mut disk) => match stop {
            Some(_) => is_ended(alloc, &mut disk),
            None => is_recorded(alloc, &mut disk),
        },
        Err(Memory) => false,
    }
}

#[test]
fn turns_are_recorded_with_the_sends_before_them_until_the_disk_stops(rt: HostRuntime) {
    let recorded = is_recorded_until(rt.alloc(), None);
    assert!(rt; recorded);
    let ended = is_recorded_until(rt.alloc(), Some(10));
    assert!(rt; ended);
}
