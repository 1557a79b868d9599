ghost use Rattle.std.specs.Prelude.{◌≡◌, true};
ghost use Rattle.std.specs.List.{list_all};
ghost use Rattle.journal_links.specs.Reading.{has_event};

use crate::formats::CONFIG;
use crate::recorded::{RECORDED, buffer};
use ev_types::Memory;
use journal_links::{Replay, TurnRecords, read_journal};
use ports::{PIECE_LIMIT, SendAnswer, Turn, What};
use std::alloc::Global;
use turn_journal::JournalFault;

/// Whether the bytes begin with the two that were read.
fn is_hi(bytes: &[u8]) -> bool {
    match bytes {
        [b'h', b'i', ..] => true,
        _ => false,
    }
}

/// Whether the next turn is this one, at second 0.
fn is_given(replay: &mut Replay, buf: &mut [u8], what: What) -> bool {
    buf.len() == PIECE_LIMIT && !replay.is_over() && replay.give(buf) == Ok(Turn { secs: 0, what })
}

/// Links to which two bytes are sent each, with the answer.
const SENDS: &[(u64, SendAnswer)] = &[
    (0, SendAnswer::Took { count: 2 }),
    (0, SendAnswer::Took { count: 1 }),
    (0, SendAnswer::Later),
    (1, SendAnswer::Later),
];

/// Whether the sends are answered so.
fn are_answered(replay: &mut Replay) -> bool {
    for (link, answer) in SENDS {
        if replay.answer(*link, 2) != *answer {
            return false;
        }
    }
    true
}

/// Whether the `listen` is given again, at second 0.
fn is_listened(replay: &mut Replay) -> bool {
    !replay.is_over() && replay.give_listen() == Ok(0)
}

/// Whether the journal's turns are given again, and a send between them is answered as it was.
fn is_replayed(replay: &mut Replay, buf: &mut [u8]) -> bool {
    let listened = is_listened(replay);
    let opened = is_given(replay, buf, What::Opened { link: 0 });
    let answered = are_answered(replay);
    let read = is_given(replay, buf, What::Read { link: 0, count: 2 });
    listened && opened && answered && read && is_hi(buf) && replay.is_over()
}

/// Whether that is so with a buffer of its own.
fn gives_again(alloc: Global, replay: &mut Replay) -> bool {
    match buffer(alloc) {
        Ok(mut buf) => is_replayed(replay, buf.as_mut_slice()),
        Err(Memory) => false,
    }
}

/// Whether the turns of these records are those of the journal.
fn are_replayed(alloc: Global, records: TurnRecords) -> bool
    requires { list_all has_event records ≡ true }
{
    match Replay::over(alloc, records) {
        Ok(mut replay) => gives_again(alloc, &mut replay),
        Err(Memory) => false,
    }
}

/// Whether a journal is read, with its three records, and its turns are given again.
fn is_read(alloc: Global) -> bool {
    match read_journal(alloc, RECORDED) {
        Ok((config, records)) => {
            let whole = records.len() == 3;
            let replayed = are_replayed(alloc, records);
            whole && replayed && config.as_slice() == CONFIG.as_slice()
        }
        Err(_) => false,
    }
}

/// How many records the journal in these bytes has.
pub(crate) fn count_records(alloc: Global, bytes: &[u8]) -> Result<usize, JournalFault> {
    match read_journal(alloc, bytes) {
        Ok((_, records)) => Ok(records.len()),
        Err(fault) => Err(fault),
    }
}

#[test]
fn the_turns_of_a_journal_are_given_again(rt: HostRuntime) {
    let is_read = is_read(rt.alloc());
    assert!(rt; is_read);
    let is_none = count_records(rt.alloc(), b"").is_err();
    assert!(rt; is_none);
}
