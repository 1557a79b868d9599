//! Giving the journal's turns again, with a note of the links that they open.

ghost use Rattle.std.specs.Prelude.{◌≡◌, ◌<◌, ◌∷◌, ℕ, List, true, false, length, drop, IfOk, OnErr, OnOk};
ghost use Rattle.journal_format.specs.declared.turn_record.TurnRecord.{TurnRecord};
ghost use Rattle.journal_links.specs.Steps.{HandsAgain, last_secs};
ghost use Rattle.ports.specs.Links.{IsPieceWithin, is_failed_turn, is_memory_turn};
ghost use Rattle.recorded_links.specs.Keeping.{is_ready};
ghost use Rattle.journal_links.specs.Opened.{opened_after};
ghost use Rattle.journal_links.specs.Replaying.{GivesListen, GivesNext, what_of};

use crate::{OpenLinks, Replay};
use ev_types::Memory;
use journal_format::TurnEvent;
use ports::{ListenAnswer, PIECE_LIMIT, Turn, What};

/// Hands out an answer of the inner links to `listen`, with the second of the journal's first record.
pub(crate) fn first_answer(replay: &mut Replay, asked: ListenAnswer) -> ListenAnswer
    requires { replay.old.given < length replay.old.records }
    ensures hands { HandsAgain asked result }
    ensures gives { (secs : ℕ) (entry : TurnRecord) (later : List TurnRecord) →
        result ≡ ListenAnswer.Ready secs →
        drop replay.old.given replay.old.records ≡ entry ∷ later →
        GivesListen entry later secs replay.new.left.items
        (drop replay.new.given replay.new.records) }
    ensures still { is_ready result ≡ false → replay.new.given ≡ replay.old.given }
    ensures records { replay.new.records ≡ replay.old.records }
{
    match asked {
        ListenAnswer::Ready { .. } => first_second(replay),
        ListenAnswer::Failed | ListenAnswer::Memory => asked,
    }
}

/// The second of the journal's first record, as an answer to `listen`.
fn first_second(replay: &mut Replay) -> ListenAnswer
    requires { replay.old.given < length replay.old.records }
    ensures ready { is_ready result ≡ false → result ≡ ListenAnswer.Memory }
    ensures gives { (secs : ℕ) (entry : TurnRecord) (later : List TurnRecord) →
        result ≡ ListenAnswer.Ready secs →
        drop replay.old.given replay.old.records ≡ entry ∷ later →
        GivesListen entry later secs replay.new.left.items
        (drop replay.new.given replay.new.records) }
    ensures still { is_ready result ≡ false → replay.new.given ≡ replay.old.given }
    ensures records { replay.new.records ≡ replay.old.records }
{
    match replay.give_listen() {
        Ok(secs) => ListenAnswer::Ready { secs },
        Err(_) => ListenAnswer::Memory,
    }
}

/// Gives the next turn of the journal, and notes the link that it opens.
pub(crate) fn next_turn(replay: &mut Replay, opened: &mut OpenLinks, buf: &mut [u8]) -> Turn
    requires some { replay.old.given < length replay.old.records }
    requires whole { length buf.old ≡ PIECE_LIMIT }
    ensures gives { is_memory_turn result.what ≡ false → (entry : TurnRecord)
        (later : List TurnRecord) → drop replay.old.given replay.old.records ≡ entry ∷ later →
        GivesNext entry later result buf.new replay.new.left.items
        (drop replay.new.given replay.new.records)
        × (opened.new.numbers.keys ≡ opened_after result.what opened.old.numbers.keys) }
    ensures still { is_memory_turn result.what ≡ true → replay.new.given ≡ replay.old.given }
    ensures records { replay.new.records ≡ replay.old.records }
    ensures within { IsPieceWithin PIECE_LIMIT result.what }
    ensures unfailed { is_failed_turn result.what ≡ false }
{
    match note_and_give(replay, opened, buf) {
        Ok(turn) => turn,
        Err(_) => Turn {
            secs: 0,
            what: What::Memory,
        },
    }
}

fn note_and_give(
    replay: &mut Replay,
    opened: &mut OpenLinks,
    buf: &mut [u8],
) -> Result<Turn, Memory>
    requires some { replay.old.given < length replay.old.records }
    requires whole { length buf.old ≡ PIECE_LIMIT }
    ensures gives { IfOk result (λ turn. (entry : TurnRecord) (later : List TurnRecord) →
        drop replay.old.given replay.old.records ≡ entry ∷ later →
        GivesNext entry later turn buf.new replay.new.left.items
        (drop replay.new.given replay.new.records)
        × (opened.new.numbers.keys ≡ opened_after turn.what opened.old.numbers.keys)) }
    ensures err { OnErr result (replay.new.given ≡ replay.old.given) }
    ensures records { replay.new.records ≡ replay.old.records }
    ensures within { IfOk result (λ turn. IsPieceWithin PIECE_LIMIT turn.what) }
{
    note_next(replay, opened)?;
    let turn = replay.give(buf)?;
    Ok(turn)
}

/// Notes the link that the next turn of the journal opens, if it opens one.
fn note_next(replay: &Replay, opened: &mut OpenLinks) -> Result<(), Memory>
    requires { replay.now.given < length replay.now.records }
    ensures { OnOk result ((entry : TurnRecord) (later : List TurnRecord) →
        drop replay.now.given replay.now.records ≡ entry ∷ later →
        opened.new.numbers.keys ≡ opened_after (what_of entry.event) opened.old.numbers.keys) }
{
    note_event(&replay.records.get(replay.given).event, opened)
}

fn note_event(event: &TurnEvent, opened: &mut OpenLinks) -> Result<(), Memory>
    ensures { OnOk result (opened.new.numbers.keys
        ≡ opened_after (what_of event.now) opened.old.numbers.keys) }
{
    match event {
        TurnEvent::Opened { link } => opened.turned(What::Opened { link: *link }),
        TurnEvent::Listen
        | TurnEvent::Idle
        | TurnEvent::Read { .. }
        | TurnEvent::Ended { .. }
        | TurnEvent::Broken { .. }
        | TurnEvent::Room { .. } => Ok(()),
    }
}

/// The second of the last record.
pub(crate) fn last_secs(replay: &Replay) -> u64
    ensures { result ≡ last_secs replay.now.records }
{
    match replay.records.as_slice().last() {
        Some(entry) => entry.secs,
        None => 0,
    }
}
