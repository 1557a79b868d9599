//! The turns of a journal, given again.

ghost use Rattle.std.specs.Prelude.{◌≡◌, ◌≤◌, ◌<◌, [], ◌∷◌, List, true, nat_le, length, drop, IfOk, OnErr, OnOk};
ghost use Rattle.std.specs.List.{list_all};
ghost use Rattle.journal_format.specs.declared.turn_record.TurnRecord.{TurnRecord};
ghost use Rattle.ports.specs.Links.{IsPieceWithin, IsWithin, piece_of};
ghost use Rattle.recorded_links.specs.Sending.{place_of};
ghost use Rattle.journal_links.specs.Reading.{has_event, is_event};
ghost use Rattle.journal_links.specs.Replaying.{GivesListen, GivesNext, answer_again, answer_of, bytes_of, last_answer, left_after, summaries_next, what_of};

use crate::reading::TurnRecords;
use ev_types::Memory;
use journal_format::{SendEnd, Summary, TurnEvent, TurnRecord};
use ports::{PIECE_LIMIT, SendAnswer, Turn, What};
use std::alloc::Global;

/// The turns of a journal that are still to be given, and what sends before the next of them may take.
#[derive(Drop)]
pub struct Replay {
    /// The records of the journal.
    pub records: TurnRecords,
    /// How many of them were given.
    pub given: usize,
    /// The summaries of the next record, less what was taken.
    pub left: Vec<Summary>,
    ghost events: { list_all has_event records ≡ true },
    ghost within: { given ≤ length records },
}

impl Replay {
    /// Of no record. It takes no memory.
    pub fn fresh(alloc: Global) -> Replay
        ensures records { result.records ≡ [] }
        ensures given { result.given ≡ 0 }
    {
        Replay {
            records: TurnRecords::fresh(alloc),
            given: 0,
            left: Vec::new(alloc),
        }
    }

    /// Before the first of these records.
    pub fn over(alloc: Global, records: TurnRecords) -> Result<Replay, Memory>
        requires { list_all has_event records ≡ true }
        ensures records { IfOk result (λ replay. replay.records ≡ records) }
        ensures given { IfOk result (λ replay. replay.given ≡ 0) }
        ensures left { IfOk result (λ replay. replay.left.items ≡ summaries_next records) }
    {
        let mut left = Vec::new(alloc);
        fill_left(&mut left, records.as_slice())?;
        Ok(Replay {
            records,
            given: 0,
            left,
        })
    }

    /// Whether all turns were given.
    pub fn is_over(&self) -> bool
        ensures { result ≡ nat_le (length self.now.records) self.now.given }
    {
        self.records.len() <= self.given
    }

    /// Answers a send of this many bytes by what is left.
    pub fn answer(&mut self, link: u64, count: usize) -> SendAnswer
        ensures answer { result ≡ answer_again link count self.old.left.items }
        ensures left { self.new.left.items ≡ left_after link count self.old.left.items }
        ensures within { IsWithin count result }
        ensures records { self.new.records ≡ self.old.records }
        ensures given { self.new.given ≡ self.old.given }
    {
        match place_of(self.left.as_slice(), link) {
            Some(place) => {
                let summary = self.left[place];
                self.left[place] = Summary {
                    link: summary.link,
                    taken: summary.taken.saturating_sub(count as u64),
                    end: summary.end,
                };
                answer_of(summary, count)
            }
            None => SendAnswer::Later,
        }
    }

    /// Gives the second of the next record, which is that of a `listen`.
    pub fn give_listen(&mut self) -> Result<u64, Memory>
        requires { self.old.given < length self.old.records }
        ensures gives { IfOk result (λ secs. (entry : TurnRecord) (later : List TurnRecord) →
            drop self.old.given self.old.records ≡ entry ∷ later → GivesListen entry later
            secs self.new.left.items (drop self.new.given self.new.records)) }
        ensures err { OnErr result (self.new.given ≡ self.old.given) }
        ensures records { self.new.records ≡ self.old.records }
    {
        let (_, later) = self.records.as_slice().split_at(self.given + 1);
        fill_left(&mut self.left, later)?;
        let secs = self.records.get(self.given).secs;
        self.given += 1;
        Ok(secs)
    }

    /// Gives the next turn. The bytes of a read are written to the start of `buf`.
    pub fn give(&mut self, buf: &mut [u8]) -> Result<Turn, Memory>
        requires some { self.old.given < length self.old.records }
        requires whole { length buf.old ≡ PIECE_LIMIT }
        ensures gives { IfOk result (λ turn. (entry : TurnRecord) (later : List TurnRecord) →
            drop self.old.given self.old.records ≡ entry ∷ later → GivesNext entry later
            turn buf.new self.new.left.items (drop self.new.given self.new.records)) }
        ensures within { IfOk result (λ turn. IsPieceWithin PIECE_LIMIT turn.what) }
        ensures err { OnErr result (self.new.given ≡ self.old.given) }
        ensures records { self.new.records ≡ self.old.records }
    {
        let (_, later) = self.records.as_slice().split_at(self.given + 1);
        fill_left(&mut self.left, later)?;
        let entry = self.records.get(self.given);
        let turn = Turn {
            secs: entry.secs,
            what: give_event(&entry.event, buf),
        };
        self.given += 1;
        Ok(turn)
    }
}

/// What a recorded event is given as. The bytes of a read are written to the start of `buf`.
fn give_event(event: &TurnEvent, buf: &mut [u8]) -> What
    requires allowed { is_event event.now ≡ true }
    requires whole { length buf.old ≡ PIECE_LIMIT }
    ensures what { result ≡ what_of event.now }
    ensures piece { piece_of result buf.new ≡ bytes_of event.now }
    ensures within { IsPieceWithin PIECE_LIMIT result }
{
    match event {
        TurnEvent::Listen | TurnEvent::Idle => What::Idle,
        TurnEvent::Opened { link } => What::Opened { link: *link },
        TurnEvent::Read { link, bytes } => {
            let count = bytes.len();
            buf[..count].copy_from_slice(bytes.as_slice());
            What::Read { link: *link, count }
        }
        TurnEvent::Ended { link } => What::Ended { link: *link },
        TurnEvent::Broken { link } => What::Broken { link: *link },
        TurnEvent::Room { link } => What::Room { link: *link },
    }
}

/// How a send of this many bytes is answered by what is left of its summary.
fn answer_of(summary: Summary, count: usize) -> SendAnswer
    ensures answer { result ≡ answer_of summary count }
    ensures within { IsWithin count result }
{
    if summary.taken > 0 {
        return SendAnswer::Took {
            count: summary.taken.min(count as u64) as usize,
        };
    }
    last_answer(summary.end)
}

/// How a send is answered once all bytes were taken that are to be.
fn last_answer(end: SendEnd) -> SendAnswer
    ensures { result ≡ last_answer end }
{
    match end {
        SendEnd::Took | SendEnd::Later => SendAnswer::Later,
        SendEnd::Failed => SendAnswer::Failed,
    }
}

/// Where the summary of the link is, if it has one.
fn place_of(summaries: &[Summary], link: u64) -> Option<usize>
    ensures { result ≡ place_of link summaries.now }
{
    summaries.iter().position(|summary| summary.link == link)
}

/// Puts the summaries of the next record in `left`.
fn fill_left(left: &mut Vec<Summary>, records: &[TurnRecord]) -> Result<(), Memory>
    ensures { OnOk result (left.new.items ≡ summaries_next records.now) }
{
    left.clear();
    match records.first() {
        Some(entry) => {
            left.extend_from_slice(entry.summaries.as_slice())?;
            Ok(())
        }
        None => Ok(()),
    }
}
