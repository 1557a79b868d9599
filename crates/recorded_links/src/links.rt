ghost use Rattle.std.specs.Prelude.{◌≡◌, ◌≢◌, ℕ, List, ◌+◌, ◌<◌, ◌≤◌, [], ◌∷◌, ◌++◌, false, true, length, take};
ghost use Rattle.journal_format.specs.Limits.{journal_limit, step_limit};
ghost use Rattle.ports.specs.Calls.{AddsCalls};
ghost use Rattle.ports.specs.Counts.{Rose};
ghost use Rattle.ports.specs.Links.{HasListenCause, HasNextCause, IsPieceWithin, IsWithin, MayClose, listen_entries, next_entries, piece_of, send_entries};
ghost use Rattle.ports.specs.declared.entry.Entry.TheVariants.{Close};
ghost use Rattle.recorded_links.specs.Keeping.{FailedIf, is_lost, is_lost_listen};
ghost use Rattle.recorded_links.specs.Numbers.{Knows, first_after};
ghost use Rattle.recorded_links.specs.Steps.{CloseStep, ListenStep, NextStep, SendStep, Unsent, own_report};

use crate::ask::{ask, inner_number};
use crate::recorder::TurnRecorder;
use crate::room::TurnRoom;
use disk_port::Disk;
use ev_types::Text;
use journal_format::{JOURNAL_LIMIT, STEP_LIMIT};
use ports::{
    CallLog, Links, ListenAnswer, PIECE_LIMIT, SendAnswer, Turn, Wants, What, log_listen, log_send,
    log_turn,
};
use std::alloc::Global;
use turn_journal::JournalFile;

/// Links that are lent, and whose answers to `listen` and `next` are recorded in a journal before they are handed out.
/// They hold references alone, so that a caller gets back all that it lent. Contracts see what calls were made of links
/// and journal, and whether these links may still be used.
#[derive(Drop)]
pub struct RecordedLinks<'a, L: Links, D: Disk> {
    pub inner: &'a mut L,
    pub recorder: TurnRecorder<'a, D>,
    /// The number before that of number 0 of the inner links here, if that is not 0.
    pub last: Option<u64>,
    /// Whether each later call of `listen` and `next` answers out of memory: memory ran out, or the disk failed.
    pub spent: bool,
    /// Whether the disk failed in the last call.
    pub disk_failed: bool,
    /// The calls so far, which only proofs see.
    pub log: CallLog,
    // room for what is wanted of the inner links
    wants: &'a mut Wants,
    ghost sound: { spent ≡ false → recorder.journal.failed ≡ false },
    ghost room: { recorder.journal.has_record ≡ false →
        recorder.journal.gate + step_limit < journal_limit },
    ghost knows: { Knows (first_after last) log (L.report inner.now).log },
}

impl<'a, L: Links, D: Disk> RecordedLinks<'a, L, D> {
    /// Links that record in this journal, and note in this room.
    pub fn over(
        inner: &'a mut L,
        journal: JournalFile<'a, D>,
        last: Option<u64>,
        room: &'a mut TurnRoom,
    ) -> RecordedLinks<'a, L, D>
        requires sound { journal.failed ≡ false }
        requires room { journal.has_record ≡ false → journal.gate + step_limit < journal_limit }
        ensures inner { result.inner.now ≡ inner.entry.now }
        ensures inner_same { result.inner.ghost_name ≡ inner.entry.ghost_name }
        ensures journal { result.recorder.journal ≡ journal.entry }
        ensures sends { result.recorder.sends.now.summaries.items ≡ [] }
        ensures last { result.last ≡ last }
        ensures ready { result.spent ≡ false }
        ensures quiet { result.disk_failed ≡ false }
        ensures log { result.log ≡ [] }
    {
        let recorder = TurnRecorder::over(journal, &mut room.sends, &mut room.record);
        RecordedLinks {
            inner,
            recorder,
            last,
            spent: false,
            disk_failed: false,
            log: CallLog::fresh(),
            wants: &mut room.wants,
        }
    }
}

impl<'a, L: Links, D: Disk> Links for RecordedLinks<'a, L, D> {
    ghost use Rattle.recorded_links.specs.Seeing.{disk_of, report_of, seen_of};

    ghost report = { λ links. own_report links.log (L.report links.inner.now)
        (D.report links.recorder.journal.disk.now) };

    fn listen(&mut self, alloc: Global, address: &Text) -> ListenAnswer
        ensures adds { AddsCalls (report_of self.old) (report_of self.new)
            (listen_entries address.now result) }
        ensures cause { HasListenCause (report_of self.old).faults (report_of self.new).faults
            result }

        // More than links must report: what the inner links were asked, and what the journal got before the answer.
        ensures step { ListenStep (seen_of self.old) (seen_of self.new) address.now result }
        ensures disk_failed { FailedIf self.new.disk_failed (disk_of self.old).faults
            (disk_of self.new).faults }
        ensures log { self.new.log ≡ self.old.log ++ listen_entries address.now result }
        ensures failed { result ≡ ListenAnswer.Failed → self.new.disk_failed ≡ false →
            Rose (L.report self.old.inner.now).faults (L.report self.new.inner.now).faults }
        ensures lost { self.new.disk_failed ≡ true → result ≡ ListenAnswer.Failed }
        ensures memory { result ≡ ListenAnswer.Memory → self.new.spent ≡ true }
        ensures fault { self.new.disk_failed ≡ true → self.new.spent ≡ true }
        ensures opened { (disk_of self.new).opened ≡ (disk_of self.old).opened }
        ensures last { self.new.last ≡ self.old.last }
        ensures inner_same { self.new.inner.ghost_name ≡ self.old.inner.ghost_name }
        ensures disk_same { self.new.recorder.journal.disk.ghost_name
            ≡ self.old.recorder.journal.disk.ghost_name }
    {
        self.disk_failed = false;
        if self.spent || self.recorder.journal.has_record {
            self.spent = true;
            return ListenAnswer::Memory;
        }
        self.spent = true;
        let asked = self.inner.listen(alloc, address);
        let answer = self.recorder.keep_listen(alloc, asked);
        self.disk_failed = is_lost_listen(asked, answer);
        let ended = self.disk_failed || answer == ListenAnswer::Memory;
        self.spent = ended || self.recorder.journal.failed;
        log_listen(&mut self.log, address, answer);
        answer
    }

    fn next(&mut self, alloc: Global, wants: &Wants, buf: &mut [u8]) -> Turn
        requires { length buf.old ≡ PIECE_LIMIT }
        ensures within { IsPieceWithin PIECE_LIMIT result.what }
        ensures adds { AddsCalls (report_of self.old) (report_of self.new)
            (next_entries wants.now buf.new result) }
        ensures cause { HasNextCause (report_of self.old).faults (report_of self.new).faults
            result.what }

        // More than links must report: what the inner links were asked, and what the journal got before the turn was
        // handed out.
        ensures step { NextStep (seen_of self.old) (seen_of self.new) wants.now buf.new result }
        ensures disk_failed { FailedIf self.new.disk_failed (disk_of self.old).faults
            (disk_of self.new).faults }
        ensures log { self.new.log ≡ self.old.log ++ next_entries wants.now buf.new result }
        ensures failed { result.what ≡ What.Failed → self.new.disk_failed ≡ false →
            Rose (L.report self.old.inner.now).faults (L.report self.new.inner.now).faults }
        ensures lost { self.new.disk_failed ≡ true → result.what ≡ What.Failed }
        ensures memory { result.what ≡ What.Memory → self.new.spent ≡ true }
        ensures fault { self.new.disk_failed ≡ true → self.new.spent ≡ true }
        ensures opened { (disk_of self.new).opened ≡ (disk_of self.old).opened }
        ensures last { self.new.last ≡ self.old.last }
        ensures inner_same { self.new.inner.ghost_name ≡ self.old.inner.ghost_name }
        ensures disk_same { self.new.recorder.journal.disk.ghost_name
            ≡ self.old.recorder.journal.disk.ghost_name }
    {
        self.disk_failed = false;
        if self.spent || !self.recorder.journal.has_record {
            self.spent = true;
            return Turn {
                secs: 0,
                what: What::Memory,
            };
        }
        if !has_room(self.recorder.journal.gate) {
            let turn = Turn {
                secs: 0,
                what: What::Stopped,
            };
            log_turn(&mut self.log, wants, turn, buf);
            return turn;
        }
        self.spent = true;
        let asked = ask(alloc, self.inner, self.last, self.wants, wants, buf);
        let count = count_read(asked.what);
        let turn = self.recorder.keep_turn(alloc, asked, &buf[..count]);
        self.disk_failed = is_lost(asked.what, turn.what);
        let ended = self.disk_failed || turn.what == What::Memory;
        self.spent = ended || self.recorder.journal.failed;
        log_turn(&mut self.log, wants, turn, buf);
        turn
    }

    fn send(&mut self, alloc: Global, link: u64, bytes: &[u8]) -> SendAnswer
        requires { 0 < length bytes.now }
        ensures within { IsWithin (length bytes.now) result }
        ensures adds { AddsCalls (report_of self.old) (report_of self.new)
            (send_entries link bytes.now result) }
        ensures no_fault { (report_of self.new).faults ≡ (report_of self.old).faults }

        // More than links must report: whether the inner links were asked, and what is noted for the next record.
        ensures step { result ≢ SendAnswer.Memory → SendStep (seen_of self.old) (seen_of self.new)
            link bytes.now result }
        ensures unsent { result ≡ SendAnswer.Memory → Unsent (seen_of self.old) (seen_of self.new) }
        ensures spent { result ≡ SendAnswer.Memory → self.new.spent ≡ true }
        ensures disk_failed { self.new.disk_failed ≡ false }
        ensures log { self.new.log ≡ self.old.log ++ send_entries link bytes.now result }
        ensures opened { (disk_of self.new).opened ≡ (disk_of self.old).opened }
        ensures last { self.new.last ≡ self.old.last }
        ensures inner_same { self.new.inner.ghost_name ≡ self.old.inner.ghost_name }
        ensures disk_same { self.new.recorder.journal.disk.ghost_name
            ≡ self.old.recorder.journal.disk.ghost_name }
    {
        self.disk_failed = false;
        if self.recorder.reserve().is_err() {
            self.spent = true;
            return SendAnswer::Memory;
        }
        let answer = self
            .recorder
            .offer(alloc, self.inner, self.last, link, bytes);
        self.recorder.note(link, answer);
        log_send(&mut self.log, link, bytes, answer);
        self.spent = self.spent || answer == SendAnswer::Memory;
        answer
    }

    fn close(&mut self, link: u64)
        requires { MayClose (report_of self.old).log link }
        ensures adds { AddsCalls (report_of self.old) (report_of self.new) (Close link ∷ []) }
        ensures no_fault { (report_of self.new).faults ≡ (report_of self.old).faults }

        // More than links must report: whether the inner link was closed.
        ensures step { CloseStep (seen_of self.old) (seen_of self.new) link }
        ensures disk_failed { self.new.disk_failed ≡ false }
        ensures log { self.new.log ≡ self.old.log ++ Close link ∷ [] }
        ensures opened { (disk_of self.new).opened ≡ (disk_of self.old).opened }
        ensures last { self.new.last ≡ self.old.last }
        ensures inner_same { self.new.inner.ghost_name ≡ self.old.inner.ghost_name }
        ensures disk_same { self.new.recorder.journal.disk.ghost_name
            ≡ self.old.recorder.journal.disk.ghost_name }
    {
        self.disk_failed = false;
        self.log.closed(link);
        if let Some(number) = inner_number(self.last, link) {
            self.inner.close(number);
        }
    }
}

/// Whether the journal with its closed gate there has room for one record more.
pub(crate) fn has_room(gate: u64) -> bool
    ensures room { result ≡ true → gate + step_limit < journal_limit }
    ensures full { result ≡ false → journal_limit < gate + 1 + step_limit }
{
    gate < (JOURNAL_LIMIT - STEP_LIMIT) as u64
}

/// The number of bytes that came in a turn.
fn count_read(what: What) -> usize
    ensures within { IsPieceWithin PIECE_LIMIT what → result ≤ PIECE_LIMIT }
    ensures piece { (buf : List ℕ) → take result buf ≡ piece_of what buf }
{
    match what {
        What::Read { link: _, count } => count,
        _ => 0,
    }
}

/// Whether a turn of the inner links was lost by a disk that failed.
pub(crate) fn is_lost(asked: What, handed: What) -> bool
    ensures { result ≡ is_lost asked handed }
{
    asked != What::Failed && handed == What::Failed
}

/// The same of an answer to `listen`.
fn is_lost_listen(asked: ListenAnswer, handed: ListenAnswer) -> bool
    ensures { result ≡ is_lost_listen asked handed }
{
    matches!(asked, ListenAnswer::Ready { .. }) && handed == ListenAnswer::Failed
}
