ghost use Rattle.std.specs.Prelude.{◌≡◌, List, ◌++◌, ◌<◌, [], ◌∷◌, false, true, is_some, length};
ghost use Rattle.std.specs.List.{list_all};
ghost use Rattle.journal_links.specs.Steps.{CloseOf, ListenOf, ListensAgain, NextOf, SendOf, is_replayed, last_secs, opens_before};
ghost use Rattle.ports.specs.Calls.{AddsCalls};
ghost use Rattle.ports.specs.Counts.{Rose};
ghost use Rattle.ports.specs.Links.{HasListenCause, HasNextCause, IsPieceWithin, IsWithin, MayClose, is_failed_turn, listen_entries, next_entries, send_entries};
ghost use Rattle.ports.specs.declared.entry.Entry.{Entry};
ghost use Rattle.ports.specs.declared.entry.Entry.TheVariants.{Close};
ghost use Rattle.ports.specs.declared.links.Want.{Want};
ghost use Rattle.ports.specs.declared.links.What.TheVariants.{Broken};
ghost use Rattle.recorded_links.specs.Keeping.{FailedIf};
ghost use Rattle.recorded_links.specs.Numbers.{first_after, inner_number};
ghost use Rattle.recorded_links.specs.Seeing.{disk_of, seen_of};
ghost use Rattle.recorded_links.specs.Steps.{OwnStep, own_report};
ghost use Rattle.journal_links.specs.Opened.{Passes, closed_after, is_before};

use crate::again::{first_answer, last_secs, next_turn};
use crate::{OpenLinks, Replay};
use disk_port::Disk;
use ev_types::{Blob, Text};
use ports::{
    CallLog, Links, ListenAnswer, PIECE_LIMIT, SendAnswer, Turn, Wants, What, log_listen, log_send,
    log_turn,
};
use recorded_links::RecordedLinks;
use std::alloc::Global;

/// The links of a server that keeps a journal. First they give the turns that the journal had, and then those of the
/// links that are lent, each of which is recorded before it is handed out. Contracts see what calls were made of links
/// and disk, and how far the journal was given again.
#[derive(Drop)]
pub struct JournalLinks<'a, L: Links, D: Disk> {
    /// The links that are lent, and the journal in which their turns are recorded.
    pub recorded: RecordedLinks<'a, L, D>,
    /// The turns that the journal had.
    pub replay: &'a mut Replay,
    /// The links that were opened in the turns given again, and not closed since.
    pub opened: &'a mut OpenLinks,
    /// The configuration that the journal is of.
    pub config: &'a Blob,
    /// The calls so far, which only proofs see.
    pub log: CallLog,
    ghost passes: { Passes (first_after recorded.last) log recorded.log },
    ghost before: { list_all (is_before (first_after recorded.last)) replay.now.records ≡ true },
}

impl<'a, L: Links, D: Disk> JournalLinks<'a, L, D> {
    ghost use Rattle.journal_links.specs.Seeing.{reached, report_of, report_with};

    /// Links that give these turns again, and record those after them.
    pub fn over(
        recorded: RecordedLinks<'a, L, D>,
        replay: &'a mut Replay,
        opened: &'a mut OpenLinks,
        config: &'a Blob,
    ) -> JournalLinks<'a, L, D>
        requires fresh { recorded.log ≡ [] }
        requires before { list_all (is_before (first_after recorded.last)) replay.old.records ≡
            true }
        ensures recorded { result.recorded ≡ recorded.entry }
        ensures replay { result.replay.now ≡ replay.old }
        ensures opened { result.opened.now ≡ opened.old }
        ensures config { result.config.now ≡ config.now }
        ensures log { result.log ≡ [] }
    {
        JournalLinks {
            recorded,
            replay,
            opened,
            config,
            log: CallLog::fresh(),
        }
    }

    /// The configuration that the journal is of.
    pub fn config(&self) -> &Blob
        ensures { result.now ≡ self.now.config.now }
    {
        self.config
    }

    /// Whether a call of the disk failed in the last call.
    pub fn disk_failed(&self) -> bool
        ensures { result ≡ self.now.recorded.disk_failed }
    {
        self.recorded.disk_failed
    }

    /// Whether the last turn was one of those that the journal had, and not the last of them.
    pub fn replayed(&self) -> bool
        ensures { result ≡ is_replayed self.now.replay.now.records self.now.replay.now.given }
    {
        self.replay.given > 1 && !self.replay.is_over()
    }

    /// Listens, without a note of the call.
    fn answer_listen(&mut self, alloc: Global, address: &Text) -> ListenAnswer
        ensures adds { (log : List Entry) → AddsCalls (report_with log self.old)
            (report_with (log ++ listen_entries address.now result) self.new)
            (listen_entries address.now result) }
        ensures passes { Passes (first_after self.new.recorded.last)
            (self.old.log ++ listen_entries address.now result) self.new.recorded.log }
        ensures cause { HasListenCause (report_of self.old).faults (report_of self.new).faults
            result }
        ensures step { ListenOf (seen_of self.old.recorded) (seen_of self.new.recorded)
            (reached self.old) (reached self.new) address.now result }
        ensures failed { result ≡ ListenAnswer.Failed → self.new.recorded.disk_failed ≡ false → Rose
            (seen_of self.old.recorded).inner.faults (seen_of self.new.recorded).inner.faults }
        ensures memory { result ≡ ListenAnswer.Memory → self.new.recorded.spent ≡ true }
        ensures lost { self.new.recorded.disk_failed ≡ true → result ≡ ListenAnswer.Failed }
        ensures fault { self.new.recorded.disk_failed ≡ true → self.new.recorded.spent ≡ true }
        ensures disk_failed { FailedIf self.new.recorded.disk_failed
            (seen_of self.old.recorded).faults (seen_of self.new.recorded).faults }
        ensures log { self.new.log ≡ self.old.log }
        ensures opened { (disk_of self.new.recorded).opened ≡ (disk_of self.old.recorded).opened }
        ensures config { self.new.config.now ≡ self.old.config.now }
        ensures last { self.new.recorded.last ≡ self.old.recorded.last }
        ensures inner_same { self.new.recorded.inner.ghost_name ≡
            self.old.recorded.inner.ghost_name }
        ensures disk_same { self.new.recorded.recorder.journal.disk.ghost_name ≡
            self.old.recorded.recorder.journal.disk.ghost_name }
    {
        if self.replay.is_over() {
            return self.recorded.listen(alloc, address);
        }
        self.recorded.disk_failed = false;
        if self.recorded.spent || self.replay.given > 0 {
            self.recorded.spent = true;
            return ListenAnswer::Memory;
        }
        self.listen_again(alloc, address)
    }

    /// Asks the inner links to listen, and answers with the journal's first second. Nothing is recorded.
    fn listen_again(&mut self, alloc: Global, address: &Text) -> ListenAnswer
        requires some { self.old.replay.now.given < length self.old.replay.now.records }
        requires unbegun { self.old.replay.now.given ≡ 0 }
        requires unspent { self.old.recorded.spent ≡ false }
        requires unfailed { self.old.recorded.disk_failed ≡ false }
        ensures adds { (log : List Entry) → AddsCalls (report_with log self.old)
            (report_with (log ++ listen_entries address.now result) self.new)
            (listen_entries address.now result) }
        ensures passes { Passes (first_after self.new.recorded.last)
            (self.old.log ++ listen_entries address.now result) self.new.recorded.log }
        ensures cause { HasListenCause (report_of self.old).faults (report_of self.new).faults
            result }
        ensures again { ListensAgain (seen_of self.old.recorded) (seen_of self.new.recorded)
            (reached self.old) (reached self.new) address.now result }
        ensures failed { result ≡ ListenAnswer.Failed → Rose
            (seen_of self.old.recorded).inner.faults (seen_of self.new.recorded).inner.faults }
        ensures memory { result ≡ ListenAnswer.Memory → self.new.recorded.spent ≡ true }
        ensures disk_failed { self.new.recorded.disk_failed ≡ false }
        ensures faults { (seen_of self.new.recorded).faults ≡ (seen_of self.old.recorded).faults }
        ensures log { self.new.log ≡ self.old.log }
        ensures opened { (disk_of self.new.recorded).opened ≡ (disk_of self.old.recorded).opened }
        ensures config { self.new.config.now ≡ self.old.config.now }
        ensures last { self.new.recorded.last ≡ self.old.recorded.last }
        ensures inner_same { self.new.recorded.inner.ghost_name ≡
            self.old.recorded.inner.ghost_name }
        ensures disk_same { self.new.recorded.recorder.journal.disk.ghost_name ≡
            self.old.recorded.recorder.journal.disk.ghost_name }
    {
        let asked = self.recorded.listen_again(alloc, address);
        let answer = first_answer(self.replay, asked);
        self.recorded.spent = answer == ListenAnswer::Memory;
        answer
    }

    /// The next turn, without a note of the call.
    fn turn(&mut self, alloc: Global, wants: &Wants, buf: &mut [u8]) -> Turn
        requires { length buf.old ≡ PIECE_LIMIT }
        ensures within { IsPieceWithin PIECE_LIMIT result.what }
        ensures adds { (log : List Entry) → AddsCalls (report_with log self.old)
            (report_with (log ++ next_entries wants.now buf.new result) self.new)
            (next_entries wants.now buf.new result) }
        ensures passes { Passes (first_after self.new.recorded.last)
            (self.old.log ++ next_entries wants.now buf.new result) self.new.recorded.log }
        ensures cause { HasNextCause (report_of self.old).faults (report_of self.new).faults
            result.what }
        ensures step { NextOf (seen_of self.old.recorded) (seen_of self.new.recorded)
            (reached self.old) (reached self.new) wants.now buf.new result }
        ensures failed { result.what ≡ What.Failed → self.new.recorded.disk_failed ≡ false → Rose
            (seen_of self.old.recorded).inner.faults (seen_of self.new.recorded).inner.faults }
        ensures memory { result.what ≡ What.Memory → self.new.recorded.spent ≡ true }
        ensures lost { self.new.recorded.disk_failed ≡ true → result.what ≡ What.Failed }
        ensures fault { self.new.recorded.disk_failed ≡ true → self.new.recorded.spent ≡ true }
        ensures disk_failed { FailedIf self.new.recorded.disk_failed
            (seen_of self.old.recorded).faults (seen_of self.new.recorded).faults }
        ensures log { self.new.log ≡ self.old.log }
        ensures opened { (disk_of self.new.recorded).opened ≡ (disk_of self.old.recorded).opened }
        ensures config { self.new.config.now ≡ self.old.config.now }
        ensures last { self.new.recorded.last ≡ self.old.recorded.last }
        ensures inner_same { self.new.recorded.inner.ghost_name ≡
            self.old.recorded.inner.ghost_name }
        ensures disk_same { self.new.recorded.recorder.journal.disk.ghost_name ≡
            self.old.recorded.recorder.journal.disk.ghost_name }
    {
        if !self.replay.is_over() {
            return self.turn_again(buf);
        }
        match self.opened.first() {
            Some(link) => self.break_link(alloc, link),
            None => self.recorded.next(alloc, wants, buf),
        }
    }

    /// Gives the next turn of the journal again.
    fn turn_again(&mut self, buf: &mut [u8]) -> Turn
        requires some { self.old.replay.now.given < length self.old.replay.now.records }
        requires whole { length buf.old ≡ PIECE_LIMIT }
        ensures within { IsPieceWithin PIECE_LIMIT result.what }
        ensures step { (wants : List Want) → NextOf (seen_of self.old.recorded)
            (seen_of self.new.recorded) (reached self.old) (reached self.new) wants buf.new result }
        ensures before { opens_before (first_after self.new.recorded.last) result.what ≡ true }
        ensures unfailed { is_failed_turn result.what ≡ false }
        ensures memory { result.what ≡ What.Memory → self.new.recorded.spent ≡ true }
        ensures disk_failed { self.new.recorded.disk_failed ≡ false }
        ensures faults { (seen_of self.new.recorded).faults ≡ (seen_of self.old.recorded).faults }
        ensures inner { L.report self.new.recorded.inner.now ≡ L.report
            self.old.recorded.inner.now }
        ensures there { self.new.recorded.log ≡ self.old.recorded.log }
        ensures log { self.new.log ≡ self.old.log }
        ensures opened { (disk_of self.new.recorded).opened ≡ (disk_of self.old.recorded).opened }
        ensures config { self.new.config.now ≡ self.old.config.now }
        ensures last { self.new.recorded.last ≡ self.old.recorded.last }
        ensures inner_same { self.new.recorded.inner.ghost_name ≡
            self.old.recorded.inner.ghost_name }
        ensures disk_same { self.new.recorded.recorder.journal.disk.ghost_name ≡
            self.old.recorded.recorder.journal.disk.ghost_name }
    {
        self.recorded.disk_failed = false;
        if self.recorded.spent || self.replay.given == 0 {
            self.recorded.spent = true;
            return Turn {
                secs: 0,
                what: What::Memory,
            };
        }
        let turn = next_turn(self.replay, self.opened, buf);
        self.recorded.spent = turn.what == What::Memory;
        turn
    }

    /// Gives and records that the link of the journal broke.
    fn break_link(&mut self, alloc: Global, link: u64) -> Turn
        ensures within { IsPieceWithin PIECE_LIMIT result.what }
        ensures step { OwnStep (seen_of self.old.recorded) (seen_of self.new.recorded)
            (record { secs = last_secs self.old.replay.now.records; what = Broken link }) result }
        ensures before { opens_before (first_after self.new.recorded.last) result.what ≡ true }
        ensures opened_links { self.new.opened.now.numbers.keys ≡ closed_after link
            self.old.opened.now.numbers.keys }
        ensures replay { self.new.replay.now ≡ self.old.replay.now }
        ensures cause { HasNextCause (report_of self.old).faults (report_of self.new).faults
            result.what }
        ensures failed { result.what ≡ What.Failed → self.new.recorded.disk_failed ≡ true }
        ensures memory { result.what ≡ What.Memory → self.new.recorded.spent ≡ true }
        ensures lost { self.new.recorded.disk_failed ≡ true → result.what ≡ What.Failed }
        ensures fault { self.new.recorded.disk_failed ≡ true → self.new.recorded.spent ≡ true }
        ensures inner { L.report self.new.recorded.inner.now ≡ L.report
            self.old.recorded.inner.now }
        ensures there { self.new.recorded.log ≡ self.old.recorded.log }
        ensures disk_failed { FailedIf self.new.recorded.disk_failed
            (seen_of self.old.recorded).faults (seen_of self.new.recorded).faults }
        ensures log { self.new.log ≡ self.old.log }
        ensures opened { (disk_of self.new.recorded).opened ≡ (disk_of self.old.recorded).opened }
        ensures config { self.new.config.now ≡ self.old.config.now }
        ensures last { self.new.recorded.last ≡ self.old.recorded.last }
        ensures inner_same { self.new.recorded.inner.ghost_name ≡
            self.old.recorded.inner.ghost_name }
        ensures disk_same { self.new.recorded.recorder.journal.disk.ghost_name ≡
            self.old.recorded.recorder.journal.disk.ghost_name }
    {
        let secs = last_secs(self.replay);
        let broken = Turn {
            secs,
            what: What::Broken { link },
        };
        let turn = self.recorded.hand_out(alloc, broken);
        self.opened.closed(link);
        turn
    }

    /// Answers a send, without a note of the call.
    fn answer_send(&mut self, alloc: Global, link: u64, bytes: &[u8]) -> SendAnswer
        requires { 0 < length bytes.now }
        ensures within { IsWithin (length bytes.now) result }
        ensures adds { (log : List Entry) → AddsCalls (report_with log self.old)
            (report_with (log ++ send_entries link bytes.now result) self.new)
            (send_entries link bytes.now result) }
        ensures passes { Passes (first_after self.new.recorded.last)
            (self.old.log ++ send_entries link bytes.now result) self.new.recorded.log }
        ensures no_fault { (report_of self.new).faults ≡ (report_of self.old).faults }
        ensures step { SendOf (seen_of self.old.recorded) (seen_of self.new.recorded)
            (reached self.old) (reached self.new) link bytes.now result }
        ensures spent { result ≡ SendAnswer.Memory → self.new.recorded.spent ≡ true }
        ensures disk_failed { self.new.recorded.disk_failed ≡ false }
        ensures log { self.new.log ≡ self.old.log }
        ensures opened { (disk_of self.new.recorded).opened ≡ (disk_of self.old.recorded).opened }
        ensures config { self.new.config.now ≡ self.old.config.now }
        ensures last { self.new.recorded.last ≡ self.old.recorded.last }
        ensures inner_same { self.new.recorded.inner.ghost_name ≡
            self.old.recorded.inner.ghost_name }
        ensures disk_same { self.new.recorded.recorder.journal.disk.ghost_name ≡
            self.old.recorded.recorder.journal.disk.ghost_name }
    {
        if self.replay.is_over() {
            return self.recorded.send(alloc, link, bytes);
        }
        self.recorded.disk_failed = false;
        self.replay.answer(link, bytes.len())
    }
}

impl<'a, L: Links, D: Disk> Links for JournalLinks<'a, L, D> {
    ghost use Rattle.journal_links.specs.Seeing.{reached, report_of};

    ghost report = { λ links. own_report links.log (L.report links.recorded.inner.now)
        (D.report links.recorded.recorder.journal.disk.now) };

    fn listen(&mut self, alloc: Global, address: &Text) -> ListenAnswer
        ensures adds { AddsCalls (report_of self.old) (report_of self.new)
            (listen_entries address.now result) }
        ensures cause { HasListenCause (report_of self.old).faults (report_of self.new).faults
            result }

        // More than links must report: what the inner links were asked, what the journal got, and what was given again.
        ensures step { ListenOf (seen_of self.old.recorded) (seen_of self.new.recorded)
            (reached self.old) (reached self.new) address.now result }
        ensures disk_failed { FailedIf self.new.recorded.disk_failed
            (seen_of self.old.recorded).faults (seen_of self.new.recorded).faults }
        ensures failed { result ≡ ListenAnswer.Failed → self.new.recorded.disk_failed ≡ false → Rose
            (seen_of self.old.recorded).inner.faults (seen_of self.new.recorded).inner.faults }
        ensures memory { result ≡ ListenAnswer.Memory → self.new.recorded.spent ≡ true }
        ensures lost { self.new.recorded.disk_failed ≡ true → result ≡ ListenAnswer.Failed }
        ensures fault { self.new.recorded.disk_failed ≡ true → self.new.recorded.spent ≡ true }
        ensures log { self.new.log ≡ self.old.log ++ listen_entries address.now result }
        ensures opened { (disk_of self.new.recorded).opened ≡ (disk_of self.old.recorded).opened }
        ensures config { self.new.config.now ≡ self.old.config.now }
        ensures last { self.new.recorded.last ≡ self.old.recorded.last }
        ensures inner_same { self.new.recorded.inner.ghost_name ≡
            self.old.recorded.inner.ghost_name }
        ensures disk_same { self.new.recorded.recorder.journal.disk.ghost_name ≡
            self.old.recorded.recorder.journal.disk.ghost_name }
    {
        let answer = self.answer_listen(alloc, address);
        log_listen(&mut self.log, address, answer);
        answer
    }

    fn next(&mut self, alloc: Global, wants: &Wants, buf: &mut [u8]) -> Turn
        requires { length buf.old ≡ PIECE_LIMIT }
        ensures within { IsPieceWithin PIECE_LIMIT result.what }
        ensures adds { AddsCalls (report_of self.old) (report_of self.new)
            (next_entries wants.now buf.new result) }
        ensures cause { HasNextCause (report_of self.old).faults (report_of self.new).faults
            result.what }

        // More than links must report, as of `listen`.
        ensures step { NextOf (seen_of self.old.recorded) (seen_of self.new.recorded)
            (reached self.old) (reached self.new) wants.now buf.new result }
        ensures disk_failed { FailedIf self.new.recorded.disk_failed
            (seen_of self.old.recorded).faults (seen_of self.new.recorded).faults }
        ensures failed { result.what ≡ What.Failed → self.new.recorded.disk_failed ≡ false → Rose
            (seen_of self.old.recorded).inner.faults (seen_of self.new.recorded).inner.faults }
        ensures memory { result.what ≡ What.Memory → self.new.recorded.spent ≡ true }
        ensures lost { self.new.recorded.disk_failed ≡ true → result.what ≡ What.Failed }
        ensures fault { self.new.recorded.disk_failed ≡ true → self.new.recorded.spent ≡ true }
        ensures log { self.new.log ≡ self.old.log ++ next_entries wants.now buf.new result }
        ensures opened { (disk_of self.new.recorded).opened ≡ (disk_of self.old.recorded).opened }
        ensures config { self.new.config.now ≡ self.old.config.now }
        ensures last { self.new.recorded.last ≡ self.old.recorded.last }
        ensures inner_same { self.new.recorded.inner.ghost_name ≡
            self.old.recorded.inner.ghost_name }
        ensures disk_same { self.new.recorded.recorder.journal.disk.ghost_name ≡
            self.old.recorded.recorder.journal.disk.ghost_name }
    {
        let turn = self.turn(alloc, wants, buf);
        log_turn(&mut self.log, wants, turn, buf);
        turn
    }

    fn send(&mut self, alloc: Global, link: u64, bytes: &[u8]) -> SendAnswer
        requires { 0 < length bytes.now }
        ensures within { IsWithin (length bytes.now) result }
        ensures adds { AddsCalls (report_of self.old) (report_of self.new)
            (send_entries link bytes.now result) }
        ensures no_fault { (report_of self.new).faults ≡ (report_of self.old).faults }

        // More than links must report, as of `listen`.
        ensures step { SendOf (seen_of self.old.recorded) (seen_of self.new.recorded)
            (reached self.old) (reached self.new) link bytes.now result }
        ensures spent { result ≡ SendAnswer.Memory → self.new.recorded.spent ≡ true }
        ensures disk_failed { self.new.recorded.disk_failed ≡ false }
        ensures log { self.new.log ≡ self.old.log ++ send_entries link bytes.now result }
        ensures opened { (disk_of self.new.recorded).opened ≡ (disk_of self.old.recorded).opened }
        ensures config { self.new.config.now ≡ self.old.config.now }
        ensures last { self.new.recorded.last ≡ self.old.recorded.last }
        ensures inner_same { self.new.recorded.inner.ghost_name ≡
            self.old.recorded.inner.ghost_name }
        ensures disk_same { self.new.recorded.recorder.journal.disk.ghost_name ≡
            self.old.recorded.recorder.journal.disk.ghost_name }
    {
        let answer = self.answer_send(alloc, link, bytes);
        log_send(&mut self.log, link, bytes, answer);
        answer
    }

    fn close(&mut self, link: u64)
        requires { MayClose (report_of self.old).log link }
        ensures adds { AddsCalls (report_of self.old) (report_of self.new) (Close link ∷ []) }
        ensures no_fault { (report_of self.new).faults ≡ (report_of self.old).faults }

        // More than links must report, as of `listen`.
        ensures step { CloseOf (seen_of self.old.recorded) (seen_of self.new.recorded)
            (reached self.old) (reached self.new) link }
        ensures disk_failed { self.new.recorded.disk_failed ≡ false }
        ensures log { self.new.log ≡ self.old.log ++ Close link ∷ [] }
        ensures opened { (disk_of self.new.recorded).opened ≡ (disk_of self.old.recorded).opened }
        ensures config { self.new.config.now ≡ self.old.config.now }
        ensures last { self.new.recorded.last ≡ self.old.recorded.last }
        ensures inner_same { self.new.recorded.inner.ghost_name ≡
            self.old.recorded.inner.ghost_name }
        ensures disk_same { self.new.recorded.recorder.journal.disk.ghost_name ≡
            self.old.recorded.recorder.journal.disk.ghost_name }
    {
        self.recorded.disk_failed = false;
        self.log.closed(link);
        if is_inner(self.recorded.last, link) {
            self.recorded.close(link);
        } else {
            self.opened.closed(link);
        }
    }
}

/// Whether the inner links know a link of this number.
fn is_inner(last: Option<u64>, link: u64) -> bool
    ensures { result ≡ is_some (inner_number (first_after last) link) }
{
    match last {
        Some(last) => last < link,
        None => true,
    }
}
