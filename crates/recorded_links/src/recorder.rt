//! A record is added to the journal before what it is of is handed out.

ghost use Rattle.std.specs.Prelude.{◌≡◌, ℕ, ◌+◌, ◌<◌, ◌≤◌, [], Err, None, false, true, is_ok, length, vec_capacity, vec_len, OnErr, OnOk};
ghost use Rattle.std.specs.Option.{ForSome};
ghost use Rattle.disk_port.specs.Calls.{HasCause};
ghost use Rattle.journal_format.specs.Limits.{journal_limit, step_limit};
ghost use Rattle.journal_format.specs.Spelling.{IsRecord, IsWord, record_bytes};
ghost use Rattle.ports.specs.Calls.{AddsCalls};
ghost use Rattle.ports.specs.Links.{IsWithin, send_entries};
ghost use Rattle.ports.specs.declared.links.SendAnswer.TheVariants as send;
ghost use Rattle.recorded_links.specs.Keeping.{AddsRecord, FailedIf, HandsListen, HandsOut, HasPiece, IsTurn, entry_of, is_lost, is_lost_listen, is_ready, is_recorded, listen_entry};
ghost use Rattle.recorded_links.specs.Numbers.{first_after, inner_number};
ghost use Rattle.recorded_links.specs.Sending.{Fits, after_send, may_note, taken_by};
ghost use Rattle.turn_journal.specs.Standing.{IsNext};

use crate::ask::inner_number;
use crate::sends::Sends;
use disk_port::{Disk, DiskError};
use ev_types::Memory;
use journal_format::{TurnEvent, push_read_turn, push_turn};
use ports::{Links, ListenAnswer, SendAnswer, Turn, What};
use std::alloc::Global;
use turn_journal::JournalFile;

/// A journal, and the sends that its next record is to have, in memory that is lent.
#[derive(Drop)]
pub struct TurnRecorder<'a, D: Disk> {
    pub journal: JournalFile<'a, D>,
    pub sends: &'a mut Sends,
    // the record that is added
    bytes: &'a mut Vec<u8>,
}

impl<'a, D: Disk> TurnRecorder<'a, D> {
    ghost use Rattle.recorded_links.specs.Seeing.{disk_in, kept_in, sends_in};

    /// The recorder of turns in this journal, before any send.
    pub(crate) fn over(
        journal: JournalFile<'a, D>,
        sends: &'a mut Sends,
        bytes: &'a mut Vec<u8>,
    ) -> TurnRecorder<'a, D>
        ensures journal { result.journal ≡ journal.entry }
        ensures sends { result.sends.now.summaries.items ≡ [] }
    {
        sends.clear();
        TurnRecorder {
            journal,
            sends,
            bytes,
        }
    }

    /// Takes room for the summary of one send more.
    pub(crate) fn reserve(&mut self) -> Result<(), Memory>
        ensures items { sends_in self.new ≡ sends_in self.old }
        ensures room { OnOk result (vec_len self.new.sends.now.summaries
            < vec_capacity self.new.sends.now.summaries) }
        ensures journal { self.new.journal ≡ self.old.journal }
    {
        self.sends.reserve()
    }

    /// Notes how a send was answered.
    pub(crate) fn note(&mut self, link: u64, answer: SendAnswer)
        requires fits { Fits link (taken_by answer) (sends_in self.old) }
        requires room { vec_len self.old.sends.now.summaries
            < vec_capacity self.old.sends.now.summaries }
        ensures sends { sends_in self.new ≡ after_send link answer (sends_in self.old) }
        ensures journal { self.new.journal ≡ self.old.journal }
    {
        self.sends.note(link, answer);
    }

    /// Offers the bytes to the inner link, or holds them back: if the link is not an inner one, or what came of the
    /// send could not be noted.
    pub(crate) fn offer<L: Links>(
        &self,
        alloc: Global,
        inner: &mut L,
        last: Option<u64>,
        link: u64,
        bytes: &[u8],
    ) -> SendAnswer
        requires { 0 < length bytes.now }
        ensures within { IsWithin (length bytes.now) result }
        ensures passed { ForSome (inner_number (first_after last) link) (λ number. may_note link
            (length bytes.now) (sends_in self.now) ≡ true → AddsCalls (L.report inner.old)
            (L.report inner.new) (send_entries number bytes.now result)) }
        ensures own { inner_number (first_after last) link ≡ None →
            (result ≡ send.Later) × (L.report inner.new ≡ L.report inner.old) }
        ensures unnoted { may_note link (length bytes.now) (sends_in self.now) ≡ false →
            (result ≡ send.Later) × (L.report inner.new ≡ L.report inner.old) }
        ensures fits { Fits link (taken_by result) (sends_in self.now) }
        ensures no_fault { (L.report inner.new).faults ≡ (L.report inner.old).faults }
    {
        let Some(number) = inner_number(last, link) else {
            return SendAnswer::Later;
        };
        if !self.sends.may_note(link, bytes.len()) {
            return SendAnswer::Later;
        }
        inner.send(alloc, number, bytes)
    }

    /// Adds the record of a turn of the inner links, with the bytes of a read, and gives what is handed out.
    pub(crate) fn keep_turn(&mut self, alloc: Global, asked: Turn, piece: &[u8]) -> Turn
        requires piece { HasPiece asked.what piece.now }
        requires begun { self.old.journal.has_record ≡ true }
        requires room { self.old.journal.gate + step_limit < journal_limit }
        requires sound { self.old.journal.failed ≡ false }
        ensures hands { HandsOut asked.what asked result }
        ensures allowed { is_recorded asked.what ≡ true → IsRecord
            (entry_of (sends_in self.old) asked piece.now) }
        ensures records { is_recorded asked.what ≡ true → AddsRecord
            (record_bytes (entry_of (sends_in self.old) asked piece.now)) (is_recorded result.what)
            (kept_in self.old) (kept_in self.new) }
        ensures other { is_recorded asked.what ≡ false → kept_in self.new ≡ kept_in self.old }
        ensures faults { FailedIf (is_lost asked.what result.what) (disk_in self.old).faults
            (disk_in self.new).faults }
        ensures cleared { is_recorded result.what ≡ true → sends_in self.new ≡ [] }
        ensures uncleared { is_recorded result.what ≡ false →
            sends_in self.new ≡ sends_in self.old }
        ensures begun { self.new.journal.has_record ≡ true }
        ensures opened { (disk_in self.new).opened ≡ (disk_in self.old).opened }
        ensures same { self.new.journal.disk.ghost_name ≡ self.old.journal.disk.ghost_name }
    {
        if !is_recorded(asked.what) {
            return unrecorded(asked);
        }
        let added = self.add_turn(alloc, asked, piece);
        handed_out(asked, added)
    }

    /// Adds the record of a turn.
    fn add_turn(&mut self, alloc: Global, turn: Turn, piece: &[u8]) -> Result<(), DiskError>
        requires piece { HasPiece turn.what piece.now }
        requires begun { self.old.journal.has_record ≡ true }
        requires room { self.old.journal.gate + step_limit < journal_limit }
        requires sound { self.old.journal.failed ≡ false }
        ensures allowed { IsRecord (entry_of (sends_in self.old) turn piece.now) }
        ensures records { AddsRecord (record_bytes (entry_of (sends_in self.old) turn piece.now))
            (is_ok result) (kept_in self.old) (kept_in self.new) }
        ensures cause { HasCause (disk_in self.old).faults (disk_in self.new).faults result }
        ensures ok { OnOk result (sends_in self.new ≡ []) }
        ensures err { OnErr result (sends_in self.new ≡ sends_in self.old) }
        ensures begun { self.new.journal.has_record ≡ true }
        ensures opened { (disk_in self.new).opened ≡ (disk_in self.old).opened }
        ensures same { self.new.journal.disk.ghost_name ≡ self.old.journal.disk.ghost_name }
    {
        match fill_turn(alloc, self.bytes, self.sends, turn, piece) {
            Ok(()) => self.add(alloc),
            Err(_) => Err(DiskError::Memory),
        }
    }

    /// Adds the record that was made ready, and forgets the sends before it.
    fn add(&mut self, alloc: Global) -> Result<(), DiskError>
        requires next { IsNext self.old.journal.has_record self.old.bytes.now.items }
        requires short { length self.old.bytes.now.items + 1 ≤ step_limit }
        requires room { self.old.journal.gate + step_limit < journal_limit }
        requires sound { self.old.journal.failed ≡ false }
        ensures records { AddsRecord self.old.bytes.now.items (is_ok result) (kept_in self.old)
            (kept_in self.new) }
        ensures cause { HasCause (disk_in self.old).faults (disk_in self.new).faults result }
        ensures ok { OnOk result (sends_in self.new ≡ []) }
        ensures err { OnErr result (sends_in self.new ≡ sends_in self.old) }
        ensures begun { OnOk result (self.new.journal.has_record ≡ true) }
        ensures unbegun { OnErr result
            (self.new.journal.has_record ≡ self.old.journal.has_record) }
        ensures gate { OnErr result (self.new.journal.gate ≡ self.old.journal.gate) }
        ensures opened { (disk_in self.new).opened ≡ (disk_in self.old).opened }
        ensures same { self.new.journal.disk.ghost_name ≡ self.old.journal.disk.ghost_name }
    {
        match self.journal.append(alloc, self.bytes.as_slice()) {
            Ok(()) => {
                self.sends.clear();
                Ok(())
            }
            Err(error) => Err(error),
        }
    }

    /// Adds the record of an answer to `listen`, and gives what is handed out.
    pub(crate) fn keep_listen(&mut self, alloc: Global, asked: ListenAnswer) -> ListenAnswer
        requires unbegun { self.old.journal.has_record ≡ false }
        requires room { self.old.journal.gate + step_limit < journal_limit }
        requires sound { self.old.journal.failed ≡ false }
        ensures hands { HandsListen asked result }
        ensures allowed { (secs : ℕ) → asked ≡ ListenAnswer.Ready secs → IsRecord
            (listen_entry (sends_in self.old) secs) }
        ensures records { (secs : ℕ) → asked ≡ ListenAnswer.Ready secs → AddsRecord
            (record_bytes (listen_entry (sends_in self.old) secs)) (is_ready result)
            (kept_in self.old) (kept_in self.new) }
        ensures other { is_ready asked ≡ false → kept_in self.new ≡ kept_in self.old }
        ensures faults { FailedIf (is_lost_listen asked result) (disk_in self.old).faults
            (disk_in self.new).faults }
        ensures cleared { is_ready result ≡ true → sends_in self.new ≡ [] }
        ensures uncleared { is_ready result ≡ false → sends_in self.new ≡ sends_in self.old }
        ensures begun { self.new.journal.has_record ≡ is_ready result }
        ensures gate { is_ready result ≡ false →
            self.new.journal.gate ≡ self.old.journal.gate }
        ensures opened { (disk_in self.new).opened ≡ (disk_in self.old).opened }
        ensures same { self.new.journal.disk.ghost_name ≡ self.old.journal.disk.ghost_name }
    {
        match asked {
            ListenAnswer::Ready { secs } => {
                let added = self.add_listen(alloc, secs);
                listened(secs, added)
            }
            ListenAnswer::Failed | ListenAnswer::Memory => asked,
        }
    }

    /// Adds the record of a `listen` at that second.
    fn add_listen(&mut self, alloc: Global, secs: u64) -> Result<(), DiskError>
        requires unbegun { self.old.journal.has_record ≡ false }
        requires room { self.old.journal.gate + step_limit < journal_limit }
        requires sound { self.old.journal.failed ≡ false }
        ensures allowed { IsRecord (listen_entry (sends_in self.old) secs) }
        ensures records { AddsRecord (record_bytes (listen_entry (sends_in self.old) secs))
            (is_ok result) (kept_in self.old) (kept_in self.new) }
        ensures cause { HasCause (disk_in self.old).faults (disk_in self.new).faults result }
        ensures ok { OnOk result (sends_in self.new ≡ []) }
        ensures err { OnErr result (sends_in self.new ≡ sends_in self.old) }
        ensures begun { self.new.journal.has_record ≡ is_ok result }
        ensures gate { OnErr result (self.new.journal.gate ≡ self.old.journal.gate) }
        ensures opened { (disk_in self.new).opened ≡ (disk_in self.old).opened }
        ensures same { self.new.journal.disk.ghost_name ≡ self.old.journal.disk.ghost_name }
    {
        match fill_listen(alloc, self.bytes, self.sends, secs) {
            Ok(()) => self.add(alloc),
            Err(_) => Err(DiskError::Memory),
        }
    }
}

/// Whether a turn is recorded.
fn is_recorded(what: What) -> bool
    ensures { result ≡ is_recorded what }
{
    !matches!(what, What::Stopped | What::Failed | What::Memory)
}

/// What is handed out of a turn that is not recorded.
fn unrecorded(asked: Turn) -> Turn
    ensures hands { is_recorded asked.what ≡ false → HandsOut asked.what asked result }
    ensures what { result.what ≡ asked.what }
{
    match asked.what {
        What::Stopped => Turn {
            secs: 0,
            what: What::Stopped,
        },
        _ => asked,
    }
}

/// A turn whose record was added is handed out, and another one is lost.
fn handed_out(turn: Turn, added: Result<(), DiskError>) -> Turn
    ensures ok { OnOk added (result ≡ turn) }
    ensures failed { added ≡ Err DiskError.Failed → result.what ≡ What.Failed }
    ensures memory { added ≡ Err DiskError.Memory → result.what ≡ What.Memory }
{
    match added {
        Ok(()) => turn,
        Err(DiskError::Failed) => Turn {
            secs: 0,
            what: What::Failed,
        },
        Err(DiskError::Memory) => Turn {
            secs: 0,
            what: What::Memory,
        },
    }
}

/// The same of an answer to `listen` at that second.
fn listened(secs: u64, added: Result<(), DiskError>) -> ListenAnswer
    ensures ok { OnOk added (result ≡ ListenAnswer.Ready secs) }
    ensures failed { added ≡ Err DiskError.Failed → result ≡ ListenAnswer.Failed }
    ensures memory { added ≡ Err DiskError.Memory → result ≡ ListenAnswer.Memory }
{
    match added {
        Ok(()) => ListenAnswer::Ready { secs },
        Err(DiskError::Failed) => ListenAnswer::Failed,
        Err(DiskError::Memory) => ListenAnswer::Memory,
    }
}

/// Makes the record of a turn ready.
fn fill_turn(
    alloc: Global,
    bytes: &mut Vec<u8>,
    sends: &Sends,
    turn: Turn,
    piece: &[u8],
) -> Result<(), Memory>
    requires { HasPiece turn.what piece.now }
    ensures bytes { OnOk result (bytes.new.items
        ≡ record_bytes (entry_of sends.now.summaries.items turn piece.now)) }
    ensures fits { IsTurn turn.what × IsWord turn.secs }
{
    bytes.clear();
    let summaries = sends.summaries.as_slice();
    let secs = turn.secs;
    match turn.what {
        What::Opened { link } => {
            push_turn(alloc, bytes, summaries, secs, &TurnEvent::Opened { link })
        }
        What::Read { link, .. } => push_read_turn(alloc, bytes, summaries, secs, link, piece),
        What::Ended { link } => {
            push_turn(alloc, bytes, summaries, secs, &TurnEvent::Ended { link })
        }
        What::Broken { link } => {
            push_turn(alloc, bytes, summaries, secs, &TurnEvent::Broken { link })
        }
        What::Room { link } => push_turn(alloc, bytes, summaries, secs, &TurnEvent::Room { link }),
        What::Idle | What::Stopped | What::Failed | What::Memory => {
            push_turn(alloc, bytes, summaries, secs, &TurnEvent::Idle)
        }
    }
}

/// Makes the record of a `listen` ready.
fn fill_listen(alloc: Global, bytes: &mut Vec<u8>, sends: &Sends, secs: u64) -> Result<(), Memory>
    ensures { OnOk result (bytes.new.items
        ≡ record_bytes (listen_entry sends.now.summaries.items secs)) }
{
    bytes.clear();
    let summaries = sends.summaries.as_slice();
    push_turn(alloc, bytes, summaries, secs, &TurnEvent::Listen)
}
