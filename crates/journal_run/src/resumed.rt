ghost use Rattle.std.specs.Prelude.{◌≡◌, ◌≢◌, ◌+◌, ◌-◌, ◌<◌, [], Err, false, length, true};
ghost use Rattle.std.specs.List.{list_all};
ghost use Rattle.ev_types.specs.Interval.{IsInterval};
ghost use Rattle.hub_run.specs.Runs.{RunsQuietly, run_report};
ghost use Rattle.journal_format.specs.Limits.{journal_limit, step_limit};
ghost use Rattle.journal_run.specs.Recorded.{run_result};
ghost use Rattle.journal_run.specs.Resumed.{RunsResumed};
ghost use Rattle.list_laws.specs.Counts.{Rose};
ghost use Rattle.recorded_links.specs.Numbers.{first_after};
ghost use Rattle.journal_links.specs.Opened.{first_free};
ghost use Rattle.journal_links.specs.Making.{Made, state_of};
ghost use Rattle.turn_journal.specs.Standing.{IsWithin};
ghost use Rattle.journal_links.specs.Reading.{has_event};
ghost use Rattle.journal_links.specs.Replaying.{summaries_next};

use crate::fault::JournalRunFault;
use disk_port::Disk;
use ev_types::Blob;
use hub_run::conn_core::Hub;
use hub_run::{RunFault, Setup, run_quietly};
use journal_format::Found;
use journal_links::{
    JournalLinks, JournalLoan, OpenLinks, Replay, ResumedLinks, TurnRecords, last_opened,
};
use ports::{Links, Sink};
use pred_eval::Patterns;
use recorded_links::{RecordedLinks, TurnRoom};
use std::alloc::Global;
use std::marker::Brand;
use step_count::{Ledger, Steps};
use turn_journal::JournalFile;

/// Runs a server over the turns of the journal in the disk's file, which is of this configuration, has these records
/// and ends there, and then over those of the links, which are recorded in it. The lines of the journal's turns before
/// its last are not put. It gives the hub as it is after the last turn.
pub fn run_resumed<L: Links, D: Disk, O: Sink, P: Patterns, G: Ledger>(
    alloc: Global,
    setup: Setup,
    turns: u64,
    found: Found,
    config: Blob,
    records: TurnRecords,
    links: &mut L,
    disk: &mut D,
    sink: &mut O,
    patterns: &mut P,
    steps: &mut Steps<G>,
) -> Result<Hub, JournalRunFault>
    requires interval { IsInterval setup.expiry }
    requires within { IsWithin (D.report disk.old).past found.gate }
    requires room { found.has_record ≡ false → found.gate + step_limit < journal_limit }
    requires events { list_all has_event records ≡ true }
    ensures runs { RunsResumed setup turns found records (L.report links.old)
        (L.report links.new) (D.report disk.old) (D.report disk.new)
        (run_report (P.report patterns.old) steps.old.forks (O.report sink.old))
        (run_report (P.report patterns.new) steps.new.forks (O.report sink.new)) result }
    ensures opened { (D.report disk.new).opened ≡ (D.report disk.old).opened }
    ensures disk_fault { result ≡ Err JournalRunFault.Disk →
        Rose (D.report disk.old).faults (D.report disk.new).faults }
    ensures disk_quiet { result ≢ Err JournalRunFault.Disk → (D.report disk.new).faults ≡
        (D.report disk.old).faults }
    ensures links_fault { result ≡ Err JournalRunFault.Links →
        Rose (L.report links.old).faults (L.report links.new).faults }
    ensures links_quiet { result ≢ Err JournalRunFault.Links → result ≢ Err JournalRunFault.Disk →
        (L.report links.new).faults ≡ (L.report links.old).faults }
    ensures sink_fault { result ≡ Err JournalRunFault.Sink →
        Rose (O.report sink.old).faults (O.report sink.new).faults }
    ensures sink_quiet { result ≢ Err JournalRunFault.Sink → (O.report sink.new).faults ≡
        (O.report sink.old).faults }
{
    let quiet = quiet_turns(records.len());
    match Replay::over(alloc, records) {
        Ok(replay) => run_in(
            alloc, setup, turns, quiet, found, config, replay, links, disk, sink, patterns, steps,
        ),
        Err(_) => Err(JournalRunFault::Memory),
    }
}

/// The same, before the first turn of the journal is given again.
fn run_in<L: Links, D: Disk, O: Sink, P: Patterns, G: Ledger>(
    alloc: Global,
    setup: Setup,
    turns: u64,
    quiet: u64,
    found: Found,
    config: Blob,
    replay: Replay,
    links: &mut L,
    disk: &mut D,
    sink: &mut O,
    patterns: &mut P,
    steps: &mut Steps<G>,
) -> Result<Hub, JournalRunFault>
    requires interval { IsInterval setup.expiry }
    requires quiet { quiet ≡ length replay.records - 2 }
    requires within { IsWithin (D.report disk.old).past found.gate }
    requires room { found.has_record ≡ false → found.gate + step_limit < journal_limit }
    requires given { replay.given ≡ 0 }
    requires left { replay.left.items ≡ summaries_next replay.records }
    ensures runs { RunsResumed setup turns found replay.records (L.report links.old)
        (L.report links.new) (D.report disk.old) (D.report disk.new)
        (run_report (P.report patterns.old) steps.old.forks (O.report sink.old))
        (run_report (P.report patterns.new) steps.new.forks (O.report sink.new)) result }
    ensures opened { (D.report disk.new).opened ≡ (D.report disk.old).opened }
    ensures disk_fault { result ≡ Err JournalRunFault.Disk →
        Rose (D.report disk.old).faults (D.report disk.new).faults }
    ensures disk_quiet { result ≢ Err JournalRunFault.Disk → (D.report disk.new).faults ≡
        (D.report disk.old).faults }
    ensures links_fault { result ≡ Err JournalRunFault.Links →
        Rose (L.report links.old).faults (L.report links.new).faults }
    ensures links_quiet { result ≢ Err JournalRunFault.Links → result ≢ Err JournalRunFault.Disk →
        (L.report links.new).faults ≡ (L.report links.old).faults }
    ensures sink_fault { result ≡ Err JournalRunFault.Sink →
        Rose (O.report sink.old).faults (O.report sink.new).faults }
    ensures sink_quiet { result ≢ Err JournalRunFault.Sink → (O.report sink.new).faults ≡
        (O.report sink.old).faults }
{
    let mut replay = replay;
    let mut opened = OpenLinks::fresh(alloc);
    let mut noted = TurnRoom::fresh(alloc);
    let mut written = Vec::new(alloc);
    let mut ran: Result<Hub, JournalRunFault> = Err(JournalRunFault::Memory);
    let journal = JournalFile::over(disk, &mut written, found.gate, found.has_record);
    let last = last_opened(replay.records.as_slice());
    let recorded = RecordedLinks::over(links, journal, last, &mut noted);
    let resumed = JournalLinks::over(recorded, &mut replay, &mut opened, &config);
    let _ended = run_noted::<L, D, O, P, G, Brand>(
        alloc, setup, turns, quiet, resumed, sink, patterns, steps, &mut ran,
    );
    ran
}

/// How many turns of a journal put no lines: all but the last. The first record is that of a `listen`, which is no
/// turn.
fn quiet_turns(records: usize) -> u64
    ensures { result ≡ records - 2 }
{
    (records as u64).saturating_sub(2)
}

/// Runs a server over links that resume a run, and gives them back. How it ended is put in `ran`.
fn run_noted<'a, L: Links, D: Disk, O: Sink, P: Patterns, G: Ledger, K: JournalLoan>(
    alloc: Global,
    setup: Setup,
    turns: u64,
    quiet: u64,
    links: JournalLinks<'a, L, D>,
    sink: &mut O,
    patterns: &mut P,
    steps: &mut Steps<G>,
    ran: &mut Result<Hub, JournalRunFault>,
) -> JournalLinks<'a, L, D>
    requires interval { IsInterval setup.expiry }
    requires links_name { links.recorded.inner.ghost_name ≡ K.lent.lent.links_name }
    requires disk_name { links.recorded.recorder.journal.disk.ghost_name
        ≡ K.lent.lent.disk_name }
    requires links_report { L.report links.recorded.inner.now ≡ K.lent.lent.links }
    requires disk_report { D.report links.recorded.recorder.journal.disk.now
        ≡ K.lent.lent.disk }
    requires end { record {
      gate = links.recorded.recorder.journal.gate;
      has_record = links.recorded.recorder.journal.has_record;
    } ≡ K.lent.lent.found }
    requires records { links.replay.now.records ≡ K.lent.records }
    requires given { links.replay.now.given ≡ 0 }
    requires left { links.replay.now.left.items ≡ summaries_next K.lent.records }
    requires unopened { links.opened.now.numbers.keys ≡ [] }
    requires fresh { links.log ≡ [] }
    requires unsent { links.recorded.recorder.sends.now.summaries.items ≡ [] }
    requires unspent { links.recorded.spent ≡ false }
    requires first { first_after links.recorded.last ≡ first_free K.lent.records }
    ensures links_name { result.recorded.inner.ghost_name ≡ K.lent.lent.links_name }
    ensures disk_name { result.recorded.recorder.journal.disk.ghost_name
        ≡ K.lent.lent.disk_name }
    ensures runs { RunsQuietly setup turns quiet
        (run_report (P.report patterns.old) steps.old.forks (O.report sink.old))
        (run_report (P.report patterns.new) steps.new.forks (O.report sink.new))
        (run_result ran.new) result.log }
    ensures made { ∥ Made K.lent.lent.found K.lent.records K.lent.lent.links K.lent.lent.disk
        result.log (state_of result) ∥₁ }
    ensures opened { (D.report result.recorded.recorder.journal.disk.now).opened
        ≡ K.lent.lent.disk.opened }
    ensures disk_fault { ran.new ≡ Err JournalRunFault.Disk → Rose K.lent.lent.disk.faults
        (D.report result.recorded.recorder.journal.disk.now).faults }
    ensures disk_quiet { ran.new ≢ Err JournalRunFault.Disk →
        (D.report result.recorded.recorder.journal.disk.now).faults ≡ K.lent.lent.disk.faults }
    ensures links_fault { ran.new ≡ Err JournalRunFault.Links →
        Rose K.lent.lent.links.faults (L.report result.recorded.inner.now).faults }
    ensures links_quiet { ran.new ≢ Err JournalRunFault.Links →
        ran.new ≢ Err JournalRunFault.Disk →
        (L.report result.recorded.inner.now).faults ≡ K.lent.lent.links.faults }
    ensures sink_fault { ran.new ≡ Err JournalRunFault.Sink →
        Rose (O.report sink.old).faults (O.report sink.new).faults }
    ensures sink_quiet { ran.new ≢ Err JournalRunFault.Sink → (O.report sink.new).faults ≡
        (O.report sink.old).faults }
{
    let mut noted: ResumedLinks<'a, L, D, K> = ResumedLinks::over(links);
    let ended = run_quietly(
        alloc, setup, turns, quiet, &mut noted, sink, patterns, steps,
    );
    *ran = ended_so(ended, noted.disk_failed);
    noted.links
}

/// How a run ended: if its links failed, their disk may have.
fn ended_so(ended: Result<Hub, RunFault>, disk_failed: bool) -> Result<Hub, JournalRunFault>
    ensures run { run_result result ≡ ended }
    ensures disk { result ≡ Err JournalRunFault.Disk → (ended ≡ Err RunFault.Links) ×
        (disk_failed ≡ true) }
    ensures links { result ≡ Err JournalRunFault.Links → (ended ≡ Err RunFault.Links) ×
        (disk_failed ≡ false) }
    ensures sink { result ≡ Err JournalRunFault.Sink → ended ≡ Err RunFault.Sink }
    ensures of_links { ended ≡ Err RunFault.Links → disk_failed ≡ false →
        result ≡ Err JournalRunFault.Links }
    ensures of_disk { ended ≡ Err RunFault.Links → disk_failed ≡ true →
        result ≡ Err JournalRunFault.Disk }
    ensures of_sink { ended ≡ Err RunFault.Sink → result ≡ Err JournalRunFault.Sink }
{
    match ended {
        Ok(hub) => Ok(hub),
        Err(RunFault::Links) => Err(links_fault(disk_failed)),
        Err(RunFault::Sink) => Err(JournalRunFault::Sink),
        Err(RunFault::Memory) => Err(JournalRunFault::Memory),
    }
}

/// Why links failed that record.
fn links_fault(disk_failed: bool) -> JournalRunFault
    ensures disk { disk_failed ≡ true → result ≡ JournalRunFault.Disk }
    ensures links { disk_failed ≡ false → result ≡ JournalRunFault.Links }
{
    if disk_failed {
        return JournalRunFault::Disk;
    }
    JournalRunFault::Links
}
