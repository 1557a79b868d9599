ghost use Rattle.std.specs.Prelude.{◌≡◌, ◌≢◌, ◌+◌, ◌<◌, Err, false};
ghost use Rattle.ev_types.specs.Interval.{IsInterval};
ghost use Rattle.hub_run.specs.Runs.{run_report};
ghost use Rattle.journal_format.specs.Limits.{journal_limit, step_limit};
ghost use Rattle.journal_run.specs.Recorded.{RunsRecorded};
ghost use Rattle.list_laws.specs.Counts.{Rose};
ghost use Rattle.turn_journal.specs.Standing.{IsWithin};

use crate::fault::JournalRunFault;
use crate::resumed::run_resumed;
use disk_port::Disk;
use ev_types::Blob;
use hub_run::Setup;
use hub_run::conn_core::Hub;
use journal_format::Found;
use journal_links::TurnRecords;
use ports::{Links, Sink};
use pred_eval::Patterns;
use std::alloc::Global;
use step_count::{Ledger, Steps};

/// Runs a server over the links. Each turn is recorded in the journal that was begun in the disk's file and ends there,
/// before it is handed out. It gives the hub as it is after the last turn. It is a run that resumes a journal with no
/// records.
pub fn run_recorded<L: Links, D: Disk, O: Sink, P: Patterns, G: Ledger>(
    alloc: Global,
    setup: Setup,
    turns: u64,
    found: Found,
    links: &mut L,
    disk: &mut D,
    sink: &mut O,
    patterns: &mut P,
    steps: &mut Steps<G>,
) -> Result<Hub, JournalRunFault>
    requires interval { IsInterval setup.expiry }
    requires within { IsWithin (D.report disk.old).past found.gate }
    requires unbegun { found.has_record ≡ false }
    requires room { found.gate + step_limit < journal_limit }
    ensures runs { RunsRecorded setup turns found (L.report links.old) (L.report links.new)
        (D.report disk.old) (D.report disk.new)
        (run_report (P.report patterns.old) steps.old.forks (O.report sink.old))
        (run_report (P.report patterns.new) steps.new.forks (O.report sink.new)) result }
    ensures opened { (D.report disk.new).opened ≡ (D.report disk.old).opened }
    ensures disk_fault { result ≡ Err JournalRunFault.Disk →
        Rose (D.report disk.old).faults (D.report disk.new).faults }
    ensures disk_quiet { result ≢ Err JournalRunFault.Disk → (D.report disk.new).faults ≡
        (D.report disk.old).faults }
    ensures links_fault { result ≡ Err JournalRunFault.Links →
        Rose (L.report links.old).faults (L.report links.new).faults }
    ensures links_quiet { result ≢ Err JournalRunFault.Links → result ≢ Err JournalRunFault.Disk →
        (L.report links.new).faults ≡ (L.report links.old).faults }
    ensures sink_fault { result ≡ Err JournalRunFault.Sink →
        Rose (O.report sink.old).faults (O.report sink.new).faults }
    ensures sink_quiet { result ≢ Err JournalRunFault.Sink → (O.report sink.new).faults ≡
        (O.report sink.old).faults }
{
    let config = Blob::fresh(alloc);
    let none = TurnRecords::fresh(alloc);
    run_resumed(
        alloc, setup, turns, found, config, none, links, disk, sink, patterns, steps,
    )
}
