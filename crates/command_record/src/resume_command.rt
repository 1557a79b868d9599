ghost use Rattle.std.specs.Prelude.{◌≡◌, ◌≢◌, ◌+◌, ◌≤◌, false, true};
ghost use Rattle.std.specs.List.{list_all};
ghost use Rattle.command_record.specs.Endings.{HasNoConfig, status_of};
ghost use Rattle.command_record.specs.Resumes.{Resumes};
ghost use Rattle.command_record.specs.Resuming.{GoesOn, ResumingEnds};
ghost use Rattle.command_record.specs.Running.{HasCauses};
ghost use Rattle.command_setup.specs.command_io.Endings.{HasNoLine, IsRefusal};
ghost use Rattle.command_setup.specs.command_io.Reports.{reports};
ghost use Rattle.command_setup.specs.hub_run.Runs.{run_report};
ghost use Rattle.journal_format.specs.Limits.{config_limit};
ghost use Rattle.ports.specs.Counts.{Rose};
ghost use Rattle.ports.specs.Reading.{StoreReport};
ghost use Rattle.turn_journal.specs.Standing.{IsReady};
ghost use Rattle.journal_links.specs.Reading.{has_event};

use crate::ending::{JournalEnding, ending_of_fault, ending_of_run, report_ending};
use crate::journal::{Loaded, load_from};
use command_setup::command_io::Status;
use command_setup::read_setup;
use disk_port::Disk;
use ev_types::Text;
use journal_run::run_resumed;
use ports::{Links, Sink};
use pred_eval::Patterns;
use std::alloc::Global;
use step_count::{Ledger, Steps};

/// Carries out `resume JOURNAL`: it goes on with the run of the journal in the file JOURNAL of the disk. A server of
/// the journal's configuration is given the turns of the journal again, and then those of the links, which are recorded
/// as [`crate::record`] does. Notice lines go to `out`, but not those of the journal's turns before its last.
///
/// | Status | When | Line on `err` |
/// |---|---|---|
/// | `Done` | `u64::MAX` turns were taken, the links stopped the run, or the journal is full | no |
/// | `SinkFault` | a notice line could not be written | no |
/// | `LinkFault` | the address could not be listened on, or a turn could not be had of the links | yes |
/// | `Journal` | the file is no journal | yes |
/// | `Config` | the configuration of the journal is not valid, or a pattern of it is refused | yes |
/// | `DiskFault` | a call of the disk failed, such as opening where there is no file | yes |
/// | `Memory` | out of memory; `out` may have got notice lines | yes |
pub fn resume<L: Links, D: Disk, O: Sink, E: Sink, P: Patterns, G: Ledger>(
    alloc: Global,
    journal: &Text,
    links: &mut L,
    disk: &mut D,
    out: &mut O,
    err: &mut E,
    patterns: &mut P,
    steps: &mut Steps<G>,
) -> Status
    ensures promise { (store : StoreReport) → Resumes journal.now
        (reports store (L.report links.old) (O.report out.old) (E.report err.old)
        (P.report patterns.old) steps.old.forks)
        (reports store (L.report links.new) (O.report out.new) (E.report err.new)
        (P.report patterns.new) steps.new.forks) (D.report disk.old) (D.report disk.new)
        (patterns.new ≡ patterns.old) result }
    ensures no_file { result ≢ Status.ReadFault }
    ensures sink_fault { result ≡ Status.SinkFault →
        Rose (O.report out.old).faults (O.report out.new).faults }
    ensures link_fault { result ≡ Status.LinkFault →
        Rose (L.report links.old).faults (L.report links.new).faults }
    ensures disk_fault { result ≡ Status.DiskFault →
        Rose (D.report disk.old).faults (D.report disk.new).faults }
    ensures not_usage { result ≢ Status.Usage }
    ensures untouched { IsRefusal result → (out.new ≡ out.old) × (links.new ≡ links.old) }
    ensures no_line { HasNoLine result → err.new ≡ err.old }
{
    let ending = resume_from(alloc, journal, links, disk, out, patterns, steps);
    report_ending(ending, err)
}

/// Loads the journal, and goes on with its run.
fn resume_from<'a, L: Links, D: Disk, O: Sink, P: Patterns, G: Ledger>(
    alloc: Global,
    journal: &Text,
    links: &mut L,
    disk: &mut D,
    out: &mut O,
    patterns: &mut P,
    steps: &mut Steps<G>,
) -> JournalEnding<'a>
    ensures ends { ResumingEnds journal.now (L.report links.old) (L.report links.new)
        (D.report disk.old) (D.report disk.new)
        (run_report (P.report patterns.old) steps.old.forks (O.report out.old))
        (run_report (P.report patterns.new) steps.new.forks (O.report out.new)) result }
    ensures causes { HasCauses (L.report links.old).faults (L.report links.new).faults
        (O.report out.old).faults (O.report out.new).faults
        (D.report disk.old).faults (D.report disk.new).faults result }
    ensures not_read { status_of result ≢ Status.ReadFault }
    ensures unasked { HasNoConfig result → patterns.new ≡ patterns.old }
    ensures untouched { IsRefusal (status_of result) → (out.new ≡ out.old) ×
        (links.new ≡ links.old) }
{
    match load_from(alloc, journal, disk) {
        Ok(loaded) => resume_loaded(alloc, loaded, links, disk, out, patterns, steps),
        Err(fault) => ending_of_fault(fault),
    }
}

/// Builds the patterns of the journal's configuration, and goes on with the run.
fn resume_loaded<'a, L: Links, D: Disk, O: Sink, P: Patterns, G: Ledger>(
    alloc: Global,
    loaded: Loaded,
    links: &mut L,
    disk: &mut D,
    out: &mut O,
    patterns: &mut P,
    steps: &mut Steps<G>,
) -> JournalEnding<'a>
    requires ready { IsReady (D.report disk.old).past loaded.found.gate loaded.found.has_record }
    requires blank { loaded.found.has_record ≡ false → loaded.found.gate ≤ config_limit + 5 }
    requires events { list_all has_event loaded.records ≡ true }
    ensures ends { GoesOn loaded (L.report links.old) (L.report links.new)
        (D.report disk.old) (D.report disk.new)
        (run_report (P.report patterns.old) steps.old.forks (O.report out.old))
        (run_report (P.report patterns.new) steps.new.forks (O.report out.new)) result }
    ensures causes { HasCauses (L.report links.old).faults (L.report links.new).faults
        (O.report out.old).faults (O.report out.new).faults
        (D.report disk.old).faults (D.report disk.new).faults result }
    ensures not_read { status_of result ≢ Status.ReadFault }
    ensures unasked { HasNoConfig result → patterns.new ≡ patterns.old }
    ensures untouched { IsRefusal (status_of result) → (out.new ≡ out.old) ×
        (links.new ≡ links.old) }
{
    match read_setup(alloc, loaded.config.as_slice(), patterns) {
        Ok(setup) => ending_of_run(run_resumed(
            alloc,
            setup,
            u64::MAX,
            loaded.found,
            loaded.config,
            loaded.records,
            links,
            disk,
            out,
            patterns,
            steps,
        )),
        Err(ending) => JournalEnding::Shared(ending),
    }
}
