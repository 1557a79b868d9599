ghost use Rattle.std.specs.Prelude.{◌≡◌, ◌≢◌, ◌≤◌, length};
ghost use Rattle.command_record.specs.Endings.{HasNoConfig, IsComplete, status_of};
ghost use Rattle.command_record.specs.Reading.{ReadsConfig};
ghost use Rattle.command_record.specs.Records.{RecordEnds, Records};
ghost use Rattle.command_record.specs.Running.{HasCauses, RecordingEnds};
ghost use Rattle.command_setup.specs.command_io.Endings.{HasNoLine, IsRefusal};
ghost use Rattle.command_setup.specs.command_io.Reports.{reports};
ghost use Rattle.command_setup.specs.hub_run.Runs.{run_report};
ghost use Rattle.ev_types.specs.Interval.{IsInterval};
ghost use Rattle.journal_format.specs.Limits.{config_limit};
ghost use Rattle.ports.specs.Counts.{Rose};
ghost use Rattle.ports.specs.Writing.{SinkReport};

use crate::ending::{JournalEnding, ending_of_fault, ending_of_run, report_ending};
use crate::fetch::fetch_text;
use crate::journal::begin_in;
use command_setup::command_io::Status;
use command_setup::hub_run::Setup;
use disk_port::Disk;
use ev_types::Text;
use journal_run::run_recorded;
use ports::{Links, Sink, Store};
use pred_eval::Patterns;
use std::alloc::Global;
use step_count::{Ledger, Steps};

/// Carries out `record CONFIG JOURNAL`: it runs a server over the links, as `serve` does, and keeps a journal of the
/// run in the file JOURNAL of the disk. A turn is in the journal before the server is handed it. Notice lines go to
/// `out`, and the line of the ending to `err`. A write of that line that fails cuts it, and does not change the status.
///
/// | Status | When | Line on `err` |
/// |---|---|---|
/// | `Done` | `u64::MAX` turns were taken, the links stopped the run, or the journal is full | no |
/// | `SinkFault` | a notice line could not be written | no |
/// | `LinkFault` | the address could not be listened on, or a turn could not be had of the links | yes |
/// | `Config` | the configuration is not valid, or a pattern of it is refused | yes |
/// | `ReadFault` | the configuration could not be read | yes |
/// | `TooLong` | the configuration has over `command_io::CONFIG_LIMIT` bytes | yes |
/// | `Journal` | the file may hold a journal | yes |
/// | `DiskFault` | a call of the disk failed | yes |
/// | `Memory` | out of memory; `out` may have got notice lines | yes |
///
/// After `DiskFault` in the run the journal has each turn that was handed out, and may have one more.
pub fn record<S: Store, L: Links, D: Disk, O: Sink, E: Sink, P: Patterns, G: Ledger>(
    alloc: Global,
    config: &Text,
    journal: &Text,
    store: &mut S,
    links: &mut L,
    disk: &mut D,
    out: &mut O,
    err: &mut E,
    patterns: &mut P,
    steps: &mut Steps<G>,
) -> Status
    ensures promise { Records config.now journal.now
        (reports (S.report store.old) (L.report links.old) (O.report out.old) (E.report err.old)
        (P.report patterns.old) steps.old.forks)
        (reports (S.report store.new) (L.report links.new) (O.report out.new) (E.report err.new)
        (P.report patterns.new) steps.new.forks) (D.report disk.old) (D.report disk.new)
        (patterns.new ≡ patterns.old) result }
    ensures read_fault { result ≡ Status.ReadFault →
        Rose (S.report store.old).faults (S.report store.new).faults }
    ensures sink_fault { result ≡ Status.SinkFault →
        Rose (O.report out.old).faults (O.report out.new).faults }
    ensures link_fault { result ≡ Status.LinkFault →
        Rose (L.report links.old).faults (L.report links.new).faults }
    ensures disk_fault { result ≡ Status.DiskFault →
        Rose (D.report disk.old).faults (D.report disk.new).faults }
    ensures not_usage { result ≢ Status.Usage }
    ensures untouched { IsRefusal result → (out.new ≡ out.old) × (links.new ≡ links.old) }
    ensures no_line { HasNoLine result → err.new ≡ err.old }
{
    let ending = record_config(
        alloc, config, journal, store, links, disk, out, patterns, steps,
    );
    report_ending(ending, err)
}

/// Reads the configuration, runs its server, and keeps the journal.
fn record_config<'a, S: Store, L: Links, D: Disk, O: Sink, P: Patterns, G: Ledger>(
    alloc: Global,
    config: &'a Text,
    journal: &Text,
    store: &mut S,
    links: &mut L,
    disk: &mut D,
    out: &mut O,
    patterns: &mut P,
    steps: &mut Steps<G>,
) -> JournalEnding<'a>
    ensures ends { (err err' : SinkReport) → RecordEnds config.now journal.now
        (reports (S.report store.old) (L.report links.old) (O.report out.old) err
        (P.report patterns.old) steps.old.forks)
        (reports (S.report store.new) (L.report links.new) (O.report out.new) err'
        (P.report patterns.new) steps.new.forks) (D.report disk.old) (D.report disk.new) result }
    ensures reads { ReadsConfig config.now (S.report store.old).reads (S.report store.new).reads
        result }
    ensures causes { HasCauses (L.report links.old).faults (L.report links.new).faults
        (O.report out.old).faults (O.report out.new).faults
        (D.report disk.old).faults (D.report disk.new).faults result }
    ensures read_fault { status_of result ≡ Status.ReadFault →
        Rose (S.report store.old).faults (S.report store.new).faults }
    ensures quiet { IsComplete result → (S.report store.new).faults ≡ (S.report store.old).faults }
    ensures unasked { HasNoConfig result → patterns.new ≡ patterns.old }
    ensures untouched { IsRefusal (status_of result) → (out.new ≡ out.old) ×
        (links.new ≡ links.old) }
{
    match fetch_text(alloc, config, store, patterns) {
        Ok(fetched) => {
            let (text, setup) = fetched;
            let text = text.as_slice();
            record_run(
                alloc, setup, text, journal, links, disk, out, patterns, steps,
            )
        }
        Err(ending) => JournalEnding::Shared(ending),
    }
}

/// Begins the journal of this configuration, runs the server, and records its turns.
fn record_run<'a, L: Links, D: Disk, O: Sink, P: Patterns, G: Ledger>(
    alloc: Global,
    setup: Setup,
    config: &[u8],
    journal: &Text,
    links: &mut L,
    disk: &mut D,
    out: &mut O,
    patterns: &mut P,
    steps: &mut Steps<G>,
) -> JournalEnding<'a>
    requires interval { IsInterval setup.expiry }
    requires short { length config.now ≤ config_limit }
    ensures ends { RecordingEnds journal.now config.now setup (L.report links.old)
        (L.report links.new) (D.report disk.old) (D.report disk.new)
        (run_report (P.report patterns.old) steps.old.forks (O.report out.old))
        (run_report (P.report patterns.new) steps.new.forks (O.report out.new)) result }
    ensures causes { HasCauses (L.report links.old).faults (L.report links.new).faults
        (O.report out.old).faults (O.report out.new).faults
        (D.report disk.old).faults (D.report disk.new).faults result }
    ensures not_read { status_of result ≢ Status.ReadFault }
    ensures configured { HasNoConfig result → ⊥ }
    ensures untouched { IsRefusal (status_of result) → (out.new ≡ out.old) ×
        (links.new ≡ links.old) }
{
    match begin_in(alloc, journal, config, disk) {
        Ok(found) => ending_of_run(run_recorded(
            alloc,
            setup,
            u64::MAX,
            found,
            links,
            disk,
            out,
            patterns,
            steps,
        )),
        Err(fault) => ending_of_fault(fault),
    }
}
