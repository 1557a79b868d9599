ghost use Rattle.std.specs.Prelude.{◌≡◌, ◌≢◌};
ghost use Rattle.command_setup.specs.command_io.Endings.{HasNoLine, IsComplete, IsRefusal, status_of};
ghost use Rattle.ports.specs.Calls.{LinksReport};
ghost use Rattle.ports.specs.Writing.{SinkReport};
ghost use Rattle.command_setup.specs.command_io.Reports.{reports};
ghost use Rattle.command_files.specs.Files.{OtherReads};
ghost use Rattle.ports.specs.Counts.{Rose};
ghost use Rattle.command_files.specs.Replays.{ReplayEnds, Replays, ScriptEnds};
ghost use Rattle.ev_types.specs.Interval.{IsInterval};

use crate::play::{fetch_script, play};
use command_setup::command_io::{Ending, Status, report};
use command_setup::fetch_setup;
use command_setup::hub_run::Setup;
use ev_types::Text;
use ports::{Sink, Store};
use pred_eval::Patterns;
use std::alloc::Global;
use step_count::{Ledger, Steps};

/// Carries out `replay CONFIG SCRIPT`: it runs a server over links that play the script.
///
/// In the run a line for each notice goes to `out`. Then follows a line for each link that the script opens, with the
/// bytes that the link was sent. The line of the ending goes to `err`. If writing it fails, it is cut, and the status
/// stays.
///
/// | Status | When | Line on `err` |
/// |---|---|---|
/// | `Done` | the script was played to its end, and all is written | no |
/// | `SinkFault` | a line could not be written; `out` got a prefix of the lines | no |
/// | `Config` | the configuration is not valid, or a pattern of it is refused | yes |
/// | `Script` | the script is not valid | yes |
/// | `ReadFault` | one of the two files could not be read | yes |
/// | `TooLong` | the configuration has over `command_io::CONFIG_LIMIT` bytes, or the script over `command_io::FILE_LIMIT` | yes |
/// | `Memory` | out of memory; `out` may have got lines | yes |
///
/// After `Config`, `Script`, `ReadFault` and `TooLong` nothing is run, and `out` gets nothing.
pub fn replay<S: Store, O: Sink, E: Sink, P: Patterns, G: Ledger>(
    alloc: Global,
    config: &Text,
    script: &Text,
    store: &mut S,
    out: &mut O,
    err: &mut E,
    patterns: &mut P,
    steps: &mut Steps<G>,
) -> Status
    ensures promise { (links : LinksReport) →
        Replays config.now script.now
        (reports (S.report store.old) links (O.report out.old) (E.report err.old)
        (P.report patterns.old) steps.old.forks)
        (reports (S.report store.new) links (O.report out.new) (E.report err.new)
        (P.report patterns.new) steps.new.forks) (patterns.new ≡ patterns.old) result }
    ensures read_fault { result ≡ Status.ReadFault →
        Rose (S.report store.old).faults (S.report store.new).faults }
    ensures sink_fault { result ≡ Status.SinkFault →
        Rose (O.report out.old).faults (O.report out.new).faults }
    ensures links_work { result ≢ Status.LinkFault }
    ensures untouched { IsRefusal result → out.new ≡ out.old }
    ensures no_line { HasNoLine result → err.new ≡ err.old }
{
    let ending = replay_files(alloc, config, script, store, out, patterns, steps);
    report(ending, err)
}

/// Reads the configuration and the script, and plays the script.
fn replay_files<'a, S: Store, O: Sink, P: Patterns, G: Ledger>(
    alloc: Global,
    config: &'a Text,
    script: &'a Text,
    store: &mut S,
    out: &mut O,
    patterns: &mut P,
    steps: &mut Steps<G>,
) -> Ending<'a>
    ensures ends { (links : LinksReport) (err err' : SinkReport) →
        ReplayEnds config.now script.now
        (reports (S.report store.old) links (O.report out.old) err (P.report patterns.old)
        steps.old.forks) (reports (S.report store.new) links (O.report out.new) err'
        (P.report patterns.new) steps.new.forks) (patterns.new ≡ patterns.old) result }
    ensures quiet { IsComplete result → ((S.report store.new).faults ≡ (S.report store.old).faults)
        × ((O.report out.new).faults ≡ (O.report out.old).faults) }
    ensures untouched { IsRefusal (status_of result) → out.new ≡ out.old }
{
    match fetch_setup(alloc, config, store, patterns) {
        Ok(setup) => replay_script(alloc, setup, script, store, out, patterns, steps),
        Err(ending) => ending,
    }
}

/// Reads the script, and plays it.
fn replay_script<'a, S: Store, O: Sink, P: Patterns, G: Ledger>(
    alloc: Global,
    setup: Setup,
    script: &'a Text,
    store: &mut S,
    out: &mut O,
    patterns: &mut P,
    steps: &mut Steps<G>,
) -> Ending<'a>
    requires interval { IsInterval setup.expiry }
    ensures ends { (links : LinksReport) (err err' : SinkReport) →
        ScriptEnds setup script.now
        (reports (S.report store.old) links (O.report out.old) err (P.report patterns.old)
        steps.old.forks) (reports (S.report store.new) links (O.report out.new) err'
        (P.report patterns.new) steps.new.forks) result }
    ensures reads { OtherReads script.now (S.report store.old).reads (S.report store.new).reads
        result }
    ensures quiet { IsComplete result → ((S.report store.new).faults ≡ (S.report store.old).faults)
        × ((O.report out.new).faults ≡ (O.report out.old).faults) }
    ensures untouched { IsRefusal (status_of result) → out.new ≡ out.old }
{
    match fetch_script(alloc, script, store) {
        Ok(links) => play(alloc, setup, links, out, patterns, steps),
        Err(ending) => ending,
    }
}
