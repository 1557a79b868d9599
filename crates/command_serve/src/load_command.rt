ghost use Rattle.std.specs.Prelude.{◌≡◌, ◌≢◌, ◌≤◌, [], ◌∷◌};
ghost use Rattle.ports.specs.Counts.{Rose};
ghost use Rattle.command_setup.specs.command_io.Endings.{HasNoConfig, HasNoLine, IsComplete, IsReadOnce, IsRefusalOrMemory, ReadsFiles, status_of};
ghost use Rattle.ports.specs.Calls.{LinksReport};
ghost use Rattle.ports.specs.Writing.{SinkReport};
ghost use Rattle.command_setup.specs.command_io.Reports.{reports};
ghost use Rattle.command_serve.specs.Loads.{LoadEnds, Loads, RunEnds, WritesSummary};
ghost use Rattle.ev_types.specs.Interval.{IsInterval};

use crate::play::{EVENT_LIMIT, play};
use crate::summary::Summary;
use command_setup::command_io::{Ending, Status, put_all, report};
use command_setup::hub_run::Setup;
use command_setup::{ending_of_fault, fetch_setup};
use ev_types::Text;
use ports::{Sink, Store};
use pred_eval::Patterns;
use std::alloc::Global;
use step_count::{Ledger, Steps};

/// Carries out `load CONFIG N START`, with `count` for N: it runs a server over a generated load of `count` events.
/// What the load came to goes to `out`, and the line of the ending to `err`. A write of that line that fails cuts it,
/// and does not change the status.
///
/// | Status | When | Line on `err` |
/// |---|---|---|
/// | `Done` | the load was served, and what it came to is written | no |
/// | `SinkFault` | `out` got only a prefix of what the load came to | no |
/// | `Config` | the configuration is not valid, or a pattern of it is refused | yes |
/// | `ReadFault` | the configuration could not be read | yes |
/// | `TooLong` | the configuration has over `command_io::CONFIG_LIMIT` bytes | yes |
/// | `Memory` | out of memory; `out` gets nothing | yes |
pub fn load<S: Store, O: Sink, E: Sink, P: Patterns, G: Ledger>(
    alloc: Global,
    config: &Text,
    count: u64,
    start: u64,
    store: &mut S,
    out: &mut O,
    err: &mut E,
    patterns: &mut P,
    steps: &mut Steps<G>,
) -> Status
    requires few { count ≤ EVENT_LIMIT }
    ensures promise { (links : LinksReport) →
        Loads config.now count start
        (reports (S.report store.old) links (O.report out.old) (E.report err.old)
        (P.report patterns.old) steps.old.forks)
        (reports (S.report store.new) links (O.report out.new) (E.report err.new)
        (P.report patterns.new) steps.new.forks) (patterns.new ≡ patterns.old) result }
    ensures read_fault { result ≡ Status.ReadFault →
        Rose (S.report store.old).faults (S.report store.new).faults }
    ensures sink_fault { result ≡ Status.SinkFault →
        Rose (O.report out.old).faults (O.report out.new).faults }
    ensures links_work { result ≢ Status.LinkFault }
    ensures untouched { IsRefusalOrMemory result → out.new ≡ out.old }
    ensures no_line { HasNoLine result → err.new ≡ err.old }
{
    let ending = load_config(alloc, config, count, start, store, out, patterns, steps);
    report(ending, err)
}

/// Reads the configuration, and runs its server.
fn load_config<'a, S: Store, O: Sink, P: Patterns, G: Ledger>(
    alloc: Global,
    config: &'a Text,
    count: u64,
    start: u64,
    store: &mut S,
    out: &mut O,
    patterns: &mut P,
    steps: &mut Steps<G>,
) -> Ending<'a>
    requires few { count ≤ EVENT_LIMIT }
    ensures ends { (links : LinksReport) (err err' : SinkReport) →
        LoadEnds config.now count start
        (reports (S.report store.old) links (O.report out.old) err (P.report patterns.old)
        steps.old.forks) (reports (S.report store.new) links (O.report out.new) err'
        (P.report patterns.new) steps.new.forks) result }
    ensures reads { ReadsFiles (config.now ∷ []) (IsReadOnce result) (S.report store.old).reads
        (S.report store.new).reads result }
    ensures quiet { IsComplete result → ((S.report store.new).faults ≡ (S.report store.old).faults)
        × ((O.report out.new).faults ≡ (O.report out.old).faults) }
    ensures untouched { IsRefusalOrMemory (status_of result) → out.new ≡ out.old }
    ensures unasked { HasNoConfig result → patterns.new ≡ patterns.old }
{
    match fetch_setup(alloc, config, store, patterns) {
        Ok(setup) => run_load(alloc, setup, count, start, out, patterns, steps),
        Err(ending) => ending,
    }
}

/// Runs a server over the load, and writes what it came to.
fn run_load<'a, O: Sink, P: Patterns, G: Ledger>(
    alloc: Global,
    setup: Setup,
    count: u64,
    start: u64,
    out: &mut O,
    patterns: &mut P,
    steps: &mut Steps<G>,
) -> Ending<'a>
    requires few { count ≤ EVENT_LIMIT }
    requires interval { IsInterval setup.expiry }
    ensures ends { RunEnds setup count start (P.report patterns.old) (P.report patterns.new)
        steps.old.forks steps.new.forks (O.report out.old) (O.report out.new) result }
    ensures untouched { IsRefusalOrMemory (status_of result) → out.new ≡ out.old }
    ensures asked { HasNoConfig result → ⊥ }
{
    match play(alloc, setup, count, start, patterns, steps) {
        Ok(summary) => write_summary(alloc, &summary, out),
        Err(fault) => ending_of_fault(fault),
    }
}

/// Writes the summary as a line, in one put.
fn write_summary<'a, O: Sink>(alloc: Global, summary: &Summary, out: &mut O) -> Ending<'a>
    ensures writes { WritesSummary summary.now (O.report out.old) (O.report out.new) result }
    ensures untouched { IsRefusalOrMemory (status_of result) → out.new ≡ out.old }
    ensures asked { HasNoConfig result → ⊥ }
{
    let Ok(line) = summary.line(alloc) else {
        return Ending::OutOfMemory;
    };
    match put_all(out, line.as_bytes()) {
        Ok(()) => Ending::Finished,
        Err(_) => Ending::WriteFailed,
    }
}
