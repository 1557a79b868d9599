ghost use Rattle.std.specs.Prelude.{◌≡◌, [], ◌∷◌};
ghost use Rattle.ports.specs.Counts.{Rose};
ghost use Rattle.command_setup.specs.command_io.Endings.{HasNoConfig, HasNoLine, IsComplete, IsReadOnce, IsRefusal, ReadsFiles, status_of};
ghost use Rattle.ports.specs.Writing.{SinkReport};
ghost use Rattle.command_setup.specs.command_io.Reports.{reports};
ghost use Rattle.command_serve.specs.Serves.{ServeEnds, Serves, ending_of_run};

use command_setup::command_io::{Ending, Status, report};
use command_setup::conn_core::Hub;
use command_setup::hub_run::{RunFault, run};
use command_setup::{ending_of_fault, fetch_setup};
use ev_types::Text;
use ports::{Links, Sink, Store};
use pred_eval::Patterns;
use std::alloc::Global;
use step_count::{Ledger, Steps};

/// Runs a server over the links for at most `turns` turns, as `serve CONFIG --turns N` does. Notice lines go to `out`,
/// and the line of the ending goes to `err`. If the write of that line fails, the line is cut and the status stays.
///
/// | Status | When | Line on `err` |
/// |---|---|---|
/// | `Done` | the turns were taken, or the links stopped the run | no |
/// | `SinkFault` | a notice line could not be written | no |
/// | `LinkFault` | the address could not be listened on, or a turn could not be had of the links | yes |
/// | `Config` | the configuration is not valid, or a pattern of it is refused | yes |
/// | `ReadFault` | the configuration could not be read | yes |
/// | `TooLong` | the configuration has over `command_io::CONFIG_LIMIT` bytes | yes |
/// | `Memory` | out of memory; `out` may have got notice lines | yes |
pub fn serve<S: Store, L: Links, O: Sink, E: Sink, P: Patterns, G: Ledger>(
    alloc: Global,
    config: &Text,
    turns: u64,
    store: &mut S,
    links: &mut L,
    out: &mut O,
    err: &mut E,
    patterns: &mut P,
    steps: &mut Steps<G>,
) -> Status
    ensures promise { Serves config.now turns
        (reports (S.report store.old) (L.report links.old) (O.report out.old) (E.report err.old)
        (P.report patterns.old) steps.old.forks)
        (reports (S.report store.new) (L.report links.new) (O.report out.new) (E.report err.new)
        (P.report patterns.new) steps.new.forks) (patterns.new ≡ patterns.old) result }
    ensures read_fault { result ≡ Status.ReadFault →
        Rose (S.report store.old).faults (S.report store.new).faults }
    ensures sink_fault { result ≡ Status.SinkFault →
        Rose (O.report out.old).faults (O.report out.new).faults }
    ensures link_fault { result ≡ Status.LinkFault →
        Rose (L.report links.old).faults (L.report links.new).faults }
    ensures untouched { IsRefusal result → (out.new ≡ out.old) × (links.new ≡ links.old) }
    ensures no_line { HasNoLine result → err.new ≡ err.old }
{
    let ending = serve_links(alloc, config, turns, store, links, out, patterns, steps);
    report(ending, err)
}

/// Reads the configuration, and runs its server.
fn serve_links<'a, S: Store, L: Links, O: Sink, P: Patterns, G: Ledger>(
    alloc: Global,
    config: &'a Text,
    turns: u64,
    store: &mut S,
    links: &mut L,
    out: &mut O,
    patterns: &mut P,
    steps: &mut Steps<G>,
) -> Ending<'a>
    ensures ends { (err err' : SinkReport) → ServeEnds config.now turns
        (reports (S.report store.old) (L.report links.old) (O.report out.old) err
        (P.report patterns.old) steps.old.forks)
        (reports (S.report store.new) (L.report links.new) (O.report out.new) err'
        (P.report patterns.new) steps.new.forks) result }
    ensures reads { ReadsFiles (config.now ∷ []) (IsReadOnce result) (S.report store.old).reads
        (S.report store.new).reads result }
    ensures quiet { IsComplete result → ((S.report store.new).faults ≡ (S.report store.old).faults)
        × ((L.report links.new).faults ≡ (L.report links.old).faults) ×
        ((O.report out.new).faults ≡ (O.report out.old).faults) }
    ensures untouched { IsRefusal (status_of result) → (out.new ≡ out.old) ×
        (links.new ≡ links.old) }
    ensures unasked { HasNoConfig result → patterns.new ≡ patterns.old }
{
    match fetch_setup(alloc, config, store, patterns) {
        Ok(setup) => ending_of_run(run(alloc, setup, turns, links, out, patterns, steps)),
        Err(ending) => ending,
    }
}

/// How the command ends after such a run.
fn ending_of_run<'a>(ran: Result<Hub, RunFault>) -> Ending<'a>
    ensures { result ≡ ending_of_run ran }
{
    match ran {
        Ok(_) => Ending::Finished,
        Err(fault) => ending_of_fault(fault),
    }
}
