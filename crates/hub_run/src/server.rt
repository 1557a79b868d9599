ghost use Rattle.std.specs.Prelude.{◌≡◌, ◌≢◌, false, Err, length};
ghost use Rattle.conn_core.specs.Hub.{has_stopped, wants_in};
ghost use Rattle.conn_core.specs.Known.{AreUnclosed};
ghost use Rattle.ev_types.specs.Interval.{IsInterval};
ghost use Rattle.hub_run.specs.Runs.{AddsRun, RunsQuietly, RunsTo, run_report};
ghost use Rattle.hub_run.specs.Taking.{TurnsOn};
ghost use Rattle.ports.specs.Counts.{Rose};

use crate::fault::RunFault;
use crate::setup::Setup;
use crate::start::{buffer, listen, open_hub};
use crate::turn::{ask, do_turn, is_last, piece_len};
use conn_core::Hub;
use ports::{Links, PIECE_LIMIT, Sink};
use pred_eval::Patterns;
use std::alloc::Global;
use step_count::{Ledger, Steps};

/// Runs a server over the links: it listens, and takes turns until one is [`What::Stopped`], or until it took `turns`
/// of them. Notices are written to `sink`, a line in each put. It gives the hub as it is after the last turn.
pub fn run<L: Links, O: Sink, P: Patterns, G: Ledger>(
    alloc: Global,
    setup: Setup,
    turns: u64,
    links: &mut L,
    sink: &mut O,
    patterns: &mut P,
    steps: &mut Steps<G>,
) -> Result<Hub, RunFault>
    requires interval { IsInterval setup.expiry }
    ensures runs { AddsRun (L.report links.old) (L.report links.new)
        (RunsTo setup turns (run_report (P.report patterns.old) steps.old.forks (O.report sink.old))
        (run_report (P.report patterns.new) steps.new.forks (O.report sink.new)) result) }
    ensures links_fault { result ≡ Err RunFault.Links →
        Rose (L.report links.old).faults (L.report links.new).faults }
    ensures links_quiet { result ≢ Err RunFault.Links → (L.report links.new).faults ≡
        (L.report links.old).faults }
    ensures sink_fault { result ≡ Err RunFault.Sink →
        Rose (O.report sink.old).faults (O.report sink.new).faults }
    ensures sink_quiet { result ≢ Err RunFault.Sink → (O.report sink.new).faults ≡
        (O.report sink.old).faults }
{
    run_quietly(alloc, setup, turns, 0, links, sink, patterns, steps)
}

/// Runs a server as [`run`] does, but the lines of its first `quiet` turns are not put.
pub fn run_quietly<L: Links, O: Sink, P: Patterns, G: Ledger>(
    alloc: Global,
    setup: Setup,
    turns: u64,
    quiet: u64,
    links: &mut L,
    sink: &mut O,
    patterns: &mut P,
    steps: &mut Steps<G>,
) -> Result<Hub, RunFault>
    requires interval { IsInterval setup.expiry }
    ensures runs { AddsRun (L.report links.old) (L.report links.new)
        (RunsQuietly setup turns quiet
        (run_report (P.report patterns.old) steps.old.forks (O.report sink.old))
        (run_report (P.report patterns.new) steps.new.forks (O.report sink.new)) result) }
    ensures links_fault { result ≡ Err RunFault.Links →
        Rose (L.report links.old).faults (L.report links.new).faults }
    ensures links_quiet { result ≢ Err RunFault.Links → (L.report links.new).faults ≡
        (L.report links.old).faults }
    ensures sink_fault { result ≡ Err RunFault.Sink →
        Rose (O.report sink.old).faults (O.report sink.new).faults }
    ensures sink_quiet { result ≢ Err RunFault.Sink → (O.report sink.new).faults ≡
        (O.report sink.old).faults }
{
    let mut buf = buffer(alloc)?;
    let secs = listen(alloc, &setup.address, links)?;
    let hub = open_hub(alloc, setup, secs)?;
    take_turns(
        alloc,
        hub,
        turns,
        quiet,
        buf.as_mut_slice(),
        links,
        sink,
        patterns,
        steps,
    )
}

/// Takes turns until one is the last, or until `turns` of them were taken. The lines of the first `quiet` are not put.
fn take_turns<L: Links, O: Sink, P: Patterns, G: Ledger>(
    alloc: Global,
    mut hub: Hub,
    turns: u64,
    quiet: u64,
    buf: &mut [u8],
    links: &mut L,
    sink: &mut O,
    patterns: &mut P,
    steps: &mut Steps<G>,
) -> Result<Hub, RunFault>
    requires whole { length buf.old ≡ PIECE_LIMIT }
    requires known { AreUnclosed (L.report links.old).log (wants_in hub) }
    requires going { has_stopped hub ≡ false }
    ensures takes { AddsRun (L.report links.old) (L.report links.new)
        (TurnsOn hub turns quiet
        (run_report (P.report patterns.old) steps.old.forks (O.report sink.old))
        (run_report (P.report patterns.new) steps.new.forks (O.report sink.new)) result) }
    ensures links_fault { result ≡ Err RunFault.Links →
        Rose (L.report links.old).faults (L.report links.new).faults }
    ensures links_quiet { result ≢ Err RunFault.Links → (L.report links.new).faults ≡
        (L.report links.old).faults }
    ensures sink_fault { result ≡ Err RunFault.Sink →
        Rose (O.report sink.old).faults (O.report sink.new).faults }
    ensures sink_quiet { result ≢ Err RunFault.Sink → (O.report sink.new).faults ≡
        (O.report sink.old).faults }
{
    for taken in 0..turns {
        let turn = ask(alloc, hub.wants(), buf, links)?;
        let count = piece_len(turn.what);
        let piece = &buf[..count];
        let silent = taken < quiet;
        do_turn(
            alloc, &mut hub, silent, turn, piece, links, sink, patterns, steps,
        )?;
        if is_last(turn) {
            return Ok(hub);
        }
    }
    Ok(hub)
}
