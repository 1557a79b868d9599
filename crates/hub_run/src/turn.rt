ghost use Rattle.std.specs.Prelude.{◌≡◌, ◌≢◌, ◌↔◌, ◌≤◌, length, List, take, ℕ, false, Err, IfOk, IsTrue, OnOk};
ghost use Rattle.conn_core.specs.Hub.{has_stopped, wants_in};
ghost use Rattle.conn_core.specs.Known.{Answered, AreUnclosed};
ghost use Rattle.conn_core.specs.hub_link.Added.{Added};
ghost use Rattle.hub_run.specs.Runs.{AddsRun, run_report};
ghost use Rattle.hub_run.specs.Taking.{AsksFor, DoesTurn};
ghost use Rattle.ports.specs.Counts.{Rose};
ghost use Rattle.ports.specs.Links.{IsPieceWithin, piece_of};

use crate::RunFault;
use conn_core::{Hub, Stop};
use ports::{CountSink, Links, PIECE_LIMIT, Sink, Turn, Wants, What};
use pred_eval::Patterns;
use std::alloc::Global;
use step_count::{Ledger, Steps};

/// Does a turn. Its lines are put unless it is `quiet`. After a stop nothing is known of the hub.
pub(crate) fn do_turn<L: Links, O: Sink, P: Patterns, G: Ledger>(
    alloc: Global,
    hub: &mut Hub,
    quiet: bool,
    turn: Turn,
    piece: &[u8],
    links: &mut L,
    sink: &mut O,
    patterns: &mut P,
    steps: &mut Steps<G>,
) -> Result<(), Stop>
    requires going { has_stopped hub.old ≡ false }
    requires failed { turn.what ≢ What.Failed }
    requires memory { turn.what ≢ What.Memory }
    requires known { AreUnclosed (L.report links.old).log (wants_in hub.old) }
    requires answered { Answered (L.report links.old).log turn }
    ensures going { OnOk result (has_stopped hub.new ≡ false) }
    ensures known { OnOk result (AreUnclosed (L.report links.new).log (wants_in hub.new)) }
    ensures does { Added (L.report links.old) (L.report links.new)
        (DoesTurn quiet turn piece.now hub.old hub.new
        (run_report (P.report patterns.old) steps.old.forks (O.report sink.old))
        (run_report (P.report patterns.new) steps.new.forks (O.report sink.new)) result) }
    ensures fault { result ≡ Err Stop.SinkFault →
        Rose (O.report sink.old).faults (O.report sink.new).faults }
    ensures memory { result ≡ Err Stop.Memory → (O.report sink.new).faults ≡
        (O.report sink.old).faults }
    ensures no_fault { OnOk result ((O.report sink.new).faults ≡ (O.report sink.old).faults) }
{
    if quiet {
        let mut none = CountSink { puts: 0 };
        return hub.turn(alloc, turn, piece, links, &mut none, patterns, steps);
    }
    hub.turn(alloc, turn, piece, links, sink, patterns, steps)
}

/// Asks the links for the next turn.
pub(crate) fn ask<L: Links>(
    alloc: Global,
    wants: &Wants,
    buf: &mut [u8],
    links: &mut L,
) -> Result<Turn, RunFault>
    requires { length buf.old ≡ PIECE_LIMIT }
    ensures asks { AddsRun (L.report links.old) (L.report links.new)
        (AsksFor wants.now buf.new result) }
    ensures within { IfOk result (λ turn. IsPieceWithin PIECE_LIMIT turn.what) }
    ensures not_failed { IfOk result (λ turn. turn.what ≢ What.Failed) }
    ensures not_memory { IfOk result (λ turn. turn.what ≢ What.Memory) }
    ensures links_fault { result ≡ Err RunFault.Links →
        Rose (L.report links.old).faults (L.report links.new).faults }
    ensures links_quiet { result ≢ Err RunFault.Links → (L.report links.new).faults ≡
        (L.report links.old).faults }
    ensures no_sink { result ≢ Err RunFault.Sink }
{
    let turn = links.next(alloc, wants, buf);
    match turn.what {
        What::Failed => Err(RunFault::Links),
        What::Memory => Err(RunFault::Memory),
        _ => Ok(turn),
    }
}

/// How many bytes were read.
pub(crate) fn piece_len(what: What) -> usize
    requires { IsPieceWithin PIECE_LIMIT what }
    ensures piece { (buf : List ℕ) → take result buf ≡ piece_of what buf }
    ensures within { result ≤ PIECE_LIMIT }
{
    match what {
        What::Read { count, .. } => count,
        _ => 0,
    }
}

/// Whether no turn comes after this one.
pub(crate) fn is_last(turn: Turn) -> bool
    ensures { IsTrue result ↔ turn.what ≡ What.Stopped }
{
    matches!(turn.what, What::Stopped)
}
