ghost use Rattle.std.specs.Prelude.{◌≡◌, ◌≢◌, ◌≤◌, length, List, take, ℕ, false, None, Err, IfOk};
ghost use Rattle.client_run.specs.Runs.{AddsRun};
ghost use Rattle.client_run.specs.Taking.{AsksFor, TakesTurn};
ghost use Rattle.ports.specs.Counts.{Rose};
ghost use Rattle.ports.specs.Links.{IsPieceWithin, piece_of};
ghost use Rattle.riemann_client.specs.Client.{IsUnclosed, is_ended, link_of, stream_of};

use crate::outcome::{Outcome, RunFault, answer_of};
use ports::{Links, PIECE_LIMIT, Turn, Wants, What};
use riemann_client::Client;
use std::alloc::Global;

/// Takes one turn. The answer is how the exchange ended, if it is over. After a fault nothing is known of the client.
pub(crate) fn take_turn<L: Links>(
    alloc: Global,
    client: &mut Client,
    buf: &mut [u8],
    links: &mut L,
) -> Result<Option<Outcome>, RunFault>
    requires whole { length buf.old ≡ PIECE_LIMIT }
    requires going { is_ended client.old ≡ false }
    requires known { IsUnclosed (L.report links.old).log (link_of client.old) }
    ensures stream { stream_of client.new ≡ stream_of client.old }
    ensures going { IfOk result (λ outcome. outcome ≡ None → is_ended client.new ≡ false) }
    ensures known { IfOk result (λ outcome. outcome ≡ None →
        IsUnclosed (L.report links.new).log (link_of client.new)) }
    ensures takes { AddsRun (L.report links.old) (L.report links.new)
        (TakesTurn client.old client.new result) }
    ensures links_fault { result ≡ Err RunFault.Links →
        Rose (L.report links.old).faults (L.report links.new).faults }
    ensures links_quiet { result ≢ Err RunFault.Links → (L.report links.new).faults ≡
        (L.report links.old).faults }
{
    let turn = ask(alloc, client.wants(), buf, links)?;
    let count = piece_len(turn.what);
    let piece = &buf[..count];
    let progress = client.turn(alloc, turn, piece, links);
    let outcome = answer_of(progress)?;
    Ok(outcome)
}

/// Asks the links for the next turn.
fn ask<L: Links>(
    alloc: Global,
    wants: &Wants,
    buf: &mut [u8],
    links: &mut L,
) -> Result<Turn, RunFault>
    requires { length buf.old ≡ PIECE_LIMIT }
    ensures asks { AddsRun (L.report links.old) (L.report links.new)
        (AsksFor wants.now buf.new result) }
    ensures within { IfOk result (λ turn. IsPieceWithin PIECE_LIMIT turn.what) }
    ensures not_failed { IfOk result (λ turn. turn.what ≢ What.Failed) }
    ensures not_memory { IfOk result (λ turn. turn.what ≢ What.Memory) }
    ensures links_fault { result ≡ Err RunFault.Links →
        Rose (L.report links.old).faults (L.report links.new).faults }
    ensures links_quiet { result ≢ Err RunFault.Links → (L.report links.new).faults ≡
        (L.report links.old).faults }
{
    let turn = links.next(alloc, wants, buf);
    match turn.what {
        What::Failed => Err(RunFault::Links),
        What::Memory => Err(RunFault::Memory),
        _ => Ok(turn),
    }
}

/// How many bytes were read.
fn piece_len(what: What) -> usize
    requires { IsPieceWithin PIECE_LIMIT what }
    ensures piece { (buf : List ℕ) → take result buf ≡ piece_of what buf }
    ensures within { result ≤ PIECE_LIMIT }
{
    match what {
        What::Read { count, .. } => count,
        _ => 0,
    }
}
