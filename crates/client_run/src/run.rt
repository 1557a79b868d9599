ghost use Rattle.std.specs.Prelude.{◌≡◌, ◌≢◌, length, vec_len, false, Err, IfOk};
ghost use Rattle.client_run.specs.Runs.{AddsRun, RunsTo};
ghost use Rattle.client_run.specs.Taking.{ListensOn, TakesAll};
ghost use Rattle.ports.specs.Counts.{Rose};
ghost use Rattle.riemann_client.specs.Client.{IsUnclosed, is_ended, link_of};

use crate::outcome::{Exchanged, Outcome, RunFault};
use crate::turn::take_turn;
use ev_types::{Blob, LATEST_MOMENT, Memory, Text};
use ports::{Links, ListenAnswer, PIECE_LIMIT};
use riemann_client::{Client, Msgs, has_request};
use std::alloc::Global;

/// Has the exchange of a client with the server at `address`, a text `HOST:PORT`: the requests are `frames`, one after
/// another. It takes turns until the exchange is over, or until it took `turns` of them, which loses it. Without a
/// request it is whole at once, and no call is made.
pub fn exchange<L: Links>(
    alloc: Global,
    address: &Text,
    frames: Blob,
    turns: u64,
    links: &mut L,
) -> Result<Exchanged, RunFault>
    ensures runs { AddsRun (L.report links.old) (L.report links.new)
        (RunsTo address.now frames turns result) }
    ensures links_fault { result ≡ Err RunFault.Links →
        Rose (L.report links.old).faults (L.report links.new).faults }
    ensures links_quiet { result ≢ Err RunFault.Links → (L.report links.new).faults ≡
        (L.report links.old).faults }
{
    if !has_request(frames.as_slice()) {
        return Ok(Exchanged {
            replies: Msgs::fresh(alloc),
            outcome: Outcome::Whole,
        });
    }
    let mut buf = buffer(alloc)?;
    let secs = listen(alloc, address, links)?;
    let mut client = Client::over(alloc, frames, secs.min(LATEST_MOMENT));
    let outcome = take_turns(alloc, &mut client, turns, buf.as_mut_slice(), links)?;
    Ok(Exchanged {
        replies: client.into_replies(),
        outcome,
    })
}

/// A buffer for the bytes that a turn reads.
fn buffer(alloc: Global) -> Result<Vec<u8>, Memory>
    ensures { IfOk result (λ buf. vec_len buf ≡ PIECE_LIMIT) }
{
    Ok(vec![in alloc; 0; PIECE_LIMIT]?)
}

/// Connects, and gives the first reading of the clock, in seconds since 1970.
fn listen<L: Links>(alloc: Global, address: &Text, links: &mut L) -> Result<u64, RunFault>
    ensures listens { AddsRun (L.report links.old) (L.report links.new)
        (ListensOn address.now result) }
    ensures links_fault { result ≡ Err RunFault.Links →
        Rose (L.report links.old).faults (L.report links.new).faults }
    ensures links_quiet { result ≢ Err RunFault.Links → (L.report links.new).faults ≡
        (L.report links.old).faults }
{
    match links.listen(alloc, address) {
        ListenAnswer::Ready { secs } => Ok(secs),
        ListenAnswer::Failed => Err(RunFault::Links),
        ListenAnswer::Memory => Err(RunFault::Memory),
    }
}

/// Takes turns until the exchange is over, or until `turns` of them were taken. Then the link is closed, and the
/// exchange is lost.
fn take_turns<L: Links>(
    alloc: Global,
    client: &mut Client,
    turns: u64,
    buf: &mut [u8],
    links: &mut L,
) -> Result<Outcome, RunFault>
    requires whole { length buf.old ≡ PIECE_LIMIT }
    requires going { is_ended client.old ≡ false }
    requires known { IsUnclosed (L.report links.old).log (link_of client.old) }
    ensures takes { AddsRun (L.report links.old) (L.report links.new)
        (TakesAll client.old client.new turns result) }
    ensures links_fault { result ≡ Err RunFault.Links →
        Rose (L.report links.old).faults (L.report links.new).faults }
    ensures links_quiet { result ≢ Err RunFault.Links → (L.report links.new).faults ≡
        (L.report links.old).faults }
{
    for _taken in 0..turns {
        if let Some(outcome) = take_turn(alloc, client, buf, links)? {
            return Ok(outcome);
        }
    }
    client.close(links);
    Ok(Outcome::Lost)
}
