//! An exchange, and the lines of its replies.

ghost use Rattle.std.specs.Prelude.{◌≡◌, ◌≢◌, length};
ghost use Rattle.command_client.specs.Endings.{ending_of, status_of};
ghost use Rattle.command_client.specs.Exchanges.{ExchangeEnds, WritesReplies};
ghost use Rattle.command_io.specs.Endings.{IsRefusal, IsRefusalOrMemory};
ghost use Rattle.framing.specs.Frames.{frames_of};
ghost use Rattle.ports.specs.Counts.{Rose};

use crate::ending::{ClientEnding, ending_of};
use crate::reply::replies_text;
use client_run::{Exchanged, RunFault, exchange};
use command_io::{Ending, put_all};
use ev_types::{Blob, Text};
use ports::{Links, Sink};
use std::alloc::Global;

/// Has the exchange of the requests, whose number this is, and writes the lines of their replies to `out`.
pub(crate) fn have_exchange<'a, L: Links, O: Sink>(
    alloc: Global,
    address: &Text,
    frames: Blob,
    requests: usize,
    turns: u64,
    links: &mut L,
    out: &mut O,
) -> ClientEnding<'a>
    requires { requests ≡ length (frames_of frames) }
    ensures ends { ExchangeEnds address.now frames turns (L.report links.old) (L.report links.new)
        (O.report out.old) (O.report out.new) result }
    ensures link_fault { result ≡ ClientEnding.Shared Ending.LinksFailed →
        Rose (L.report links.old).faults (L.report links.new).faults }
    ensures links_quiet { result ≢ ClientEnding.Shared Ending.LinksFailed →
        (L.report links.new).faults ≡ (L.report links.old).faults }
    ensures untouched { IsRefusalOrMemory (status_of result) → out.new ≡ out.old }
    ensures accepted { IsRefusal (status_of result) → ⊥ }
{
    match exchange(alloc, address, frames, turns, links) {
        Ok(exchanged) => write_replies(alloc, requests, &exchanged, out),
        Err(RunFault::Links) => ClientEnding::Shared(Ending::LinksFailed),
        Err(RunFault::Memory) => ClientEnding::Shared(Ending::OutOfMemory),
    }
}

/// Writes the lines of the replies to so many requests.
#[tactic(auto, using(crate::proofs::ExchangeLaws::outcome_goes_on, crate::proofs::ExchangeLaws::outcome_is_accepted, crate::proofs::ExchangeLaws::outcome_of_links, crate::proofs::ExchangeLaws::writes_outcome))]
fn write_replies<'a, O: Sink>(
    alloc: Global,
    requests: usize,
    exchanged: &Exchanged,
    out: &mut O,
) -> ClientEnding<'a>
    ensures writes { WritesReplies requests exchanged.now (O.report out.old) (O.report out.new)
        result }
    ensures links_work { result ≢ ClientEnding.Shared Ending.LinksFailed }
    ensures untouched { IsRefusalOrMemory (status_of result) → out.new ≡ out.old }
    ensures accepted { IsRefusal (status_of result) → ⊥ }
{
    let Ok(text) = replies_text(alloc, exchanged.replies.as_slice()) else {
        return ClientEnding::Shared(Ending::OutOfMemory);
    };
    match put_all(out, text.as_slice()) {
        Ok(()) => ending_of(exchanged.outcome, exchanged.replies.len(), requests),
        Err(_) => ClientEnding::Shared(Ending::WriteFailed),
    }
}
