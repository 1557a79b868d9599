ghost use Rattle.std.specs.Prelude.{◌≡◌, ◌≢◌, ◌≤◌, ℕ, length};
ghost use Rattle.command_client.specs.Asks.{Asks, QueryEnds};
ghost use Rattle.command_client.specs.Endings.{status_of};
ghost use Rattle.command_io.specs.Endings.{HasNoLine, IsRefusal, IsRefusalOrMemory};
ghost use Rattle.command_io.specs.Reports.{reports};
ghost use Rattle.command_io.specs.hub_meaning.Verdicts.{PatternsReport};
ghost use Rattle.ports.specs.Counts.{Rose};
ghost use Rattle.ports.specs.Reading.{StoreReport};
ghost use Rattle.query_lang.specs.declared.read.TheConstants.{MAX_BYTES};

use crate::ending::{ClientEnding, report_ending};
use crate::exchange::have_exchange;
use crate::law::queries_are_requests;
use crate::request::query_frame;
use command_io::{Ending, Status};
use ev_types::Text;
use ports::{Links, Sink};
use std::alloc::Global;

/// Carries out `query ADDRESS TEXT`: the query is asked of the server at `address`, a text `HOST:PORT`, and the reply
/// is written to `out`. It takes at most `turns` turns.
///
/// The lines of the reply, the statuses and their lines are those of [`crate::send`], without those of a file.
pub fn query<L: Links, O: Sink, E: Sink>(
    alloc: Global,
    address: &Text,
    text: &Text,
    turns: u64,
    links: &mut L,
    out: &mut O,
    err: &mut E,
) -> Status
    requires { length text.now ≤ MAX_BYTES }
    ensures promise { (store : StoreReport) (patterns : PatternsReport) (forks : ℕ) →
        Asks address.now text.now turns (reports store (L.report links.old) (O.report out.old)
        (E.report err.old) patterns forks)
        (reports store (L.report links.new) (O.report out.new) (E.report err.new) patterns forks)
        result }
    ensures no_file { result ≢ Status.ReadFault }
    ensures sink_fault { result ≡ Status.SinkFault →
        Rose (O.report out.old).faults (O.report out.new).faults }
    ensures link_fault { result ≡ Status.LinkFault →
        Rose (L.report links.old).faults (L.report links.new).faults }
    ensures not_usage { result ≢ Status.Usage }
    ensures untouched { IsRefusalOrMemory result → out.new ≡ out.old }
    ensures uncalled { IsRefusal result → links.new ≡ links.old }
    ensures no_line { HasNoLine result → err.new ≡ err.old }
{
    queries_are_requests();
    let ending = ask(alloc, address, text, turns, links, out);
    report_ending(ending, err)
}

/// Asks the query, and writes the reply.
fn ask<'a, L: Links, O: Sink>(
    alloc: Global,
    address: &Text,
    text: &Text,
    turns: u64,
    links: &mut L,
    out: &mut O,
) -> ClientEnding<'a>
    requires { length text.now ≤ MAX_BYTES }
    ensures ends { QueryEnds address.now text.now turns (L.report links.old) (L.report links.new)
        (O.report out.old) (O.report out.new) result }
    ensures link_fault { result ≡ ClientEnding.Shared Ending.LinksFailed →
        Rose (L.report links.old).faults (L.report links.new).faults }
    ensures links_quiet { result ≢ ClientEnding.Shared Ending.LinksFailed →
        (L.report links.new).faults ≡ (L.report links.old).faults }
    ensures untouched { IsRefusalOrMemory (status_of result) → out.new ≡ out.old }
    ensures accepted { IsRefusal (status_of result) → ⊥ }
{
    queries_are_requests();
    match query_frame(alloc, text) {
        Ok(frames) => have_exchange(alloc, address, frames, 1, turns, links, out),
        Err(_) => ClientEnding::Shared(Ending::OutOfMemory),
    }
}
