ghost use Rattle.std.specs.Prelude.{◌≡◌, ◌≢◌, ℕ};
ghost use Rattle.command_client.specs.Endings.{HasRead, status_of};
ghost use Rattle.command_client.specs.Sends.{FileEnds, FramesEnd, ReadsOnce, Sends};
ghost use Rattle.command_io.specs.Endings.{HasNoLine, IsRefusal, IsRefusalOrMemory};
ghost use Rattle.command_io.specs.Reports.{reports};
ghost use Rattle.command_io.specs.hub_meaning.Verdicts.{PatternsReport};
ghost use Rattle.ports.specs.Counts.{Rose};

use crate::ending::{ClientEnding, report_ending};
use crate::exchange::have_exchange;
use command_io::{Ending, FILE_LIMIT, Status, read_file};
use ev_types::{Blob, Text};
use ports::{Links, Sink, Store};
use riemann_client::count_requests;
use std::alloc::Global;

/// Carries out `send ADDRESS FILE`: the frames of the file are sent as requests to the server at `address`, a text
/// `HOST:PORT`, and each reply that is accepted is written to `out`. It takes at most `turns` turns.
///
/// The lines of a reply are its number, from 0, and `ok`, or `error` and the quoted reason if it has one; and then a
/// line for each event, as lines of notices write them.
///
/// | Status | When | Line on `err` |
/// |---|---|---|
/// | `Done` | each request has a reply, and no other reply came with them | no |
/// | `Unanswered` | requests are left without a reply, and no reply can come, or no turn is left | yes |
/// | `BadReply` | a reply came whole before its request was sent whole, or is not a message | yes |
/// | `SinkFault` | the lines of the replies could not be written; `out` got only a prefix of them | no |
/// | `LinkFault` | the address can't be connected to, or the links failed | yes |
/// | `Truncated` | bytes are left in the file after the last whole frame | yes |
/// | `ReadFault` | the file could not be read | yes |
/// | `TooLong` | the file has over [`FILE_LIMIT`] bytes | yes |
/// | `Memory` | out of memory | yes |
///
/// After the last five `out` gets nothing, and after `Truncated`, `ReadFault` and `TooLong` no link was called. A write
/// of the line on `err` that fails cuts it, and does not change the status.
pub fn send<S: Store, L: Links, O: Sink, E: Sink>(
    alloc: Global,
    address: &Text,
    file: &Text,
    turns: u64,
    store: &mut S,
    links: &mut L,
    out: &mut O,
    err: &mut E,
) -> Status
    ensures promise { (patterns : PatternsReport) (forks : ℕ) →
        Sends address.now file.now turns (reports (S.report store.old) (L.report links.old)
        (O.report out.old) (E.report err.old) patterns forks)
        (reports (S.report store.new) (L.report links.new) (O.report out.new) (E.report err.new)
        patterns forks) result }
    ensures read_fault { result ≡ Status.ReadFault →
        Rose (S.report store.old).faults (S.report store.new).faults }
    ensures sink_fault { result ≡ Status.SinkFault →
        Rose (O.report out.old).faults (O.report out.new).faults }
    ensures link_fault { result ≡ Status.LinkFault →
        Rose (L.report links.old).faults (L.report links.new).faults }
    ensures not_usage { result ≢ Status.Usage }
    ensures untouched { IsRefusalOrMemory result → out.new ≡ out.old }
    ensures uncalled { IsRefusal result → links.new ≡ links.old }
    ensures no_line { HasNoLine result → err.new ≡ err.old }
{
    let ending = send_file(alloc, address, file, turns, store, links, out);
    report_ending(ending, err)
}

/// Reads the file, and sends its frames.
fn send_file<'a, S: Store, L: Links, O: Sink>(
    alloc: Global,
    address: &Text,
    file: &'a Text,
    turns: u64,
    store: &mut S,
    links: &mut L,
    out: &mut O,
) -> ClientEnding<'a>
    ensures ends { FileEnds address.now file.now turns (S.report store.old) (S.report store.new)
        (L.report links.old) (L.report links.new) (O.report out.old) (O.report out.new) result }
    ensures reads { ReadsOnce file.now (S.report store.old).reads (S.report store.new).reads
        result }
    ensures quiet { HasRead result → (S.report store.new).faults ≡ (S.report store.old).faults }
    ensures read_fault { status_of result ≡ Status.ReadFault →
        Rose (S.report store.old).faults (S.report store.new).faults }
    ensures link_fault { result ≡ ClientEnding.Shared Ending.LinksFailed →
        Rose (L.report links.old).faults (L.report links.new).faults }
    ensures links_quiet { result ≢ ClientEnding.Shared Ending.LinksFailed →
        (L.report links.new).faults ≡ (L.report links.old).faults }
    ensures untouched { IsRefusalOrMemory (status_of result) → out.new ≡ out.old }
    ensures uncalled { IsRefusal (status_of result) → links.new ≡ links.old }
{
    match read_file(alloc, file, FILE_LIMIT, store) {
        Ok(frames) => send_frames(alloc, address, frames, turns, links, out),
        Err(fault) => ClientEnding::Shared(fault.ending(file.as_str(), FILE_LIMIT)),
    }
}

/// Sends the frames, after which no byte is left.
fn send_frames<'a, L: Links, O: Sink>(
    alloc: Global,
    address: &Text,
    frames: Blob,
    turns: u64,
    links: &mut L,
    out: &mut O,
) -> ClientEnding<'a>
    ensures ends { FramesEnd address.now frames turns (L.report links.old) (L.report links.new)
        (O.report out.old) (O.report out.new) result }
    ensures link_fault { result ≡ ClientEnding.Shared Ending.LinksFailed →
        Rose (L.report links.old).faults (L.report links.new).faults }
    ensures links_quiet { result ≢ ClientEnding.Shared Ending.LinksFailed →
        (L.report links.new).faults ≡ (L.report links.old).faults }
    ensures untouched { IsRefusalOrMemory (status_of result) → out.new ≡ out.old }
    ensures accepted { IsRefusal (status_of result) → ⊥ }
{
    let counted = count_requests(frames.as_slice());
    if counted.left > 0 {
        return ClientEnding::Shared(Ending::BytesLeft {
            count: counted.left,
        });
    }
    have_exchange(alloc, address, frames, counted.requests, turns, links, out)
}
