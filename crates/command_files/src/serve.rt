ghost use Rattle.std.specs.Prelude.{◌≡◌, ℕ, List, [], length};
ghost use Rattle.command_setup.specs.command_io.Endings.{IsComplete, IsRefusalOrMemory, status_of};
ghost use Rattle.ports.specs.Calls.{LinksReport};
ghost use Rattle.ports.specs.Reading.{StoreReport};
ghost use Rattle.command_setup.specs.command_io.Reports.{reports};
ghost use Rattle.command_files.specs.Feeding.{WritesReplies};
ghost use Rattle.command_files.specs.Feeds.{BytesEnd};
ghost use Rattle.ev_types.specs.Interval.{IsInterval};
ghost use Rattle.command_files.specs.Files.{IsAfterRun};
ghost use Rattle.framing.specs.Frames.{partial};
ghost use Rattle.ports.specs.Pieces.{feed_script};

use crate::left::bytes_left;
use crate::run::run_script;
use command_setup::command_io::{Ending, put_all};
use command_setup::ending_of_fault;
use command_setup::hub_run::{Setup, feeds_are_answered};
use ev_types::Blob;
use ports::{PIECE_LIMIT, ScriptLinks, Sink, feed_links};
use pred_eval::Patterns;
use std::alloc::Global;
use step_count::{Ledger, Steps};

/// Runs a server to which the bytes come on link 0. The notices are written to `err`, and then the
/// replies to `out`.
pub(crate) fn serve_bytes<'a, O: Sink, E: Sink, P: Patterns, G: Ledger>(
    alloc: Global,
    setup: Setup,
    bytes: Blob,
    out: &mut O,
    err: &mut E,
    patterns: &mut P,
    steps: &mut Steps<G>,
) -> Ending<'a>
    requires interval { IsInterval setup.expiry }
    ensures ends { (store store' : StoreReport) (links : LinksReport) →
        BytesEnd setup bytes (reports store links (O.report out.old) (E.report err.old)
        (P.report patterns.old) steps.old.forks)
        (reports store' links (O.report out.new) (E.report err.new) (P.report patterns.new)
        steps.new.forks) result }
    ensures quiet { IsComplete result → ((O.report out.new).faults ≡ (O.report out.old).faults) ×
        ((E.report err.new).faults ≡ (E.report err.old).faults) }
    ensures after { IsAfterRun result }
    ensures untouched { IsRefusalOrMemory (status_of result) → out.new ≡ out.old }
{
    let left = bytes_left(bytes.as_slice());
    match feed_links(alloc, bytes) {
        Ok(links) => serve_links(alloc, setup, left, links, out, err, patterns, steps),
        Err(_) => Ending::OutOfMemory,
    }
}

/// Runs a server over links that hand out bytes, of which `left` come after the last whole frame.
fn serve_links<'a, O: Sink, E: Sink, P: Patterns, G: Ledger>(
    alloc: Global,
    setup: Setup,
    left: usize,
    mut links: ScriptLinks,
    out: &mut O,
    err: &mut E,
    patterns: &mut P,
    steps: &mut Steps<G>,
) -> Ending<'a>
    requires interval { IsInterval setup.expiry }
    requires begins { links.log ≡ [] }
    ensures ends { (bytes : List ℕ) (store store' : StoreReport) (given : LinksReport) →
        links.script ≡ feed_script PIECE_LIMIT bytes → left ≡ length (partial bytes) →
        BytesEnd setup bytes (reports store given (O.report out.old) (E.report err.old)
        (P.report patterns.old) steps.old.forks)
        (reports store' given (O.report out.new) (E.report err.new) (P.report patterns.new)
        steps.new.forks) result }
    ensures quiet { IsComplete result → ((O.report out.new).faults ≡ (O.report out.old).faults) ×
        ((E.report err.new).faults ≡ (E.report err.old).faults) }
    ensures after { IsAfterRun result }
    ensures untouched { IsRefusalOrMemory (status_of result) → out.new ≡ out.old }
{
    match run_script(alloc, setup, &mut links, err, patterns, steps) {
        Ok(()) => {
            feeds_are_answered();
            write_replies(links.taken(0).as_slice(), left, out)
        }
        Err(fault) => ending_of_fault(fault),
    }
}

/// Writes the replies to a file, of which `left` bytes come after the last whole frame.
fn write_replies<'a, O: Sink>(replies: &[u8], left: usize, out: &mut O) -> Ending<'a>
    ensures after { IsAfterRun result }
    ensures writes { (rest : List ℕ) → left ≡ length rest →
        WritesReplies replies.now rest (O.report out.old) (O.report out.new) result }
    ensures quiet { IsComplete result → (O.report out.new).faults ≡ (O.report out.old).faults }
    ensures untouched { IsRefusalOrMemory (status_of result) → out.new ≡ out.old }
{
    let Ok(()) = put_all(out, replies) else {
        return Ending::WriteFailed;
    };
    if left == 0 {
        Ending::Finished
    } else {
        Ending::BytesLeft { count: left }
    }
}
