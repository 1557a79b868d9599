ghost use Rattle.std.specs.Prelude.{◌≡◌, ◌≢◌, ◌⊎◌};
ghost use Rattle.command_setup.specs.command_io.Endings.{IsComplete, IsRefusalOrMemory, status_of};
ghost use Rattle.ports.specs.Calls.{LinksReport};
ghost use Rattle.command_setup.specs.command_io.Reports.{reports};
ghost use Rattle.command_files.specs.Feeds.{FeedEnds, Feeds, FileEnds};
ghost use Rattle.ev_types.specs.Interval.{IsInterval};
ghost use Rattle.command_files.specs.Files.{OtherReads};
ghost use Rattle.ports.specs.Counts.{Rose};

use crate::read::read_other;
use crate::serve::serve_bytes;
use command_setup::command_io::{Ending, Status, report};
use command_setup::fetch_setup;
use command_setup::hub_run::Setup;
use ev_types::Text;
use ports::{Sink, Store};
use pred_eval::Patterns;
use std::alloc::Global;
use step_count::{Ledger, Steps};

/// Carries out `feed CONFIG FILE`: it runs a server over link 0, which sends the bytes of the file.
///
/// In the run a line for each notice goes to `err`. After it all replies to link 0 go to `out`, and then the line of
/// the ending to `err`. A write of that line that fails cuts it, and does not change the status.
///
/// | Status | When | Line on `err` |
/// |---|---|---|
/// | `Done` | all is written, and no byte is left after the last whole frame | no |
/// | `Truncated` | all is written, and bytes are left after the last whole frame | yes |
/// | `SinkFault` | a notice line could not be written, and `out` gets nothing; or `out` got only a prefix of the replies | no |
/// | `Config` | the configuration is not valid, or a pattern of it is refused | yes |
/// | `ReadFault` | one of the two files could not be read | yes |
/// | `TooLong` | the configuration has over `command_io::CONFIG_LIMIT` bytes, or the file over `command_io::FILE_LIMIT` | yes |
/// | `Memory` | out of memory; `out` gets nothing, and `err` may have got notice lines | yes |
///
/// After `Config`, `ReadFault` and `TooLong` nothing is run, and only that line is written.
pub fn feed<S: Store, O: Sink, E: Sink, P: Patterns, G: Ledger>(
    alloc: Global,
    config: &Text,
    file: &Text,
    store: &mut S,
    out: &mut O,
    err: &mut E,
    patterns: &mut P,
    steps: &mut Steps<G>,
) -> Status
    ensures promise { (links : LinksReport) →
        Feeds config.now file.now (reports (S.report store.old) links (O.report out.old)
        (E.report err.old) (P.report patterns.old) steps.old.forks)
        (reports (S.report store.new) links (O.report out.new) (E.report err.new)
        (P.report patterns.new) steps.new.forks) (patterns.new ≡ patterns.old) result }
    ensures read_fault { result ≡ Status.ReadFault →
        Rose (S.report store.old).faults (S.report store.new).faults }
    ensures sink_fault { result ≡ Status.SinkFault →
        Rose (O.report out.old).faults (O.report out.new).faults ⊎ Rose (E.report err.old).faults
        (E.report err.new).faults }
    ensures links_work { result ≢ Status.LinkFault }
    ensures untouched { IsRefusalOrMemory result → out.new ≡ out.old }
{
    let ending = feed_files(alloc, config, file, store, out, err, patterns, steps);
    report(ending, err)
}

/// Reads the configuration and the file, and feeds the file.
fn feed_files<'a, S: Store, O: Sink, E: Sink, P: Patterns, G: Ledger>(
    alloc: Global,
    config: &'a Text,
    file: &'a Text,
    store: &mut S,
    out: &mut O,
    err: &mut E,
    patterns: &mut P,
    steps: &mut Steps<G>,
) -> Ending<'a>
    ensures ends { (links : LinksReport) → FeedEnds config.now file.now
        (reports (S.report store.old) links (O.report out.old) (E.report err.old)
        (P.report patterns.old) steps.old.forks)
        (reports (S.report store.new) links (O.report out.new) (E.report err.new)
        (P.report patterns.new) steps.new.forks) (patterns.new ≡ patterns.old) result }
    ensures quiet { IsComplete result → ((S.report store.new).faults ≡ (S.report store.old).faults)
        × ((O.report out.new).faults ≡ (O.report out.old).faults) ×
        ((E.report err.new).faults ≡ (E.report err.old).faults) }
    ensures untouched { IsRefusalOrMemory (status_of result) → out.new ≡ out.old }
{
    match fetch_setup(alloc, config, store, patterns) {
        Ok(setup) => feed_file(alloc, setup, file, store, out, err, patterns, steps),
        Err(ending) => ending,
    }
}

/// Reads the file, and feeds it.
fn feed_file<'a, S: Store, O: Sink, E: Sink, P: Patterns, G: Ledger>(
    alloc: Global,
    setup: Setup,
    file: &'a Text,
    store: &mut S,
    out: &mut O,
    err: &mut E,
    patterns: &mut P,
    steps: &mut Steps<G>,
) -> Ending<'a>
    requires interval { IsInterval setup.expiry }
    ensures ends { (links : LinksReport) → FileEnds setup file.now
        (reports (S.report store.old) links (O.report out.old) (E.report err.old)
        (P.report patterns.old) steps.old.forks)
        (reports (S.report store.new) links (O.report out.new) (E.report err.new)
        (P.report patterns.new) steps.new.forks) result }
    ensures reads { OtherReads file.now (S.report store.old).reads (S.report store.new).reads
        result }
    ensures quiet { IsComplete result → ((S.report store.new).faults ≡ (S.report store.old).faults)
        × ((O.report out.new).faults ≡ (O.report out.old).faults) ×
        ((E.report err.new).faults ≡ (E.report err.old).faults) }
    ensures untouched { IsRefusalOrMemory (status_of result) → out.new ≡ out.old }
{
    match read_other(alloc, file, store) {
        Ok(bytes) => serve_bytes(alloc, setup, bytes, out, err, patterns, steps),
        Err(ending) => ending,
    }
}
