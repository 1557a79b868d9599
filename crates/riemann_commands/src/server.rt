ghost use Rattle.std.specs.Prelude.{◌≡◌, ℕ, List};
ghost use Rattle.command_io.specs.Reports.{reports};
ghost use Rattle.riemann_commands.specs.Carrying.{CarriesOut, IsWithinLimits};
ghost use Rattle.riemann_commands.specs.Commands.{IsCommandOf};
ghost use Rattle.riemann_commands.specs.Promises.{Promises, sameness};

use crate::command::{Command, command_of};
use command_client::{query, send};
use command_files::{feed, replay};
use command_io::{Status, USAGE, put_line};
use command_record::{record, resume};
use command_serve::{load, serve};
use command_test::run_tests;
use command_texts::{check, graphite};
use disk_port::Disk;
use ev_types::Text;
use ports::{Links, Sink, Store};
use pred_eval::Patterns;
use std::alloc::Global;
use step_count::{Ledger, Steps};

/// Carries out the command that matches the arguments, and gives how it ended.
///
/// | Arguments | What it does |
/// |---|---|
/// | `feed CONFIG FILE` | runs a server over one link that sends the bytes of the file; notice lines go to `err`, and then the replies to `out` |
/// | `check CONFIG` | reads a configuration, builds its patterns, and writes its canonical text to `out` |
/// | `replay CONFIG SCRIPT` | runs a server over links that play the script; notice lines go to `out`, and then a line for each link |
/// | `serve CONFIG` | runs a server over `links`; notice lines go to `out` |
/// | `serve CONFIG --turns N` | the same, for at most N turns |
/// | `load CONFIG N START` | runs a server over a generated load of N events; counts notices, and writes one line to `out` |
/// | `graphite FILE` | converts lines after Graphite's plain text to frames, which go to `out`, and then a line for each that is refused to `err` |
/// | `graphite FILE --host K` | the same, where part K of a path is the host |
/// | `test CONFIG TESTS` | runs tests of a configuration, and writes a line for each to `out` |
/// | `send ADDRESS FILE` | sends the frames of the file over `links`, which connect to the address, and writes the replies to `out` |
/// | `send ADDRESS FILE --turns N` | the same, in at most N turns |
/// | `query ADDRESS TEXT` | asks the query over `links`, and writes the reply to `out` |
/// | `query ADDRESS TEXT --turns N` | the same, in at most N turns |
/// | `record CONFIG JOURNAL` | runs a server over `links`, as `serve` does, and records its turns in a journal in the file JOURNAL of `disk` |
/// | `resume JOURNAL` | goes on with the run of that journal over `links` |
///
/// Patterns are built by `patterns`, and the forks that are entered are counted in `steps`. A status other than `Done`,
/// `SinkFault` and `Verdict` has a line on `err`, which is cut if a write to `err` fails.
pub fn riemann<S: Store, L: Links, D: Disk, O: Sink, E: Sink, P: Patterns, G: Ledger>(
    alloc: Global,
    words: &[Text],
    store: &mut S,
    links: &mut L,
    disk: &mut D,
    out: &mut O,
    err: &mut E,
    patterns: &mut P,
    steps: &mut Steps<G>,
) -> Status
    ensures { Promises words.now (reports (S.report store.old) (L.report links.old)
        (O.report out.old) (E.report err.old) (P.report patterns.old) steps.old.forks)
        (reports (S.report store.new) (L.report links.new) (O.report out.new) (E.report err.new)
        (P.report patterns.new) steps.new.forks) (D.report disk.old) (D.report disk.new)
        (sameness (store.new ≡ store.old) (links.new ≡ links.old) (disk.new ≡ disk.old)
        (out.new ≡ out.old) (err.new ≡ err.old) (patterns.new ≡ patterns.old)
        (steps.new ≡ steps.old)) result }
{
    match command_of(words) {
        Some(command) => carry_out(
            alloc, command, store, links, disk, out, err, patterns, steps,
        ),
        None => {
            put_line(err, &[USAGE]);
            Status::Usage
        }
    }
}

/// Carries out the command.
fn carry_out<S: Store, L: Links, D: Disk, O: Sink, E: Sink, P: Patterns, G: Ledger>(
    alloc: Global,
    command: Command,
    store: &mut S,
    links: &mut L,
    disk: &mut D,
    out: &mut O,
    err: &mut E,
    patterns: &mut P,
    steps: &mut Steps<G>,
) -> Status
    requires { IsWithinLimits command }
    ensures { (words : List (List ℕ)) → IsCommandOf words command.entry
        → CarriesOut words command.entry (reports (S.report store.old) (L.report links.old)
        (O.report out.old) (E.report err.old) (P.report patterns.old) steps.old.forks)
        (reports (S.report store.new) (L.report links.new) (O.report out.new) (E.report err.new)
        (P.report patterns.new) steps.new.forks) (D.report disk.old) (D.report disk.new)
        (sameness (store.new ≡ store.old) (links.new ≡ links.old) (disk.new ≡ disk.old)
        (out.new ≡ out.old) (err.new ≡ err.old) (patterns.new ≡ patterns.old)
        (steps.new ≡ steps.old)) result }
{
    match command {
        Command::Feed { config, file } => {
            feed(alloc, config, file, store, out, err, patterns, steps)
        }
        Command::Check { config } => check(alloc, config, store, out, err, patterns),
        Command::Replay { config, script } => {
            replay(alloc, config, script, store, out, err, patterns, steps)
        }
        Command::Serve { config, turns } => serve(
            alloc, config, turns, store, links, out, err, patterns, steps,
        ),
        Command::Load {
            config,
            count,
            start,
        } => load(
            alloc, config, count, start, store, out, err, patterns, steps,
        ),
        Command::Graphite { file, host_part } => {
            graphite(alloc, file, host_part, store, out, err)
        }
        Command::Test { config, tests } => run_tests(
            alloc, config, tests, store, out, err, patterns, steps,
        ),
        Command::Send {
            address,
            file,
            turns,
        } => send(alloc, address, file, turns, store, links, out, err),
        Command::Query {
            address,
            text,
            turns,
        } => query(alloc, address, text, turns, links, out, err),
        Command::Record { config, journal } => record(
            alloc, config, journal, store, links, disk, out, err, patterns, steps,
        ),
        Command::Resume { journal } => {
            resume(alloc, journal, links, disk, out, err, patterns, steps)
        }
    }
}
