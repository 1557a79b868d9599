ghost use Rattle.std.specs.Prelude.{◌≡◌, ◌↔◌, IfOk, IsTrue, OnErr};
ghost use Rattle.command_io.specs.Endings.{GotLineOf};
ghost use Rattle.command_io.specs.Lines.{memory_line, usage_line};
ghost use Rattle.command_io.specs.Reports.{reports};
ghost use Rattle.riemann_commands.specs.Words.{IsOfClient};
ghost use Rattle.riemann_commands.specs.Promises.{IsNoOption, Promises, WritesText, help_words, sameness, version_words};

use crate::server::riemann;
use command_io::{MEMORY_LINE, Status, USAGE, put_all, put_line};
use disk_port::Disk;
use ev_types::Text;
use ports::{Links, Sink, Store};
use pred_eval::Patterns;
use std::alloc::Global;
use std::rt::Env;
use std::{env, io};
use step_count::{Ledger, Steps};

pub(crate) const VERSION: &str = "riemann 0.1.0\n";

pub(crate) const HELP: &str = "usage: riemann COMMAND

commands:
  feed CONFIG FILE        answer the messages in FILE; the replies go to standard output,
                          the lines of notices to standard error
  check CONFIG            write the canonical text of the configuration CONFIG
  replay CONFIG SCRIPT    play the links in SCRIPT; write the lines of notices,
                          and then what each link was sent
  serve CONFIG            serve clients; write the lines of notices
  serve CONFIG --turns N  the same, for at most N turns
  record CONFIG JOURNAL   serve clients, and keep a journal of the run in the file JOURNAL
  resume JOURNAL          go on with the run of the journal
  load CONFIG N START     serve a generated load of N events in memory; write what it came to
  graphite FILE           convert lines of a path, a value and a time to frames
  graphite FILE --host K  the same; part K of a path is the host
  test CONFIG TESTS       run the tests TESTS of the configuration CONFIG; write a line for each
  send ADDRESS FILE       send the messages in FILE to the server at ADDRESS, as HOST:PORT;
                          write its replies
  query ADDRESS TEXT      ask the server at ADDRESS the query TEXT; write its reply
  send .. --turns N, query .. --turns N
                          the same, for at most N turns of at most 100 milliseconds

options:
  --help                  write this text
  --version               write the version
";

/// Why the arguments of the command line could not be read.
#[derive(Drop)]
pub enum ArgumentsFault {
    /// One of them is not UTF-8.
    NotUtf8,
    Memory,
}

/// The arguments of the command line after the program's name.
pub fn arguments<R: Env + AllocGlobal>(rt: &R) -> Result<Vec<Text>, ArgumentsFault> {
    let all = env::args(rt).map_err(fault_of)?;
    let mut arguments = Vec::new(rt.alloc());
    for argument in all.skip(1) {
        arguments
            .push(Text::from_string(argument))
            .map_err(|_| ArgumentsFault::Memory)?;
    }
    Ok(arguments)
}

fn fault_of(error: io::Error) -> ArgumentsFault {
    if error.kind() == io::ErrorKind::OutOfMemory {
        ArgumentsFault::Memory
    } else {
        ArgumentsFault::NotUtf8
    }
}

/// Whether the first argument names a command of a client. Its links are to connect to a server.
pub fn is_of_client(arguments: &Result<Vec<Text>, ArgumentsFault>) -> bool
    ensures { IfOk arguments.now (λ given. IsTrue result ↔ IsOfClient given.items) }
{
    match arguments {
        Ok(words) => names_client(words.as_slice()),
        Err(_) => false,
    }
}

fn names_client(words: &[Text]) -> bool
    ensures { IsTrue result ↔ IsOfClient words.now }
{
    match words.first() {
        Some(command) => command.is(b"send") || command.is(b"query"),
        None => false,
    }
}

/// Answers `--help` and `--version`, for which it writes to `out` alone, and carries out any other command. Arguments
/// that could not be read have the status and the line of their fault, and nothing but `err` is written to.
pub fn run<S: Store, L: Links, D: Disk, O: Sink, E: Sink, P: Patterns, G: Ledger>(
    alloc: Global,
    arguments: Result<Vec<Text>, ArgumentsFault>,
    store: &mut S,
    links: &mut L,
    disk: &mut D,
    out: &mut O,
    err: &mut E,
    patterns: &mut P,
    steps: &mut Steps<G>,
) -> Status
    ensures command { IfOk arguments (λ given. IsNoOption given.items →
        Promises given.items (reports (S.report store.old) (L.report links.old) (O.report out.old)
        (E.report err.old) (P.report patterns.old) steps.old.forks)
        (reports (S.report store.new) (L.report links.new) (O.report out.new) (E.report err.new)
        (P.report patterns.new) steps.new.forks) (D.report disk.old) (D.report disk.new)
        (sameness (store.new ≡ store.old) (links.new ≡ links.old) (disk.new ≡ disk.old)
        (out.new ≡ out.old) (err.new ≡ err.old) (patterns.new ≡ patterns.old)
        (steps.new ≡ steps.old)) result) }
    ensures help { IfOk arguments (λ given. given.items ≡ help_words →
        WritesText HELP.now (O.report out.old) (O.report out.new) result) }
    ensures help_alone { IfOk arguments (λ given. given.items ≡ help_words →
        (store.new ≡ store.old) × (links.new ≡ links.old) × (disk.new ≡ disk.old) ×
        (err.new ≡ err.old) × (patterns.new ≡ patterns.old) × (steps.new ≡ steps.old)) }
    ensures version { IfOk arguments (λ given. given.items ≡ version_words →
        WritesText VERSION.now (O.report out.old) (O.report out.new) result) }
    ensures version_alone { IfOk arguments (λ given. given.items ≡ version_words →
        (store.new ≡ store.old) × (links.new ≡ links.old) × (disk.new ≡ disk.old) ×
        (err.new ≡ err.old) × (patterns.new ≡ patterns.old) × (steps.new ≡ steps.old)) }
    ensures not_utf8 { arguments ≡ Err ArgumentsFault.NotUtf8 → (result ≡ Status.Usage) ×
        GotLineOf usage_line (E.report err.old) (E.report err.new) }
    ensures memory { arguments ≡ Err ArgumentsFault.Memory → (result ≡ Status.Memory) ×
        GotLineOf memory_line (E.report err.old) (E.report err.new) }
    ensures unread { OnErr arguments ((store.new ≡ store.old) × (links.new ≡ links.old) ×
        (disk.new ≡ disk.old) × (out.new ≡ out.old) × (patterns.new ≡ patterns.old) ×
        (steps.new ≡ steps.old)) }
{
    match arguments {
        Ok(arguments) => match arguments.as_slice() {
            [option] if option.is(b"--help") => put_text(out, HELP),
            [option] if option.is(b"--version") => put_text(out, VERSION),
            words => riemann(alloc, words, store, links, disk, out, err, patterns, steps),
        },
        Err(ArgumentsFault::NotUtf8) => {
            put_line(err, &[USAGE]);
            Status::Usage
        }
        Err(ArgumentsFault::Memory) => {
            put_line(err, &[MEMORY_LINE]);
            Status::Memory
        }
    }
}

/// Writes the text of `--help` or `--version`.
fn put_text<O: Sink>(out: &mut O, text: &str) -> Status
    ensures { WritesText text.now (O.report out.old) (O.report out.new) result }
{
    match put_all(out, text.as_bytes()) {
        Ok(()) => Status::Done,
        Err(_) => Status::SinkFault,
    }
}
