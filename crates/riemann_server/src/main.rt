//! A Riemann event stream server for metrics that are whole numbers.
#![tactic(auto)]

ghost use Rattle.std.specs.Prelude.{◌≡◌, ℕ, List, IfOk};
ghost use Rattle.std.specs.Process.{exit_status};
ghost use Rattle.command_io.specs.Endings.{code_of};
ghost use Rattle.command_io.specs.Reports.{reports};
ghost use Rattle.riemann_commands.specs.Words.{IsServe};
ghost use Rattle.riemann_server.specs.Serving.{HasServed, IsFresh};

use command_io::{MEMORY_LINE, Status, put_line};
use disk_port::FileDisk;
use ev_types::Text;
use mio_links::{DialLinks, MioLinks};
use ports::{FileStore, Links, Sink, Store, StreamSink};
use pred_eval::{Patterns, RegexPatterns};
use riemann_commands::{ArgumentsFault, arguments, is_of_client, run};
use std::alloc::Global;
use std::io::Write;
use std::net::Net;
use std::process::ExitCode;
use std::rt::Files;
use std::time::{Clock, CpuClock};
use step_count::{NoLedger, Steps};

fn main(rt: HostRuntime) -> ExitCode {
    let mut store = FileStore::fresh(&rt);
    let mut disk = FileDisk::fresh(&rt);
    let mut out = StreamSink::fresh(rt.stdout());
    let mut err = StreamSink::fresh(rt.stderr());
    let mut patterns = RegexPatterns::fresh();
    let mut steps = Steps::fresh(NoLedger);
    let words = arguments(&rt);
    if is_of_client(&words) {
        let Ok(mut links) = DialLinks::fresh(&rt, rt.alloc()) else {
            put_line(&mut err, &[MEMORY_LINE]);
            return exit_code(Status::Memory);
        };
        let status = run(
            rt.alloc(),
            words,
            &mut store,
            &mut links,
            &mut disk,
            &mut out,
            &mut err,
            &mut patterns,
            &mut steps,
        );
        return exit_code(status);
    }
    let Ok(mut links) = MioLinks::fresh(&rt, rt.alloc()) else {
        put_line(&mut err, &[MEMORY_LINE]);
        return exit_code(Status::Memory);
    };
    let status = run_server(
        rt.alloc(),
        words,
        &mut store,
        &mut links,
        &mut disk,
        &mut out,
        &mut err,
        &mut patterns,
        &mut steps,
    );
    exit_code(status)
}

/// Carries out a command that is not one of a client over the files, the sockets and the streams of the machine, of
/// which nothing was asked yet.
fn run_server<'a, R: Files + Net + Clock + CpuClock, O: Write, E: Write>(
    alloc: Global,
    words: Result<Vec<Text>, ArgumentsFault>,
    store: &mut FileStore<'a, R>,
    links: &mut MioLinks<'a, R>,
    disk: &mut FileDisk<'a, R>,
    out: &mut StreamSink<O>,
    err: &mut StreamSink<E>,
    patterns: &mut RegexPatterns,
    steps: &mut Steps<NoLedger>,
) -> Status
    requires { IsFresh (reports (⟦<FileStore<'a, R> as Store>⟧.report store.old)
        (⟦<MioLinks<'a, R> as Links>⟧.report links.old)
        (⟦<StreamSink<O> as Sink>⟧.report out.old) (⟦<StreamSink<E> as Sink>⟧.report err.old)
        (⟦<RegexPatterns as Patterns>⟧.report patterns.old) steps.old.forks) }
    ensures { IfOk words (λ given. (config : List ℕ) (turns : ℕ) →
        IsServe given.items config turns → HasServed config turns
        (reports (⟦<FileStore<'a, R> as Store>⟧.report store.old)
        (⟦<MioLinks<'a, R> as Links>⟧.report links.old)
        (⟦<StreamSink<O> as Sink>⟧.report out.old) (⟦<StreamSink<E> as Sink>⟧.report err.old)
        (⟦<RegexPatterns as Patterns>⟧.report patterns.old) steps.old.forks)
        (reports (⟦<FileStore<'a, R> as Store>⟧.report store.new)
        (⟦<MioLinks<'a, R> as Links>⟧.report links.new)
        (⟦<StreamSink<O> as Sink>⟧.report out.new) (⟦<StreamSink<E> as Sink>⟧.report err.new)
        (⟦<RegexPatterns as Patterns>⟧.report patterns.new) steps.new.forks) result) }
{
    run(alloc, words, store, links, disk, out, err, patterns, steps)
}

/// The exit status of the program is the number of the status with which its call ended.
fn exit_code(status: Status) -> ExitCode
    ensures { exit_status result ≡ code_of status }
{
    ExitCode::from(status.code())
}
