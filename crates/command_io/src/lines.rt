ghost use Rattle.std.specs.Prelude.{◌≡◌, OnOk, OnErr};
ghost use Rattle.ports.specs.Counts.{Rose};
ghost use Rattle.ports.specs.Writing.{Got, GotPrefix, GotLine};
ghost use Rattle.command_io.specs.Endings.{HasNoLine, Says, status_of};
ghost use Rattle.command_io.specs.Lines.{joined, left_line, pattern_line, refusal_line, refused_line, script_line, too_long_line, unread_line};

use crate::Status;
use crate::ending::{ConfigRefusal, Ending};
use crate::write::put_all;
use itoa::Buffer;
use ports::{Failed, Sink};
use sexp_config::ConfigWhy;

/// The line where no command matches the arguments.
pub const USAGE: &str =
    "riemann: usage: feed CONFIG FILE, check CONFIG, replay CONFIG SCRIPT, serve CONFIG [--turns N], load CONFIG N START, graphite FILE [--host K], test CONFIG TESTS, send ADDRESS FILE [--turns N], query ADDRESS TEXT [--turns N], record CONFIG JOURNAL, resume JOURNAL\n";

/// The line where memory ran out.
pub const MEMORY_LINE: &str = "riemann: out of memory\n";

const LINKS_LINE: &str = "riemann: links failed\n";

/// Writes the line of an ending, and gives the status. It takes no memory.
pub fn report<E: Sink>(ending: Ending, err: &mut E) -> Status
    ensures status { result ≡ status_of ending.entry }
    ensures says { Says ending.entry (E.report err.old) (E.report err.new) }
    ensures no_line { HasNoLine result → err.new ≡ err.old }
{
    report_line(ending, err);
    ending.status()
}

fn report_line<E: Sink>(ending: Ending, err: &mut E)
    ensures says { Says ending.entry (E.report err.old) (E.report err.new) }
    ensures no_line { HasNoLine (status_of ending.entry) → err.new ≡ err.old }
{
    match ending {
        Ending::Finished | Ending::WriteFailed => {}
        Ending::ConfigRefused(refusal) => report_refusal(refusal, err),
        Ending::LinksFailed => put_line(err, &[LINKS_LINE]),
        Ending::ScriptRefused { line } => report_script(line, err),
        Ending::OutOfMemory => put_line(err, &[MEMORY_LINE]),
        Ending::Unread { name } => report_unread(name, err),
        Ending::OverLimit { name, limit } => report_too_long(name, limit, err),
        Ending::BytesLeft { count } => report_left(count, err),
    }
}

fn report_refusal<E: Sink>(refusal: ConfigRefusal, err: &mut E)
    ensures { GotLine (E.report err.old) (refusal_line refusal) (E.report err.new) }
{
    match refusal {
        ConfigRefusal::Refused { place, why } => report_refused(place, why, err),
        ConfigRefusal::Pattern { number } => report_pattern(number, err),
    }
}

fn report_refused<E: Sink>(place: usize, why: ConfigWhy, err: &mut E)
    ensures { GotLine (E.report err.old) (refused_line place why) (E.report err.new) }
{
    let mut digits = Buffer::new();
    let place = digits.format(place);
    put_line(
        err,
        &["riemann: config refused at ", place, ": ", why.name(), "\n"],
    );
}

fn report_pattern<E: Sink>(number: u32, err: &mut E)
    ensures { GotLine (E.report err.old) (pattern_line number) (E.report err.new) }
{
    let mut digits = Buffer::new();
    let number = digits.format(number);
    put_line(err, &["riemann: config pattern ", number, " refused\n"]);
}

fn report_script<E: Sink>(line: u64, err: &mut E)
    ensures { GotLine (E.report err.old) (script_line line) (E.report err.new) }
{
    let mut digits = Buffer::new();
    let line = digits.format(line);
    put_line(err, &["riemann: script refused at line ", line, "\n"]);
}

fn report_unread<E: Sink>(name: &str, err: &mut E)
    ensures { GotLine (E.report err.old) (unread_line name.now) (E.report err.new) }
{
    put_line(err, &["riemann: cannot read ", name, "\n"]);
}

fn report_too_long<E: Sink>(name: &str, limit: u64, err: &mut E)
    ensures { GotLine (E.report err.old) (too_long_line name.now limit) (E.report err.new) }
{
    let mut digits = Buffer::new();
    let limit = digits.format(limit);
    put_line(
        err,
        &["riemann: ", name, " is longer than ", limit, " bytes\n"],
    );
}

fn report_left<E: Sink>(left: usize, err: &mut E)
    ensures { GotLine (E.report err.old) (left_line left) (E.report err.new) }
{
    let mut digits = Buffer::new();
    let left = digits.format(left);
    put_line(err, &["riemann: ", left, " bytes left of no whole frame\n"]);
}

/// Writes the pieces of a line. A write that fails ends the line, and is not reported.
pub fn put_line<E: Sink>(err: &mut E, pieces: &[&str])
    ensures { GotLine (E.report err.old) (joined pieces.now) (E.report err.new) }
{
    let _ = put_pieces(err, pieces);
}

/// Writes the pieces one after another, up to the first write that fails.
fn put_pieces<E: Sink>(err: &mut E, pieces: &[&str]) -> Result<(), Failed>
    ensures all { OnOk result (Got (E.report err.old).text (joined pieces.now)
        (E.report err.new).text) }
    ensures prefix { OnErr result
        (GotPrefix (E.report err.old).text (joined pieces.now) (E.report err.new).text) }
    ensures fault { OnErr result (Rose (E.report err.old).faults (E.report err.new).faults) }
{
    for piece in pieces {
        put_all(err, piece.as_bytes())?;
    }
    Ok(())
}
