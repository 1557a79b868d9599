ghost use Rattle.std.specs.Prelude.{◌≡◌, ◌≢◌, []};
ghost use Rattle.command_io.specs.Endings.{HasNoLine};
ghost use Rattle.command_io.specs.Reports.{reports};
ghost use Rattle.ports.specs.Calls.{LinksReport};
ghost use Rattle.ports.specs.Counts.{Rose};
ghost use Rattle.sexp_config.specs.Config.{IsConfigOf};
ghost use Rattle.sexp_config.specs.declared.config.Config.{Config as Configuration};
ghost use Rattle.command_test.specs.Endings.{HasNoTests, IsComplete};
ghost use Rattle.command_test.specs.Given.{IsConfig};
ghost use Rattle.command_test.specs.Reading.{ReadsOnce};
ghost use Rattle.command_test.specs.Running.{run_report};
ghost use Rattle.command_test.specs.RunsTests.{RunsTests, SuiteEnds, TestsEnd};

use crate::ending::{TestsEnding, report_ending};
use crate::files::{fetch_config, fetch_tests};
use crate::run::run_suite;
use command_io::Status;
use ev_types::Text;
use ports::{Sink, Store};
use pred_eval::Patterns;
use std::alloc::Global;
use step_count::{Ledger, Steps};

/// Carries out `test CONFIG TESTS`: it runs the tests of the second file, in order, with the configuration of the
/// first, and writes a line for each to `out`, in one put each, once it was run.
///
/// The line of a test is `pass "t"`, or `fail "t": notice "c" number 1` with the name of the first expectation that is
/// not met, and the number, from 0, of the first item of it that differs. The configuration is read anew for each test.
///
/// | Status | When | Line on `err` |
/// |---|---|---|
/// | `Done` | all tests were run, and all passed | no |
/// | `Verdict` | all tests were run, and one did not pass | no |
/// | `SinkFault` | the line of a test could not be written; `out` got only a prefix of it, after the lines of the tests before | no |
/// | `Config` | the configuration is not valid; or a pattern of it is refused when a test is run, after the lines of the tests before | yes |
/// | `Tests` | the tests are not valid | yes |
/// | `ReadFault` | one of the two files could not be read | yes |
/// | `TooLong` | one of them has over `command_io::CONFIG_LIMIT` bytes | yes |
/// | `Memory` | out of memory; `out` may have got lines | yes |
///
/// Both files are read before the first test is run, the configuration first. A write of the line on `err` that fails
/// cuts it, and does not change the status.
pub fn run_tests<S: Store, O: Sink, E: Sink, P: Patterns, G: Ledger>(
    alloc: Global,
    config: &Text,
    tests: &Text,
    store: &mut S,
    out: &mut O,
    err: &mut E,
    patterns: &mut P,
    steps: &mut Steps<G>,
) -> Status
    ensures promise { (links : LinksReport) → RunsTests config.now tests.now
        (reports (S.report store.old) links (O.report out.old) (E.report err.old)
        (P.report patterns.old) steps.old.forks)
        (reports (S.report store.new) links (O.report out.new) (E.report err.new)
        (P.report patterns.new) steps.new.forks) (patterns.new ≡ patterns.old)
        (out.new ≡ out.old) result }
    ensures read_fault { result ≡ Status.ReadFault →
        Rose (S.report store.old).faults (S.report store.new).faults }
    ensures sink_fault { result ≡ Status.SinkFault →
        Rose (O.report out.old).faults (O.report out.new).faults }
    ensures links_work { result ≢ Status.LinkFault }
    ensures not_usage { result ≢ Status.Usage }
    ensures no_line { HasNoLine result → err.new ≡ err.old }
{
    let ending = run_files(alloc, config, tests, store, out, patterns, steps);
    report_ending(ending, err)
}

/// Reads the two files, and runs the tests.
fn run_files<'a, S: Store, O: Sink, P: Patterns, G: Ledger>(
    alloc: Global,
    config: &'a Text,
    tests: &'a Text,
    store: &mut S,
    out: &mut O,
    patterns: &mut P,
    steps: &mut Steps<G>,
) -> TestsEnding<'a>
    ensures ends { TestsEnd config.now tests.now (S.report store.old) (S.report store.new)
        (run_report (P.report patterns.old) (O.report out.old))
        (run_report (P.report patterns.new) (O.report out.new)) result }
    ensures quiet { IsComplete result →
        (S.report store.new).faults ≡ (S.report store.old).faults }
    ensures unasked { HasNoTests result → patterns.new ≡ patterns.old }
    ensures untouched { HasNoTests result → out.new ≡ out.old }
{
    match fetch_config(alloc, config, store) {
        Ok(text) => run_text(alloc, text.as_slice(), tests, store, out, patterns, steps),
        Err(fault) => TestsEnding::Shared(fault.ending(config.as_str())),
    }
}

/// Reads the tests, and runs them with the configuration that the text is.
fn run_text<'a, S: Store, O: Sink, P: Patterns, G: Ledger>(
    alloc: Global,
    config: &[u8],
    tests: &'a Text,
    store: &mut S,
    out: &mut O,
    patterns: &mut P,
    steps: &mut Steps<G>,
) -> TestsEnding<'a>
    requires { IsConfig config.now }
    ensures ends { (read : Configuration) → IsConfigOf config.now read →
        SuiteEnds read tests.now (S.report store.old) (S.report store.new)
        (run_report (P.report patterns.old) (O.report out.old))
        (run_report (P.report patterns.new) (O.report out.new)) result }
    ensures reads { ReadsOnce [] tests.now (S.report store.old).reads (S.report store.new).reads
        result }
    ensures quiet { IsComplete result →
        (S.report store.new).faults ≡ (S.report store.old).faults }
    ensures unasked { HasNoTests result → patterns.new ≡ patterns.old }
    ensures untouched { HasNoTests result → out.new ≡ out.old }
{
    match fetch_tests(alloc, tests, store) {
        Ok(given) => run_suite(alloc, config, given.as_slice(), out, patterns, steps),
        Err(ending) => ending,
    }
}
