//! Running all tests.

ghost use Rattle.std.specs.Prelude.{IfErr, IfOk};
ghost use Rattle.std.specs.List.{AllByRecursion};
ghost use Rattle.config_tests.specs.Events.{IsShort};
ghost use Rattle.sexp_config.specs.Config.{IsConfigOf};
ghost use Rattle.sexp_config.specs.declared.config.Config.{Config as Configuration};
ghost use Rattle.command_test.specs.Given.{IsConfig};
ghost use Rattle.command_test.specs.Running.{RunEnds, ShowsAll, StopsRun, run_report};

use crate::ending::TestsEnding;
use crate::one::run_one;
use crate::stop::Stop;
use command_io::Ending;
use ports::Sink;
use pred_eval::Patterns;
use std::alloc::Global;
use step_count::{Ledger, Steps};
use stream_tests::{Test, verdicts_are_one};

/// Runs the tests, in order, with the configuration that the text is.
pub(crate) fn run_suite<'a, O: Sink, P: Patterns, G: Ledger>(
    alloc: Global,
    config: &[u8],
    tests: &[Test],
    out: &mut O,
    patterns: &mut P,
    steps: &mut Steps<G>,
) -> TestsEnding<'a>
    requires valid { IsConfig config.now }
    requires short { AllByRecursion IsShort tests.now }
    ensures { (read : Configuration) → IsConfigOf config.now read →
        RunEnds read tests.now (run_report (P.report patterns.old) (O.report out.old))
        (run_report (P.report patterns.new) (O.report out.new)) result }
{
    match run_all(alloc, config, tests, out, patterns, steps) {
        Ok(true) => TestsEnding::Shared(Ending::Finished),
        Ok(false) => TestsEnding::Differed,
        Err(stop) => TestsEnding::Shared(stop.ending()),
    }
}

/// Runs the tests, in order. Whether all passed.
fn run_all<O: Sink, P: Patterns, G: Ledger>(
    alloc: Global,
    config: &[u8],
    tests: &[Test],
    out: &mut O,
    patterns: &mut P,
    steps: &mut Steps<G>,
) -> Result<bool, Stop>
    requires valid { IsConfig config.now }
    requires short { AllByRecursion IsShort tests.now }
    ensures shows { IfOk result (λ passed. (read : Configuration) → IsConfigOf config.now read →
        ShowsAll read tests.now passed (run_report (P.report patterns.old) (O.report out.old))
        (run_report (P.report patterns.new) (O.report out.new))) }
    ensures stops { IfErr result (λ stop. (read : Configuration) → IsConfigOf config.now read →
        StopsRun read tests.now stop (run_report (P.report patterns.old) (O.report out.old))
        (run_report (P.report patterns.new) (O.report out.new))) }
{
    verdicts_are_one();
    let mut all = true;
    for test in tests {
        let passed = run_one(alloc, config, test, out, patterns, steps)?;
        all = all && passed;
    }
    Ok(all)
}
