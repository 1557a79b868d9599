//! Running one test.

ghost use Rattle.std.specs.Prelude.{◌≡◌, ◌≤◌, IfErr, IfOk, OnOk, length};
ghost use Rattle.config_tests.specs.Events.{IsShort};
ghost use Rattle.sexp_config.specs.Config.{IsConfigOf};
ghost use Rattle.ev_types.specs.Interval.{IsInterval};
ghost use Rattle.sexp_config.specs.declared.config.Config.{Config as Configuration};
ghost use Rattle.stream_plan.specs.Ready.{plan_patterns};
ghost use Rattle.stream_tests.specs.Running.{core_of};
ghost use Rattle.stream_tests.specs.Verdicts.{IsVerdictOn};
ghost use Rattle.command_test.specs.Given.{IsConfig};
ghost use Rattle.command_test.specs.Lines.{is_pass, verdict_line};
ghost use Rattle.command_test.specs.Running.{ShowsOne, StopsAt, run_report};
ghost use Rattle.command_test.specs.Stopping.{CutsLine, IsUnrun};
ghost use Rattle.ports.specs.Writing.{Puts};

use crate::line::verdict_line;
use crate::stop::{Stop, stop_of};
use command_io::CONFIG_LIMIT;
use command_io::sexp_config::{Config, ConfigFault, read_config};
use ev_types::{Memory, Text};
use ports::Sink;
use pred_eval::Patterns;
use std::alloc::Global;
use step_count::{Ledger, Steps};
use stream_tests::{RunFault, Test, Verdict, run_test};

/// Runs the test with the configuration that the text is, and writes the line of the verdict in one put. Whether the
/// test passed.
pub(crate) fn run_one<O: Sink, P: Patterns, G: Ledger>(
    alloc: Global,
    config: &[u8],
    test: &Test,
    out: &mut O,
    patterns: &mut P,
    steps: &mut Steps<G>,
) -> Result<bool, Stop>
    requires valid { IsConfig config.now }
    requires short { IsShort test.now }
    ensures shows { IfOk result (λ passed. (read : Configuration) → IsConfigOf config.now read →
        ShowsOne read test.now passed (run_report (P.report patterns.old) (O.report out.old))
        (run_report (P.report patterns.new) (O.report out.new))) }
    ensures stops { IfErr result (λ stop. (read : Configuration) → IsConfigOf config.now read →
        StopsAt read test.now stop (run_report (P.report patterns.old) (O.report out.old))
        (run_report (P.report patterns.new) (O.report out.new))) }
{
    match judge(alloc, config, test, patterns, steps) {
        Ok(verdict) => show(alloc, &test.name, &verdict, out),
        Err(fault) => Err(stop_of(fault)),
    }
}

/// The verdict on the test, of the configuration that the text is.
fn judge<P: Patterns, G: Ledger>(
    alloc: Global,
    config: &[u8],
    test: &Test,
    patterns: &mut P,
    steps: &mut Steps<G>,
) -> Result<Verdict, RunFault>
    requires valid { IsConfig config.now }
    requires short { IsShort test.now }
    ensures verdict { IfOk result (λ verdict. (read : Configuration) → IsConfigOf config.now read →
        IsVerdictOn (core_of read) test.now verdict) }
    ensures same { OnOk result (P.report patterns.new ≡ P.report patterns.old) }
    ensures fault { IfErr result (λ fault. (read : Configuration) → IsConfigOf config.now read →
        IsUnrun (plan_patterns read.plan) (P.report patterns.old) (P.report patterns.new) fault) }
{
    let Ok(read) = read_again(alloc, config) else {
        return Err(RunFault::Memory);
    };
    run_test(alloc, test, read, patterns, steps)
}

/// Reads the configuration that the text is.
fn read_again(alloc: Global, text: &[u8]) -> Result<Config, Memory>
    requires { IsConfig text.now }
    ensures config { IfOk result (λ config. (read : Configuration) → IsConfigOf text.now read →
        config ≡ read) }
    ensures few { IfOk result (λ config. length (plan_patterns config.plan) ≤ CONFIG_LIMIT) }
    ensures interval { IfOk result (λ config. IsInterval config.expiry) }
{
    match read_config(alloc, text) {
        Ok(config) => Ok(config),
        Err(ConfigFault::Refused { .. }) => unreachable!(),
        Err(ConfigFault::Memory) => Err(Memory),
    }
}

/// Writes the line of the verdict on the test of this name. Whether the test passed.
#[tactic(auto, using(crate::proofs::LineLaws::line_is_some))]
fn show<O: Sink>(alloc: Global, name: &Text, verdict: &Verdict, out: &mut O) -> Result<bool, Stop>
    ensures passed { IfOk result (λ passed. passed ≡ is_pass verdict.now) }
    ensures puts { OnOk result
        (Puts (O.report out.old) (verdict_line name.now verdict.now) (O.report out.new)) }
    ensures cuts { IfErr result (CutsLine (verdict_line name.now verdict.now) (O.report out.old)
        (O.report out.new)) }
{
    let Ok(line) = verdict_line(alloc, name, verdict) else {
        return Err(Stop::Memory);
    };
    match out.put(line.as_slice()) {
        Ok(()) => Ok(is_pass(verdict)),
        Err(_) => Err(Stop::Write),
    }
}

fn is_pass(verdict: &Verdict) -> bool
    ensures { result ≡ is_pass verdict.now }
{
    match verdict {
        Verdict::Pass => true,
        Verdict::Differs { .. } => false,
    }
}
