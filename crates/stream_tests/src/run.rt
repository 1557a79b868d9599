//! Running a test.

ghost use Rattle.std.specs.Prelude.{◌≡◌, ◌<◌, ◌≤◌, ◌^◌, ◌++◌, length, IfOk};
ghost use Rattle.std.specs.Option.{option_map};
ghost use Rattle.ev_types.specs.Interval.{IsInterval};
ghost use Rattle.stream_plan.specs.Ready.{plan_patterns};
ghost use Rattle.config_tests.specs.Events.{IsShort};
ghost use Rattle.stream_tests.specs.Running.{core_of, HasCause, refused_of};
ghost use Rattle.stream_tests.specs.Verdicts.{IsVerdictOn};

use crate::RunFault;
use crate::play::play;
use crate::verdict::{Verdict, verdict_of};
use config_tests::Test;
use pred_eval::Patterns;
use sexp_config::Config;
use std::alloc::Global;
use step_count::{Ledger, Steps};
use stream_plan::build_plan;

/// Runs the test: its entries come to the streams of the configuration, and to an index that is empty at the moment 0.
/// The verdict says whether just what is expected was noticed.
///
/// The patterns of the configuration are built for the test; there are fewer than 2^32. `Pattern` comes as from
/// [`build_plan`]. `Memory`: out of memory.
pub fn run_test<P: Patterns, G: Ledger>(
    alloc: Global,
    test: &Test,
    config: Config,
    patterns: &mut P,
    steps: &mut Steps<G>,
) -> Result<Verdict, RunFault>
    requires short { IsShort test.now }
    requires few { length (plan_patterns config.plan) < 2 ^ 32 }
    requires interval { IsInterval config.expiry }
    ensures verdict { IfOk result (λ verdict. IsVerdictOn (core_of config) test.now verdict) }
    ensures cause { HasCause (plan_patterns config.plan) (P.report patterns.old).refusals
        (P.report patterns.new).refusals result }
    ensures reported { (P.report patterns.new).refused ≡ option_map
        (λ texts. texts ++ refused_of (plan_patterns config.plan) result)
        (P.report patterns.old).refused }
    ensures refusals { (P.report patterns.old).refusals ≤ (P.report patterns.new).refusals }
{
    let plan = build_plan(alloc, config.plan, patterns)?;
    let notices = play(alloc, test.entries.as_slice(), plan, config.expiry, steps)?;
    let verdict = verdict_of(alloc, notices.as_slice(), test.expects.as_slice())?;
    Ok(verdict)
}
