ghost use Rattle.std.specs.Prelude.{◌≤◌, length};
ghost use Rattle.stream_plan.specs.Ready.{plan_patterns};
ghost use Rattle.command_io.specs.Building.{BuildsPlan};

use crate::limits::CONFIG_LIMIT;
use pred_eval::{BuildFault, Patterns};
use std::alloc::Global;
use stream_plan::{CheckedPlan, ReadyPlan, build_plan};

/// Builds the patterns of a plan, at most [`CONFIG_LIMIT`] of them. An error is the number, from 0, of the pattern that
/// was refused, or out of memory.
#[tactic(auto, using(crate::proofs::BuildLaws::refused_pattern, crate::proofs::BuildLaws::same_report))]
pub fn build_ready<P: Patterns>(
    alloc: Global,
    plan: CheckedPlan,
    patterns: &mut P,
) -> Result<ReadyPlan, BuildFault>
    requires few { length (plan_patterns plan) ≤ CONFIG_LIMIT }
    ensures { BuildsPlan plan (P.report patterns.old) (P.report patterns.new) result }
{
    match build_plan(alloc, plan, patterns) {
        Ok(ready) => {
            // The contract of this call says that the patterns were built.
            let _built = ready.patterns();
            Ok(ready)
        }
        Err(BuildFault::Pattern { number }) => Err(BuildFault::Pattern { number }),
        Err(BuildFault::Memory) => Err(BuildFault::Memory),
    }
}
