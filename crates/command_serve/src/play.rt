ghost use Rattle.std.specs.Prelude.{◌≡◌, ◌≤◌, IfErr, IfOk, OnErr};
ghost use Rattle.command_setup.specs.hub_run.declared.fault.RunFault.TheVariants.{Memory as out_of_memory};
ghost use Rattle.command_serve.specs.Summaries.{IsCutOff, IsPlayed};
ghost use Rattle.ev_types.specs.Interval.{IsInterval};

use crate::summary::Summary;
use command_setup::hub_run::{RunFault, Setup, run};
use load_links::LoadLinks;
use ports::CountSink;
use pred_eval::Patterns;
use std::alloc::Global;
use step_count::{Ledger, Steps};

/// The most events that a load may have.
pub const EVENT_LIMIT: u64 = 1_000_000;

/// Runs a server over the load of `count` events, which are drawn from the number `start`. The notices are counted, and
/// not written.
pub(crate) fn play<P: Patterns, G: Ledger>(
    alloc: Global,
    setup: Setup,
    count: u64,
    start: u64,
    patterns: &mut P,
    steps: &mut Steps<G>,
) -> Result<Summary, RunFault>
    requires few { count ≤ EVENT_LIMIT }
    requires interval { IsInterval setup.expiry }
    ensures played { IfOk result
        (IsPlayed setup count start (P.report patterns.old) (P.report patterns.new) steps.old.forks
        steps.new.forks) }
    ensures cut_off { OnErr result
        (IsCutOff setup count start (P.report patterns.old) (P.report patterns.new) steps.old.forks
        steps.new.forks) }
    ensures memory { IfErr result (λ fault. fault ≡ out_of_memory) }
{
    let mut links = LoadLinks::fresh(alloc, count, start)?;
    let mut notices = CountSink { puts: 0 };
    let hub = run(
        alloc,
        setup,
        u64::MAX,
        &mut links,
        &mut notices,
        patterns,
        steps,
    )?;
    Ok(Summary {
        events: count,
        notices: notices.puts,
        replies: links.replies(),
        live: hub.core().live() as u64,
    })
}
