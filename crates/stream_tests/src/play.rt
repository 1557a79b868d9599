//! The entries of a test as they come to streams.

ghost use Rattle.std.specs.Prelude.{◌≡◌, ◌+◌, ◌++◌, ◌≤◌, List, [], replicate, IfOk, OnOk};
ghost use Rattle.ev_types.specs.Interval.{IsInterval};
ghost use Rattle.stream_meaning.specs.Arrivals.{Arrival, Elapsed};
ghost use Rattle.event_core.specs.Core.{config_of, now_of, notices_by};
ghost use Rattle.config_tests.specs.Events.{seconds_in, seconds_of};
ghost use Rattle.stream_tests.specs.Playing.{Played};
ghost use Rattle.stream_tests.specs.Verdicts.{arrivals_by, arrivals_in};

use config_tests::{Entry, MAX_SECONDS};
use ev_types::{Expiry, Memory, Notices, SECONDS_PER_TURN};
use event_core::Core;
use std::alloc::Global;
use step_count::{Ledger, Steps};
use stream_plan::ReadyPlan;

/// The notices that streams give over the entries, from the moment 0 on.
pub(crate) fn play<G: Ledger>(
    alloc: Global,
    entries: &[Entry],
    plan: ReadyPlan,
    expiry: Option<Expiry>,
    steps: &mut Steps<G>,
) -> Result<Notices, Memory>
    requires short { seconds_in entries.now ≤ MAX_SECONDS }
    requires interval { IsInterval expiry }
    ensures { IfOk result (λ notices. notices ≡ notices_by
        (record { plan = plan; expiry = expiry; start = 0 }) (arrivals_in entries.now)) }
{
    let mut core = Core::fresh(alloc, plan, expiry, 0)?;
    let mut notices = Notices::fresh(alloc);
    for entry in entries {
        play_entry(alloc, entry, &mut core, &mut notices, steps)?;
    }
    Ok(notices)
}

/// One entry comes to the streams.
fn play_entry<G: Ledger>(
    alloc: Global,
    entry: &Entry,
    core: &mut Core,
    notices: &mut Notices,
    steps: &mut Steps<G>,
) -> Result<(), Memory>
    requires short { now_of core.old + seconds_of entry.now ≤ MAX_SECONDS }
    ensures config { config_of core.new ≡ config_of core.old }
    ensures now { OnOk result (now_of core.new ≡ now_of core.old + seconds_of entry.now) }
    ensures played { OnOk result ((arrivals : List Arrival) →
        Played core.old arrivals notices.old
        → Played core.new (arrivals ++ arrivals_by entry.now) notices.new) }
{
    match entry {
        Entry::Tick { count } => pass(alloc, *count, core, notices, steps),
        Entry::Event(event) => core.post(alloc, event.copy(alloc)?, notices, steps),
    }
}

/// As many seconds pass.
fn pass<G: Ledger>(
    alloc: Global,
    count: u32,
    core: &mut Core,
    notices: &mut Notices,
    steps: &mut Steps<G>,
) -> Result<(), Memory>
    requires short { now_of core.old + count ≤ MAX_SECONDS }
    ensures config { config_of core.new ≡ config_of core.old }
    ensures now { OnOk result (now_of core.new ≡ now_of core.old + count) }
    ensures played { OnOk result ((arrivals : List Arrival) →
        Played core.old arrivals notices.old
        → Played core.new (arrivals ++ replicate count Elapsed) notices.new) }
{
    let mut left = u64::from(count);
    'seconds: while left > 0 {
        let part = left.min(SECONDS_PER_TURN);
        pass_part(alloc, part, core, notices, steps)?;
        left -= part;
    }
    Ok(())
}

/// As many seconds pass, at most an hour.
fn pass_part<G: Ledger>(
    alloc: Global,
    count: u64,
    core: &mut Core,
    notices: &mut Notices,
    steps: &mut Steps<G>,
) -> Result<(), Memory>
    requires short { now_of core.old + count ≤ MAX_SECONDS }
    requires hour { count ≤ SECONDS_PER_TURN }
    ensures config { config_of core.new ≡ config_of core.old }
    ensures now { OnOk result (now_of core.new ≡ now_of core.old + count) }
    ensures played { OnOk result ((arrivals : List Arrival) →
        Played core.old arrivals notices.old
        → Played core.new (arrivals ++ replicate count Elapsed) notices.new) }
{
    let to = core.now() + count;
    core.advance(alloc, to, notices, steps)
}
