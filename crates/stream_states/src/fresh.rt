ghost use Rattle.std.specs.Prelude.{◌≡◌, is_some, IfOk, IfSome, IsTrue};
ghost use Rattle.stream_plan.specs.Kinds.{is_count, is_in_range, is_secs};
ghost use Rattle.stream_plan.specs.Tree.{kind_tree, Changed, Runs, Throttle, Rollup, Batch, Stable, FixedEvent, MovingEvent, FixedTime, MovingTime, Coalesce};
ghost use Rattle.stream_states.specs.Kept.{keeps, IsFresh};

use crate::KeptState;
use ev_types::{Field, Memory, Value};
use flow_streams::{ChangedParams, ChangedState, RunsParams, RunsState};
use rate_streams::{
    BatchParams, BatchState, RollupParams, RollupState, StableParams, StableState, ThrottleParams,
    ThrottleState,
};
use std::alloc::Global;
use stream_plan::Kind;
use window_streams::{
    CoalesceParams, CoalesceState, FixedEventParams, FixedEventState, FixedTimeParams,
    FixedTimeState, MovingEventParams, MovingEventState, MovingTimeParams, MovingTimeState,
};

/// The state of a stream of the kind, whose numbers are in their ranges, or `None` where the kind keeps nothing.
pub(crate) fn fresh_of(alloc: Global, kind: &Kind, start: u64) -> Result<Option<KeptState>, Memory>
    requires { IsTrue (is_in_range (kind_tree kind.now)) }
    ensures some { IfOk result (λ kept. is_some kept ≡ keeps (kind_tree kind.now)) }
    ensures fresh { IfOk result (λ kept. IfSome kept (λ state.
        IsFresh (kind_tree kind.now) start state)) }
{
    let state = match kind {
        Kind::Changed { field, init } => changed(alloc, field, init, start)?,
        Kind::Runs { count, field } => runs(alloc, *count, field, start)?,
        Kind::Throttle { count, secs } => throttle(alloc, *count, *secs, start)?,
        Kind::Rollup { count, secs } => rollup(alloc, *count, *secs, start)?,
        Kind::Batch { count, secs } => batch(alloc, *count, *secs, start)?,
        Kind::Stable { secs, field } => stable(alloc, *secs, field, start)?,
        Kind::FixedEvent { count } => fixed_event(alloc, *count, start)?,
        Kind::MovingEvent { count } => moving_event(alloc, *count, start)?,
        Kind::FixedTime { secs } => fixed_time(alloc, *secs, start)?,
        Kind::MovingTime { secs } => moving_time(alloc, *secs, start)?,
        Kind::Coalesce { secs } => coalesce(alloc, *secs, start)?,
        _ => return Ok(None),
    };
    Ok(Some(state))
}

fn copy_init(alloc: Global, init: &Option<Value>) -> Result<Option<Value>, Memory>
    ensures { IfOk result (λ copied. copied ≡ init.now) }
{
    Ok(match init {
        Some(value) => Some(value.copy(alloc)?),
        None => None,
    })
}

fn changed(
    alloc: Global,
    field: &Field,
    init: &Option<Value>,
    start: u64,
) -> Result<KeptState, Memory>
    ensures { IfOk result (λ state. IsFresh (Changed field.now init.now) start state) }
{
    let params = ChangedParams {
        field: field.copy(alloc)?,
        init: copy_init(alloc, init)?,
    };
    Ok(KeptState::Changed(ChangedState::fresh(alloc, params, start)?))
}

fn runs(alloc: Global, count: u32, field: &Field, start: u64) -> Result<KeptState, Memory>
    ensures { IfOk result (λ state. IsFresh (Runs count field.now) start state) }
{
    let params = RunsParams {
        count,
        field: field.copy(alloc)?,
    };
    let state = RunsState::fresh(alloc, params, start)?;
    Ok(KeptState::Runs(Box::new(alloc, state)?))
}

fn throttle(alloc: Global, count: u32, secs: u32, start: u64) -> Result<KeptState, Memory>
    requires { IsTrue (is_in_range (Throttle count secs)) }
    ensures { IfOk result (λ state. IsFresh (Throttle count secs) start state) }
{
    let params = ThrottleParams { count, secs };
    Ok(KeptState::Throttle(ThrottleState::fresh(alloc, params, start)?))
}

fn rollup(alloc: Global, count: u32, secs: u32, start: u64) -> Result<KeptState, Memory>
    requires { IsTrue (is_in_range (Rollup count secs)) }
    ensures { IfOk result (λ state. IsFresh (Rollup count secs) start state) }
{
    let params = RollupParams { count, secs };
    Ok(KeptState::Rollup(RollupState::fresh(alloc, params, start)?))
}

fn batch(alloc: Global, count: u32, secs: u32, start: u64) -> Result<KeptState, Memory>
    requires { IsTrue (is_in_range (Batch count secs)) }
    ensures { IfOk result (λ state. IsFresh (Batch count secs) start state) }
{
    let params = BatchParams { count, secs };
    Ok(KeptState::Batch(BatchState::fresh(alloc, params, start)?))
}

fn stable(alloc: Global, secs: u32, field: &Field, start: u64) -> Result<KeptState, Memory>
    requires { IsTrue (is_in_range (Stable secs field.now)) }
    ensures { IfOk result (λ state. IsFresh (Stable secs field.now) start state) }
{
    let params = StableParams {
        secs,
        field: field.copy(alloc)?,
    };
    let state = StableState::fresh(alloc, params, start)?;
    Ok(KeptState::Stable(Box::new(alloc, state)?))
}

fn fixed_event(alloc: Global, count: u32, start: u64) -> Result<KeptState, Memory>
    requires { IsTrue (is_count count) }
    ensures { IfOk result (λ state. IsFresh (FixedEvent count) start state) }
{
    let params = FixedEventParams { count };
    Ok(KeptState::FixedEvent(FixedEventState::fresh(alloc, params, start)?))
}

fn moving_event(alloc: Global, count: u32, start: u64) -> Result<KeptState, Memory>
    requires { IsTrue (is_count count) }
    ensures { IfOk result (λ state. IsFresh (MovingEvent count) start state) }
{
    let params = MovingEventParams { count };
    Ok(KeptState::MovingEvent(MovingEventState::fresh(alloc, params, start)?))
}

fn fixed_time(alloc: Global, secs: u32, start: u64) -> Result<KeptState, Memory>
    requires { IsTrue (is_secs secs) }
    ensures { IfOk result (λ state. IsFresh (FixedTime secs) start state) }
{
    let params = FixedTimeParams { secs };
    Ok(KeptState::FixedTime(FixedTimeState::fresh(alloc, params, start)?))
}

fn moving_time(alloc: Global, secs: u32, start: u64) -> Result<KeptState, Memory>
    requires { IsTrue (is_secs secs) }
    ensures { IfOk result (λ state. IsFresh (MovingTime secs) start state) }
{
    let params = MovingTimeParams { secs };
    Ok(KeptState::MovingTime(MovingTimeState::fresh(alloc, params, start)?))
}

fn coalesce(alloc: Global, secs: u32, start: u64) -> Result<KeptState, Memory>
    requires { IsTrue (is_secs secs) }
    ensures { IfOk result (λ state. IsFresh (Coalesce secs) start state) }
{
    let params = CoalesceParams { secs };
    Ok(KeptState::Coalesce(CoalesceState::fresh(alloc, params, start)?))
}
