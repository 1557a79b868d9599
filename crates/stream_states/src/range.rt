ghost use Rattle.std.specs.Prelude.{◌≡◌};
ghost use Rattle.stream_plan.specs.Kinds.{is_count, is_in_range, is_secs};
ghost use Rattle.stream_plan.specs.Tree.{kind_tree};

use ev_types::all_fit;
use stream_plan::{Kind, MAX_COUNT, MAX_SECS};

/// Whether the numbers and the sets of the kind are in their ranges.
pub(crate) fn is_in_range(kind: &Kind) -> bool
    ensures { result ≡ is_in_range (kind_tree kind.now) }
{
    match kind {
        Kind::With(sets) | Kind::Default(sets) => all_fit(sets),
        Kind::Throttle { count, secs }
        | Kind::Rollup { count, secs }
        | Kind::Batch { count, secs } => is_count(*count) && is_secs(*secs),
        Kind::Runs { count, .. } | Kind::FixedEvent { count } | Kind::MovingEvent { count } => {
            is_count(*count)
        }
        Kind::Stable { secs, .. }
        | Kind::FixedTime { secs }
        | Kind::MovingTime { secs }
        | Kind::Coalesce { secs }
        | Kind::By {
            idle: Some(secs),
            ..
        } => is_secs(*secs),
        _ => true,
    }
}

fn is_count(count: u32) -> bool
    ensures { result ≡ is_count count }
{
    1 <= count && count <= MAX_COUNT
}

fn is_secs(secs: u32) -> bool
    ensures { result ≡ is_secs secs }
{
    1 <= secs && secs <= MAX_SECS
}
