//! The ends of forks to which no item has come for some time.
ghost use Rattle.std.specs.Prelude.{◌≡◌, Some};
ghost use Rattle.fork_by.specs.Table.{kept_forks, IsTable};
ghost use Rattle.stream_meaning.specs.Deadlines.{until};
ghost use Rattle.stream_meaning.specs.Ends.{idle_after};
ghost use Rattle.stream_plan.specs.Tree.{kind_tree};
ghost use Rattle.stream_tree.specs.Ends.{idle_by, not_ended};

use crate::forest::Forest;
use fork_by::ForkTable;
use stream_plan::Kind;

/// The seconds after which a fork ends to which no item has come.
fn idle_of(kind: &Kind) -> Option<u32>
    ensures { result ≡ idle_by (kind_tree kind.now) }
{
    match kind {
        Kind::By { idle, .. } => *idle,
        _ => None,
    }
}

/// The due moment, if it is not after the end of a fork whose last item came at the moment `last`.
pub(crate) fn due_before_end(kind: &Kind, last: u64, due: Option<u64>) -> Option<u64>
    ensures { result ≡ until (idle_after (idle_by (kind_tree kind.now)) (Some last)) due }
{
    let Some(idle) = idle_of(kind) else {
        return due;
    };
    let moment = due?;
    if moment.saturating_sub(last) <= u64::from(idle) {
        Some(moment)
    } else {
        None
    }
}

/// Drops the forks that have ended by the moment `now`. It takes no memory.
pub(crate) fn drop_ended(kind: &Kind, forks: &mut ForkTable<Forest>, now: u64)
    ensures kept { IsTable forks.old →
        kept_forks forks.new ≡ not_ended (idle_by (kind_tree kind.now)) now (kept_forks forks.old) }
    ensures table { IsTable forks.old → IsTable forks.new }
{
    let Some(idle) = idle_of(kind) else {
        return;
    };
    if let Some(upto) = now.checked_sub(u64::from(idle)) {
        forks.drop_idle(upto);
    }
}
