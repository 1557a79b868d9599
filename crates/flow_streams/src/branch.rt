ghost use Rattle.std.specs.Prelude.{◌≡◌, [], IfOk, IsOk};
ghost use Rattle.pred_eval.specs.Truth.{holds, searches};
ghost use Rattle.flow_streams.specs.Branch.{branch_of};

use ev_types::{Event, Memory};
use pred_eval::Pred;
use std::alloc::Global;

/// The branch that the event takes below a rule: 0, the children, where it meets the rule, else 1, those of `else`.
/// Where the rule has no regular expression it takes no memory.
pub fn route(alloc: Global, pred: &mut Pred, event: &Event) -> Result<u32, Memory>
    ensures branch { IfOk result (λ branch. branch ≡ branch_of (holds pred.old event.now)) }
    ensures memory { searches pred.old ≡ [] → IsOk result }
    ensures same { pred.new ≡ pred.old }
{
    if pred.holds(alloc, event)? {
        Ok(0)
    } else {
        Ok(1)
    }
}
