//! When something is due in streams, if only ticks follow.
ghost use Rattle.std.specs.Prelude.{◌≡◌, ℕ, ◌≤◌, ◌^◌, List};
ghost use Rattle.stream_meaning.specs.Deadlines.{earlier, stream_deadline, plan_deadline};
ghost use Rattle.stream_meaning.specs.History.{History, moment_of};
ghost use Rattle.stream_plan.specs.Search.{opened};
ghost use Rattle.stream_plan.specs.Tree.{list_trees};
ghost use Rattle.stream_tree.specs.Forest.{nodes_of, NodeRepresents, ForestRepresents};

use crate::forest::{Forest, Node, is_by};
use stream_plan::Stream;

/// The least moment at which a stream passes something on next. It is exact up to the moment 2^40.
#[cycle(next)]
pub(crate) fn forest_due(streams: &[Stream], forest: &Forest) -> Option<u64>
    ensures { (texts : List (List ℕ)) (h : History) →
        ForestRepresents texts (list_trees streams.now) (nodes_of forest.now) h →
        moment_of h ≤ 2 ^ 40 → result ≡ plan_deadline (list_trees streams.now) h }
{
    let count = streams.len().min(forest.nodes.len());
    let mut due = None;
    for i in 0..count {
        due = earlier_of(due, node_due(&streams[i], &forest.nodes[i]));
    }
    due
}

#[cycle(next)]
fn node_due(stream: &Stream, node: &Node) -> Option<u64>
    ensures { (texts : List (List ℕ)) (h : History) →
        NodeRepresents texts (opened stream.now) node.now h →
        moment_of h ≤ 2 ^ 40 → result ≡ stream_deadline (opened stream.now) h }
{
    let own = node.state.due();
    if is_by(&stream.kind) {
        return earlier_of(own, node.forks.next_due());
    }
    let children = forest_due(&stream.children, &node.children);
    let otherwise = forest_due(&stream.otherwise, &node.otherwise);
    earlier_of(own, earlier_of(children, otherwise))
}

/// The lesser of two moments that may be absent.
fn earlier_of(a: Option<u64>, b: Option<u64>) -> Option<u64>
    ensures { result ≡ earlier a b }
{
    match (a, b) {
        (Some(a), Some(b)) => Some(a.min(b)),
        (Some(a), None) => Some(a),
        (None, b) => b,
    }
}
