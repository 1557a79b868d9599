ghost use Rattle.std.specs.Prelude.{◌≡◌, ◌+◌, ◌≤◌, [], length, is_some, IfOk};
ghost use Rattle.list_laws.specs.Counts.{greatest};
ghost use Rattle.fork_by.specs.Table.{kept_forks, IsTable};
ghost use Rattle.stream_plan.specs.declared.plan.Stream.{out-Stream};
ghost use Rattle.stream_plan.specs.Ready.{plan_patterns};
ghost use Rattle.stream_plan.specs.Search.{opened};
ghost use Rattle.stream_plan.specs.Tree.{kind_tree, list_trees};
ghost use Rattle.stream_tree.specs.declared.forest.Node.{out-Node};
ghost use Rattle.stream_tree.specs.Forest.{forked_by, nodes_of};
ghost use Rattle.stream_tree.specs.Fresh.{NodeIsFresh, ForestIsFresh};

use crate::bare::are_bare;
use ev_types::Memory;
use fork_by::ForkTable;
use std::alloc::Global;
use stream_plan::{Kind, Stream, stream_pattern_count};
use stream_step::State;

/// The nodes of streams, in their order. There is one for each of the first streams; those after them are bare.
#[cycle(forest)]
#[derive(Drop)]
pub(crate) struct Forest {
    pub(crate) nodes: Vec<Node>,
}

/// What a stream keeps between entries, and what the streams below it keep.
#[cycle(forest)]
#[derive(Drop)]
pub(crate) struct Node {
    pub(crate) state: State,
    pub(crate) children: Forest,
    pub(crate) otherwise: Forest,
    /// Of a `by`, which has no nodes in `children` and `otherwise`: a copy of its children for each key.
    pub(crate) forks: ForkTable<Forest>,
}

/// Whether a stream of the kind has forks.
pub(crate) fn is_by(kind: &Kind) -> bool
    ensures { result ≡ is_some (forked_by (kind_tree kind.now)) }
{
    matches!(kind, Kind::By { .. })
}

/// The nodes of streams that begin at the moment `start` and to which nothing but ticks has come. Their regular
/// expressions are those of the plan from number `next` on, which becomes the number after them.
#[cycle(fresh)]
pub(crate) fn fresh_forest(
    alloc: Global,
    streams: &[Stream],
    next: &mut usize,
    start: u64,
) -> Result<Forest, Memory>
    ensures { IfOk result (λ forest. ForestIsFresh
        (list_trees streams.now) start next.old next.new (nodes_of forest)) }
{
    let mut nodes = Vec::with_capacity(alloc, streams.len())?;
    for stream in streams {
        nodes.push(fresh_node(alloc, stream, next, start)?)?;
    }
    Ok(Forest { nodes })
}

/// The nodes of the streams of a branch, as those of [`fresh_forest`].
#[cycle(fresh)]
pub(crate) fn fresh_branch(
    alloc: Global,
    streams: &[Stream],
    next: &mut usize,
    start: u64,
) -> Result<Forest, Memory>
    ensures { IfOk result (λ forest. ForestIsFresh
        (list_trees streams.now) start next.old next.new (nodes_of forest)) }
{
    // Bare streams need no nodes, so no memory is taken.
    if are_bare(streams) {
        return Ok(no_nodes(alloc));
    }
    fresh_forest(alloc, streams, next, start)
}

#[cycle(fresh)]
fn fresh_node(alloc: Global, stream: &Stream, next: &mut usize, start: u64) -> Result<Node, Memory>
    ensures { IfOk result (λ node. NodeIsFresh (opened stream.now) start next.old next.new node) }
{
    let state = State::fresh(alloc, &stream.kind, next, start)?;
    if is_by(&stream.kind) {
        return Ok(unforked(alloc, stream, state, next));
    }
    let children = fresh_branch(alloc, &stream.children, next, start)?;
    let otherwise = fresh_branch(alloc, &stream.otherwise, next, start)?;
    Ok(Node {
        state,
        children,
        otherwise,
        forks: ForkTable::fresh(alloc),
    })
}

/// The node of a `by` that has no fork yet. The numbers of the regular expressions below it are passed over: its forks
/// have them.
fn unforked(alloc: Global, stream: &Stream, state: State, next: &mut usize) -> Node
    ensures state { (out-Node result).state ≡ state }
    ensures table { IsTable (out-Node result).forks }
    ensures forks { kept_forks (out-Node result).forks ≡ [] }
    ensures children { nodes_of (out-Node result).children ≡ [] }
    ensures otherwise { nodes_of (out-Node result).otherwise ≡ [] }
    ensures next { next.old + length (plan_patterns
        (list_trees (out-Stream stream.now).children.items)) + length (plan_patterns
        (list_trees (out-Stream stream.now).otherwise.items)) ≤ greatest
        → next.new ≡ next.old + length (plan_patterns
        (list_trees (out-Stream stream.now).children.items)) + length (plan_patterns
        (list_trees (out-Stream stream.now).otherwise.items)) }
{
    let children = stream_pattern_count(&stream.children);
    let otherwise = stream_pattern_count(&stream.otherwise);
    *next = next.saturating_add(children).saturating_add(otherwise);
    Node {
        state,
        children: no_nodes(alloc),
        otherwise: no_nodes(alloc),
        forks: ForkTable::fresh(alloc),
    }
}

/// The nodes of no stream. It takes no memory.
fn no_nodes(alloc: Global) -> Forest
    ensures { nodes_of result ≡ [] }
{
    Forest {
        nodes: Vec::new(alloc),
    }
}
