//! One entry on its way down the streams.
ghost use Rattle.std.specs.Prelude.{◌≡◌, ℕ, ◌≤◌, List, length, drop, OnOk, OnErr, map};
ghost use Rattle.ev_types.specs.declared.value.Value.{Value};
ghost use Rattle.fork_by.specs.declared.table.ForkTable.{ForkTable as Table};
ghost use Rattle.list_laws.specs.Prefix.{IsPrefix};
ghost use Rattle.stream_meaning.specs.Emission.{Fork};
ghost use Rattle.stream_plan.specs.declared.plan.Stream.{out-Stream};
ghost use Rattle.stream_plan.specs.Search.{opened};
ghost use Rattle.stream_plan.specs.Tree.{kind_tree, list_trees};
ghost use Rattle.stream_step.specs.declared.state.State.{State as NodeState};
ghost use Rattle.stream_step.specs.Step.{branch_meant, branch_numbered, emission_meant, emissions_meant};
ghost use Rattle.stream_tree.specs.declared.forest.Forest.{Forest as Nodes};
ghost use Rattle.stream_tree.specs.declared.forest.Node.{out-Node};
ghost use Rattle.stream_tree.specs.Ends.{idle_by};
ghost use Rattle.stream_tree.specs.Forest.{nodes_of, below_of, node_below, first_of};
ghost use Rattle.stream_tree.specs.Forks.{IsKnown};
ghost use Rattle.stream_tree.specs.Running.{kind_of, children_of, FirstRun, ForestRuns, ForestStops, StreamRuns, StreamStops, ForkRuns, ForkStops, DueRuns, DueStops, TickRuns, TickStops, BranchRuns, BranchStops, EmissionsRun, EmissionsStop};

use crate::bare::run_bare;
use crate::ends::{drop_ended, due_before_end};
use crate::forest::{Forest, Node, is_by};
use crate::fork::{find_fork, known_fork};
use crate::next::forest_due;
use ev_types::{Emission, Emissions, Key, Memory, Outputs};
use fork_by::ForkTable;
use list_laws::Ids;
use std::alloc::Global;
use step_count::{Ledger, Steps};
use stream_meaning::Entry;
use stream_plan::Stream;
use stream_step::{Branch, Context, Passed, State, act};

/// The entry comes to each of the streams, one after another. Those without a node are bare.
#[cycle(run)]
pub(crate) fn run_forest<G: Ledger>(
    alloc: Global,
    streams: &[Stream],
    forest: &mut Forest,
    entry: &Entry,
    context: &Context,
    out: &mut Outputs,
    steps: &mut Steps<G>,
) -> Result<(), Memory>
    ensures runs { OnOk result (ForestRuns context.now.patterns.now context.now.start
        context.now.moment out.old steps.old out.new steps.new entry.now
        (list_trees streams.now) (nodes_of forest.old) (nodes_of forest.new)) }
    ensures stops { OnErr result (ForestStops context.now.patterns.now context.now.start
        context.now.moment out.old steps.old out.new steps.new entry.now
        (list_trees streams.now) (nodes_of forest.old)) }
    ensures prefix { IsPrefix out.old out.new }
{
    let count = streams.len().min(forest.nodes.len());
    run_first(alloc, streams, forest, count, entry, context, out, steps)?;
    run_bare(alloc, after(streams, count), entry, context, out)?;
    Ok(())
}

/// The streams after the first `count`.
pub(crate) fn after(streams: &[Stream], count: usize) -> &[Stream]
    requires { count ≤ length streams.now }
    ensures { result.now ≡ drop count streams.now }
{
    &streams[count..]
}

/// The entry comes to the first `count` of the streams, one after another.
#[cycle(run)]
pub(crate) fn run_first<G: Ledger>(
    alloc: Global,
    streams: &[Stream],
    forest: &mut Forest,
    count: usize,
    entry: &Entry,
    context: &Context,
    out: &mut Outputs,
    steps: &mut Steps<G>,
) -> Result<(), Memory>
    requires streams { count ≤ length streams.now }
    requires nodes { count ≤ length (nodes_of forest.old) }
    ensures runs { OnOk result (FirstRun context.now.patterns.now context.now.start
        context.now.moment out.old steps.old out.new steps.new entry.now
        streams.now (nodes_of forest.old) count (nodes_of forest.new)) }
    ensures stops { OnErr result (ForestStops context.now.patterns.now context.now.start
        context.now.moment out.old steps.old out.new steps.new entry.now
        (list_trees streams.now) (nodes_of forest.old)) }
    ensures many { length (nodes_of forest.new) ≡ length (nodes_of forest.old) }
    ensures prefix { IsPrefix out.old out.new }
{
    for i in 0..count {
        run_node(
            alloc,
            &streams[i],
            &mut forest.nodes[i],
            entry,
            context,
            out,
            steps,
        )?;
    }
    Ok(())
}

/// The entry comes to the stream, and what the stream passes on to those below it.
#[cycle(run)]
fn run_node<G: Ledger>(
    alloc: Global,
    stream: &Stream,
    node: &mut Node,
    entry: &Entry,
    context: &Context,
    out: &mut Outputs,
    steps: &mut Steps<G>,
) -> Result<(), Memory>
    ensures runs { OnOk result (StreamRuns context.now.patterns.now context.now.start
        context.now.moment out.old steps.old out.new steps.new entry.now
        (opened stream.now) (out-Node node.old).state (node_below node.old)
        (out-Node node.new).state (node_below node.new)) }
    ensures stops { OnErr result (StreamStops context.now.patterns.now context.now.start
        context.now.moment out.old steps.old out.new steps.new entry.now
        (opened stream.now) (out-Node node.old).state (node_below node.old)) }
    ensures prefix { IsPrefix out.old out.new }
{
    run_stream(
        alloc,
        stream,
        &mut node.state,
        &mut node.children,
        &mut node.otherwise,
        &mut node.forks,
        entry,
        context,
        out,
        steps,
    )?;
    Ok(())
}

/// An event whose fork is known comes to it. Else the stream acts first. A tick then goes on to each branch. At last
/// each emission goes to its branch, before the next one does.
#[cycle(run)]
fn run_stream<G: Ledger>(
    alloc: Global,
    stream: &Stream,
    state: &mut State,
    children: &mut Forest,
    otherwise: &mut Forest,
    forks: &mut ForkTable<Forest>,
    entry: &Entry,
    context: &Context,
    out: &mut Outputs,
    steps: &mut Steps<G>,
) -> Result<(), Memory>
    ensures runs { OnOk result (StreamRuns context.now.patterns.now context.now.start
        context.now.moment out.old steps.old out.new steps.new entry.now
        (opened stream.now) state.old (below_of children.old otherwise.old forks.old)
        state.new (below_of children.new otherwise.new forks.new)) }
    ensures stops { OnErr result (StreamStops context.now.patterns.now context.now.start
        context.now.moment out.old steps.old out.new steps.new entry.now
        (opened stream.now) state.old (below_of children.old otherwise.old forks.old)) }
    ensures prefix { IsPrefix out.old out.new }
{
    if let Some(number) = known_fork(&stream.kind, forks, entry) {
        run_known(alloc, stream, forks, number, entry, context, out, steps)?;
        return Ok(());
    }
    let passed = act(alloc, &stream.kind, state, entry, context, out)?;
    run_tick(
        alloc, stream, children, otherwise, forks, entry, context, out, steps,
    )?;
    let first = first_pattern(state);
    run_passed(
        alloc, stream, children, otherwise, forks, first, entry, passed, context, out, steps,
    )?;
    Ok(())
}

/// A tick comes to both branches, and of a `by` to the forks that are due.
#[cycle(run)]
fn run_tick<G: Ledger>(
    alloc: Global,
    stream: &Stream,
    children: &mut Forest,
    otherwise: &mut Forest,
    forks: &mut ForkTable<Forest>,
    entry: &Entry,
    context: &Context,
    out: &mut Outputs,
    steps: &mut Steps<G>,
) -> Result<(), Memory>
    ensures runs { OnOk result ((first : ℕ) → TickRuns context.now.patterns.now
        context.now.start context.now.moment out.old steps.old out.new steps.new entry.now
        (opened stream.now) first (below_of children.old otherwise.old forks.old)
        (below_of children.new otherwise.new forks.new)) }
    ensures stops { OnErr result ((first : ℕ) → TickStops context.now.patterns.now
        context.now.start context.now.moment out.old steps.old out.new steps.new entry.now
        (opened stream.now) first (below_of children.old otherwise.old forks.old)) }
    ensures prefix { IsPrefix out.old out.new }
{
    if let Entry::Item(_) = entry {
        return Ok(());
    }
    if is_by(&stream.kind) {
        run_due(alloc, stream, forks, context, out, steps)?;
        return Ok(());
    }
    run_forest(
        alloc,
        &stream.children,
        children,
        entry,
        context,
        out,
        steps,
    )?;
    run_forest(
        alloc,
        &stream.otherwise,
        otherwise,
        entry,
        context,
        out,
        steps,
    )?;
    Ok(())
}

/// A tick comes to the forks. Those in which nothing is due are not entered: they are as they would be after the tick.
/// Those that end at it are dropped.
#[cycle(run)]
fn run_due<G: Ledger>(
    alloc: Global,
    stream: &Stream,
    forks: &mut ForkTable<Forest>,
    context: &Context,
    out: &mut Outputs,
    steps: &mut Steps<G>,
) -> Result<(), Memory>
    ensures runs { OnOk result (DueRuns context.now.patterns.now context.now.start
        context.now.moment out.old steps.old out.new steps.new
        (children_of (opened stream.now)) (idle_by (kind_of (opened stream.now)))
        forks.old forks.new) }
    ensures stops { OnErr result (DueStops context.now.patterns.now context.now.start
        context.now.moment out.old steps.old out.new steps.new
        (children_of (opened stream.now)) (idle_by (kind_of (opened stream.now))) forks.old) }
    ensures prefix { IsPrefix out.old out.new }
{
    let mut numbers = Ids::fresh(alloc);
    forks.due_forks(alloc, context.moment, &mut numbers, steps)?;
    for number in numbers.as_slice() {
        run_fork(
            alloc,
            stream,
            forks,
            *number,
            &Entry::Tick,
            context,
            out,
            steps,
        )?;
    }
    drop_ended(&stream.kind, forks, context.moment);
    Ok(())
}

/// The entry comes to the fork of the number, whose due moment is set anew. No caller has a number without a fork, to
/// which nothing would come.
#[cycle(run)]
fn run_fork<G: Ledger>(
    alloc: Global,
    stream: &Stream,
    forks: &mut ForkTable<Forest>,
    number: usize,
    entry: &Entry,
    context: &Context,
    out: &mut Outputs,
    steps: &mut Steps<G>,
) -> Result<(), Memory>
    ensures runs { OnOk result (ForkRuns context.now.patterns.now context.now.start
        context.now.moment out.old steps.old out.new steps.new entry.now
        (children_of (opened stream.now)) (idle_by (kind_of (opened stream.now))) number
        forks.old forks.new) }
    ensures stops { OnErr result (ForkStops context.now.patterns.now context.now.start
        context.now.moment out.old steps.old out.new steps.new entry.now
        (children_of (opened stream.now)) number forks.old) }
    ensures prefix { IsPrefix out.old out.new }
{
    if !forks.contains(number) {
        return Ok(());
    }
    let fork = forks.enter(number, steps);
    run_forest(alloc, &stream.children, fork, entry, context, out, steps)?;
    let due = forest_due(&stream.children, fork);
    let due = due_before_end(&stream.kind, forks.moment(number), due);
    forks.set_due(alloc, number, due)?;
    Ok(())
}

/// The item comes to the fork of the key, which is made where there is none.
#[cycle(run)]
fn run_key<G: Ledger>(
    alloc: Global,
    stream: &Stream,
    forks: &mut ForkTable<Forest>,
    first: usize,
    key: Key,
    entry: &Entry,
    context: &Context,
    out: &mut Outputs,
    steps: &mut Steps<G>,
) -> Result<(), Memory>
    ensures runs { OnOk result ((children otherwise : Nodes) (ended : ℕ) →
        BranchRuns context.now.patterns.now context.now.start
        context.now.moment out.old steps.old out.new steps.new entry.now
        (opened stream.now) first (Fork (record { key = key; number = ended }))
        (below_of children otherwise forks.old) (below_of children otherwise forks.new)) }
    ensures stops { OnErr result ((children otherwise : Nodes) (ended : ℕ) →
        BranchStops context.now.patterns.now context.now.start
        context.now.moment out.old steps.old out.new steps.new entry.now
        (opened stream.now) first (Fork (record { key = key; number = ended }))
        (below_of children otherwise forks.old)) }
    ensures prefix { IsPrefix out.old out.new }
{
    let number = find_fork(alloc, &stream.children, forks, key, first, context)?;
    run_fork(alloc, stream, forks, number, entry, context, out, steps)?;
    Ok(())
}

/// The event comes to the fork of the number, which is that of its key.
#[cycle(run)]
fn run_known<G: Ledger>(
    alloc: Global,
    stream: &Stream,
    forks: &mut ForkTable<Forest>,
    number: usize,
    entry: &Entry,
    context: &Context,
    out: &mut Outputs,
    steps: &mut Steps<G>,
) -> Result<(), Memory>
    requires { IsKnown (kind_tree (out-Stream stream.now).kind) entry.now forks.old number }
    ensures runs { OnOk result ((state : NodeState) (children otherwise : Nodes) →
        StreamRuns context.now.patterns.now context.now.start
        context.now.moment out.old steps.old out.new steps.new entry.now
        (opened stream.now) state (below_of children otherwise forks.old)
        state (below_of children otherwise forks.new)) }
    ensures stops { OnErr result ((state : NodeState) (children otherwise : Nodes) →
        StreamStops context.now.patterns.now context.now.start
        context.now.moment out.old steps.old out.new steps.new entry.now
        (opened stream.now) state (below_of children otherwise forks.old)) }
    ensures prefix { IsPrefix out.old out.new }
{
    forks.touch(number, context.moment);
    run_fork(alloc, stream, forks, number, entry, context, out, steps)?;
    Ok(())
}

/// What the stream passes on goes to its branches.
#[cycle(run)]
fn run_passed<G: Ledger>(
    alloc: Global,
    stream: &Stream,
    children: &mut Forest,
    otherwise: &mut Forest,
    forks: &mut ForkTable<Forest>,
    first: usize,
    entry: &Entry,
    passed: Passed,
    context: &Context,
    out: &mut Outputs,
    steps: &mut Steps<G>,
) -> Result<(), Memory>
    ensures runs { OnOk result ((ended : List Value → ℕ) →
        EmissionsRun context.now.patterns.now context.now.start
        context.now.moment out.old steps.old out.new steps.new
        (emissions_meant ended passed entry.now)
        (opened stream.now) first (below_of children.old otherwise.old forks.old)
        (below_of children.new otherwise.new forks.new)) }
    ensures stops { OnErr result ((ended : List Value → ℕ) →
        EmissionsStop context.now.patterns.now context.now.start
        context.now.moment out.old steps.old out.new steps.new
        (emissions_meant ended passed entry.now)
        (opened stream.now) first (below_of children.old otherwise.old forks.old)) }
    ensures prefix { IsPrefix out.old out.new }
{
    match (passed, entry) {
        (Passed::Made(emissions), _) => {
            run_emissions(
                alloc, stream, children, otherwise, emissions, context, out, steps,
            )?;
            Ok(())
        }
        (Passed::Same(branch), Entry::Item(_)) => {
            run_branch(
                alloc, stream, children, otherwise, branch, entry, context, out, steps,
            )?;
            Ok(())
        }
        (Passed::Keyed(key), Entry::Item(_)) => {
            run_key(alloc, stream, forks, first, key, entry, context, out, steps)?;
            Ok(())
        }
        (Passed::Same(_) | Passed::Keyed(_), Entry::Tick) | (Passed::Nothing, _) => Ok(()),
    }
}

/// Each of the emissions goes to its branch, before the next one does.
#[cycle(run)]
fn run_emissions<G: Ledger>(
    alloc: Global,
    stream: &Stream,
    children: &mut Forest,
    otherwise: &mut Forest,
    emissions: Emissions,
    context: &Context,
    out: &mut Outputs,
    steps: &mut Steps<G>,
) -> Result<(), Memory>
    ensures runs { OnOk result ((first : ℕ) (forks : Table Nodes) →
        EmissionsRun context.now.patterns.now context.now.start
        context.now.moment out.old steps.old out.new steps.new
        (map emission_meant emissions)
        (opened stream.now) first (below_of children.old otherwise.old forks)
        (below_of children.new otherwise.new forks)) }
    ensures stops { OnErr result ((first : ℕ) (forks : Table Nodes) →
        EmissionsStop context.now.patterns.now context.now.start
        context.now.moment out.old steps.old out.new steps.new
        (map emission_meant emissions)
        (opened stream.now) first (below_of children.old otherwise.old forks)) }
    ensures prefix { IsPrefix out.old out.new }
{
    for emission in emissions.into_vec() {
        let Emission { branch, item } = emission;
        run_branch(
            alloc,
            stream,
            children,
            otherwise,
            branch_of(branch),
            &Entry::Item(item),
            context,
            out,
            steps,
        )?;
    }
    Ok(())
}

/// The entry comes to the branch.
#[cycle(run)]
fn run_branch<G: Ledger>(
    alloc: Global,
    stream: &Stream,
    children: &mut Forest,
    otherwise: &mut Forest,
    branch: Branch,
    entry: &Entry,
    context: &Context,
    out: &mut Outputs,
    steps: &mut Steps<G>,
) -> Result<(), Memory>
    ensures runs { OnOk result ((first : ℕ) (forks : Table Nodes) →
        BranchRuns context.now.patterns.now context.now.start
        context.now.moment out.old steps.old out.new steps.new entry.now
        (opened stream.now) first (branch_meant branch)
        (below_of children.old otherwise.old forks) (below_of children.new otherwise.new forks)) }
    ensures stops { OnErr result ((first : ℕ) (forks : Table Nodes) →
        BranchStops context.now.patterns.now context.now.start
        context.now.moment out.old steps.old out.new steps.new entry.now
        (opened stream.now) first (branch_meant branch)
        (below_of children.old otherwise.old forks)) }
    ensures prefix { IsPrefix out.old out.new }
{
    match branch {
        Branch::Children => {
            run_forest(
                alloc,
                &stream.children,
                children,
                entry,
                context,
                out,
                steps,
            )?;
            Ok(())
        }
        Branch::Otherwise => {
            run_forest(
                alloc,
                &stream.otherwise,
                otherwise,
                entry,
                context,
                out,
                steps,
            )?;
            Ok(())
        }
    }
}

fn branch_of(number: u32) -> Branch
    ensures { branch_meant result ≡ branch_numbered number }
{
    if number == 0 {
        Branch::Children
    } else {
        Branch::Otherwise
    }
}

/// Of a `by`, the number of the first regular expression of its children.
fn first_pattern(state: &State) -> usize
    ensures { result ≡ first_of state.now }
{
    match state {
        State::Forks { first } => *first,
        _ => 0,
    }
}
