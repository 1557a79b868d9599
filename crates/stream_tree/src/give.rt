//! An event that comes to the streams by reference.
ghost use Rattle.std.specs.Prelude.{◌≡◌, ◌≤◌, true, length, IfOk, OnOk, OnErr};
ghost use Rattle.ev_types.specs.declared.event.Event.{Event as StoredEvent};
ghost use Rattle.ev_types.specs.declared.item.Item.TheVariants.{One};
ghost use Rattle.list_laws.specs.Prefix.{IsPrefix};
ghost use Rattle.stream_meaning.specs.declared.entry.Entry.TheVariants.{Item as In};
ghost use Rattle.stream_plan.specs.Tree.{kind_tree, list_trees};
ghost use Rattle.stream_tree.specs.Forest.{nodes_of};
ghost use Rattle.stream_tree.specs.Running.{FirstRun, ForestRuns, ForestStops};
ghost use Rattle.stream_tree.specs.Tree.{with_write};
ghost use Rattle.stream_tree.specs.Unseen.{is_index, is_one_index};

use crate::forest::Forest;
use crate::run::{run_first, run_forest};
use ev_types::{Event, Item, Memory, Outputs};
use std::alloc::Global;
use std::mem;
use step_count::{Ledger, Steps};
use stream_meaning::Entry;
use stream_plan::{Kind, Stream};
use stream_step::Context;

/// The event comes to each of the streams, one after another. Where the last one is an `index`, its write is not
/// appended: the answer is then true, and the event is as it was.
pub(crate) fn offer_forest<G: Ledger>(
    alloc: Global,
    streams: &[Stream],
    forest: &mut Forest,
    event: &mut Event,
    context: &Context,
    out: &mut Outputs,
    steps: &mut Steps<G>,
) -> Result<bool, Memory>
    ensures runs { IfOk result (λ is_write_due. ForestRuns context.now.patterns.now
        context.now.start context.now.moment out.old steps.old
        (with_write is_write_due event.old out.new) steps.new (In (One event.old))
        (list_trees streams.now) (nodes_of forest.old) (nodes_of forest.new)) }
    ensures stops { OnErr result (ForestStops context.now.patterns.now context.now.start
        context.now.moment out.old steps.old out.new steps.new (In (One event.old))
        (list_trees streams.now) (nodes_of forest.old)) }
    ensures event { IfOk result (λ is_write_due. is_write_due ≡ true → event.new ≡ event.old) }
    ensures prefix { IsPrefix out.old out.new }
{
    let count = streams.len();
    if count == 0 || forest.nodes.len() < count || !is_index(&streams[count - 1].kind) {
        give_all(alloc, streams, forest, event, context, out, steps)?;
        return Ok(false);
    }
    if count == 1 {
        return Ok(true);
    }
    lend_first(
        alloc,
        streams,
        forest,
        count - 1,
        event,
        context,
        out,
        steps,
    )?;
    Ok(true)
}

/// Whether the only stream is an `index`.
#[inline]
pub(crate) fn is_alone(streams: &[Stream]) -> bool
    ensures { result ≡ is_one_index (list_trees streams.now) }
{
    streams.len() == 1 && is_index(&streams[0].kind)
}

/// Whether the kind is an `index`.
#[inline]
fn is_index(kind: &Kind) -> bool
    ensures { result ≡ is_index (kind_tree kind.now) }
{
    matches!(kind, Kind::Index)
}

/// The event comes to each of the streams, one after another. What is left in `event` is not specified.
fn give_all<G: Ledger>(
    alloc: Global,
    streams: &[Stream],
    forest: &mut Forest,
    event: &mut Event,
    context: &Context,
    out: &mut Outputs,
    steps: &mut Steps<G>,
) -> Result<(), Memory>
    ensures runs { OnOk result (ForestRuns context.now.patterns.now context.now.start
        context.now.moment out.old steps.old out.new steps.new (In (One event.old))
        (list_trees streams.now) (nodes_of forest.old) (nodes_of forest.new)) }
    ensures stops { OnErr result (ForestStops context.now.patterns.now context.now.start
        context.now.moment out.old steps.old out.new steps.new (In (One event.old))
        (list_trees streams.now) (nodes_of forest.old)) }
    ensures prefix { IsPrefix out.old out.new }
{
    let entry = Entry::Item(Item::One(mem::replace(event, Event::at(alloc, 0))));
    run_forest(alloc, streams, forest, &entry, context, out, steps)?;
    Ok(())
}

/// The event comes to the first `count` of the streams, one after another, and is as it was after `Ok`.
fn lend_first<G: Ledger>(
    alloc: Global,
    streams: &[Stream],
    forest: &mut Forest,
    count: usize,
    event: &mut Event,
    context: &Context,
    out: &mut Outputs,
    steps: &mut Steps<G>,
) -> Result<(), Memory>
    requires streams { count ≤ length streams.now }
    requires nodes { count ≤ length (nodes_of forest.old) }
    ensures runs { OnOk result (FirstRun context.now.patterns.now context.now.start
        context.now.moment out.old steps.old out.new steps.new (In (One event.old))
        streams.now (nodes_of forest.old) count (nodes_of forest.new)) }
    ensures stops { OnErr result (ForestStops context.now.patterns.now context.now.start
        context.now.moment out.old steps.old out.new steps.new (In (One event.old))
        (list_trees streams.now) (nodes_of forest.old)) }
    ensures many { length (nodes_of forest.new) ≡ length (nodes_of forest.old) }
    ensures event { OnOk result (event.new ≡ event.old) }
    ensures prefix { IsPrefix out.old out.new }
{
    let mut entry = Entry::Item(Item::One(mem::replace(event, Event::at(alloc, 0))));
    run_first(alloc, streams, forest, count, &entry, context, out, steps)?;
    give_back(&mut entry, event);
    Ok(())
}

/// Moves the event of the entry back to `event`.
fn give_back(entry: &mut Entry, event: &mut Event)
    ensures { (lent : StoredEvent) → entry.old ≡ In (One lent) → event.new ≡ lent }
{
    if let Entry::Item(Item::One(lent)) = entry {
        mem::swap(event, lent);
    }
}
