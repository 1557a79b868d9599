//! The forks of a `by`.
ghost use Rattle.std.specs.Prelude.{IfOk, IfSome};
ghost use Rattle.stream_plan.specs.Tree.{kind_tree, list_trees};
ghost use Rattle.stream_tree.specs.Forks.{Finds, IsKnown};

use crate::forest::{Forest, fresh_branch};
use ev_types::{Item, Key, Memory};
use fork_by::ForkTable;
use std::alloc::Global;
use stream_meaning::Entry;
use stream_plan::{Kind, Stream};
use stream_step::Context;

/// The number of the fork of the entry's key, if the entry is an event that comes to a `by`, and the fork is found
/// without making the key.
pub(crate) fn known_fork(kind: &Kind, forks: &ForkTable<Forest>, entry: &Entry) -> Option<usize>
    ensures { IfSome result (λ number. IsKnown (kind_tree kind.now) entry.now forks.now number) }
{
    match (kind, entry) {
        (Kind::By { fields, .. }, Entry::Item(Item::One(event))) => forks.known(event, fields),
        _ => None,
    }
}

/// The number of the fork of the key, to which an item comes now. Where there is none, it is made: a copy of the
/// streams that begins with the tree and has got nothing but ticks, whose regular expressions are those of the plan
/// from number `first` on.
pub(crate) fn find_fork(
    alloc: Global,
    streams: &[Stream],
    forks: &mut ForkTable<Forest>,
    key: Key,
    first: usize,
    context: &Context,
) -> Result<usize, Memory>
    ensures found { IfOk result (λ number. Finds (list_trees streams.now) first
        context.now.start context.now.moment key forks.old forks.new number) }
{
    if let Some(number) = forks.find(&key) {
        forks.touch(number, context.moment);
        forks.note(alloc, number);
        return Ok(number);
    }
    let mut next = first;
    let fork = fresh_branch(alloc, streams, &mut next, context.start)?;
    let number = forks.add(alloc, key, fork, context.moment)?;
    Ok(number)
}
