//! Bare streams, which keep nothing, pass nothing on, and have none below them. They need no nodes.
ghost use Rattle.std.specs.Prelude.{◌≡◌, [], IsTrue, IsOk, OnOk, OnErr};
ghost use Rattle.list_laws.specs.Prefix.{IsPrefix};
ghost use Rattle.stream_meaning.specs.declared.entry.Entry.TheVariants.{Tick};
ghost use Rattle.stream_plan.specs.Search.{opened};
ghost use Rattle.stream_plan.specs.Tree.{stream as tree, none, kind_tree, list_trees};
ghost use Rattle.stream_tree.specs.Forest.{IsBare, AllBare};
ghost use Rattle.stream_tree.specs.Running.{BareRun, BareStop};

use ev_types::{Memory, Outputs};
use std::alloc::Global;
use stream_meaning::Entry;
use stream_plan::{Kind, Stream, Streams};
use stream_step::{Context, State, act};

/// True only if each of the streams is bare.
pub(crate) fn are_bare(streams: &[Stream]) -> bool
    ensures { IsTrue result → AllBare (list_trees streams.now) }
{
    for stream in streams {
        if !is_bare(stream) {
            return false;
        }
    }
    true
}

fn is_bare(stream: &Stream) -> bool
    ensures { IsTrue result → IsBare (opened stream.now) }
{
    if !are_none(&stream.children) || !are_none(&stream.otherwise) {
        return false;
    }
    keeps_nothing(&stream.kind)
}

fn are_none(streams: &Streams) -> bool
    ensures { IsTrue result → streams.now.items ≡ [] }
{
    streams.is_empty()
}

/// True only if a stream of the kind is bare when there are none below it.
fn keeps_nothing(kind: &Kind) -> bool
    ensures { IsTrue result → IsBare (tree (kind_tree kind.now) none none) }
{
    matches!(kind, Kind::Index | Kind::Notice(_))
}

/// The entry comes to each of the streams, which are bare, one after another. A tick takes no memory.
pub(crate) fn run_bare(
    alloc: Global,
    streams: &[Stream],
    entry: &Entry,
    context: &Context,
    out: &mut Outputs,
) -> Result<(), Memory>
    ensures runs { OnOk result (BareRun context.now.patterns.now context.now.start
        context.now.moment out.old out.new entry.now (list_trees streams.now)) }
    ensures stops { OnErr result (BareStop context.now.patterns.now context.now.start
        context.now.moment out.old out.new entry.now (list_trees streams.now)) }
    ensures quiet { entry.now ≡ Tick → IsOk result }
    ensures prefix { IsPrefix out.old out.new }
{
    match entry {
        Entry::Tick => Ok(()),
        Entry::Item(_) => act_bare(alloc, streams, entry, context, out),
    }
}

fn act_bare(
    alloc: Global,
    streams: &[Stream],
    entry: &Entry,
    context: &Context,
    out: &mut Outputs,
) -> Result<(), Memory>
    ensures runs { OnOk result (BareRun context.now.patterns.now context.now.start
        context.now.moment out.old out.new entry.now (list_trees streams.now)) }
    ensures stops { OnErr result (BareStop context.now.patterns.now context.now.start
        context.now.moment out.old out.new entry.now (list_trees streams.now)) }
    ensures prefix { IsPrefix out.old out.new }
{
    for stream in streams {
        act(alloc, &stream.kind, &mut State::Empty, entry, context, out)?;
    }
    Ok(())
}
