//! The search for the first stream of a plan that is refused for a cause.

ghost use Rattle.std.specs.Prelude.{◌≡◌, [], ◌∷◌, length, IfOk};
ghost use Rattle.std.specs.Option.{option_map};
ghost use Rattle.stream_plan.specs.Tree.{list_trees, plan_tree};
ghost use Rattle.stream_plan.specs.Faults.{preorder_at, preorder_in, preorder_of, counts, allowed, place_of, has_streams, has_wrong_streams};
ghost use Rattle.stream_plan.specs.Search.{opened, Searches};

use crate::fault::{Path, PlanWhy};
use crate::kinds::{Flow, Input};
use crate::{Plan, Stream};
use ev_types::Memory;
use std::alloc::Global;

/// The most streams of a plan.
pub const MAX_STREAMS: usize = 4096;

/// The most streams in a row from the top down.
pub const MAX_DEPTH: usize = 64;

/// A search for the first stream that is one too many for a cause.
#[derive(Drop)]
struct Search {
    why: PlanWhy,
    /// How many of the streams to come may count against the cause.
    allowed: usize,
    /// The way to the streams that are looked at, or to the one that was found.
    path: Vec<usize>,
}

/// The path of the first stream that is refused for the cause.
pub(crate) fn place_of(alloc: Global, plan: &Plan, why: PlanWhy) -> Result<Option<Path>, Memory>
    ensures { IfOk result (λ place. place ≡ option_map (λ s. s.path)
        (place_of why (preorder_of (plan_tree plan.now)))) }
{
    let mut search = Search {
        why,
        allowed: allowed(why),
        path: Vec::new(alloc),
    };
    let top = Flow {
        input: Input::Event,
        in_fork: false,
    };
    if search.find_among(&plan.streams, &[], top)? {
        Ok(Some(Path::from_vec(search.path)))
    } else {
        Ok(None)
    }
}

impl Search {
    /// Goes over the streams and those below them. `before` are the ones that are numbered before them.
    #[cycle(find)]
    fn find_among(
        &mut self,
        streams: &[Stream],
        before: &[Stream],
        flow: Flow,
    ) -> Result<bool, Memory>
        ensures { IfOk result (λ found. Searches found self.old self.new
            (preorder_in self.old.path.items (length before.now) flow (list_trees streams.now))) }
    {
        for (index, stream) in streams.iter().enumerate() {
            self.path.push(before.len() + index)?;
            if self.find_at(stream, flow)? {
                return Ok(true);
            }
            self.path.pop();
        }
        Ok(false)
    }

    /// Goes over the stream at the path and those below it.
    #[cycle(find)]
    fn find_at(&mut self, stream: &Stream, flow: Flow) -> Result<bool, Memory>
        ensures { IfOk result (λ found. Searches found self.old self.new
            (preorder_at self.old.path.items flow (opened stream.now))) }
    {
        if self.ends_at(stream, flow) {
            return Ok(true);
        }
        let flow = stream.kind.passes_on(flow);
        if self.find_among(&stream.children, &[], flow)? {
            return Ok(true);
        }
        let found = self.find_among(&stream.otherwise, &stream.children, flow)?;
        Ok(found)
    }

    /// Whether the search ends at the stream, which is at the path.
    fn ends_at(&mut self, stream: &Stream, flow: Flow) -> bool
        ensures { Searches result self.old self.new
            (record { path = self.old.path.items; flow = flow; tree = opened stream.now } ∷ []) }
    {
        if !counts(self.why, &self.path, stream, flow) {
            return false;
        }
        if self.allowed == 0 {
            return true;
        }
        self.allowed -= 1;
        false
    }
}

/// How many streams that count against the cause a plan may have.
fn allowed(why: PlanWhy) -> usize
    ensures { result ≡ allowed why }
{
    match why {
        PlanWhy::Many => MAX_STREAMS,
        PlanWhy::Deep | PlanWhy::Children | PlanWhy::Range | PlanWhy::Kind => 0,
    }
}

/// Whether the stream at the path, to which this comes, counts against the cause.
#[tactic(auto, unfolding(crate::specs::Search::opened))]
fn counts(why: PlanWhy, path: &[usize], stream: &Stream, flow: Flow) -> bool
    ensures { result ≡ counts why (record {
      path = path.now;
      flow = flow;
      tree = opened stream.now;
    }) }
{
    match why {
        PlanWhy::Many => true,
        PlanWhy::Deep => path.len() > MAX_DEPTH,
        PlanWhy::Children => has_wrong_streams(stream),
        PlanWhy::Range => { !stream.kind.is_in_range() || (stream.kind.has_idle() && flow.in_fork) }
        PlanWhy::Kind => !stream.kind.takes(flow.input),
    }
}

/// Whether streams follow the stream that may not follow it.
#[tactic(auto, unfolding(crate::specs::Search::opened))]
fn has_wrong_streams(stream: &Stream) -> bool
    ensures { result ≡ has_wrong_streams (opened stream.now) }
{
    (!stream.kind.may_have_children() && has_streams(&stream.children))
        || (!stream.kind.may_have_otherwise() && has_streams(&stream.otherwise))
}

fn has_streams(streams: &[Stream]) -> bool
    ensures { result ≡ has_streams (list_trees streams.now) }
{
    !streams.is_empty()
}
