//! What streams do with an event, if its fields say it.
ghost use Rattle.std.specs.Prelude.{◌≡◌, ℕ, ◌≤◌, false, List, [], drop, length, IfOk, IsOk};
ghost use Rattle.ev_types.specs.declared.event.Event.{Event as OneEvent};
ghost use Rattle.pred_eval.specs.Search.{AreReadFrom};
ghost use Rattle.stream_meaning.specs.History.{History};
ghost use Rattle.stream_plan.specs.Ready.{stream_patterns, plan_patterns};
ghost use Rattle.stream_plan.specs.Search.{opened};
ghost use Rattle.stream_plan.specs.Tree.{kind_tree, list_trees};
ghost use Rattle.stream_tree.specs.Forest.{nodes_of, AllBare, NodeRepresents, ForestRepresents};
ghost use Rattle.stream_tree.specs.Unseen.{both, is_looking, stream_unseen, plan_unseen};

use crate::forest::{Forest, Node};
use crate::give::is_alone;
use crate::run::after;
use ev_types::{EventFields, Memory};
use pred_eval::{Finder, rule_holds_of};
use std::alloc::Global;
use stream_plan::{Kind, Stream};
use stream_step::own_patterns;

/// What streams do with an event that comes to them.
#[derive(Clone, Copy, Debug, PartialEq, Eq)]
pub enum Unseen {
    /// Nothing.
    Nothing,
    /// They write it into the index, once.
    Write,
    /// The event itself is needed for it.
    Needed,
}

impl Unseen {
    /// What is done if both of these are done.
    fn and(self, more: Unseen) -> Unseen
        ensures { result ≡ both self more }
    {
        match (self, more) {
            (Unseen::Nothing, _) => more,
            (Unseen::Write, Unseen::Nothing) => Unseen::Write,
            (Unseen::Write, _) | (Unseen::Needed, _) => Unseen::Needed,
        }
    }
}

/// False only if the event is needed, whichever it is.
pub(crate) fn may_be_unseen(streams: &[Stream]) -> bool
    ensures { result ≡ false → (event : OneEvent) →
        plan_unseen (list_trees streams.now) event ≡ Unseen.Needed }
{
    for stream in streams {
        if !is_looking(&stream.kind) {
            return false;
        }
    }
    true
}

/// Whether what a stream of the kind does with an event may be known from the event's fields.
fn is_looking(kind: &Kind) -> bool
    ensures { result ≡ is_looking (kind_tree kind.now) }
{
    matches!(kind, Kind::Index | Kind::Sdo | Kind::Where(_))
}

/// What the streams do with the event. Those without a node are bare.
#[cycle(unseen)]
pub(crate) fn forest_unseen<E: EventFields>(
    alloc: Global,
    streams: &[Stream],
    forest: &Forest,
    patterns: &[Finder],
    event: &E,
) -> Result<Unseen, Memory>
    ensures answer { IfOk result (λ unseen. (texts : List (List ℕ)) (h : History) →
        AreReadFrom texts patterns.now →
        ForestRepresents texts (list_trees streams.now) (nodes_of forest.now) h →
        unseen ≡ plan_unseen (list_trees streams.now) (E.event event.now)) }
    ensures memory { plan_patterns (list_trees streams.now) ≡ [] → IsOk result }
{
    let count = streams.len().min(forest.nodes.len());
    let mut unseen = Unseen::Nothing;
    for i in 0..count {
        let own = node_unseen(alloc, &streams[i], &forest.nodes[i], patterns, event)?;
        unseen = unseen.and(own);
        if unseen == Unseen::Needed {
            return Ok(Unseen::Needed);
        }
    }
    Ok(unseen.and(bare_unseen(after(streams, count))))
}

#[cycle(unseen)]
fn node_unseen<E: EventFields>(
    alloc: Global,
    stream: &Stream,
    node: &Node,
    patterns: &[Finder],
    event: &E,
) -> Result<Unseen, Memory>
    ensures answer { IfOk result (λ unseen. (texts : List (List ℕ)) (h : History) →
        AreReadFrom texts patterns.now →
        NodeRepresents texts (opened stream.now) node.now h →
        unseen ≡ stream_unseen (opened stream.now) (E.event event.now)) }
    ensures memory { stream_patterns (opened stream.now) ≡ [] → IsOk result }
{
    match &stream.kind {
        Kind::Index => Ok(Unseen::Write),
        Kind::Sdo => {
            let unseen = forest_unseen(alloc, &stream.children, &node.children, patterns, event)?;
            Ok(unseen)
        }
        Kind::Where(rule) => {
            let own = own_patterns(&node.state, patterns);
            if rule_holds_of(alloc, rule, own, event)? {
                let unseen = forest_unseen(
                    alloc,
                    &stream.children,
                    &node.children,
                    patterns,
                    event,
                )?;
                Ok(unseen)
            } else {
                let unseen = forest_unseen(
                    alloc,
                    &stream.otherwise,
                    &node.otherwise,
                    patterns,
                    event,
                )?;
                Ok(unseen)
            }
        }
        _ => Ok(Unseen::Needed),
    }
}

/// What bare streams do with an event.
fn bare_unseen(streams: &[Stream]) -> Unseen
    ensures { AllBare (list_trees streams.now) → (event : OneEvent) →
        result ≡ plan_unseen (list_trees streams.now) event }
{
    if streams.is_empty() {
        Unseen::Nothing
    } else if is_alone(streams) {
        Unseen::Write
    } else {
        Unseen::Needed
    }
}
