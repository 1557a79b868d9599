//! Plans whose regular expressions are built.

ghost use Rattle.std.specs.Prelude.{◌≡◌, ◌<◌, ◌≤◌, ◌^◌, ◌++◌, length, OnOk, OnErr, IfOk, None};
ghost use Rattle.std.specs.Option.{option_map};
ghost use Rattle.list_laws.specs.Counts.{greatest};
ghost use Rattle.list_laws.specs.Prefix.{IsPrefix};
ghost use Rattle.pred_eval.specs.Building.{texts_of, HasCause, refused_of};
ghost use Rattle.pred_eval.specs.Search.{AreReadFrom};
ghost use Rattle.stream_plan.specs.Tree.{kind_tree, list_trees, plan_tree};
ghost use Rattle.stream_plan.specs.Faults.{first_fault};
ghost use Rattle.stream_plan.specs.Ready.{kind_patterns, stream_patterns, plan_patterns, IsReady};
ghost use Rattle.stream_plan.specs.Search.{opened};
ghost use Rattle.stream_plan.specs.Sound.{IsSound};

use crate::{CheckedPlan, Kind, Plan, Stream};
use ev_types::{Memory, Text};
use pred_eval::{BuildFault, Finder, Patterns, append_texts, build_all};
use std::alloc::Global;
use std::marker::Model;

/// A plan without faults whose regular expressions are built. They are in one list, in the order of the streams, each
/// before those below it, and within a stream in the order in which its rule is written.
#[derive(Drop)]
pub struct ReadyPlan {
    plan: Plan,
    patterns: Vec<Finder>,
}

impl Model for ReadyPlan {
    ghost use Rattle.std.specs.Coded.{codes};
    ghost use Rattle.pred_eval.specs.TreeCode.{tree_code};
    ghost use Rattle.stream_plan.specs.Code.{streams_code};
    ghost use Rattle.stream_plan.specs.Ready.{IsReady};
    ghost use Rattle.stream_plan.specs.Tree.{StreamTrees, plan_tree};

    ghost Value = { StreamTrees };

    ghost coded = { streams_code (Prim.hlevel (codes, tree_code (Prim.hlevel codes))) };

    ghost view = { λ ready. plan_tree ready.plan };

    ghost invariant = { λ ready. IsReady (plan_tree ready.plan) ready.patterns.items };
}

impl ReadyPlan {
    /// The plan, which was checked. It has at most 2^64 - 1 regular expressions.
    #[tactic(auto, using(crate::proofs::SoundLaws::faultless_is_sound, pred_eval::proofs::SearchLaws::read_length))]
    pub fn plan(&self) -> &Plan
        ensures same { plan_tree result.now ≡ self.now }
        ensures faultless { first_fault self.now ≡ None }
        ensures sound { IsSound self.now }
        ensures few { length (plan_patterns self.now) ≤ greatest }
    {
        &self.plan
    }

    /// Its regular expressions.
    pub fn patterns(&self) -> &[Finder]
        ensures { AreReadFrom (plan_patterns self.now) result.now }
    {
        self.patterns.as_slice()
    }
}

/// Builds the regular expressions of the plan, of which there are fewer than 2^32. They are numbered from 0, in the
/// order of [`ReadyPlan`].
pub fn build_plan<P: Patterns>(
    alloc: Global,
    plan: CheckedPlan,
    patterns: &mut P,
) -> Result<ReadyPlan, BuildFault>
    requires { length (plan_patterns plan) < 2 ^ 32 }
    ensures plan { IfOk result (λ ready. ready ≡ plan) }
    ensures cause { HasCause (plan_patterns plan) (P.report patterns.old).refusals
        (P.report patterns.new).refusals result }
    ensures reported { (P.report patterns.new).refused ≡
        option_map (λ texts. texts ++ refused_of (plan_patterns plan) result)
        (P.report patterns.old).refused }
    ensures refusals { (P.report patterns.old).refusals ≤ (P.report patterns.new).refusals }
{
    let plan = plan.into_plan();
    let patterns = build_patterns(alloc, &plan, patterns)?;
    Ok(ReadyPlan { plan, patterns })
}

fn build_patterns<P: Patterns>(
    alloc: Global,
    plan: &Plan,
    patterns: &mut P,
) -> Result<Vec<Finder>, BuildFault>
    requires { length (plan_patterns (plan_tree plan.now)) < 2 ^ 32 }
    ensures built { IfOk result
        (λ regexes. AreReadFrom (plan_patterns (plan_tree plan.now)) regexes.items) }
    ensures cause { HasCause (plan_patterns (plan_tree plan.now)) (P.report patterns.old).refusals
        (P.report patterns.new).refusals result }
    ensures reported { (P.report patterns.new).refused ≡
        option_map (λ texts. texts ++ refused_of (plan_patterns (plan_tree plan.now)) result)
        (P.report patterns.old).refused }
    ensures refusals { (P.report patterns.old).refusals ≤ (P.report patterns.new).refusals }
{
    let mut texts = Vec::new(alloc);
    append_streams(alloc, &plan.streams, &mut texts)?;
    build_all(alloc, texts.as_slice(), patterns)
}

/// Appends the texts of the streams' regular expressions.
#[cycle(append)]
fn append_streams<'a>(
    alloc: Global,
    streams: &'a [Stream],
    texts: &mut Vec<&'a Text>,
) -> Result<(), Memory>
    ensures ok { OnOk result
        (texts_of texts.new.items ≡ texts_of texts.old.items
        ++ plan_patterns (list_trees streams.now)) }
    ensures err { OnErr result (IsPrefix (texts_of texts.old.items) (texts_of texts.new.items)) }
{
    for stream in streams {
        append_stream(alloc, stream, texts)?;
    }
    Ok(())
}

/// Appends the texts of the regular expressions of the stream and of those below it.
#[cycle(append)]
fn append_stream<'a>(
    alloc: Global,
    stream: &'a Stream,
    texts: &mut Vec<&'a Text>,
) -> Result<(), Memory>
    ensures ok { OnOk result
        (texts_of texts.new.items ≡ texts_of texts.old.items
        ++ stream_patterns (opened stream.now)) }
    ensures err { OnErr result (IsPrefix (texts_of texts.old.items) (texts_of texts.new.items)) }
{
    append_kind(alloc, &stream.kind, texts)?;
    append_streams(alloc, &stream.children, texts)?;
    append_streams(alloc, &stream.otherwise, texts)?;
    Ok(())
}

fn append_kind<'a>(alloc: Global, kind: &'a Kind, texts: &mut Vec<&'a Text>) -> Result<(), Memory>
    ensures ok { OnOk result
        (texts_of texts.new.items ≡ texts_of texts.old.items
        ++ kind_patterns (kind_tree kind.now)) }
    ensures err { OnErr result (IsPrefix (texts_of texts.old.items) (texts_of texts.new.items)) }
{
    if let Kind::Where(rule) = kind {
        append_texts(alloc, rule, texts)?;
    }
    Ok(())
}
