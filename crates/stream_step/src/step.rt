ghost use Rattle.std.specs.Prelude.{◌≡◌, ℕ, ◌+◌, ◌≤◌, ◌^◌, false, List, [], ◌∷◌, ◌++◌, length, take, drop, if◌then◌else◌, Option, IfOk, IsOk, OnErr, OnOk};
ghost use Rattle.ev_types.specs.declared.item.Item.TheVariants.{One, Many};
ghost use Rattle.ev_types.specs.declared.value.Value.{Value};
ghost use Rattle.list_laws.specs.Prefix.{IsPrefix};
ghost use Rattle.pred_eval.specs.Search.{AreReadFrom};
ghost use Rattle.pred_eval.specs.Tree.{Tree as RuleTree, tree_of};
ghost use Rattle.pred_eval.specs.Truth.{holds, searches};
ghost use Rattle.stream_meaning.specs.declared.entry.Entry.{Entry as CameEntry};
ghost use Rattle.stream_meaning.specs.declared.entry.Entry.TheVariants.{Tick, Item as In};
ghost use Rattle.stream_meaning.specs.Emission.{to, emissions, fold_of, Children as children, Otherwise as otherwise};
ghost use Rattle.stream_meaning.specs.History.{History, ◌▸◌, moment_of};
ghost use Rattle.stream_meaning.specs.Images.{with_sets, with_defaults, with_tags};
ghost use Rattle.stream_meaning.specs.Laws.{own_outputs};
ghost use Rattle.stream_plan.specs.Tree.{KindTree, kind_tree, By, Where};
ghost use Rattle.stream_states.specs.Kept.{KeptRepresents};
ghost use Rattle.stream_states.specs.flow_streams.Changed.{changed_kind, ChangedRepresents};
ghost use Rattle.stream_step.specs.Step.{branch_meant, ended_by, emissions_meant, HasNumbers, is_kept, StateRepresents, Acts};

use crate::{Branch, Passed, State};
use ev_types::{
    Emission, Emissions, Event, Events, Fields, Fold, Item, Memory, Notice, Output, Outputs, Sets,
    Tags, Text, key_of,
};
use pred_eval::{Finder, Rule, rule_holds};
use std::alloc::Global;
use stream_meaning::Entry;
use stream_plan::Kind;
use stream_states::KeptState;
use stream_states::flow_streams::{
    ChangedState, apply_defaults, apply_fold, apply_sets, apply_tags,
};

/// What streams look up and don't change at an entry.
#[derive(Drop)]
pub struct Context<'a> {
    /// The regular expressions of the plan.
    pub patterns: &'a [Finder],
    /// The moment of the entry, in seconds since 1970.
    pub moment: u64,
    /// The moment at which the whole tree began. A fork that is made now begins with it, since a fork has received all
    /// ticks from there on.
    pub start: u64,
}

/// The entry comes to a stream of the kind. What the stream says by itself is appended to `out`, and what it passes on
/// is the answer. A tick at which nothing is passed on takes no memory.
pub fn act(
    alloc: Global,
    kind: &Kind,
    state: &mut State,
    entry: &Entry,
    context: &Context,
    out: &mut Outputs,
) -> Result<Passed, Memory>
    ensures acts { IfOk result (λ passed. (texts : List (List ℕ)) (h : History) →
        AreReadFrom texts context.now.patterns.now →
        StateRepresents texts (kind_tree kind.now) state.old h →
        moment_of (h ▸ entry.now) ≡ context.now.moment → context.now.moment ≤ 2 ^ 40 →
        Acts texts (kind_tree kind.now) state.old state.new h entry.now out.old out.new passed) }
    ensures quiet { (texts : List (List ℕ)) (h : History) →
        StateRepresents texts (kind_tree kind.now) state.old h → entry.now ≡ Tick →
        moment_of (h ▸ Tick) ≡ context.now.moment →
        emissions (kind_tree kind.now) (h ▸ Tick) ≡ [] → IsOk result }
    ensures tick { entry.now ≡ Tick → out.new ≡ out.old }
    ensures same { is_kept state.old ≡ false → state.new ≡ state.old }
    ensures part { OnErr result ((h : History) →
        moment_of (h ▸ entry.now) ≡ context.now.moment →
        IsPrefix out.new (out.old ++ own_outputs (kind_tree kind.now) (h ▸ entry.now))) }
    ensures prefix { IsPrefix out.old out.new }
{
    put_own_outputs(alloc, kind, entry, context.moment, out)?;
    let passed = advance(alloc, kind, state, entry, context)?;
    Ok(passed)
}

/// What the stream passes on. The state goes on to the longer history.
fn advance(
    alloc: Global,
    kind: &Kind,
    state: &mut State,
    entry: &Entry,
    context: &Context,
) -> Result<Passed, Memory>
    ensures represents { OnOk result ((texts : List (List ℕ)) (h : History) →
        StateRepresents texts (kind_tree kind.now) state.old h →
        moment_of (h ▸ entry.now) ≡ context.now.moment → context.now.moment ≤ 2 ^ 40 →
        StateRepresents texts (kind_tree kind.now) state.new (h ▸ entry.now)) }
    ensures passes { IfOk result (λ passed. (texts : List (List ℕ)) (h : History) →
        AreReadFrom texts context.now.patterns.now →
        StateRepresents texts (kind_tree kind.now) state.old h →
        moment_of (h ▸ entry.now) ≡ context.now.moment → context.now.moment ≤ 2 ^ 40 →
        emissions_meant (ended_by (kind_tree kind.now) h) passed entry.now
        ≡ emissions (kind_tree kind.now) (h ▸ entry.now)) }
    ensures quiet { (texts : List (List ℕ)) (h : History) →
        StateRepresents texts (kind_tree kind.now) state.old h → entry.now ≡ Tick →
        moment_of (h ▸ Tick) ≡ context.now.moment →
        emissions (kind_tree kind.now) (h ▸ Tick) ≡ [] → IsOk result }
    ensures same { is_kept state.old ≡ false → state.new ≡ state.old }
{
    match state {
        State::Kept(kept) => Ok(advance_kept(alloc, kept, entry, context.moment)?),
        _ => Ok(pass_on(alloc, kind, state, entry, context.patterns)?),
    }
}

/// What a stream of a kind that keeps something passes on.
fn advance_kept(
    alloc: Global,
    kept: &mut KeptState,
    entry: &Entry,
    now: u64,
) -> Result<Passed, Memory>
    ensures represents { OnOk result ((kind : KindTree) (h : History) →
        KeptRepresents kind kept.old h → moment_of (h ▸ entry.now) ≡ now →
        now ≤ 2 ^ 40 → KeptRepresents kind kept.new (h ▸ entry.now)) }
    ensures passes { IfOk result (λ passed. (kind : KindTree) (h : History) →
        KeptRepresents kind kept.old h → moment_of (h ▸ entry.now) ≡ now →
        now ≤ 2 ^ 40 → emissions_meant (ended_by kind h) passed entry.now
        ≡ emissions kind (h ▸ entry.now)) }
    ensures quiet { (kind : KindTree) (h : History) → KeptRepresents kind kept.old h →
        entry.now ≡ Tick → moment_of (h ▸ Tick) ≡ now →
        emissions kind (h ▸ Tick) ≡ [] → IsOk result }
{
    match entry {
        Entry::Tick => Ok(tick_kept(alloc, kept, now)?),
        Entry::Item(item) => Ok(give_kept(alloc, kept, item, now)?),
    }
}

#[tactic(auto, using(crate::proofs::KeptLaws::passes_meant))]
fn tick_kept(alloc: Global, kept: &mut KeptState, now: u64) -> Result<Passed, Memory>
    ensures represents { OnOk result ((kind : KindTree) (h : History) →
        KeptRepresents kind kept.old h → moment_of h + 1 ≡ now → now ≤ 2 ^ 40 →
        KeptRepresents kind kept.new (h ▸ Tick)) }
    ensures passes { IfOk result (λ passed. (kind : KindTree) (h : History) →
        KeptRepresents kind kept.old h → moment_of h + 1 ≡ now → now ≤ 2 ^ 40 →
        emissions_meant (ended_by kind h) passed Tick ≡ emissions kind (h ▸ Tick)) }
    ensures quiet { (kind : KindTree) (h : History) → KeptRepresents kind kept.old h →
        moment_of h + 1 ≡ now → emissions kind (h ▸ Tick) ≡ [] → IsOk result }
{
    let mut made = Emissions::fresh(alloc);
    kept.tick(alloc, now, &mut made)?;
    Ok(Passed::Made(made))
}

/// What a stream of a kind that keeps something passes on of an item.
fn give_kept(alloc: Global, kept: &mut KeptState, item: &Item, now: u64) -> Result<Passed, Memory>
    ensures represents { OnOk result ((kind : KindTree) (h : History) →
        KeptRepresents kind kept.old h → moment_of h ≡ now → now ≤ 2 ^ 40 →
        KeptRepresents kind kept.new (h ▸ In item.now)) }
    ensures passes { IfOk result (λ passed. (kind : KindTree) (h : History) →
        KeptRepresents kind kept.old h → moment_of h ≡ now → now ≤ 2 ^ 40 →
        emissions_meant (ended_by kind h) passed (In item.now)
        ≡ emissions kind (h ▸ In item.now)) }
{
    match item {
        Item::One(event) => Ok(enter_kept(alloc, kept, event, now)?),
        Item::Many(_) => Ok(Passed::Nothing),
    }
}

/// What a stream of a kind that keeps something passes on of an event. A `changed` passes it on as it came.
#[tactic(auto, using(crate::proofs::KeptLaws::changed_represents, crate::proofs::KeptLaws::changed_passes))]
fn enter_kept(
    alloc: Global,
    kept: &mut KeptState,
    event: &Event,
    now: u64,
) -> Result<Passed, Memory>
    ensures represents { OnOk result ((kind : KindTree) (h : History) →
        KeptRepresents kind kept.old h → moment_of h ≡ now → now ≤ 2 ^ 40 →
        KeptRepresents kind kept.new (h ▸ In (One event.now))) }
    ensures passes { IfOk result (λ passed. (kind : KindTree) (h : History) →
        KeptRepresents kind kept.old h → moment_of h ≡ now → now ≤ 2 ^ 40 →
        emissions_meant (ended_by kind h) passed (In (One event.now))
        ≡ emissions kind (h ▸ In (One event.now))) }
{
    match kept {
        KeptState::Changed(state) => Ok(pass_changed(alloc, state, event, now)?),
        _ => Ok(enter_copy(alloc, kept, event, now)?),
    }
}

#[tactic(auto, using(crate::proofs::KeptLaws::one_passes, crate::proofs::KeptLaws::none_passes))]
fn pass_changed(
    alloc: Global,
    state: &mut ChangedState,
    event: &Event,
    now: u64,
) -> Result<Passed, Memory>
    ensures kind { changed_kind state.new ≡ changed_kind state.old }
    ensures represents { OnOk result ((h : History) → ChangedRepresents state.old h →
        moment_of h ≡ now → ChangedRepresents state.new (h ▸ In (One event.now))) }
    ensures passes { IfOk result (λ passed. (ended : List Value → ℕ) (h : History) →
        ChangedRepresents state.old h → moment_of h ≡ now →
        emissions_meant ended passed (In (One event.now))
        ≡ emissions (changed_kind state.old) (h ▸ In (One event.now))) }
{
    let passes = state.passes(alloc, event, now)?;
    Ok(if passes {
        Passed::Same(Branch::Children)
    } else {
        Passed::Nothing
    })
}

/// What a stream of any other kind that keeps something passes on of an event. It takes a copy.
#[inline(never)]
fn enter_copy(
    alloc: Global,
    kept: &mut KeptState,
    event: &Event,
    now: u64,
) -> Result<Passed, Memory>
    ensures represents { OnOk result ((kind : KindTree) (h : History) →
        KeptRepresents kind kept.old h → moment_of h ≡ now → now ≤ 2 ^ 40 →
        KeptRepresents kind kept.new (h ▸ In (One event.now))) }
    ensures passes { IfOk result (λ passed. (kind : KindTree) (h : History) →
        KeptRepresents kind kept.old h → moment_of h ≡ now → now ≤ 2 ^ 40 →
        emissions_meant (ended_by kind h) passed (In (One event.now))
        ≡ emissions kind (h ▸ In (One event.now))) }
{
    let mut made = Emissions::fresh(alloc);
    kept.item(alloc, event.copy(alloc)?, now, &mut made)?;
    Ok(Passed::Made(made))
}

/// Appends what the stream says by itself.
fn put_own_outputs(
    alloc: Global,
    kind: &Kind,
    entry: &Entry,
    moment: u64,
    out: &mut Outputs,
) -> Result<(), Memory>
    ensures said { OnOk result ((h : History) → moment_of (h ▸ entry.now) ≡ moment →
        out.new ≡ out.old ++ own_outputs (kind_tree kind.now) (h ▸ entry.now)) }
    ensures quiet { entry.now ≡ Tick → IsOk result }
    ensures tick { entry.now ≡ Tick → out.new ≡ out.old }
    ensures err { OnErr result (out.new ≡ out.old) }
    ensures prefix { IsPrefix out.old out.new }
{
    match entry {
        Entry::Tick => Ok(()),
        Entry::Item(item) => put_item_outputs(alloc, kind, item, moment, out),
    }
}

/// Appends what the stream says by itself of an item.
fn put_item_outputs(
    alloc: Global,
    kind: &Kind,
    item: &Item,
    moment: u64,
    out: &mut Outputs,
) -> Result<(), Memory>
    ensures said { OnOk result ((h : History) → moment_of h ≡ moment →
        out.new ≡ out.old ++ own_outputs (kind_tree kind.now) (h ▸ In item.now)) }
    ensures err { OnErr result (out.new ≡ out.old) }
    ensures prefix { IsPrefix out.old out.new }
{
    match (kind, item) {
        (Kind::Index, Item::One(event)) => put_write(alloc, event, out),
        (Kind::Notice(name), _) => put_notice(alloc, name, item, moment, out),
        _ => Ok(()),
    }
}

// A function that has an event in a local clears its room when it is called, used or not. So what makes an event is in
// functions of its own, which are not inlined.

/// Appends the write of a copy of the event.
#[inline(never)]
fn put_write(alloc: Global, event: &Event, out: &mut Outputs) -> Result<(), Memory>
    ensures ok { OnOk result (out.new ≡ out.old ++ Output.Write event.now ∷ []) }
    ensures err { OnErr result (out.new ≡ out.old) }
{
    out.push(alloc, Output::Write(event.copy(alloc)?))
}

/// Appends a notice of the name with a copy of the item.
#[inline(never)]
fn put_notice(
    alloc: Global,
    name: &Text,
    item: &Item,
    moment: u64,
    out: &mut Outputs,
) -> Result<(), Memory>
    ensures ok { OnOk result (out.new ≡ out.old
        ++ Output.Notice (record { name = name.now; moment = moment; item = item.now }) ∷ []) }
    ensures err { OnErr result (out.new ≡ out.old) }
{
    let notice = Notice {
        name: name.copy(alloc)?,
        moment,
        item: item.copy(alloc)?,
    };
    out.push(alloc, Output::Notice(notice))
}

/// What a stream passes on that keeps nothing of what came.
fn pass_on(
    alloc: Global,
    kind: &Kind,
    state: &State,
    entry: &Entry,
    patterns: &[Finder],
) -> Result<Passed, Memory>
    ensures passes { IfOk result (λ passed. (texts : List (List ℕ)) (h : History) →
        AreReadFrom texts patterns.now →
        HasNumbers texts (kind_tree kind.now) state.now →
        emissions_meant (ended_by (kind_tree kind.now) h) passed entry.now
        ≡ emissions (kind_tree kind.now) (h ▸ entry.now)) }
    ensures quiet { entry.now ≡ Tick → IsOk result }
{
    match entry {
        Entry::Tick => Ok(Passed::Nothing),
        Entry::Item(Item::One(event)) => pass_event(alloc, kind, state, event, patterns),
        Entry::Item(Item::Many(events)) => pass_vector(alloc, kind, events),
    }
}

/// What the stream passes on of a vector.
fn pass_vector(alloc: Global, kind: &Kind, events: &Events) -> Result<Passed, Memory>
    ensures { IfOk result (λ passed. (h : History) →
        emissions_meant (ended_by (kind_tree kind.now) h) passed (In (Many events.now))
        ≡ emissions (kind_tree kind.now) (h ▸ In (Many events.now))) }
{
    match kind {
        Kind::Sdo => Ok(Passed::Same(Branch::Children)),
        Kind::Smap(fold) => pass_fold(alloc, *fold, events),
        _ => Ok(Passed::Nothing),
    }
}

/// The event that is folded of a vector, where there is one.
#[inline(never)]
fn pass_fold(alloc: Global, fold: Fold, events: &Events) -> Result<Passed, Memory>
    ensures { IfOk result (λ passed. (ended : List Value → ℕ) →
        emissions_meant ended passed (In (Many events.now))
        ≡ fold_of fold (In (Many events.now))) }
{
    match apply_fold(alloc, fold, events)? {
        Some(event) => pass_made(alloc, event),
        None => Ok(Passed::Nothing),
    }
}

/// What the stream passes on of an event.
fn pass_event(
    alloc: Global,
    kind: &Kind,
    state: &State,
    event: &Event,
    patterns: &[Finder],
) -> Result<Passed, Memory>
    ensures { IfOk result (λ passed. (texts : List (List ℕ)) (h : History) →
        AreReadFrom texts patterns.now →
        HasNumbers texts (kind_tree kind.now) state.now →
        emissions_meant (ended_by (kind_tree kind.now) h) passed (In (One event.now))
        ≡ emissions (kind_tree kind.now) (h ▸ In (One event.now))) }
{
    match kind {
        Kind::Sdo => Ok(Passed::Same(Branch::Children)),
        Kind::Where(rule) => {
            let branch = branch_of_rule(alloc, rule, state, event, patterns)?;
            Ok(Passed::Same(branch))
        }
        Kind::With(sets) => pass_with(alloc, sets, event),
        Kind::Default(sets) => pass_default(alloc, sets, event),
        Kind::Tag(tags) => pass_tagged(alloc, tags, event),
        Kind::By { fields, .. } => pass_keyed(alloc, fields, event),
        _ => Ok(Passed::Nothing),
    }
}

/// The event with all sets made.
#[inline(never)]
fn pass_with(alloc: Global, sets: &Sets, event: &Event) -> Result<Passed, Memory>
    ensures { IfOk result (λ passed. (ended : List Value → ℕ) (x : CameEntry) →
        emissions_meant ended passed x ≡ to children (One (with_sets sets.now event.now))) }
{
    pass_made(alloc, apply_sets(alloc, sets, event.copy(alloc)?)?)
}

/// The event with each set made whose field holds nil.
#[inline(never)]
fn pass_default(alloc: Global, sets: &Sets, event: &Event) -> Result<Passed, Memory>
    ensures { IfOk result (λ passed. (ended : List Value → ℕ) (x : CameEntry) →
        emissions_meant ended passed x ≡ to children (One (with_defaults sets.now event.now))) }
{
    pass_made(alloc, apply_defaults(alloc, sets, event.copy(alloc)?)?)
}

/// The event with the tags added.
#[inline(never)]
fn pass_tagged(alloc: Global, tags: &Tags, event: &Event) -> Result<Passed, Memory>
    ensures { IfOk result (λ passed. (ended : List Value → ℕ) (x : CameEntry) →
        emissions_meant ended passed x ≡ to children (One (with_tags tags.now event.now))) }
{
    pass_made(alloc, apply_tags(alloc, tags, event.copy(alloc)?)?)
}

/// The event for the fork of its key.
#[tactic(auto, using(crate::proofs::StepLaws::keyed))]
#[inline(never)]
fn pass_keyed(alloc: Global, fields: &Fields, event: &Event) -> Result<Passed, Memory>
    ensures { IfOk result (λ passed. (idle : Option ℕ) (h : History) →
        emissions_meant (ended_by (By fields.now idle) h) passed (In (One event.now))
        ≡ emissions (By fields.now idle) (h ▸ In (One event.now))) }
{
    Ok(Passed::Keyed(key_of(alloc, event, fields)?))
}

/// One event for the children.
fn pass_made(alloc: Global, event: Event) -> Result<Passed, Memory>
    ensures { IfOk result (λ passed. (ended : List Value → ℕ) (x : CameEntry) →
        emissions_meant ended passed x ≡ to children (One event)) }
{
    let mut made = Emissions::fresh(alloc);
    let emission = Emission {
        branch: 0,
        item: Item::One(event),
    };
    made.push(alloc, emission)?;
    Ok(Passed::Made(made))
}

/// The branch of the event below a rule.
fn branch_of_rule(
    alloc: Global,
    rule: &Rule,
    state: &State,
    event: &Event,
    patterns: &[Finder],
) -> Result<Branch, Memory>
    ensures { IfOk result (λ branch. (texts : List (List ℕ)) →
        AreReadFrom texts patterns.now →
        HasNumbers texts (Where (tree_of rule.now)) state.now →
        branch_meant branch ≡ (if holds (tree_of rule.now) event.now then children else
        otherwise)) }
{
    let met = rule_holds(alloc, rule, own_patterns(state, patterns), event)?;
    Ok(if met {
        Branch::Children
    } else {
        Branch::Otherwise
    })
}

/// Those of the plan's regular expressions that a `where` of this state has, in the order of its rule.
pub fn own_patterns<'a>(state: &State, patterns: &'a [Finder]) -> &'a [Finder]
    ensures { (texts : List (List ℕ)) (rule : RuleTree) → AreReadFrom texts patterns.now →
        HasNumbers texts (Where rule) state.now → AreReadFrom (searches rule) result.now }
{
    match state {
        State::Rule { first, count } => part(patterns, *first, *count),
        _ => &patterns[..0],
    }
}

/// `count` of the regular expressions from number `first` on, as far as there are some.
fn part<'a>(patterns: &'a [Finder], first: usize, count: usize) -> &'a [Finder]
    ensures { first + count ≤ length patterns.now →
        result.now ≡ take count (drop first patterns.now) }
{
    let rest = &patterns[first.min(patterns.len())..];
    &rest[..count.min(rest.len())]
}
