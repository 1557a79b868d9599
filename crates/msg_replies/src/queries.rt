ghost use Rattle.std.specs.Prelude.{◌≡◌, ◌≢◌, ◌^◌, ◌<◌, ◌++◌, [], length, true, OnOk, IfOk, Some, None, List};
ghost use Rattle.std.specs.String.{string_bytes};
ghost use Rattle.event_core.specs.Core.{Represents, config_of, state_by};
ghost use Rattle.hub_meaning.specs.Messages.{query_text, rule_read};
ghost use Rattle.hub_meaning.specs.Replies.{answer_to_query, answer_to_rule, answer_to_text, busy, found, framed, limited, over_limit, pattern_refusal, query_refusal, refused};
ghost use Rattle.pred_eval.specs.Tree.{Always, tree_of};
ghost use Rattle.pred_eval.specs.Truth.{searches};
ghost use Rattle.query_lang.specs.Answer.{query_of};
ghost use Rattle.riemann_msg.specs.Reply.{events_lent};
ghost use Rattle.riemann_msg.specs.Spelling.{spelling};
ghost use Rattle.stream_meaning.specs.Arrivals.{Arrival, matching_events};
ghost use Rattle.msg_replies.specs.Answering.{AnswersQuery, asked_of};

use crate::replies::{accept, refuse};
use ev_types::{Blob, Memory};
use event_core::Core;
use framing::BODY_LIMIT;
use hub_meaning::{fits, is_busy};
use packed_event::PackedEvent;
use pred_eval::{BuildFault, Patterns, Pred, Rule};
use query_lang::{MAX_BYTES, QueryFault, read_query};
use riemann_msg::QueryPart;
use std::alloc::{AllocError, Global};
use std::mem;
use step_count::{Ledger, Steps};
use stored_event::{Stored, found_len, write_lent};

/// Appends the reply to the query of a message that was accepted. `unsent` is how many bytes of earlier replies were
/// not taken.
pub(crate) fn answer_query<P: Patterns, G: Ledger>(
    alloc: Global,
    query: &Option<QueryPart>,
    unsent: usize,
    core: &mut Core,
    patterns: &mut P,
    replies: &mut Blob,
    steps: &mut Steps<G>,
) -> Result<(), Memory>
    ensures same { core.new ≡ core.old }
    ensures forks { steps.new.forks ≡ steps.old.forks }
    ensures answers { AnswersQuery (asked_of unsent query.now) core.old (P.report patterns.old)
        (P.report patterns.new) replies.old replies.new
        (λ log refusal. answer_to_query log unsent refusal query.now) result }
{
    match query {
        Some(query) => answer_part(alloc, query, unsent, core, patterns, replies, steps),
        None => accept(alloc, replies),
    }
}

/// The same of a query that is there: a link with too many unsent bytes is busy.
fn answer_part<P: Patterns, G: Ledger>(
    alloc: Global,
    query: &QueryPart,
    unsent: usize,
    core: &mut Core,
    patterns: &mut P,
    replies: &mut Blob,
    steps: &mut Steps<G>,
) -> Result<(), Memory>
    ensures same { core.new ≡ core.old }
    ensures forks { steps.new.forks ≡ steps.old.forks }
    ensures answers { AnswersQuery (asked_of unsent (Some query.now)) core.old
        (P.report patterns.old) (P.report patterns.new) replies.old replies.new
        (λ log refusal. answer_to_query log unsent refusal (Some query.now)) result }
{
    if is_busy(unsent) {
        refuse_busy(alloc, unsent, replies)
    } else {
        answer_text(alloc, text_of(query), core, patterns, replies, steps)
    }
}

/// The text of a query; an absent one is empty.
fn text_of(query: &QueryPart) -> &[u8]
    ensures { result.now ≡ query_text query.now }
{
    match &query.string {
        Some(string) => string.as_bytes(),
        None => &[],
    }
}

fn answer_text<P: Patterns, G: Ledger>(
    alloc: Global,
    text: &[u8],
    core: &mut Core,
    patterns: &mut P,
    replies: &mut Blob,
    steps: &mut Steps<G>,
) -> Result<(), Memory>
    ensures same { core.new ≡ core.old }
    ensures forks { steps.new.forks ≡ steps.old.forks }
    ensures answers { AnswersQuery (rule_read (query_of text.now)) core.old (P.report patterns.old)
        (P.report patterns.new) replies.old replies.new
        (λ log refusal. answer_to_text log refusal (query_of text.now)) result }
{
    match read_query(alloc, text) {
        Ok(rule) => answer_rule(alloc, rule, core, patterns, replies, steps),
        Err(fault) => refuse_query(alloc, fault, replies),
    }
}

fn answer_rule<P: Patterns, G: Ledger>(
    alloc: Global,
    rule: Rule,
    core: &mut Core,
    patterns: &mut P,
    replies: &mut Blob,
    steps: &mut Steps<G>,
) -> Result<(), Memory>
    requires { length (searches (tree_of rule)) < 2 ^ 32 }
    ensures same { core.new ≡ core.old }
    ensures forks { steps.new.forks ≡ steps.old.forks }
    ensures answers { AnswersQuery (Some (tree_of rule)) core.old (P.report patterns.old)
        (P.report patterns.new) replies.old replies.new
        (λ log refusal. answer_to_rule log refusal (tree_of rule)) result }
{
    let is_of_all = is_of_all(&rule);
    match Pred::build(alloc, rule, patterns) {
        Ok(mut pred) if is_of_all => put_all(alloc, &mut pred, core, replies, steps),
        Ok(mut pred) => put_found(alloc, &mut pred, core, replies, steps),
        Err(BuildFault::Pattern { number }) => refuse_pattern(alloc, number, replies),
        Err(BuildFault::Memory) => Err(Memory),
    }
}

/// Whether the rule is the one that every event meets.
fn is_of_all(rule: &Rule) -> bool
    ensures { result ≡ true → tree_of rule.now ≡ Always }
{
    matches!(rule, Rule::Always)
}

/// Appends a reply with all live events, or that it would be too long. The predicate is the one that every event meets.
/// The core keeps the length until its events change, so that a reply which would be too long is refused at once.
fn put_all<G: Ledger>(
    alloc: Global,
    pred: &mut Pred,
    core: &mut Core,
    replies: &mut Blob,
    steps: &mut Steps<G>,
) -> Result<(), Memory>
    requires { pred.old ≡ Always }
    ensures same { core.new ≡ core.old }
    ensures forks { steps.new.forks ≡ steps.old.forks }
    ensures found { OnOk result ((arrivals : List Arrival) → Represents core.old arrivals
        → replies.new ≡ replies.old ++ framed
        (limited (found (matching_events pred.old (state_by (config_of core.old) arrivals).log)))) }
{
    let size = core.all_len(alloc, pred, steps)?;
    if fits(size) {
        put_events(alloc, pred, core, size, replies, steps)
    } else {
        refuse_long(alloc, size, replies)
    }
}

/// Appends a reply with the live events that meet the predicate, or that it would be too long.
fn put_found<G: Ledger>(
    alloc: Global,
    pred: &mut Pred,
    core: &mut Core,
    replies: &mut Blob,
    steps: &mut Steps<G>,
) -> Result<(), Memory>
    ensures same { core.new ≡ core.old }
    ensures forks { steps.new.forks ≡ steps.old.forks }
    ensures found { OnOk result ((arrivals : List Arrival) → Represents core.old arrivals
        → replies.new ≡ replies.old ++ framed
        (limited (found (matching_events pred.old (state_by (config_of core.old) arrivals).log)))) }
{
    core.prepare(alloc, pred)?;
    put_matching(alloc, pred, core, replies, steps)
}

/// The same from a core that is prepared for the predicate. One walk finds the events.
fn put_matching<G: Ledger>(
    alloc: Global,
    pred: &mut Pred,
    core: &Core,
    replies: &mut Blob,
    steps: &mut Steps<G>,
) -> Result<(), Memory>
    ensures forks { steps.new.forks ≡ steps.old.forks }
    ensures found { OnOk result ((arrivals : List Arrival) → Represents core.now arrivals
        → replies.new ≡ replies.old ++ framed
        (limited (found (matching_events pred.old (state_by (config_of core.now) arrivals).log)))) }
{
    let mut events = Vec::new(alloc);
    core.index()?.find(alloc, pred, &mut events, steps)?;
    put_limited(alloc, events.as_slice(), replies)
}

/// Appends a reply with these events, written from where they lie, or that it would be too long. The length is known
/// before a byte is written.
#[tactic(auto, using(crate::proofs::Lengths::limited_within, crate::proofs::Lengths::limited_over))]
fn put_limited(
    alloc: Global,
    events: &[&Stored<PackedEvent>],
    replies: &mut Blob,
) -> Result<(), Memory>
    ensures { OnOk result (replies.new
        ≡ replies.old ++ framed (limited (found (events_lent events.now)))) }
{
    let size = found_len(events)?;
    if fits(size) {
        put_lent(alloc, events, size, replies)
    } else {
        refuse_long(alloc, size, replies)
    }
}

/// Appends a reply with the live events that meet the predicate. It has `size` bytes.
fn put_events<G: Ledger>(
    alloc: Global,
    pred: &mut Pred,
    core: &Core,
    size: usize,
    replies: &mut Blob,
    steps: &mut Steps<G>,
) -> Result<(), Memory>
    requires { size < 2 ^ 32 }
    ensures forks { steps.new.forks ≡ steps.old.forks }
    ensures found { OnOk result ((arrivals : List Arrival) → Represents core.now arrivals
        → size ≡ length (spelling
        (found (matching_events pred.old (state_by (config_of core.now) arrivals).log)))
        → replies.new ≡ replies.old ++ framed
        (found (matching_events pred.old (state_by (config_of core.now) arrivals).log))) }
{
    let mut events = Vec::new(alloc);
    core.index()?.find(alloc, pred, &mut events, steps)?;
    put_lent(alloc, events.as_slice(), size, replies)
}

/// Appends a reply with these events, written from where they lie. It has `size` bytes.
#[tactic(auto, unfolding(hub_meaning::specs::Replies::framed))]
fn put_lent(
    alloc: Global,
    events: &[&Stored<PackedEvent>],
    size: usize,
    replies: &mut Blob,
) -> Result<(), Memory>
    requires { size < 2 ^ 32 }
    ensures { OnOk result (size ≡ length (spelling (found (events_lent events.now)))
        → replies.new ≡ replies.old ++ framed (found (events_lent events.now))) }
{
    let length = size as u32;
    reserve(alloc, 4 + size, replies)?;
    replies.append(alloc, &length.to_be_bytes())?;
    write_lent(alloc, events, replies)?;
    Ok(())
}

/// Appends a reply that the one with the found events would have `size` bytes, which are too many.
#[tactic(auto, using(crate::proofs::Lengths::over_limit_length))]
fn refuse_long(alloc: Global, size: usize, replies: &mut Blob) -> Result<(), Memory>
    ensures { OnOk result (replies.new ≡ replies.old ++ framed (refused (over_limit size))) }
{
    let reason = over_limit(alloc, size)?;
    refuse(alloc, reason.as_str(), replies)
}

/// Makes room for `count` more bytes, so that a long reply is not moved while it is written.
fn reserve(alloc: Global, count: usize, replies: &mut Blob) -> Result<(), Memory>
    ensures { replies.new ≡ replies.old }
{
    let mut bytes = mem::replace(replies, Blob::fresh(alloc)).into_vec();
    let reserved = bytes.reserve(count);
    *replies = Blob::from_vec(bytes);
    reserved?;
    Ok(())
}

#[tactic(auto, unfolding(hub_meaning::specs::Replies::over_limit))]
fn over_limit(alloc: Global, size: usize) -> Result<String, AllocError>
    ensures { IfOk result (λ reason. string_bytes reason ≡ over_limit size) }
{
    format!(in alloc; "reply of {size} bytes over {BODY_LIMIT}")
}

/// Appends a reply that the query is refused as busy, with `unsent` bytes unsent.
#[tactic(auto, using(crate::proofs::Lengths::busy_length))]
fn refuse_busy(alloc: Global, unsent: usize, replies: &mut Blob) -> Result<(), Memory>
    ensures { OnOk result (replies.new ≡ replies.old ++ framed (refused (busy unsent))) }
{
    let reason = busy(alloc, unsent)?;
    refuse(alloc, reason.as_str(), replies)
}

#[tactic(auto, unfolding(hub_meaning::specs::Replies::busy))]
fn busy(alloc: Global, unsent: usize) -> Result<String, AllocError>
    ensures { IfOk result (λ reason. string_bytes reason ≡ busy unsent) }
{
    format!(in alloc; "busy: {unsent} bytes unsent")
}

/// Appends a reply that the query is refused for this fault, unless that is out of memory.
#[tactic(auto, using(crate::proofs::Lengths::query_refusal_length))]
fn refuse_query(alloc: Global, fault: QueryFault, replies: &mut Blob) -> Result<(), Memory>
    ensures memory { OnOk result (fault ≢ QueryFault.Memory) }
    ensures reply { OnOk result (replies.new ≡ replies.old
        ++ framed (refused (query_refusal fault))) }
{
    let reason = query_refusal(alloc, fault)?;
    refuse(alloc, reason.as_str(), replies)
}

#[tactic(auto, unfolding(hub_meaning::specs::Replies::query_refusal))]
fn query_refusal(alloc: Global, fault: QueryFault) -> Result<String, Memory>
    ensures memory { IfOk result (λ _. fault ≢ QueryFault.Memory) }
    ensures reason { IfOk result (λ reason. string_bytes reason ≡ query_refusal fault) }
{
    Ok(match fault {
        QueryFault::TooLong { length } => format!(in alloc;
            "query of {length} bytes over {MAX_BYTES}"
        )?,
        QueryFault::Refused { place } => format!(in alloc; "query refused at {place}")?,
        QueryFault::TooDeep { place } => format!(in alloc; "query too deep at {place}")?,
        QueryFault::Memory => return Err(Memory),
    })
}

/// Appends a reply that the query's pattern of this number was refused.
#[tactic(auto, using(crate::proofs::Lengths::pattern_refusal_length))]
fn refuse_pattern(alloc: Global, number: u32, replies: &mut Blob) -> Result<(), Memory>
    ensures { OnOk result (replies.new ≡ replies.old
        ++ framed (refused (pattern_refusal number))) }
{
    let reason = pattern_refusal(alloc, number)?;
    refuse(alloc, reason.as_str(), replies)
}

#[tactic(auto, unfolding(hub_meaning::specs::Replies::pattern_refusal))]
fn pattern_refusal(alloc: Global, number: u32) -> Result<String, AllocError>
    ensures { IfOk result (λ reason. string_bytes reason ≡ pattern_refusal number) }
{
    format!(in alloc; "query pattern {number} refused")
}
