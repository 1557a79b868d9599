ghost use Rattle.std.specs.Prelude.{◌≡◌, ◌^◌, ◌<◌, ◌++◌, [], ◌∷◌, length, map, OnOk, IfOk, List, Some, None};
ghost use Rattle.std.specs.String.{string_bytes};
ghost use Rattle.event_core.specs.Core.{Represents, now_of};
ghost use Rattle.hub_meaning.specs.Replies.{accepted, framed, message_refusal, refused, reply_to_oversized, oversized};
ghost use Rattle.riemann_msg.specs.Cleared.{AreCleared};
ghost use Rattle.riemann_msg.specs.Spelling.{spelling};
ghost use Rattle.stream_meaning.specs.Arrivals.{Arrival, Post};
ghost use Rattle.msg_replies.specs.Answering.{AnswersMessage};
ghost use Rattle.msg_replies.specs.Arriving.{Arrives, reported};

use crate::queries::answer_query;
use crate::spare::Spare;
use ev_types::{Blob, Event, Events, Memory, Notices, Text};
use event_core::Core;
use framing::BODY_LIMIT;
use packed_event::PackedRef;
use packed_msg::{plain_event, plain_events};
use pred_eval::Patterns;
use riemann_msg::{Msg, MsgFault, MsgWhy, SpentEvents, msg_len, read_msg_into, write_msg};
use std::alloc::{AllocError, Global};
use std::mem;
use step_count::{Ledger, Steps};

/// Posts the events of a message, and appends the reply to it. `unsent` is how many bytes of earlier replies to its
/// link were not taken. If the message is nothing but events that are spelled as this server writes them, they are
/// posted from where they lie. Any other message is read into the memory of `spare`. Afterwards its own events are
/// there, if it was accepted and they are at most 128, and else none.
pub fn answer<P: Patterns, G: Ledger>(
    alloc: Global,
    body: &[u8],
    unsent: usize,
    spare: &mut Spare,
    core: &mut Core,
    patterns: &mut P,
    replies: &mut Blob,
    notices: &mut Notices,
    steps: &mut Steps<G>,
) -> Result<(), Memory>
    ensures { AnswersMessage body.now unsent core.old core.new (P.report patterns.old)
        (P.report patterns.new) replies.old replies.new (reported notices.old steps.old.forks)
        (reported notices.new steps.new.forks) result }
{
    match plain_event(body) {
        Some(event) => {
            let spare = &mut spare.event;
            answer_event(alloc, &event, spare, core, replies, notices, steps)
        }
        None => answer_other(
            alloc, body, unsent, spare, core, patterns, replies, notices, steps,
        ),
    }
}

/// Posts an event that is a whole message, and appends the reply to it.
fn answer_event<G: Ledger>(
    alloc: Global,
    event: &PackedRef<'_>,
    spare: &mut Event,
    core: &mut Core,
    replies: &mut Blob,
    notices: &mut Notices,
    steps: &mut Steps<G>,
) -> Result<(), Memory>
    ensures now { OnOk result (now_of core.new ≡ now_of core.old) }
    ensures arrives { OnOk result ((arrivals : List Arrival) → Represents core.old arrivals
        → Arrives core.old core.new arrivals (Post event.now ∷ [])
        (reported notices.old steps.old.forks) (reported notices.new steps.new.forks)) }
    ensures reply { OnOk result (replies.new ≡ replies.old ++ framed accepted) }
{
    core.post_packed(alloc, event, spare, notices, steps)?;
    accept(alloc, replies)
}

/// Answers a message that is not one plain event alone.
fn answer_other<P: Patterns, G: Ledger>(
    alloc: Global,
    body: &[u8],
    unsent: usize,
    spare: &mut Spare,
    core: &mut Core,
    patterns: &mut P,
    replies: &mut Blob,
    notices: &mut Notices,
    steps: &mut Steps<G>,
) -> Result<(), Memory>
    ensures { AnswersMessage body.now unsent core.old core.new (P.report patterns.old)
        (P.report patterns.new) replies.old replies.new (reported notices.old steps.old.forks)
        (reported notices.new steps.new.forks) result }
{
    match plain_events(alloc, body)? {
        Some(events) => {
            let spare = &mut spare.event;
            answer_events(alloc, &events, spare, core, replies, notices, steps)
        }
        None => {
            let spent = &mut spare.events;
            answer_read(
                alloc, body, unsent, spent, core, patterns, replies, notices, steps,
            )
        }
    }
}

/// Posts the events that are a whole message, in order, and appends the reply to it.
fn answer_events<G: Ledger>(
    alloc: Global,
    events: &[PackedRef<'_>],
    spare: &mut Event,
    core: &mut Core,
    replies: &mut Blob,
    notices: &mut Notices,
    steps: &mut Steps<G>,
) -> Result<(), Memory>
    ensures now { OnOk result (now_of core.new ≡ now_of core.old) }
    ensures arrives { OnOk result ((arrivals : List Arrival) → Represents core.old arrivals
        → Arrives core.old core.new arrivals (map Post events.now)
        (reported notices.old steps.old.forks) (reported notices.new steps.new.forks)) }
    ensures reply { OnOk result (replies.new ≡ replies.old ++ framed accepted) }
{
    post_plain(alloc, events, spare, core, notices, steps)?;
    accept(alloc, replies)
}

/// The events come to the core, in order, from where they lie.
fn post_plain<G: Ledger>(
    alloc: Global,
    events: &[PackedRef<'_>],
    spare: &mut Event,
    core: &mut Core,
    notices: &mut Notices,
    steps: &mut Steps<G>,
) -> Result<(), Memory>
    ensures now { OnOk result (now_of core.new ≡ now_of core.old) }
    ensures arrives { OnOk result ((arrivals : List Arrival) → Represents core.old arrivals
        → Arrives core.old core.new arrivals (map Post events.now)
        (reported notices.old steps.old.forks) (reported notices.new steps.new.forks)) }
{
    for event in events {
        core.post_packed(alloc, event, spare, notices, steps)?;
    }
    Ok(())
}

/// Reads a message into the memory of `spent`, and answers it.
fn answer_read<P: Patterns, G: Ledger>(
    alloc: Global,
    body: &[u8],
    unsent: usize,
    spent: &mut SpentEvents,
    core: &mut Core,
    patterns: &mut P,
    replies: &mut Blob,
    notices: &mut Notices,
    steps: &mut Steps<G>,
) -> Result<(), Memory>
    ensures { AnswersMessage body.now unsent core.old core.new (P.report patterns.old)
        (P.report patterns.new) replies.old replies.new (reported notices.old steps.old.forks)
        (reported notices.new steps.new.forks) result }
{
    let reused = mem::replace(spent, SpentEvents::fresh(alloc));
    match read_msg_into(alloc, body, core.now(), reused) {
        Ok(msg) => {
            let mut events = msg.events.into_vec();
            post_all(alloc, &mut events, core, notices, steps)?;
            answer_query(alloc, &msg.query, unsent, core, patterns, replies, steps)?;
            *spent = SpentEvents::of_cleared(alloc, events);
        }
        Err(MsgFault::Refused { place, why }) => refuse_msg(alloc, place, why, replies)?,
        Err(MsgFault::Memory) => return Err(Memory),
    }
    Ok(())
}

/// The events come to the core, in order, and are cleared.
fn post_all<G: Ledger>(
    alloc: Global,
    events: &mut [Event],
    core: &mut Core,
    notices: &mut Notices,
    steps: &mut Steps<G>,
) -> Result<(), Memory>
    ensures now { OnOk result (now_of core.new ≡ now_of core.old) }
    ensures arrives { OnOk result ((arrivals : List Arrival) → Represents core.old arrivals
        → Arrives core.old core.new arrivals (map Post events.old)
        (reported notices.old steps.old.forks) (reported notices.new steps.new.forks)) }
    ensures cleared { OnOk result (AreCleared events.new) }
{
    for event in events.iter_mut() {
        core.post_from(alloc, event, notices, steps)?;
        event.clear(alloc, 0);
    }
    Ok(())
}

/// The reply that a message was accepted: a frame of two bytes, field 2 with the value 1.
const ACCEPTED: [u8; 6] = [0, 0, 0, 2, 16, 1];

/// Appends a reply that the message was accepted.
#[tactic(auto, using(crate::proofs::Lengths::accepted_frame))]
pub(crate) fn accept(alloc: Global, replies: &mut Blob) -> Result<(), Memory>
    ensures { OnOk result (replies.new ≡ replies.old ++ framed accepted) }
{
    replies.append(alloc, &ACCEPTED)?;
    Ok(())
}

/// Appends a reply that the message was refused at a place.
#[tactic(auto, using(crate::proofs::Lengths::refusal_length))]
fn refuse_msg(alloc: Global, place: usize, why: MsgWhy, replies: &mut Blob) -> Result<(), Memory>
    ensures { OnOk result (replies.new ≡ replies.old
        ++ framed (refused (message_refusal place why))) }
{
    let reason = message_refusal(alloc, place, why)?;
    refuse(alloc, reason.as_str(), replies)
}

#[tactic(auto, unfolding(hub_meaning::specs::Replies::message_refusal))]
fn message_refusal(alloc: Global, place: usize, why: MsgWhy) -> Result<String, AllocError>
    ensures { IfOk result (λ reason. string_bytes reason ≡ message_refusal place why) }
{
    let why = why.name();
    format!(in alloc; "message refused at {place}: {why}")
}

/// Appends a reply that the message was refused for this reason.
#[tactic(auto, using(crate::proofs::Lengths::refused_length))]
pub(crate) fn refuse(alloc: Global, reason: &str, replies: &mut Blob) -> Result<(), Memory>
    requires { length reason.now < 1000 }
    ensures { OnOk result (replies.new ≡ replies.old ++ framed (refused reason.now)) }
{
    let msg = Msg {
        ok: Some(false),
        error: Some(Text::from_str(alloc, reason)?),
        query: None,
        events: Events::fresh(alloc),
    };
    let size = msg_len(&msg)?;
    put_frame(alloc, &msg, size, replies)
}

/// Appends a message whose spelling has this many bytes, in a frame.
#[tactic(auto, unfolding(hub_meaning::specs::Replies::framed))]
fn put_frame(alloc: Global, msg: &Msg, size: usize, replies: &mut Blob) -> Result<(), Memory>
    requires size { size ≡ length (spelling msg.now) }
    requires fits { size < 2 ^ 32 }
    ensures { OnOk result (replies.new ≡ replies.old ++ framed msg.now) }
{
    let length = size as u32;
    replies.append(alloc, &length.to_be_bytes())?;
    write_msg(alloc, msg, replies)?;
    Ok(())
}

/// Appends the reply to a length over the limit.
#[tactic(auto, using(crate::proofs::Lengths::oversized_length), unfolding(hub_meaning::specs::Replies::reply_to_oversized))]
pub fn refuse_length(alloc: Global, length: u32, replies: &mut Blob) -> Result<(), Memory>
    ensures { OnOk result (replies.new ≡ replies.old ++ reply_to_oversized length) }
{
    let reason = oversized(alloc, length)?;
    refuse(alloc, reason.as_str(), replies)
}

#[tactic(auto, unfolding(hub_meaning::specs::Replies::oversized))]
fn oversized(alloc: Global, length: u32) -> Result<String, AllocError>
    ensures { IfOk result (λ reason. string_bytes reason ≡ oversized length) }
{
    format!(in alloc; "frame of {length} bytes over {BODY_LIMIT}")
}
