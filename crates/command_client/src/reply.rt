//! The lines of replies.

ghost use Rattle.std.specs.Prelude.{◌≡◌, ◌++◌, IfOk, OnOk};
ghost use Rattle.std.specs.List.{flat_map};
ghost use Rattle.command_client.specs.Replies.{error_part, event_line, replies_from, reply_text, verdict_text};

use ev_types::{Blob, Event, Item, Memory, Text};
use itoa::Buffer;
use notice_sink::{put_item, put_quoted};
use riemann_msg::Msg;
use std::alloc::Global;

/// The lines of the replies, which are numbered from 0. The first line of a reply is its number and `ok`, or `error`
/// and the quoted reason if it has one. A line for each of its events comes after it, as lines of notices write them.
#[tactic(auto, using(crate::proofs::ReplyLaws::replies_step, crate::proofs::ReplyLaws::replies_all))]
pub(crate) fn replies_text(alloc: Global, replies: &[Msg]) -> Result<Blob, Memory>
    ensures { IfOk result (λ text. text ≡ replies_from 0 replies.now) }
{
    let mut text = Blob::fresh(alloc);
    let mut number = 0;
    for reply in replies {
        put_reply(alloc, number, reply, &mut text)?;
        number += 1;
    }
    Ok(text)
}

/// Appends the lines of the reply of this number.
#[tactic(auto, using(crate::proofs::ReplyLaws::reply_written))]
fn put_reply(alloc: Global, number: usize, reply: &Msg, text: &mut Blob) -> Result<(), Memory>
    ensures { OnOk result (text.new ≡ text.old ++ reply_text number reply.now) }
{
    let mut digits = Buffer::new();
    text.append(alloc, digits.format(number).as_bytes())?;
    text.push(alloc, b' ')?;
    put_verdict(alloc, reply, text)?;
    text.push(alloc, b'\n')?;
    put_events(alloc, reply.events.as_slice(), text)?;
    Ok(())
}

/// Appends whether the reply says that its request was accepted, and if not, the reason.
fn put_verdict(alloc: Global, reply: &Msg, text: &mut Blob) -> Result<(), Memory>
    ensures { OnOk result (text.new ≡ text.old ++ verdict_text reply.now) }
{
    match reply.ok {
        Some(true) => text.append(alloc, b"ok")?,
        Some(false) | None => put_error(alloc, &reply.error, text)?,
    }
    Ok(())
}

fn put_error(alloc: Global, error: &Option<Text>, text: &mut Blob) -> Result<(), Memory>
    ensures { OnOk result (text.new ≡ text.old ++ error_part error.now) }
{
    text.append(alloc, b"error")?;
    if let Some(error) = error {
        text.push(alloc, b' ')?;
        put_quoted(alloc, error, text)?;
    }
    Ok(())
}

/// Appends a line for each event.
#[tactic(auto, using(crate::proofs::ReplyLaws::events_step, crate::proofs::ReplyLaws::events_all))]
fn put_events(alloc: Global, events: &[Event], text: &mut Blob) -> Result<(), Memory>
    ensures { OnOk result (text.new ≡ text.old ++ flat_map event_line events.now) }
{
    for event in events {
        put_event(alloc, event, text)?;
    }
    Ok(())
}

/// Appends the line of the event.
fn put_event(alloc: Global, event: &Event, text: &mut Blob) -> Result<(), Memory>
    ensures { OnOk result (text.new ≡ text.old ++ event_line event.now) }
{
    let item = Item::One(event.copy(alloc)?);
    put_item(alloc, &item, text)?;
    text.push(alloc, b'\n')?;
    Ok(())
}
