//! The replies to a client, which are accepted one after another.

ghost use Rattle.std.specs.Prelude.{◌^◌, ◌<◌, length, IfOk};
ghost use Rattle.riemann_client.specs.Accepting.{AcceptsAll, AcceptsFront, AcceptsNext};
ghost use Rattle.riemann_client.specs.Requests.{HasAnswered, IsAsSent};

use crate::progress::Progress;
use crate::requests::Requests;
use ev_types::{Items, Memory};
use frame_link::{FirstFrame, FrameLink};
use riemann_msg::{Msg, MsgFault, read_msg};
use std::alloc::Global;

/// Messages, in order.
pub type Msgs = Items<Msg>;

/// What became of the first frame that came.
#[derive(Clone, Copy)]
pub(crate) enum Front {
    /// It is not whole yet.
    NotWhole,
    /// Its body was accepted as a reply.
    Accepted,
    /// Its body was not accepted, and why.
    Faulty(Progress),
}

/// Accepts the replies of all whole frames, in order, at the moment `now`, and removes these frames. The answer is the
/// fault of the first one that is not accepted. After `Memory` nothing is known of the replies.
pub(crate) fn accept_all(
    alloc: Global,
    now: u64,
    input: &mut FrameLink,
    requests: &mut Requests,
    replies: &mut Msgs,
) -> Result<Option<Progress>, Memory>
    requires { now < 2 ^ 63 }
    ensures same { IsAsSent requests.old requests.new }
    ensures accepts { IfOk result (λ fault. HasAnswered requests.old (length replies.old) →
        AcceptsAll now input.old input.new requests.old requests.new replies.old replies.new
        fault) }
{
    'frames: loop {
        match accept_front(alloc, now, input, requests, replies)? {
            Front::NotWhole => return Ok(None),
            Front::Accepted => {}
            Front::Faulty(fault) => return Ok(Some(fault)),
        }
    }
}

/// Accepts the body of the first frame as a reply, and removes that frame, if it is whole.
fn accept_front(
    alloc: Global,
    now: u64,
    input: &mut FrameLink,
    requests: &mut Requests,
    replies: &mut Msgs,
) -> Result<Front, Memory>
    requires { now < 2 ^ 63 }
    ensures same { IsAsSent requests.old requests.new }
    ensures accepts { IfOk result (AcceptsFront now input.old input.new requests.old requests.new
        replies.old replies.new) }
{
    match input.front() {
        FirstFrame::Whole(body) => {
            if let Some(fault) = accept(alloc, now, body, requests, replies)? {
                return Ok(Front::Faulty(fault));
            }
            let length = body.len();
            input.advance(length);
            Ok(Front::Accepted)
        }
        FirstFrame::NotYet => Ok(Front::NotWhole),
        FirstFrame::TooLong { .. } => Ok(Front::NotWhole),
    }
}

/// Accepts the body as the next reply, or answers why not.
fn accept(
    alloc: Global,
    now: u64,
    body: &[u8],
    requests: &mut Requests,
    replies: &mut Msgs,
) -> Result<Option<Progress>, Memory>
    requires { now < 2 ^ 63 }
    ensures same { IsAsSent requests.old requests.new }
    ensures accepts { IfOk result (AcceptsNext now body.now requests.old requests.new replies.old
        replies.new) }
{
    let number = replies.len() as u64;
    if !requests.answer_next() {
        return Ok(Some(Progress::Unasked { number }));
    }
    match read_msg(alloc, body, now) {
        Ok(msg) => {
            replies.push(alloc, msg)?;
            Ok(None)
        }
        Err(MsgFault::Refused { place, why }) => Ok(Some(Progress::Refused { number, place, why })),
        Err(MsgFault::Memory) => Err(Memory),
    }
}
