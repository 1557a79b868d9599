//! The requests of a client, as the frames that are sent.

ghost use Rattle.std.specs.Prelude.{◌≡◌, ℕ, ◌+◌, ◌==◌, ◌≤◌, length, drop, IfOk, MatchOption, OnOk, ◌++◌};
ghost use Rattle.std.specs.List.{flat_map};
ghost use Rattle.framing.specs.Frames.{AreWithinLimit, HasFrame, after_frame, frame, frames_of, has_frame, length_at, partial};
ghost use Rattle.riemann_client.specs.Requests.{AnswersIfSent, HasAnswered, IsAsSent};

use ev_types::{Blob, Items, Memory};
use framing::BODY_LIMIT;
use std::alloc::Global;
use std::marker::Model;

/// A list of bodies of messages.
pub type Blobs = Items<Blob>;

/// Requests: their frames, one after another. They are sent from where they lie.
#[derive(Drop)]
pub(crate) struct Requests {
    frames: Blob,
    /// How many bytes were taken.
    taken: usize,
    /// How many bytes are those of requests that have a reply.
    answered: usize,
}

impl Model for Requests {
    ghost use Rattle.std.specs.Prelude.{◌≤◌, length};
    ghost use Rattle.riemann_client.specs.Requests.{Requested};

    ghost Value = { Requested };

    ghost view = { λ requests. record {
      stream = requests.frames;
      taken = requests.taken;
      answered = requests.answered;
    } };

    ghost invariant = { λ requests. (requests.answered ≤ requests.taken)
        × (requests.taken ≤ length requests.frames) };
}

impl Requests {
    /// Requests of which nothing was taken. It takes no memory.
    pub(crate) fn over(frames: Blob) -> Requests
        ensures stream { result.stream ≡ frames }
        ensures taken { result.taken ≡ 0 }
        ensures answered { HasAnswered result 0 }
    {
        Requests {
            frames,
            taken: 0,
            answered: 0,
        }
    }

    /// Counts the next request as one that has a reply, if it was sent whole. The answer is whether it was.
    pub(crate) fn answer_next(&mut self) -> bool
        ensures same { IsAsSent self.old self.new }
        ensures answers { AnswersIfSent self.old self.new result }
    {
        let (taken, _) = self.frames.as_slice().split_at(self.taken);
        let (_, waiting) = taken.split_at(self.answered);
        match first_frame_len(waiting) {
            Some(length) => {
                self.answered += length;
                true
            }
            None => false,
        }
    }

    /// Whether each request has a reply.
    pub(crate) fn are_answered(&self) -> bool
        ensures { (count : ℕ) → HasAnswered self.now count →
            result ≡ (count == length (frames_of self.now.stream)) }
    {
        let (_, rest) = self.frames.as_slice().split_at(self.answered);
        first_frame_len(rest).is_none()
    }

    /// The bytes that were not taken.
    pub(crate) fn unsent(&self) -> &[u8]
        ensures { result.now ≡ drop self.now.taken self.now.stream }
    {
        &self.frames.as_slice()[self.taken..]
    }

    /// Leaves out the next `count` bytes, which were taken.
    pub(crate) fn advance(&mut self, count: usize)
        requires { count ≤ length (drop self.old.taken self.old.stream) }
        ensures stream { self.new.stream ≡ self.old.stream }
        ensures taken { self.new.taken ≡ self.old.taken + count }
        ensures answered { (answers : ℕ) → HasAnswered self.old answers →
            HasAnswered self.new answers }
    {
        let rest = self.frames.len() - self.taken;
        self.taken += count.min(rest);
    }
}

/// How many bytes the first frame has, if it is whole and its body within the limit.
#[tactic(auto, unfolding(framing::specs::Frames::length_at))]
fn first_frame_len(bytes: &[u8]) -> Option<usize>
    ensures { MatchOption result (HasFrame bytes.now → ⊥)
        (λ size. HasFrame bytes.now × (size ≡ 4 + length_at bytes.now)) }
{
    let (head, body) = bytes.split_first_chunk::<4>()?;
    let length = u32::from_be_bytes(*head);
    if length > BODY_LIMIT || body.len() < length as usize {
        return None;
    }
    Some(4 + length as usize)
}

/// Whether the bytes begin with a whole frame of a request.
pub fn has_request(frames: &[u8]) -> bool
    ensures { result ≡ has_frame frames.now }
{
    first_frame_len(frames).is_some()
}

/// What frames that are sent come to.
#[derive(Clone, Copy)]
pub struct Counted {
    /// How many requests there are.
    pub requests: usize,
    /// How many bytes come after the last one.
    pub left: usize,
}

/// Counts the requests whose frames these are.
#[tactic(auto, using(crate::proofs::RequestLaws::one_less))]
pub fn count_requests(frames: &[u8]) -> Counted
    ensures requests { result.requests ≡ length (frames_of frames.now) }
    ensures left { result.left ≡ length (partial frames.now) }
{
    let mut rest = frames;
    let mut requests = 0;
    'frames: while let Some(next) = after_first(rest) {
        rest = next;
        requests += 1;
    }
    Counted {
        requests,
        left: rest.len(),
    }
}

/// What follows the first frame, if that frame is whole and its body within the limit.
fn after_first(bytes: &[u8]) -> Option<&[u8]>
    ensures { MatchOption result (HasFrame bytes.now → ⊥)
        (λ rest. HasFrame bytes.now × (rest.now ≡ after_frame bytes.now)) }
{
    let length = first_frame_len(bytes)?;
    Some(&bytes[length..])
}

/// The frames of the bodies, one after another.
pub(crate) fn frame_all(alloc: Global, bodies: &[Blob]) -> Result<Blob, Memory>
    requires { AreWithinLimit bodies.now }
    ensures { IfOk result (λ frames. frames ≡ flat_map frame bodies.now) }
{
    let mut frames = Blob::fresh(alloc);
    for body in bodies {
        put_frame(alloc, body.as_slice(), &mut frames)?;
    }
    Ok(frames)
}

/// Appends the frame of a body, which has at most [`BODY_LIMIT`] bytes.
pub fn put_frame(alloc: Global, body: &[u8], frames: &mut Blob) -> Result<(), Memory>
    requires { length body.now ≤ BODY_LIMIT }
    ensures { OnOk result (frames.new ≡ frames.old ++ frame body.now) }
{
    let length = body.len() as u32;
    frames.append(alloc, &length.to_be_bytes())?;
    frames.append(alloc, body)?;
    Ok(())
}
