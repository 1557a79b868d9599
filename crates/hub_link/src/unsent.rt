ghost use Rattle.std.specs.Prelude.{◌≡◌, ◌<◌, ◌≤◌, ◌++◌, [], length, take, drop, OnOk};
ghost use Rattle.msg_replies.specs.hub_meaning.Replies.{reply_to_oversized};
ghost use Rattle.msg_replies.specs.Answering.{AnswersMessage};
ghost use Rattle.msg_replies.specs.Arriving.{reported};

use ev_types::{Blob, Memory, Notices};
use msg_replies::event_core::Core;
use msg_replies::{Spare, answer, refuse_length};
use pred_eval::Patterns;
use std::alloc::Global;
use std::marker::Model;
use std::mem;
use step_count::{Ledger, Steps};

// Fewer bytes that were taken keep their memory while bytes after them are unsent.
const KEPT: usize = 65_536;

/// Replies that were not sent yet. Contracts see the bytes that were not taken. The memory of those that were taken is
/// given back in time: it is for fewer than 64 KB, or for less than an eighth of what is unsent.
#[derive(Drop)]
pub(crate) struct Unsent {
    /// The replies that are sent next.
    first: Blob,
    /// How many bytes of `first` were taken.
    taken: usize,
    /// The replies after those in `first`. New ones are appended here.
    later: Blob,
}

impl Model for Unsent {
    ghost use Rattle.std.specs.Prelude.{ℕ, ◌≤◌, ◌++◌, List, drop, length};

    ghost Value = { List ℕ };

    ghost view = { λ unsent. drop unsent.taken unsent.first ++ unsent.later };

    ghost invariant = { λ unsent. unsent.taken ≤ length unsent.first };
}

impl Unsent {
    /// No replies. It takes no memory.
    pub(crate) fn fresh(alloc: Global) -> Unsent
        ensures { result ≡ [] }
    {
        Unsent {
            first: Blob::fresh(alloc),
            taken: 0,
            later: Blob::fresh(alloc),
        }
    }

    pub(crate) fn len(&self) -> usize
        ensures { result ≡ length self.now }
    {
        self.first.as_slice()[self.taken..].len() + self.later.as_slice().len()
    }

    /// The bytes that are sent next, of which there are some where some are unsent.
    pub(crate) fn front(&self) -> &[u8]
        ensures prefix { result.now ≡ take (length result.now) self.now }
        ensures some { 0 < length self.now → 0 < length result.now }
    {
        if self.taken < self.first.len() {
            &self.first.as_slice()[self.taken..]
        } else {
            self.later.as_slice()
        }
    }

    /// Posts the events of a message, and appends the reply to it. `spare` is memory that it is read into.
    /// After `Memory` nothing is known of the replies.
    pub(crate) fn append_reply<P: Patterns, G: Ledger>(
        &mut self,
        alloc: Global,
        body: &[u8],
        spare: &mut Spare,
        core: &mut Core,
        patterns: &mut P,
        notices: &mut Notices,
        steps: &mut Steps<G>,
    ) -> Result<(), Memory>
        ensures { AnswersMessage body.now (length self.old) core.old core.new
            (P.report patterns.old) (P.report patterns.new) self.old self.new
            (reported notices.old steps.old.forks) (reported notices.new steps.new.forks) result }
    {
        let unsent = self.len();
        answer(
            alloc,
            body,
            unsent,
            spare,
            core,
            patterns,
            &mut self.later,
            notices,
            steps,
        )
    }

    /// Appends the reply to a length over the limit. After `Memory` nothing is known of the replies.
    pub(crate) fn refuse_length(&mut self, alloc: Global, length: u32) -> Result<(), Memory>
        ensures { OnOk result (self.new ≡ self.old ++ reply_to_oversized length) }
    {
        refuse_length(alloc, length, &mut self.later)?;
        Ok(())
    }

    /// Leaves out the first `count` bytes, which were taken.
    pub(crate) fn advance(&mut self, alloc: Global, count: usize)
        requires { count ≤ length self.old }
        ensures { self.new ≡ drop count self.old }
    {
        let rest = self.first.len() - self.taken;
        if count < rest {
            self.taken += count;
            self.give_back(alloc);
            return;
        }
        self.first = mem::replace(&mut self.later, Blob::fresh(alloc));
        self.taken = count - rest;
        self.give_back(alloc);
    }

    /// Gives the memory of the bytes that were taken back, if they are all of `first`, or at least 64 KB and an eighth
    /// of the others of `first`. These are copied then. If there is no memory for that, it stays as it is.
    fn give_back(&mut self, alloc: Global)
        ensures { self.new ≡ self.old }
    {
        let rest = &self.first.as_slice()[self.taken..];
        if !rest.is_empty() && (self.taken < KEPT || self.taken < rest.len() / 8) {
            return;
        }
        let Ok(rest) = Blob::from_slice(alloc, rest) else {
            return;
        };
        self.first = rest;
        self.taken = 0;
    }
}
