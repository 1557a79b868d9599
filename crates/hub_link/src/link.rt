ghost use Rattle.std.specs.Prelude.{◌≡◌, ◌≢◌, ◌↔◌, ◌<◌, ◌||◌, ◌++◌, [], true, length, nat_lt, IsTrue, OnOk, List};
ghost use Rattle.msg_replies.specs.hub_meaning.Replies.{reply_to_oversized};
ghost use Rattle.msg_replies.specs.hub_meaning.Legal.{MayClose};
ghost use Rattle.msg_replies.specs.hub_meaning.Links.{Link, broken, connected, connected_limit, ended, is_open, is_open_stage, is_read_closed_stage, new_link, sent, unblocked, want_of};
ghost use Rattle.msg_replies.specs.hub_meaning.Runs.{cut_off};
ghost use Rattle.msg_replies.specs.Arriving.{reported};
ghost use Rattle.ports.specs.Links.{IsWithin};
ghost use Rattle.hub_link.specs.Added.{Added};
ghost use Rattle.hub_link.specs.Answering.{AnswersFrames};
ghost use Rattle.hub_link.specs.Hearing.{HearsPiece, KeepsRest};
ghost use Rattle.hub_link.specs.HubLink.{RepresentsChanged, RepresentsLink, number_of};
ghost use Rattle.hub_link.specs.Sending.{IsSent, Sends, can_send, sendable};

use crate::frames::{answer_frames, missing_bytes};
use crate::unsent::Unsent;
use ev_types::{Memory, Notices};
use frame_link::{FirstFrame, FrameBuffer, first_frame};
use framing::BODY_LIMIT;
use msg_replies::Spare;
use msg_replies::event_core::Core;
use msg_replies::hub_meaning::Stage;
use ports::{Links, SendAnswer, Want};
use pred_eval::Patterns;
use std::alloc::Global;
use step_count::{Ledger, Steps};

/// One link of a server: the bytes that came on it and are not a whole frame yet, and the replies that were not sent.
pub struct HubLink {
    number: u64,
    stage: Stage,
    blocked: bool,
    input: FrameBuffer,
    unsent: Unsent,
}

impl Drop for HubLink {
    fn drop(self) {
        let HubLink {
            number: _number,
            stage: _stage,
            blocked: _blocked,
            input: _input,
            unsent: _unsent,
        } = self;
    }
}

impl HubLink {
    /// A link on which nothing came, of those that are served. It takes no memory.
    pub fn open(alloc: Global, number: u64) -> HubLink
        ensures number { number_of result ≡ number }
        ensures represents { (links : List Link)
            → nat_lt (length (connected links)) connected_limit ≡ true
            → RepresentsLink result (new_link number links) }
    {
        HubLink {
            number,
            stage: Stage::Open,
            blocked: false,
            input: FrameBuffer::fresh(alloc),
            unsent: Unsent::fresh(alloc),
        }
    }

    /// Its number among all links that were opened.
    pub fn number(&self) -> u64
        ensures { result ≡ number_of self.now }
    {
        self.number
    }

    /// Reads a piece that came, if the link is open: the events of each whole frame are posted and its reply is
    /// appended, in order. A length over the limit is answered too, and then no more is read. Messages are read into the
    /// memory of `spare`, unless their events are posted from where they lie. After `Memory` nothing is known of the
    /// link.
    pub fn hear<P: Patterns, G: Ledger>(
        &mut self,
        alloc: Global,
        piece: &[u8],
        spare: &mut Spare,
        core: &mut Core,
        patterns: &mut P,
        notices: &mut Notices,
        steps: &mut Steps<G>,
    ) -> Result<(), Memory>
        ensures number { number_of self.new ≡ number_of self.old }
        ensures hears { HearsPiece piece.now self.old self.new core.old core.new
            (P.report patterns.old) (P.report patterns.new) (reported notices.old steps.old.forks)
            (reported notices.new steps.new.forks) result }
    {
        if !self.is_open() {
            return Ok(());
        }
        self.read(alloc, piece, spare, core, patterns, notices, steps)?;
        self.cut_off(alloc)
    }

    /// Answers the frames of a piece and of the bytes before it, and keeps what is left.
    fn read<P: Patterns, G: Ledger>(
        &mut self,
        alloc: Global,
        piece: &[u8],
        spare: &mut Spare,
        core: &mut Core,
        patterns: &mut P,
        notices: &mut Notices,
        steps: &mut Steps<G>,
    ) -> Result<(), Memory>
        ensures number { number_of self.new ≡ number_of self.old }
        ensures frames { AnswersFrames (self.old.input ++ piece.now) self.old.unsent self.new.unsent
            core.old core.new (P.report patterns.old) (P.report patterns.new)
            (reported notices.old steps.old.forks) (reported notices.new steps.new.forks) result }
        ensures keeps { OnOk result (KeepsRest piece.now self.old self.new) }
    {
        if self.input.is_empty() {
            self.read_alone(alloc, piece, spare, core, patterns, notices, steps)
        } else {
            self.read_after(alloc, piece, spare, core, patterns, notices, steps)
        }
    }

    /// The same where there are no bytes before it: the frames are answered where they lie.
    fn read_alone<P: Patterns, G: Ledger>(
        &mut self,
        alloc: Global,
        piece: &[u8],
        spare: &mut Spare,
        core: &mut Core,
        patterns: &mut P,
        notices: &mut Notices,
        steps: &mut Steps<G>,
    ) -> Result<(), Memory>
        requires { self.old.input ≡ [] }
        ensures number { number_of self.new ≡ number_of self.old }
        ensures frames { AnswersFrames (self.old.input ++ piece.now) self.old.unsent self.new.unsent
            core.old core.new (P.report patterns.old) (P.report patterns.new)
            (reported notices.old steps.old.forks) (reported notices.new steps.new.forks) result }
        ensures keeps { OnOk result (KeepsRest piece.now self.old self.new) }
    {
        let unsent = &mut self.unsent;
        let taken = answer_frames(alloc, piece, unsent, spare, core, patterns, notices, steps)?;
        self.input.push(alloc, &piece[taken..])
    }

    /// The same where there are bytes before it: what completes their frame is put after them, and the frames of the
    /// rest are answered where they lie. If fewer than the four bytes of a length were held, the whole piece is put
    /// after them, unless the length that it completes is 0.
    fn read_after<P: Patterns, G: Ledger>(
        &mut self,
        alloc: Global,
        piece: &[u8],
        spare: &mut Spare,
        core: &mut Core,
        patterns: &mut P,
        notices: &mut Notices,
        steps: &mut Steps<G>,
    ) -> Result<(), Memory>
        ensures number { number_of self.new ≡ number_of self.old }
        ensures frames { AnswersFrames (self.old.input ++ piece.now) self.old.unsent self.new.unsent
            core.old core.new (P.report patterns.old) (P.report patterns.new)
            (reported notices.old steps.old.forks) (reported notices.new steps.new.forks) result }
        ensures keeps { OnOk result (KeepsRest piece.now self.old self.new) }
    {
        let missing = missing_bytes(self.input.as_slice());
        let (head, rest) = piece.split_at(missing.min(piece.len()));
        self.read_joined(alloc, head, spare, core, patterns, notices, steps)?;
        if self.input.is_empty() {
            self.read_alone(alloc, rest, spare, core, patterns, notices, steps)
        } else {
            self.read_joined(alloc, rest, spare, core, patterns, notices, steps)
        }
    }

    /// The same by way of the bytes that are kept, after which the whole piece is put.
    fn read_joined<P: Patterns, G: Ledger>(
        &mut self,
        alloc: Global,
        piece: &[u8],
        spare: &mut Spare,
        core: &mut Core,
        patterns: &mut P,
        notices: &mut Notices,
        steps: &mut Steps<G>,
    ) -> Result<(), Memory>
        ensures number { number_of self.new ≡ number_of self.old }
        ensures frames { AnswersFrames (self.old.input ++ piece.now) self.old.unsent self.new.unsent
            core.old core.new (P.report patterns.old) (P.report patterns.new)
            (reported notices.old steps.old.forks) (reported notices.new steps.new.forks) result }
        ensures keeps { OnOk result (KeepsRest piece.now self.old self.new) }
    {
        self.input.push(alloc, piece)?;
        let bytes = self.input.as_slice();
        let unsent = &mut self.unsent;
        let taken = answer_frames(alloc, bytes, unsent, spare, core, patterns, notices, steps)?;
        self.input.advance(taken);
        Ok(())
    }

    /// Whether bytes are read of it.
    fn is_open(&self) -> bool
        ensures { result ≡ is_open_stage self.now.stage }
    {
        match self.stage {
            Stage::Open => true,
            Stage::ReadClosed | Stage::Closing | Stage::Closed => false,
        }
    }

    /// Whether it is open or read-closed.
    fn is_connected(&self) -> bool
        ensures { result ≡ (is_open_stage self.now.stage
            || is_read_closed_stage self.now.stage) }
    {
        match self.stage {
            Stage::Open | Stage::ReadClosed => true,
            Stage::Closing | Stage::Closed => false,
        }
    }

    /// Answers a length over the limit, if it comes next, and reads no more then.
    fn cut_off(&mut self, alloc: Global) -> Result<(), Memory>
        ensures number { number_of self.new ≡ number_of self.old }
        ensures represents { OnOk result ((meant : Link) → is_open meant ≡ true
            → RepresentsLink self.old meant → RepresentsLink self.new (cut_off meant)) }
    {
        match first_frame(self.input.as_slice()) {
            FirstFrame::TooLong { length } => self.refuse_length(alloc, length),
            FirstFrame::NotYet => Ok(()),
            FirstFrame::Whole(_) => Ok(()),
        }
    }

    /// Appends the reply to a length over the limit, and reads no more.
    fn refuse_length(&mut self, alloc: Global, length: u32) -> Result<(), Memory>
        ensures number { number_of self.new ≡ number_of self.old }
        ensures stage { OnOk result (self.new.stage ≡ Stage.ReadClosed) }
        ensures blocked { OnOk result (self.new.blocked ≡ self.old.blocked) }
        ensures unsent { OnOk result (self.new.unsent
            ≡ self.old.unsent ++ reply_to_oversized length) }
    {
        self.unsent.refuse_length(alloc, length)?;
        self.close_input(alloc);
        Ok(())
    }

    /// Reads no more. The bytes that came and are not a whole frame yet are dropped.
    fn close_input(&mut self, alloc: Global)
        ensures number { number_of self.new ≡ number_of self.old }
        ensures stage { self.new.stage ≡ Stage.ReadClosed }
        ensures blocked { self.new.blocked ≡ self.old.blocked }
        ensures unsent { self.new.unsent ≡ self.old.unsent }
    {
        self.stage = Stage::ReadClosed;
        self.input = FrameBuffer::fresh(alloc);
    }

    /// The client sends no more.
    pub fn end(&mut self, alloc: Global)
        ensures number { number_of self.new ≡ number_of self.old }
        ensures represents { RepresentsChanged ended self.old self.new }
    {
        if !self.is_open() {
            return;
        }
        self.close_input(alloc);
    }

    /// The link does not work any more, and is to be closed.
    pub fn fail(&mut self)
        ensures number { number_of self.new ≡ number_of self.old }
        ensures represents { RepresentsChanged broken self.old self.new }
    {
        if !self.is_connected() {
            return;
        }
        self.stage = Stage::Closing;
    }

    /// The link may be sent to again.
    pub fn unblock(&mut self)
        ensures number { number_of self.new ≡ number_of self.old }
        ensures represents { RepresentsChanged unblocked self.old self.new }
    {
        if !self.is_connected() {
            return;
        }
        self.blocked = false;
    }

    /// What is waited for on the link.
    pub fn want(&self) -> Want
        ensures number { result.link ≡ number_of self.now }
        ensures represents { (meant : Link) → RepresentsLink self.now meant →
            result ≡ want_of meant }
    {
        let unsent = self.unsent.len();
        Want {
            link: self.number,
            read: self.is_open() && unsent < BODY_LIMIT as usize,
            room: unsent > 0,
        }
    }

    /// Whether the link is to be closed: it does not work, or no more is read of it and all was sent.
    pub fn is_over(&self) -> bool
        ensures { (meant : Link) → RepresentsLink self.now meant →
            IsTrue result ↔ MayClose meant }
    {
        self.stage.is_over(self.unsent.len())
    }

    /// Sends what is unsent, until all was taken, or the link takes nothing now, or the send failed.
    pub fn send_all<L: Links>(&mut self, alloc: Global, links: &mut L) -> Result<(), Memory>
        ensures number { number_of self.new ≡ number_of self.old }
        ensures sends { Added (L.report links.old) (L.report links.new) (Sends self.old self.new) }
        ensures sent { OnOk result (IsSent self.new) }
    {
        'sends: while self.can_send() {
            self.send(alloc, links)?;
        }
        Ok(())
    }

    /// Whether the link is connected and not blocked, and has bytes to send.
    fn can_send(&self) -> bool
        ensures { result ≡ can_send self.now }
    {
        self.stage.can_send(self.blocked, self.unsent.len())
    }

    /// Sends what comes next, once.
    fn send<L: Links>(&mut self, alloc: Global, links: &mut L) -> Result<(), Memory>
        requires { can_send self.old ≡ true }
        ensures number { number_of self.new ≡ number_of self.old }
        ensures sends { Added (L.report links.old) (L.report links.new) (Sends self.old self.new) }
        ensures less { OnOk result (sendable self.new < sendable self.old) }
    {
        let answer = links.send(alloc, self.number, self.unsent.front());
        self.note(alloc, answer);
        memory_left(answer)
    }

    /// Notes how a send was answered.
    fn note(&mut self, alloc: Global, answer: SendAnswer)
        requires { IsWithin (length self.old.unsent) answer }
        ensures number { number_of self.new ≡ number_of self.old }
        ensures represents { RepresentsChanged (sent self.old.unsent answer) self.old self.new }
        ensures less { can_send self.old ≡ true → answer ≢ SendAnswer.Memory
            → sendable self.new < sendable self.old }
    {
        match answer {
            SendAnswer::Took { count } => {
                self.unsent.advance(alloc, count);
                self.blocked = count == 0;
                return;
            }
            SendAnswer::Later => {
                self.blocked = true;
                return;
            }
            SendAnswer::Failed => {
                self.stage = Stage::Closing;
                return;
            }
            SendAnswer::Memory => return,
        }
    }
}

/// Fails where the answer is out of memory.
fn memory_left(answer: SendAnswer) -> Result<(), Memory>
    ensures { OnOk result (answer ≢ SendAnswer.Memory) }
{
    match answer {
        SendAnswer::Memory => Err(Memory),
        SendAnswer::Took { .. } | SendAnswer::Later | SendAnswer::Failed => Ok(()),
    }
}
