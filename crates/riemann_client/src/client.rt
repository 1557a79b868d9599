ghost use Rattle.std.specs.Prelude.{◌≡◌, ◌≢◌, [], ◌^◌, ◌<◌, ◌≤◌, ◌&&◌, ◌||◌, not, true, false, None, Some, IfOk, OnOk, drop, length};
ghost use Rattle.std.specs.List.{flat_map};
ghost use Rattle.framing.specs.Frames.{AreWithinLimit, frame, frames_of};
ghost use Rattle.ports.specs.Links.{IsWithin};
ghost use Rattle.riemann_client.specs.Client.{Answered, IsUnclosed, Represents, is_ended, link_of, replies_of, stream_of, wants_in};
ghost use Rattle.riemann_client.specs.Exchange.{Exchange, begun, heard, is_link, is_oversized, link_after, occurred, read_from, standing, wants_on};
ghost use Rattle.riemann_client.specs.Sending.{KeepsReplies, MakesCalls, Notes, Sends, link_to_send, sendable};
ghost use Rattle.riemann_client.specs.Turning.{GoesOnFrom, Hears, Occurs, SettlesTo, TurnsFrom, closing};

use crate::clock::Clock;
use crate::progress::Progress;
use crate::replies::{Msgs, accept_all};
use crate::requests::{Blobs, Requests, frame_all};
use ev_types::{Blob, Memory};
use frame_link::{FirstFrame, FrameLink};
use ports::{Links, SendAnswer, Turn, Want, Wants, What};
use std::alloc::Global;

/// A client with its requests, and the replies so far. Its link is the one that is opened first: turns of other links
/// are left out.
#[derive(Drop)]
pub struct Client {
    requests: Requests,
    input: FrameLink,
    replies: Msgs,
    link: Option<u64>,
    blocked: bool,
    gone: bool,
    /// The exchange is over, or memory ran out in a turn.
    ended: bool,
    clock: Clock,
    wants: Wants,
}

impl Client {
    /// A client with requests of these bodies, of which each has at most [`framing::BODY_LIMIT`] bytes. The first
    /// reading of its clock is `start`, in seconds since 1970, which is at most 2^40.
    pub fn fresh(alloc: Global, requests: &Blobs, start: u64) -> Result<Client, Memory>
        requires start { start ≤ 2 ^ 40 }
        requires within { AreWithinLimit requests.now }
        ensures stream { IfOk result (λ client. stream_of client ≡ flat_map frame requests.now) }
        ensures requests { IfOk result (λ client. frames_of (stream_of client) ≡ requests.now) }
        ensures represents { IfOk result (λ client. Represents client (begun start)) }
        ensures wants { IfOk result (λ client. wants_in client ≡ []) }
        ensures going { IfOk result (λ client. is_ended client ≡ false) }
    {
        let frames = frame_all(alloc, requests.as_slice())?;
        Ok(Client::over(alloc, frames, start))
    }

    /// A client whose requests are these frames, one after another, which are sent from where they lie. What follows
    /// the last whole frame is sent too, and has no reply. The first reading of its clock is `start`, in seconds since
    /// 1970, which is at most 2^40. It takes no memory.
    pub fn over(alloc: Global, frames: Blob, start: u64) -> Client
        requires { start ≤ 2 ^ 40 }
        ensures stream { stream_of result ≡ frames }
        ensures represents { Represents result (begun start) }
        ensures wants { wants_in result ≡ [] }
        ensures going { is_ended result ≡ false }
    {
        Client {
            requests: Requests::over(frames),
            input: FrameLink::fresh(alloc),
            replies: Msgs::fresh(alloc),
            link: None,
            blocked: false,
            gone: false,
            ended: false,
            clock: Clock::at(start),
            wants: Wants::fresh(alloc),
        }
    }

    /// What is waited for on the link, once it is open: bytes to read, and room while requests are unsent.
    pub fn wants(&self) -> &Wants
        ensures { result.now ≡ wants_in self.now }
    {
        &self.wants
    }

    /// The replies that were accepted, in order.
    pub fn replies(&self) -> &Msgs
        ensures { result.now ≡ replies_of self.now }
    {
        &self.replies
    }

    /// The replies that were accepted, in order, with no copy.
    pub fn into_replies(self) -> Msgs
        ensures { result ≡ replies_of self }
    {
        self.replies
    }

    /// Takes one turn, with the bytes of a read in `piece`: the replies that became whole are accepted in order, and
    /// then, while replies are to come, the link is sent requests until it takes no more. When the exchange is over,
    /// the link is closed. Once the answer was not [`Progress::More`], no other turn is taken.
    pub fn turn<L: Links>(
        &mut self,
        alloc: Global,
        turn: Turn,
        piece: &[u8],
        links: &mut L,
    ) -> Progress
        requires going { is_ended self.old ≡ false }
        requires known { IsUnclosed (L.report links.old).log (link_of self.old) }
        requires answered { Answered (L.report links.old).log turn }
        ensures stream { stream_of self.new ≡ stream_of self.old }
        ensures going { result ≡ Progress.More → is_ended self.new ≡ false }
        ensures ended { result ≢ Progress.More → is_ended self.new ≡ true }
        ensures known { result ≡ Progress.More →
            IsUnclosed (L.report links.new).log (link_of self.new) }
        ensures turns { MakesCalls (L.report links.old) (L.report links.new)
            (TurnsFrom turn piece.now self.old self.new result) }
    {
        let progress = self.take_turn(alloc, turn, piece, links);
        self.ended = is_last(progress);
        progress
    }

    /// Takes one turn, and does not note yet whether it was the last.
    fn take_turn<L: Links>(
        &mut self,
        alloc: Global,
        turn: Turn,
        piece: &[u8],
        links: &mut L,
    ) -> Progress
        requires known { IsUnclosed (L.report links.old).log (link_of self.old) }
        requires answered { Answered (L.report links.old).log turn }
        ensures stream { stream_of self.new ≡ stream_of self.old }
        ensures known { result ≡ Progress.More →
            IsUnclosed (L.report links.new).log (link_of self.new) }
        ensures turns { MakesCalls (L.report links.old) (L.report links.new)
            (TurnsFrom turn piece.now self.old self.new result) }
    {
        match self.hear(alloc, turn, piece) {
            Progress::More => self.send_requests(alloc, links),
            Progress::Memory => Progress::Memory,
            progress => {
                self.close_link(links);
                progress
            }
        }
    }

    /// Hears what came in a turn. After `Memory` nothing is known of the replies.
    fn hear(&mut self, alloc: Global, turn: Turn, piece: &[u8]) -> Progress
        ensures stream { stream_of self.new ≡ stream_of self.old }
        ensures link { link_of self.new ≡ link_after turn.what (link_of self.old) }
        ensures hears { result ≢ Progress.Memory → (before : Exchange) → Represents self.old before
            → Hears self.new (stream_of self.old) before (heard turn piece.now before) result }
    {
        self.clock.pass(turn.secs);
        match self.occur(alloc, turn.what, piece) {
            Ok(None) => self.standing(),
            Ok(Some(fault)) => fault,
            Err(_) => Progress::Memory,
        }
    }

    /// What occurred in a turn, at its moment. The answer is the fault of the first reply that is not accepted.
    fn occur(&mut self, alloc: Global, what: What, piece: &[u8]) -> Result<Option<Progress>, Memory>
        ensures stream { stream_of self.new ≡ stream_of self.old }
        ensures link { link_of self.new ≡ link_after what (link_of self.old) }
        ensures occurs { IfOk result (λ fault. (before : Exchange) → Represents self.old before
            → Occurs self.new before (occurred what piece.now before) fault) }
    {
        match what {
            What::Opened { link } => {
                self.link = self.link.or(Some(link));
                Ok(None)
            }
            What::Read { link, .. } => self.read(alloc, link, piece),
            What::Ended { link } => {
                self.lose(link);
                Ok(None)
            }
            What::Broken { link } => {
                self.lose(link);
                Ok(None)
            }
            What::Room { link } => {
                self.unblock(link);
                Ok(None)
            }
            What::Stopped => {
                self.gone = true;
                Ok(None)
            }
            What::Idle | What::Failed | What::Memory => Ok(None),
        }
    }

    /// Whether this is the number of the client's link.
    fn is_on(&self, number: u64) -> bool
        ensures { result ≡ is_link number (link_of self.now) }
    {
        match self.link {
            Some(link) => link == number,
            None => false,
        }
    }

    /// No more comes of the link of this number.
    fn lose(&mut self, number: u64)
        ensures { self.new ≡ record self.old {
          gone = is_link number (link_of self.old) || self.old.gone;
        } }
    {
        if self.is_on(number) {
            self.gone = true;
        }
    }

    /// The link of this number may be sent to again.
    fn unblock(&mut self, number: u64)
        ensures { self.new ≡ record self.old {
          blocked = not (is_link number (link_of self.old)) && self.old.blocked;
        } }
    {
        if self.is_on(number) {
            self.blocked = false;
        }
    }

    /// A piece was read from the link of this number. One of another link is left out.
    fn read(&mut self, alloc: Global, number: u64, piece: &[u8]) -> Result<Option<Progress>, Memory>
        ensures stream { stream_of self.new ≡ stream_of self.old }
        ensures link { link_of self.new ≡ link_of self.old }
        ensures reads { IfOk result (λ fault. (before : Exchange) → Represents self.old before
            → Occurs self.new before (read_from number piece.now before) fault) }
    {
        if !self.is_on(number) {
            return Ok(None);
        }
        self.input.push(alloc, piece)?;
        let now = self.clock.now();
        let fault = accept_all(
            alloc,
            now,
            &mut self.input,
            &mut self.requests,
            &mut self.replies,
        )?;
        Ok(fault)
    }

    /// How the exchange stands, in which each reply was accepted.
    fn standing(&self) -> Progress
        ensures { (exchange : Exchange) → Represents self.now exchange →
            result ≡ standing (stream_of self.now) exchange }
    {
        if self.requests.are_answered() {
            return Progress::Whole;
        }
        if self.gone || self.is_oversized() {
            return Progress::Lost;
        }
        Progress::More
    }

    /// Whether a length over the limit came.
    fn is_oversized(&self) -> bool
        ensures { result ≡ is_oversized self.now.input.bytes }
    {
        match self.input.front() {
            FirstFrame::TooLong { .. } => true,
            FirstFrame::NotYet => false,
            FirstFrame::Whole(_) => false,
        }
    }

    /// Sends requests until the link takes no more, and ends the exchange if a send failed.
    fn send_requests<L: Links>(&mut self, alloc: Global, links: &mut L) -> Progress
        requires { IsUnclosed (L.report links.old).log (link_of self.old) }
        ensures stream { stream_of self.new ≡ stream_of self.old }
        ensures known { result ≡ Progress.More →
            IsUnclosed (L.report links.new).log (link_of self.new) }
        ensures goes_on { MakesCalls (L.report links.old) (L.report links.new)
            (GoesOnFrom self.old self.new result) }
    {
        match self.send_all(alloc, links) {
            Ok(()) => self.settle(alloc, links),
            Err(_) => Progress::Memory,
        }
    }

    /// Sends requests until all are taken, or the link takes nothing now, or a send failed.
    fn send_all<L: Links>(&mut self, alloc: Global, links: &mut L) -> Result<(), Memory>
        requires { IsUnclosed (L.report links.old).log (link_of self.old) }
        ensures keeps { KeepsReplies self.old self.new }
        ensures known { IsUnclosed (L.report links.new).log (link_of self.new) }
        ensures sends { MakesCalls (L.report links.old) (L.report links.new)
            (Sends self.old self.new) }
        ensures all { OnOk result (link_to_send self.new ≡ None) }
    {
        'sends: while let Some(link) = self.link_to_send() {
            self.send(alloc, link, links)?;
        }
        Ok(())
    }

    /// The link, if it may be sent to and requests are unsent.
    fn link_to_send(&self) -> Option<u64>
        ensures { result ≡ link_to_send self.now }
    {
        if self.gone || self.blocked || self.requests.unsent().is_empty() {
            return None;
        }
        self.link
    }

    /// Offers what is unsent to the link, once.
    fn send<L: Links>(&mut self, alloc: Global, link: u64, links: &mut L) -> Result<(), Memory>
        requires may { link_to_send self.old ≡ Some link }
        requires known { IsUnclosed (L.report links.old).log (link_of self.old) }
        ensures keeps { KeepsReplies self.old self.new }
        ensures known { IsUnclosed (L.report links.new).log (link_of self.new) }
        ensures sends { MakesCalls (L.report links.old) (L.report links.new)
            (Sends self.old self.new) }
        ensures less { OnOk result (sendable self.new < sendable self.old) }
    {
        let answer = links.send(alloc, link, self.requests.unsent());
        self.note(answer);
        memory_left(answer)
    }

    /// Notes how a send of what is unsent was answered.
    fn note(&mut self, answer: SendAnswer)
        requires { IsWithin
            (length (drop self.old.requests.taken self.old.requests.stream)) answer }
        ensures { Notes answer self.old self.new }
    {
        match answer {
            SendAnswer::Took { count } => {
                self.requests.advance(count);
                self.blocked = count == 0;
                return;
            }
            SendAnswer::Later => {
                self.blocked = true;
                return;
            }
            SendAnswer::Failed => {
                self.gone = true;
                return;
            }
            SendAnswer::Memory => return,
        }
    }

    /// Ends the exchange if a send failed, and else notes what is waited for.
    fn settle<L: Links>(&mut self, alloc: Global, links: &mut L) -> Progress
        requires { IsUnclosed (L.report links.old).log (link_of self.old) }
        ensures stream { stream_of self.new ≡ stream_of self.old }
        ensures known { result ≡ Progress.More →
            IsUnclosed (L.report links.new).log (link_of self.new) }
        ensures settles { MakesCalls (L.report links.old) (L.report links.new)
            (SettlesTo self.old self.new result) }
    {
        if self.gone {
            self.close_link(links);
            return Progress::Lost;
        }
        let room = self.requests.unsent().len() > 0;
        match set_wants(alloc, self.link, room, &mut self.wants) {
            Ok(()) => Progress::More,
            Err(_) => Progress::Memory,
        }
    }

    /// Ends the exchange while it goes on: the link, if one was opened, is closed, and no other turn is taken.
    pub fn close<L: Links>(&mut self, links: &mut L)
        requires going { is_ended self.old ≡ false }
        requires known { IsUnclosed (L.report links.old).log (link_of self.old) }
        ensures closes { MakesCalls (L.report links.old) (L.report links.new)
            (λ calls. calls ≡ closing (link_of self.old)) }
        ensures ended { is_ended self.new ≡ true }
        ensures replies { replies_of self.new ≡ replies_of self.old }
    {
        self.close_link(links);
        self.ended = true;
    }

    /// Closes the link, if one was opened.
    fn close_link<L: Links>(&self, links: &mut L)
        requires { IsUnclosed (L.report links.old).log (link_of self.now) }
        ensures { MakesCalls (L.report links.old) (L.report links.new)
            (λ calls. calls ≡ closing (link_of self.now)) }
    {
        let Some(link) = self.link else {
            return;
        };
        links.close(link);
    }
}

/// Whether no other turn is taken after one that came to this.
fn is_last(progress: Progress) -> bool
    ensures going { progress ≡ Progress.More → result ≡ false }
    ensures last { progress ≢ Progress.More → result ≡ true }
{
    !matches!(progress, Progress::More)
}

/// Notes what is waited for on the link, if there is one: bytes to read, and room if `room`.
fn set_wants(alloc: Global, link: Option<u64>, room: bool, wants: &mut Wants) -> Result<(), Memory>
    ensures { OnOk result (wants.new ≡ wants_on room link) }
{
    wants.clear(alloc);
    let Some(link) = link else {
        return Ok(());
    };
    wants.push(
        alloc,
        Want {
            link,
            read: true,
            room,
        },
    )?;
    Ok(())
}

/// Fails where the answer is out of memory.
fn memory_left(answer: SendAnswer) -> Result<(), Memory>
    ensures { OnOk result (answer ≢ SendAnswer.Memory) }
{
    match answer {
        SendAnswer::Memory => Err(Memory),
        SendAnswer::Took { .. } | SendAnswer::Later | SendAnswer::Failed => Ok(()),
    }
}
