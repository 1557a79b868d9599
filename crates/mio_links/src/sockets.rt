ghost use Rattle.std.specs.Prelude.{◌≡◌, ◌≢◌, ℕ, length, true, false, Option, Some, None, Ok, IsOk, IsSome, IfErr, IfNone, IfOk, IfSome, OnErr, OnOk};
ghost use Rattle.std.specs.HashMap.{IsUnchanged};
ghost use Rattle.std.specs.IoError.{raw_os_error};
ghost use Rattle.std.specs.Duration.{as_nanos};
ghost use Rattle.std.specs.Option.{option_map, ForSome};
ghost use Rattle.ports.specs.Links.{IsPieceWithin, IsWithin};
ghost use Rattle.mio_links.specs.Refusals.{refusal_by};
ghost use Rattle.mio_links.specs.Turns.{IsGiven, IsOn, OfLink, OpensAt};

use crate::accept::{Refusal, refusal_of};
use crate::client::{Client, Waiting};
use crate::fault::LinksFault;
use crate::queue::{Queue, Source};
use crate::share::Share;
use ev_types::Text;
use mio::event::Event;
use mio::net::{TcpListener, TcpStream};
use mio::{Events, Interest, Poll, Token};
use ports::{PIECE_LIMIT, SendAnswer, Want, Wants, What};
use std::alloc::Global;
use std::collections::HashMap;
use std::io;
use std::io::ErrorKind;
use std::net::{Net, ToSocketAddrs};
use std::time::Duration;

// The token of the listener. That of a link is its number.
const LISTENER: Token = Token(usize::MAX);

// How many links are served at once.
const LINKS_AT_ONCE: usize = 256;

// From how many seconds of silence on a link is given up where another client needs its place.
const LONG_SILENCE: u64 = 600;

/// A link, and the reading of the clock at its last turn.
#[derive(Clone, Copy)]
pub(crate) struct Heard {
    pub link: u64,
    pub secs: u64,
}

/// A socket that listens, and those of the links that were opened on it and not closed since.
#[derive(Drop)]
pub struct Sockets {
    poll: Poll,
    listener: TcpListener,
    // Whether the listener is in the queue.
    listening: bool,
    // The listener has to be asked again once the system was asked what is ready: something was lacking.
    lacking: bool,
    // A connection that was accepted, and waits for another link to be closed.
    arrived: Option<TcpStream>,
    clients: HashMap<u64, Client<TcpStream>>,
    queue: Queue,
}

impl Sockets {
    ghost use Rattle.mio_links.specs.Sockets.{has_link, share_of, IsWithinShare, MayHaveTurn};
    ghost use Rattle.mio_links.specs.Shares.{is_long, weighed};
    ghost use Rattle.mio_links.specs.Queues.{HasRoom, IsFull, is_over};
    ghost use Rattle.mio_links.specs.Silence.{AreNoLonger, GivesUp, IsGivenUp, IsNoLonger, NoneIsGivenUp, heard_of};

    /// Listens on the first address of `HOST:PORT` on which it can. A host's name is looked up.
    pub(crate) fn open<R: Net>(rt: &R, alloc: Global, address: &Text) -> Result<Sockets, LinksFault>
        ensures no_memory { IfErr result (λ fault. fault ≡ LinksFault.Failed) }
    {
        let poll = Poll::new(rt)?;
        let mut listener = bind(rt, address.as_str())?;
        poll.registry()
            .register(&mut listener, LISTENER, Interest::READABLE)?;
        Ok(Sockets {
            poll,
            listener,
            listening: false,
            lacking: false,
            arrived: None,
            clients: HashMap::new(alloc),
            queue: Queue::fresh(alloc),
        })
    }

    /// Keeps what the server took for the last read of the link.
    pub(crate) fn weigh(&mut self, link: u64, taken: Duration)
        ensures bytes { option_map (λ share. share.bytes) (share_of self.new link)
            ≡ option_map (λ share. weighed share.bytes (as_nanos taken)) (share_of self.old link) }
        ensures dear { option_map (λ share. share.is_dear) (share_of self.new link)
            ≡ option_map (λ _. is_long (as_nanos taken)) (share_of self.old link) }
    {
        if let Some(client) = self.clients.get_mut(&link) {
            client.share.weigh(taken);
        }
    }

    /// Asks the system what is ready, where each source that it reported before was served. It waits for at most `wait`
    /// milliseconds.
    pub(crate) fn refill(
        &mut self,
        wants: &Wants,
        events: &mut Events,
        wait: u64,
    ) -> Result<(), LinksFault>
        ensures goes_on { is_over self.old.queue ≡ false → self.new ≡ self.old }
        ensures lack { OnOk result (is_over self.old.queue ≡ true → self.old.lacking ≡ true
            → self.new.listening ≡ true) }
    {
        if self.queue.is_round_over() {
            self.ask(wants, events, wait)?;
        }
        Ok(())
    }

    /// Gives the next turn, at the reading `secs` of the clock, by what the system reported. The next link that opens
    /// gets the number `next_link`.
    pub(crate) fn next(
        &mut self,
        next_link: u64,
        secs: u64,
        wants: &Wants,
        buf: &mut [u8],
    ) -> Result<What, LinksFault>
        requires { length buf.old ≡ PIECE_LIMIT }
        ensures within { IfOk result (IsPieceWithin PIECE_LIMIT) }
        ensures given { IfOk result IsGiven }
        ensures link { IfOk result
            (λ what. OfLink what (λ link. has_link self.new link ≡ true)) }
        ensures opens { IfOk result (OpensAt next_link) }
        ensures share { IfOk result (IsWithinShare self.new) }
    {
        for _ in 0..self.queue.left() {
            let Some(source) = self.queue.take() else {
                break;
            };
            if let Some(what) = self.serve(source, next_link, secs, wants, buf)? {
                return Ok(what);
            }
        }
        Ok(What::Idle)
    }

    /// Asks the system what is ready, and begins a round with it.
    fn ask(&mut self, wants: &Wants, events: &mut Events, wait: u64) -> Result<(), LinksFault>
        ensures lack { OnOk result (self.old.lacking ≡ true → self.new.listening ≡ true) }
    {
        let lacking = self.lacking;
        self.release(wants)?;
        let wait = if self.queue.is_empty() { wait } else { 0 };
        self.poll.poll(events, Some(Duration::from_millis(wait)))?;
        for event in &*events {
            self.note(event)?;
        }
        if lacking {
            self.lacking = false;
            self.queue_listener()?;
        }
        self.queue.begin_round();
        Ok(())
    }

    /// Looks once more at each link that is held back. The link is queued if what it has to give is wanted now, and
    /// else it is held back again.
    fn release(&mut self, wants: &Wants) -> Result<(), LinksFault> {
        for _ in 0..self.queue.held_back() {
            let Some(link) = self.queue.take_held_back() else {
                break;
            };
            self.queue.make_room()?;
            if let Some(client) = self.clients.get_mut(&link) {
                self.queue.enter(client, &want_of(wants, link));
            }
        }
        Ok(())
    }

    /// Keeps what the system reports of one source, which then waits in the queue.
    fn note(&mut self, event: &Event) -> Result<(), LinksFault> {
        let token = event.token();
        if token == LISTENER {
            return self.queue_listener();
        }
        let link = token.0 as u64;
        let Some(client) = self.clients.get_mut(&link) else {
            return Ok(());
        };
        client.note(event);
        if client.waiting == Waiting::Nowhere {
            client.waiting = Waiting::Queued;
            self.queue.push(Source::Link(link))?;
        }
        Ok(())
    }

    fn queue_listener(&mut self) -> Result<(), LinksFault>
        ensures memory { IfErr result (λ fault. fault ≡ LinksFault.Memory) }
        ensures listens { OnOk result (self.new.listening ≡ true) }
        ensures clients { self.new.clients ≡ self.old.clients }
        ensures lacking { self.new.lacking ≡ self.old.lacking }
        ensures arrived { self.new.arrived ≡ self.old.arrived }
    {
        if !self.listening {
            self.listening = true;
            self.queue.push(Source::Listener)?;
        }
        Ok(())
    }

    /// The turn that the source has to give, if it has one.
    #[tactic(auto, using(crate::proofs::TurnLemmas::some_opens))]
    fn serve(
        &mut self,
        source: Source,
        next_link: u64,
        secs: u64,
        wants: &Wants,
        buf: &mut [u8],
    ) -> Result<Option<What>, LinksFault>
        requires { length buf.old ≡ PIECE_LIMIT }
        ensures within { IfOk result (λ found. IfSome found (IsPieceWithin PIECE_LIMIT)) }
        ensures given { IfOk result (λ found. IfSome found IsGiven) }
        ensures link { IfOk result (λ found. IfSome found (λ what.
            OfLink what (λ link. has_link self.new link ≡ true))) }
        ensures opens { IfOk result (λ found. IfSome found (OpensAt next_link)) }
        ensures share { IfOk result (λ found. IfSome found (IsWithinShare self.new)) }
        ensures untouched { OnErr result (IsUnchanged self.old.clients self.new.clients) }
    {
        match source {
            Source::Listener => {
                let found = self.accept(next_link, secs, wants)?;
                Ok(found)
            }
            Source::Link(link) => {
                let found = self.serve_link(link, secs, wants, buf)?;
                Ok(found)
            }
        }
    }

    /// The same of a link. One that was closed since has nothing to give.
    #[tactic(auto, using(crate::proofs::TurnLemmas::some_on_open))]
    fn serve_link(
        &mut self,
        link: u64,
        secs: u64,
        wants: &Wants,
        buf: &mut [u8],
    ) -> Result<Option<What>, LinksFault>
        requires { length buf.old ≡ PIECE_LIMIT }
        ensures within { IfOk result (λ found. IfSome found (IsPieceWithin PIECE_LIMIT)) }
        ensures given { IfOk result (λ found. IfSome found IsGiven) }
        ensures link { IfOk result (λ found. IfSome found (λ what.
            OfLink what (λ link. has_link self.new link ≡ true))) }
        ensures share { IfOk result (λ found. IfSome found (IsWithinShare self.new)) }
        ensures on { IfOk result (λ found. IfSome found (IsOn link)) }

        // One whose last read was dear has its turn after all others of the round.
        ensures dear_last { IfOk result (λ found. IfSome found (λ _. MayHaveTurn self.old link)) }

        // Where memory runs out, nothing was read. It does not if there is room for one link more.
        ensures untouched { OnErr result (self.new.clients ≡ self.old.clients) }
        ensures reserved { HasRoom self.old.queue → IsOk result }
    {
        self.queue.make_room()?;
        let Some(client) = self.clients.get_mut(&link) else {
            return Ok(None);
        };
        if client.share.is_dear && client.waiting != Waiting::PutOff {
            self.queue.put_off(client, link);
            return Ok(None);
        }
        let want = want_of(wants, link);
        let what = client.turn(link, &want, buf);
        if what.is_some() {
            client.heard = secs;
        }
        self.queue.enter(client, &want);
        Ok(what)
    }

    /// The same of the listener. Where as many links are connected as are served at once, one that was silent for long
    /// has to go first.
    #[tactic(auto, using(crate::proofs::SilenceLemmas::same_silence))]
    fn accept(
        &mut self,
        next_link: u64,
        secs: u64,
        wants: &Wants,
    ) -> Result<Option<What>, LinksFault>
        ensures within { IfOk result (λ found. IfSome found (IsPieceWithin PIECE_LIMIT)) }
        ensures given { IfOk result (λ found. IfSome found IsGiven) }
        ensures link { IfOk result (λ found. IfSome found (λ what.
            OfLink what (λ link. has_link self.new link ≡ true))) }
        ensures opens { IfOk result (λ found. IfSome found (OpensAt next_link)) }
        ensures share { IfOk result (λ found. IfSome found (IsWithinShare self.new)) }
        ensures gives_up { IfOk result (λ found. IfSome found (GivesUp self.new wants.now secs)) }
        ensures opens_last { result ≡ Ok (Some (What.Opened next_link))
            → NoneIsGivenUp self.old wants.now secs }

        // Where a connection arrived, the listener is asked for the next one.
        ensures listens { IfOk result (λ found. IsSome found → self.new.listening ≡ true) }
        ensures untouched { OnErr result (IsUnchanged self.old.clients self.new.clients) }
    {
        self.listening = false;
        let Some(stream) = self.arrival()? else {
            return Ok(None);
        };
        self.queue_listener()?;
        if let Some(silent) = self.given_up(secs, wants) {
            self.arrived = Some(stream);
            return Ok(Some(What::Broken { link: silent.link }));
        }
        if self.welcome(stream, next_link, secs)? {
            return Ok(Some(What::Opened { link: next_link }));
        }
        Ok(None)
    }

    /// The connection that was accepted before, or the next one that the system gives.
    fn arrival(&mut self) -> Result<Option<TcpStream>, LinksFault>
        ensures first { IsSome self.old.arrived → result ≡ Ok self.old.arrived }
        ensures none { self.new.arrived ≡ None }
        ensures clients { self.new.clients ≡ self.old.clients }
    {
        if let Some(stream) = self.arrived.take() {
            return Ok(Some(stream));
        }
        match self.listener.accept() {
            Ok((stream, _)) => Ok(Some(stream)),
            Err(error) => {
                self.note_refusal(&error)?;
                Ok(None)
            }
        }
    }

    /// Keeps when the listener has to be asked again. An error without a number of the system is of one connection.
    fn note_refusal(&mut self, error: &io::Error) -> Result<(), LinksFault>
        ensures failed { IfErr result (λ fault. fault ≡ LinksFault.Failed →
            refusal_by (raw_os_error error.now) ≡ Refusal.Listener) }
        ensures goes_on { OnOk result (refusal_by (raw_os_error error.now) ≢ Refusal.Listener) }
        ensures lack { OnOk result (refusal_by (raw_os_error error.now) ≡ Refusal.Lack
            → self.new.lacking ≡ true) }
        ensures next { OnOk result (refusal_by (raw_os_error error.now) ≡ Refusal.OneConnection
            → self.new.listening ≡ true) }
        ensures clients { self.new.clients ≡ self.old.clients }
        ensures arrived { self.new.arrived ≡ self.old.arrived }
    {
        let Some(code) = error.raw_os_error() else {
            return self.queue_listener();
        };
        match refusal_of(code.unsigned_abs()) {
            Refusal::NoneWaits => Ok(()),
            Refusal::OneConnection => self.queue_listener(),
            Refusal::Lack => {
                self.lacking = true;
                Ok(())
            }
            Refusal::Listener => Err(LinksFault::Failed),
        }
    }

    /// The link that has to go so that another client is served: the one that was silent longest, if it was silent for
    /// long and all places are taken.
    fn given_up(&self, secs: u64, wants: &Wants) -> Option<Heard>
        ensures some { IfSome result (IsGivenUp self.now wants.now secs) }
        ensures none { IfNone result (NoneIsGivenUp self.now wants.now secs) }
    {
        if wants.len() < LINKS_AT_ONCE {
            return None;
        }
        let silent = self.longest_silent(wants.as_slice())?;
        if secs.saturating_sub(silent.secs) < LONG_SILENCE {
            return None;
        }
        Some(silent)
    }

    /// The link of these that is open and was silent longest.
    fn longest_silent(&self, wants: &[Want]) -> Option<Heard>
        ensures heard { IfSome result (λ heard. heard_of self.now heard.link ≡ Some heard.secs) }
        ensures longest { AreNoLonger self.now wants.now result }
    {
        let mut found = None;
        for want in wants {
            found = self.longer_silent(found, want.link);
        }
        found
    }

    /// The link, if it is open and was silent longer than the one that was found, and else that one.
    fn longer_silent(&self, found: Option<Heard>, link: u64) -> Option<Heard>
        requires { ForSome found (λ heard. heard_of self.now heard.link ≡ Some heard.secs) }
        ensures heard { IfSome result (λ heard. heard_of self.now heard.link ≡ Some heard.secs) }
        ensures no_longer { IsNoLonger result (heard_of self.now link) }
        ensures others { (secs : Option ℕ) → IsNoLonger found secs → IsNoLonger result secs }
    {
        let Some(client) = self.clients.get(&link) else {
            return found;
        };
        match found {
            Some(found) if found.secs <= client.heard => Some(found),
            _ => Some(Heard {
                link,
                secs: client.heard,
            }),
        }
    }

    /// Takes in a connection as the link of this number. A socket that the system can't watch is closed.
    fn welcome(&mut self, mut stream: TcpStream, link: u64, secs: u64) -> Result<bool, LinksFault>
        ensures is_in { IfOk result (λ is_in. is_in ≡ true → has_link self.new link ≡ true) }
        ensures listening { self.new.listening ≡ self.old.listening }
        ensures untouched { OnErr result (IsUnchanged self.old.clients self.new.clients) }
    {
        // Replies are short, and do not wait for one another. A connection that is over already refuses this.
        let _ = stream.set_nodelay(true);
        let registered = self.poll.registry().register(
            &mut stream,
            Token(link as usize),
            Interest::READABLE | Interest::WRITABLE | Interest::PRIORITY,
        );
        if registered.is_err() {
            return Ok(false);
        }
        self.clients
            .insert(link, Client::fresh(stream, secs, Share::first()))?;
        Ok(true)
    }

    /// Offers the bytes to the link. A link that is not open takes none.
    pub(crate) fn send(&mut self, link: u64, bytes: &[u8]) -> SendAnswer
        ensures within { IsWithin (length bytes.now) result }
        ensures full { result ≡ SendAnswer.Memory → IsFull self.old.queue }
    {
        let Some(client) = self.clients.get_mut(&link) else {
            return SendAnswer::Failed;
        };
        let answer = client.send(bytes);
        if answer == SendAnswer::Later && client.has_room() && client.waiting == Waiting::Nowhere {
            client.waiting = Waiting::Queued;
            if self.queue.push(Source::Link(link)).is_err() {
                return SendAnswer::Memory;
            }
        }
        answer
    }

    /// Closes the link.
    pub(crate) fn close(&mut self, link: u64)
        ensures closed { has_link self.new link ≡ false }
        ensures others { (other : ℕ) → other ≢ link →
            has_link self.new other ≡ has_link self.old other }
    {
        let _ = self.clients.remove(&link);
    }
}

/// Listens on the first of the text's addresses on which it can.
fn bind<R: Net>(rt: &R, address: &str) -> io::Result<TcpListener> {
    for address in address.to_socket_addrs(rt)? {
        if let Ok(listener) = TcpListener::bind(rt, address) {
            return Ok(listener);
        }
    }
    Err(io::Error::from(ErrorKind::AddrNotAvailable))
}

/// What the server waits for on the link. It waits for nothing on a link that it does not name.
pub(crate) fn want_of(wants: &Wants, link: u64) -> Want {
    let wants = wants.as_slice();
    match wants.binary_search_by_key(&link, |want| want.link) {
        Ok(at) => Want {
            link,
            read: wants[at].read,
            room: wants[at].room,
        },
        Err(_) => Want {
            link,
            read: false,
            room: false,
        },
    }
}
