ghost use Rattle.std.specs.Prelude.{◌≡◌, ◌≢◌, length, IfErr, IfOk, IfSome};
ghost use Rattle.ports.specs.Links.{IsPieceWithin, IsWithin};
ghost use Rattle.mio_links.specs.Turns.{IsGiven, IsOn, OfLink};

use crate::client::Client;
use crate::fault::LinksFault;
use crate::share::Share;
use crate::sockets::want_of;
use ev_types::Text;
use mio::event::Event;
use mio::net::TcpStream;
use mio::{Events, Interest, Poll, Token};
use ports::{PIECE_LIMIT, SendAnswer, Wants, What};
use std::alloc::Global;
use std::collections::VecDeque;
use std::io::ErrorKind;
use std::net::{Net, SocketAddr, ToSocketAddrs};
use std::time::Duration;

// The number of the one link.
const LINK: u64 = 0;

// How many milliseconds a turn waits at most.
const LONGEST_WAIT: u64 = 100;

/// A connection to a server, from the first try on.
#[derive(Drop)]
pub(crate) struct Dial {
    poll: Poll,
    // The addresses of the server that were not tried yet.
    addresses: VecDeque<SocketAddr>,
    // A connection that was begun, and is neither there nor failed yet.
    begun: Option<TcpStream>,
    // The connection, once it is there and until it is closed.
    client: Option<Client<TcpStream>>,
}

impl Dial {
    /// Begins to connect to the first address of `HOST:PORT` with which that can be begun. A host's name is looked up.
    pub(crate) fn begin<R: Net>(rt: &R, alloc: Global, address: &Text) -> Result<Dial, LinksFault> {
        let mut dial = Dial {
            poll: Poll::new(rt)?,
            addresses: VecDeque::new(alloc),
            begun: None,
            client: None,
        };
        dial.look_up(rt, address)?;
        Ok(dial)
    }

    /// Looks up the addresses of `HOST:PORT`, and begins to connect to the first with which that can be begun.
    fn look_up<R: Net>(&mut self, rt: &R, address: &Text) -> Result<(), LinksFault> {
        for address in address.as_str().to_socket_addrs(rt)? {
            self.addresses.push_back(address)?;
        }
        self.try_next(rt)
    }

    /// Begins to connect to the next address with which that can be begun.
    fn try_next<R: Net>(&mut self, rt: &R) -> Result<(), LinksFault>
        ensures no_memory { IfErr result (λ fault. fault ≡ LinksFault.Failed) }
    {
        for _ in 0..self.addresses.len() {
            let Some(address) = self.addresses.pop_front() else {
                break;
            };
            if let Ok(mut stream) = TcpStream::connect(rt, address) {
                self.poll.registry().register(
                    &mut stream,
                    Token(LINK as usize),
                    Interest::READABLE | Interest::WRITABLE | Interest::PRIORITY,
                )?;
                self.begun = Some(stream);
                return Ok(());
            }
        }
        Err(LinksFault::Failed)
    }

    /// Gives the next turn. It waits for at most 100 milliseconds.
    pub(crate) fn next<R: Net>(
        &mut self,
        rt: &R,
        events: &mut Events,
        wants: &Wants,
        buf: &mut [u8],
    ) -> Result<What, LinksFault>
        requires { length buf.old ≡ PIECE_LIMIT }
        ensures within { IfOk result (IsPieceWithin PIECE_LIMIT) }
        ensures given { IfOk result IsGiven }
        ensures link { IfOk result (λ what. OfLink what (λ link. link ≡ 0)) }

        // It takes no memory, so no bytes that were read are lost for it.
        ensures no_memory { IfErr result (λ fault. fault ≡ LinksFault.Failed) }
    {
        let found = self.ready(wants, buf);
        if found.is_some() {
            return Ok(what_or_idle(found));
        }
        if self.ask(rt, events)? {
            return Ok(What::Opened { link: LINK });
        }
        let found = self.ready(wants, buf);
        Ok(what_or_idle(found))
    }

    /// What happened on the link, if it is open and something did that the client waits for.
    fn ready(&mut self, wants: &Wants, buf: &mut [u8]) -> Option<What>
        requires { length buf.old ≡ PIECE_LIMIT }
        ensures within { IfSome result (IsPieceWithin PIECE_LIMIT) }
        ensures given { IfSome result IsGiven }
        ensures link { IfSome result (IsOn 0) }
    {
        let Some(client) = &mut self.client else {
            return None;
        };
        client.turn(LINK, &want_of(wants, LINK), buf)
    }

    /// Asks the system what is ready, and keeps it. The answer is whether the connection is there now for the first
    /// time.
    fn ask<R: Net>(&mut self, rt: &R, events: &mut Events) -> Result<bool, LinksFault>
        ensures no_memory { IfErr result (λ fault. fault ≡ LinksFault.Failed) }
    {
        self.poll
            .poll(events, Some(Duration::from_millis(LONGEST_WAIT)))?;
        let mut opened = false;
        for event in &*events {
            if self.note(rt, event)? {
                opened = true;
            }
        }
        Ok(opened)
    }

    /// Keeps what the system reports of the connection.
    fn note<R: Net>(&mut self, rt: &R, event: &Event) -> Result<bool, LinksFault>
        ensures no_memory { IfErr result (λ fault. fault ≡ LinksFault.Failed) }
    {
        let opened = self.settle(rt)?;
        if let Some(client) = &mut self.client {
            client.note(event);
        }
        Ok(opened)
    }

    /// Looks whether the connection that was begun is there now. One that failed gives way to that of the next address.
    fn settle<R: Net>(&mut self, rt: &R) -> Result<bool, LinksFault>
        ensures no_memory { IfErr result (λ fault. fault ≡ LinksFault.Failed) }
    {
        let Some(stream) = self.begun.take() else {
            return Ok(false);
        };
        match outcome_of(&stream) {
            Attempt::Connected => {
                // Requests are short, and do not wait for one another. A connection that is over already refuses this.
                let _ = stream.set_nodelay(true);
                self.client = Some(Client::fresh(stream, 0, Share::whole()));
                Ok(true)
            }
            Attempt::Waits => {
                self.begun = Some(stream);
                Ok(false)
            }
            Attempt::Failed => {
                self.try_next(rt)?;
                Ok(false)
            }
        }
    }

    /// Offers the bytes to the link. One that is not open takes none.
    pub(crate) fn send(&mut self, link: u64, bytes: &[u8]) -> SendAnswer
        ensures within { IsWithin (length bytes.now) result }
        ensures no_memory { result ≢ SendAnswer.Memory }
    {
        let Some(client) = &mut self.client else {
            return SendAnswer::Failed;
        };
        if link != LINK {
            return SendAnswer::Failed;
        }
        client.send(bytes)
    }

    /// Closes the link.
    pub(crate) fn close(&mut self, link: u64) {
        if link == LINK {
            self.client = None;
        }
    }
}

/// What became of a connection that was begun.
#[derive(Clone, Copy)]
enum Attempt {
    Connected,
    Waits,
    Failed,
}

fn outcome_of(stream: &TcpStream) -> Attempt {
    let Ok(None) = stream.take_error() else {
        return Attempt::Failed;
    };
    match stream.peer_addr() {
        Ok(_) => Attempt::Connected,
        Err(error) => match error.kind() {
            ErrorKind::NotConnected => Attempt::Waits,
            _ => Attempt::Failed,
        },
    }
}

/// What happened, or that nothing did.
#[tactic(auto, using(crate::proofs::DialLemmas::some_on_zero))]
fn what_or_idle(found: Option<What>) -> What
    requires within { IfSome found (IsPieceWithin PIECE_LIMIT) }
    requires given { IfSome found IsGiven }
    requires link { IfSome found (IsOn 0) }
    ensures within { IsPieceWithin PIECE_LIMIT result }
    ensures given { IsGiven result }
    ensures link { OfLink result (λ link. link ≡ 0) }
{
    match found {
        Some(what) => what,
        None => What::Idle,
    }
}
