ghost use Rattle.std.specs.Prelude.{◌≡◌};
ghost use Rattle.riemann_msg.specs.Reply.{accepted, refused, found};

use ev_types::{Events, Text};
use std::alloc::Global;

/// One message, as a client sends it or a server answers it.
#[derive(Drop)]
pub struct Msg {
    /// Whether the message that this one answers was accepted.
    pub ok: Option<bool>,
    /// Why it was not.
    pub error: Option<Text>,
    pub query: Option<QueryPart>,
    pub events: Events,
}

/// The query that a message asks.
#[derive(Drop)]
pub struct QueryPart {
    /// Its text. An absent one is the empty text.
    pub string: Option<Text>,
}

impl Msg {
    /// The reply to a message that was accepted. It takes no memory.
    pub fn accepted(alloc: Global) -> Msg
        ensures { result ≡ accepted }
    {
        Msg::found(Events::fresh(alloc))
    }

    /// The reply to a message that was refused, with the reason. It takes no memory.
    pub fn refused(alloc: Global, error: Text) -> Msg
        ensures { result ≡ refused error }
    {
        Msg {
            ok: Some(false),
            error: Some(error),
            query: None,
            events: Events::fresh(alloc),
        }
    }

    /// The reply to a query, with the events that meet it. It takes no memory.
    pub fn found(events: Events) -> Msg
        ensures { result ≡ found events }
    {
        Msg {
            ok: Some(true),
            error: None,
            query: None,
            events,
        }
    }
}
