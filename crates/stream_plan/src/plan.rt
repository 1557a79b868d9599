use ev_types::{Field, Fields, Fold, Sets, Tags, Text, Value};
use pred_eval::Rule;

/// The streams that get every event, in their order.
pub struct Plan {
    pub streams: Streams,
}

impl Drop for Plan {
    fn drop(self) {
        let Plan { streams: _streams } = self;
    }
}

/// A stream, and the streams that get what it passes on.
pub struct Stream {
    pub kind: Kind,
    pub children: Streams,
    /// The streams that get the events that do not meet the rule of a `Where`; empty at every other kind.
    pub otherwise: Streams,
}

impl Drop for Stream {
    fn drop(self) {
        let Stream {
            kind: _kind,
            children: _children,
            otherwise: _otherwise,
        } = self;
    }
}

/// Streams, in the order in which they get their items.
pub type Streams = Vec<Stream>;

/// What a stream does with its items. A count is from 1 to 1,000,000, seconds are from 1 to 604,800.
pub enum Kind {
    /// Writes each event into the index.
    Index,
    /// Gives a notice with this name of each item.
    Notice(Text),
    /// Passes on each item.
    Sdo,
    /// Passes an event that meets the rule to the children, any other to those of `otherwise`.
    Where(Rule),
    /// Passes on each event with these fields set, in order.
    With(Sets),
    /// Passes on each event with these fields set where they are absent, in order.
    Default(Sets),
    /// Passes on each event with these tags added that it lacks.
    Tag(Tags),
    /// Has a copy of its children, a fork, for each combination of values of these fields. With `idle`, a fork that got
    /// no event for this many seconds ends.
    By { fields: Fields, idle: Option<u32> },
    /// Passes on an event whose field differs from that of the event before.
    Changed { field: Field, init: Option<Value> },
    /// Passes on an event where the last `count` events hold the same in the field.
    Runs { count: u32, field: Field },
    /// Passes on the first `count` events of each window.
    Throttle { count: u32, secs: u32 },
    /// Passes on at most `count` vectors in each window: events one by one, each as a vector, and at the start of the
    /// next window, which it counts in, one vector of the events for which there was no room.
    Rollup { count: u32, secs: u32 },
    /// Passes on vectors of `count` events, and what is left at the end of each window.
    Batch { count: u32, secs: u32 },
    /// Passes on events once their field has held the same for this long.
    Stable { secs: u32, field: Field },
    /// Passes on each `count` events as a vector.
    FixedEvent { count: u32 },
    /// Passes on at each event the last `count` events as a vector.
    MovingEvent { count: u32 },
    /// Passes on the events of each stretch of this many seconds of event time as a vector.
    FixedTime { secs: u32 },
    /// Passes on at each event those of the last `secs` seconds of event time as a vector.
    MovingTime { secs: u32 },
    /// Passes on every `secs` seconds the last event of each host and service as a vector.
    Coalesce { secs: u32 },
    /// Passes on one event that is folded of each vector.
    Smap(Fold),
}

impl Drop for Kind {
    fn drop(self) {
        match self {
            Kind::Index => {}
            Kind::Notice(_name) => {}
            Kind::Sdo => {}
            Kind::Where(_rule) => {}
            Kind::With(_sets) => {}
            Kind::Default(_sets) => {}
            Kind::Tag(_tags) => {}
            Kind::By {
                fields: _fields,
                idle: _idle,
            } => {}
            Kind::Changed {
                field: _field,
                init: _init,
            } => {}
            Kind::Runs {
                count: _count,
                field: _field,
            } => {}
            Kind::Throttle {
                count: _count,
                secs: _secs,
            } => {}
            Kind::Rollup {
                count: _count,
                secs: _secs,
            } => {}
            Kind::Batch {
                count: _count,
                secs: _secs,
            } => {}
            Kind::Stable {
                secs: _secs,
                field: _field,
            } => {}
            Kind::FixedEvent { count: _count } => {}
            Kind::MovingEvent { count: _count } => {}
            Kind::FixedTime { secs: _secs } => {}
            Kind::MovingTime { secs: _secs } => {}
            Kind::Coalesce { secs: _secs } => {}
            Kind::Smap(_fold) => {}
        }
    }
}
