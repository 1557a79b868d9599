//! The numbers of the fields, as Riemann's `proto.proto` has them. Those of a state are this project's profile.

/// Of a message.
pub const OK: u32 = 2;

pub const ERROR: u32 = 3;

/// An event of a client that is older than events.
pub const STATES: u32 = 4;

pub const QUERY: u32 = 5;

pub const EVENTS: u32 = 6;

/// Of a query.
pub const STRING: u32 = 1;

/// Of an attribute.
pub const KEY: u32 = 1;

pub const VALUE: u32 = 2;

/// Of an event. A state has those up to the ttl, by the same numbers and types.
pub const TIME: u32 = 1;

pub const STATE: u32 = 2;

pub const SERVICE: u32 = 3;

pub const HOST: u32 = 4;

pub const DESCRIPTION: u32 = 5;

pub const TAGS: u32 = 7;

pub const TTL: u32 = 8;

pub const ATTRIBUTES: u32 = 9;

pub const TIME_MICROS: u32 = 10;

pub const METRIC_SINT64: u32 = 13;

pub const METRIC_D: u32 = 14;

pub const METRIC_F: u32 = 15;
