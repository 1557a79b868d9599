//! The time and the texts that an event begins with.

ghost use Rattle.std.specs.Prelude.{◌≡◌, ◌+◌, ◌^◌, ◌<◌, ◌≤◌, codes, length, IfSome};
ghost use Rattle.std.specs.Option.{option_map};
ghost use Rattle.ev_types.specs.Text.{is_text};
ghost use Rattle.packed_event.specs.Reading.{Gives, int64_part, names_part, names_seen, required, span_before, text_length};

use crate::body::{int64, optional_text};
use crate::places::Span;

/// The tags of the fields.
const TIME: u8 = 0x08;

pub(crate) const STATE: u8 = 0x12;

pub(crate) const SERVICE: u8 = 0x1a;

pub(crate) const HOST: u8 = 0x22;

pub(crate) const DESCRIPTION: u8 = 0x2a;

/// What is known of an event once its time and its texts were read.
#[derive(Drop)]
pub(crate) struct Names {
    pub(crate) time: i64,
    pub(crate) ends_key: bool,
    pub(crate) service: Option<Span>,
    pub(crate) host: Option<Span>,
    /// The place after them.
    pub(crate) tags: u32,
}

/// The time and the texts at the start of an event, and the bytes after them.
#[tactic(auto, unfolding(crate::specs::Reading::names_part))]
#[inline(always)]
pub(crate) fn names_at(bytes: &[u8]) -> Option<(Names, &[u8])>
    requires small { length bytes.now < 2 ^ 32 }
    ensures { Gives (λ read. (read.0, read.1.now)) result
        (option_map names_seen (names_part (length bytes.now) bytes.now)) }
{
    let (time, rest) = required_time(bytes)?;
    let (state, rest) = optional_text(STATE, rest)?;
    let (service, rest) = optional_text(SERVICE, rest)?;
    let service = span_before(bytes.len(), service, rest);
    let (host, rest) = optional_text(HOST, rest)?;
    let host = span_before(bytes.len(), host, rest);
    let (_, rest) = optional_text(DESCRIPTION, rest)?;
    let names = Names {
        time,
        ends_key: is_expired(state),
        service,
        host,
        tags: (bytes.len() - rest.len()) as u32,
    };
    Some((names, rest))
}

/// The time, which is always there.
#[tactic(auto, unfolding(crate::specs::Reading::required))]
#[inline(always)]
pub(crate) fn required_time(bytes: &[u8]) -> Option<(i64, &[u8])>
    ensures reads { Gives (λ read. (read.0, read.1.now)) result (required 8 int64_part bytes.now) }
    ensures shorter { IfSome result (λ read. length read.1.now < length bytes.now) }
{
    match bytes {
        [TIME, rest @ ..] => int64(rest),
        _ => None,
    }
}

/// Whether this is the state "expired".
#[inline(always)]
fn is_expired(state: Option<&[u8]>) -> bool
    ensures { result ≡ is_text (codes "expired") (option_map (λ text. text.now) state.entry) }
{
    match state {
        Some(state) => state == b"expired".as_slice(),
        None => false,
    }
}

/// Where the text is that ends before the rest of `total` bytes.
#[inline(always)]
fn span_before(total: usize, text: Option<&[u8]>, rest: &[u8]) -> Option<Span>
    requires small { total < 2 ^ 32 }
    requires within { text_length (option_map (λ text. text.now) text) + length rest.now ≤ total }
    ensures { result ≡ span_before total (option_map (λ text. text.now) text.entry) rest.now }
{
    let len = text?.len();
    Some(Span {
        start: (total - (len + rest.len())) as u32,
        len: len as u32,
    })
}
