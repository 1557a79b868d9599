ghost use Rattle.std.specs.Prelude.{◌≡◌, ◌↔◌, option_copied, IsTrue};
ghost use Rattle.index_log.specs.IndexKey.{text_cmp};
ghost use Rattle.key_map.specs.Keys.{key_cmp};
ghost use Rattle.stored_event.specs.Key.{hash_fed, key_hash, key_lent, key_of};

use crate::bytes::are_equal;
use ev_types::{Event, Text};
use packed_event::{PackedEvent, PackedRef};
use std::cmp::Ordering;
use std::hash::{FoldHasher, Hasher};

/// The key of an event, lent from where it lies: the bytes of its host and of its service, each of which may be absent.
#[derive(Clone, Copy)]
pub struct KeyRef<'a> {
    pub host: Option<&'a [u8]>,
    pub service: Option<&'a [u8]>,
}

impl<'a> KeyRef<'a> {
    /// The key of an event that owns its parts.
    #[inline]
    pub fn of(event: &'a Event) -> KeyRef<'a>
        ensures { key_lent result ≡ key_of event.now }
    {
        KeyRef {
            host: lend(event.host.as_ref()),
            service: lend(event.service.as_ref()),
        }
    }

    /// The key of an event that is kept as its bytes.
    #[inline]
    pub fn of_packed(event: &'a PackedEvent) -> KeyRef<'a>
        ensures { key_lent result ≡ key_of event.now }
    {
        KeyRef::of_ref(&event.as_ref())
    }

    /// The key of an event whose bytes lie elsewhere.
    #[inline]
    pub fn of_ref(event: &PackedRef<'a>) -> KeyRef<'a>
        ensures { key_lent result ≡ key_of event.now }
    {
        KeyRef {
            host: bytes_of(event.host()),
            service: bytes_of(event.service()),
        }
    }

    /// Whether it is the same key.
    #[inline(always)]
    pub fn is(self, other: KeyRef<'_>) -> bool
        ensures { IsTrue result ↔ (key_lent self.entry ≡ key_lent other.entry) }
    {
        is_same(self.host, other.host) && is_same(self.service, other.service)
    }

    /// How it compares with another key: by host, then by service, absent before present.
    pub fn cmp(self, other: KeyRef<'_>) -> Ordering
        ensures { result ≡ key_cmp (key_lent self.entry) (key_lent other.entry) }
    {
        match text_cmp(self.host, other.host) {
            Ordering::Equal => text_cmp(self.service, other.service),
            apart => apart,
        }
    }

    /// A hash of it, which is the same for equal keys.
    #[inline(always)]
    pub fn hash(self) -> u64
        ensures { result ≡ key_hash (key_lent self.entry) }
    {
        let mut hasher = FoldHasher::default();
        feed(&mut hasher, self.host);
        feed(&mut hasher, self.service);
        hasher.finish()
    }
}

/// The bytes of the text, if there is one.
#[inline]
fn lend(text: Option<&Text>) -> Option<&[u8]>
    ensures { option_copied result ≡ option_copied text.entry }
{
    match text {
        Some(text) => Some(text.as_bytes()),
        None => None,
    }
}

/// The bytes of the characters, if there are any.
#[inline]
fn bytes_of(text: Option<&str>) -> Option<&[u8]>
    ensures { option_copied result ≡ option_copied text.entry }
{
    match text {
        Some(text) => Some(text.as_bytes()),
        None => None,
    }
}

/// Whether both texts are absent, or both are present with the same bytes.
#[inline]
fn is_same(a: Option<&[u8]>, b: Option<&[u8]>) -> bool
    ensures { IsTrue result ↔ (option_copied a.entry ≡ option_copied b.entry) }
{
    match (a, b) {
        (None, None) => true,
        (Some(a), Some(b)) => are_equal(a, b),
        _ => false,
    }
}

/// An absent text comes before one that is present.
fn text_cmp(a: Option<&[u8]>, b: Option<&[u8]>) -> Ordering
    ensures { result ≡ text_cmp (option_copied a.entry) (option_copied b.entry) }
{
    match (a, b) {
        (None, None) => Ordering::Equal,
        (None, Some(_)) => Ordering::Less,
        (Some(_), None) => Ordering::Greater,
        (Some(a), Some(b)) => a.cmp(b),
    }
}

/// Feeds the text to the hasher, if there is one.
#[inline]
fn feed(hasher: &mut FoldHasher, text: Option<&[u8]>)
    ensures { hasher.new ≡ hash_fed (option_copied text.entry) hasher.old }
{
    if let Some(text) = text {
        hasher.write(text);
    }
}
