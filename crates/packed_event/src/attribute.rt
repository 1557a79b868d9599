//! One attribute.

ghost use Rattle.std.specs.Prelude.{◌≡◌, ◌<◌, length, if◌then◌else◌, option_copied, IfOk, IfSome};
ghost use Rattle.std.specs.Str.{IsUtf8, bytes_eq};
ghost use Rattle.riemann_msg.specs.ReadBack.{IsWellFormedAttribute};
ghost use Rattle.packed_event.specs.Reading.{Gives, attribute_in, attribute_part, required, text_part};
ghost use Rattle.packed_event.specs.Unpacking.{attribute_read};

use crate::body::{counted, optional_text, owned, owned_option, text};
use ev_types::{Attr, Memory};
use std::alloc::Global;

/// The tags of its fields.
const KEY: u8 = 0x0a;

const VALUE: u8 = 0x12;

/// An attribute, where it lies.
#[derive(Clone, Copy)]
pub(crate) struct AttrParts<'a> {
    key: &'a [u8],
    value: Option<&'a [u8]>,
}

impl AttrParts<'_> {
    /// The attribute, which owns its parts.
    pub(crate) fn owned(self, alloc: Global) -> Result<Attr, Memory>
        requires { IsWellFormedAttribute (attribute_read self) }
        ensures { IfOk result (λ attribute. attribute ≡ attribute_read self.entry) }
    {
        Ok(Attr {
            key: owned(alloc, self.key)?,
            value: owned_option(alloc, self.value)?,
        })
    }
}

impl<'a> AttrParts<'a> {
    /// Its value if it has this key, and else what an earlier attribute held.
    #[inline]
    pub(crate) fn value_or(self, key: &[u8], earlier: Option<&'a [u8]>) -> Option<&'a [u8]>
        ensures value { option_copied result ≡ (if bytes_eq self.entry.key.now key.now then
            option_copied self.entry.value else
            option_copied earlier.entry) }
        ensures utf8 { IsWellFormedAttribute (attribute_read self.entry)
            → IfSome earlier.entry (λ text. IsUtf8 text.now)
            → IfSome result (λ text. IsUtf8 text.now) }
    {
        if self.key == key { self.value } else { earlier }
    }
}

/// The attribute at the start of the bytes, whose tag was read, and the bytes after it.
#[tactic(auto, unfolding(crate::specs::Reading::attribute_part))]
#[inline(always)]
pub(crate) fn attribute_at(bytes: &[u8]) -> Option<(AttrParts<'_>, &[u8])>
    ensures reads { Gives (λ read. (attribute_read read.0, read.1.now)) result
        (attribute_part bytes.now) }
    ensures shorter { IfSome result (λ read. length read.1.now < length bytes.now) }
    ensures well_formed { IfSome result (λ read. IsWellFormedAttribute (attribute_read read.0)) }
{
    let (attribute, rest) = counted(bytes)?;
    let parts = attribute_in(attribute)?;
    Some((parts, rest))
}

/// The attribute whose bytes these are.
#[inline(always)]
fn attribute_in(bytes: &[u8]) -> Option<AttrParts<'_>>
    ensures reads { Gives attribute_read result (attribute_in bytes.now) }
    ensures well_formed { IfSome result (λ parts. IsWellFormedAttribute (attribute_read parts)) }
{
    let (key, rest) = required_key(bytes)?;
    let (value, rest) = optional_text(VALUE, rest)?;
    if !rest.is_empty() {
        return None;
    }
    Some(AttrParts { key, value })
}

#[tactic(auto, unfolding(crate::specs::Reading::required))]
#[inline(always)]
fn required_key(bytes: &[u8]) -> Option<(&[u8], &[u8])>
    ensures reads { Gives (λ read. (read.0.now, read.1.now)) result
        (required 10 text_part bytes.now) }
    ensures utf8 { IfSome result (λ read. IsUtf8 read.0.now) }
{
    match bytes {
        [KEY, rest @ ..] => text(rest),
        _ => None,
    }
}
