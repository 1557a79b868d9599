//! The tags and the attributes of an event, which may be there any number of times.

ghost use Rattle.std.specs.Prelude.{◌≡◌, ℕ, List, option_copied, IfSome, Some};
ghost use Rattle.std.specs.Option.{option_map};
ghost use Rattle.std.specs.Str.{IsUtf8};
ghost use Rattle.ev_types.specs.Field.{attribute_text};
ghost use Rattle.ev_types.specs.Set.{has_text};
ghost use Rattle.ev_types.specs.declared.event.Attr.{Attr as OneAttr};
ghost use Rattle.packed_event.specs.Reading.{Gives, attribute_part, bytes_part, repeated, text_part};

use crate::attribute::attribute_at;
use crate::body::{after_tag, counted, text};

/// The tags of the fields.
pub(crate) const TAGS: u8 = 0x3a;

pub(crate) const ATTRIBUTES: u8 = 0x4a;

/// The bytes after the tags.
pub(crate) fn after_tags(bytes: &[u8]) -> Option<&[u8]>
    ensures { Gives (λ rest. rest.now) result
        (option_map (λ read. read.1) (repeated 58 text_part bytes.now)) }
{
    let mut rest = bytes;
    'each: while let Some(tag) = after_tag(TAGS, rest) {
        let (_, after) = text(tag)?;
        rest = after;
    }
    Some(rest)
}

/// The bytes after the attributes.
pub(crate) fn after_attributes(bytes: &[u8]) -> Option<&[u8]>
    ensures { Gives (λ rest. rest.now) result
        (option_map (λ read. read.1) (repeated 74 attribute_part bytes.now)) }
{
    let mut rest = bytes;
    'each: while let Some(attribute) = after_tag(ATTRIBUTES, rest) {
        let (_, after) = attribute_at(attribute)?;
        rest = after;
    }
    Some(rest)
}

/// Whether the tag is among the tags at the start of the bytes, which are known to be UTF-8.
pub(crate) fn has_tag(bytes: &[u8], wanted: &[u8]) -> bool
    ensures { (read : List (List ℕ) × List ℕ) → repeated 58 bytes_part bytes.now ≡ Some read
        → result ≡ has_text wanted.now read.0 }
{
    let mut rest = bytes;
    'each: while let Some(tag) = after_tag(TAGS, rest) {
        let Some((tag, after)) = counted(tag) else {
            return false;
        };
        if tag == wanted {
            return true;
        }
        rest = after;
    }
    false
}

/// What the last attribute with this key holds, of those at the start of the bytes.
pub(crate) fn last_value<'a>(bytes: &'a [u8], key: &[u8]) -> Option<&'a [u8]>
    ensures text { (read : List OneAttr × List ℕ) → repeated 74 attribute_part bytes.now ≡ Some read
        → option_copied result ≡ attribute_text key.now read.0 }
    ensures utf8 { IfSome result (λ text. IsUtf8 text.now) }
{
    let mut last = None;
    let mut rest = bytes;
    'each: while let Some(attribute) = after_tag(ATTRIBUTES, rest) {
        let Some((parts, after)) = attribute_at(attribute) else {
            return None;
        };
        last = parts.value_or(key, last);
        rest = after;
    }
    last
}

/// The bytes after all fields with this tag at the start of the bytes. What they hold is not tested.
#[inline]
pub(crate) fn after_all(tag: u8, bytes: &[u8]) -> Option<&[u8]>
    ensures { Gives (λ rest. rest.now) result
        (option_map (λ read. read.1) (repeated tag bytes_part bytes.now)) }
{
    let mut rest = bytes;
    'each: while let Some(body) = after_tag(tag, rest) {
        let (_, after) = counted(body)?;
        rest = after;
    }
    Some(rest)
}
