ghost use Rattle.std.specs.Prelude.{◌≡◌, ◌↔◌, ℕ, List, length, IfOk, IfErr, IsTrue, Some, refl};
ghost use Rattle.std.specs.String.{string_bytes};
ghost use Rattle.std.specs.Str.{IsUtf8, bytes_eq};
ghost use Rattle.std.specs.Ordering.{nat_cmp};
ghost use Rattle.std.specs.Cmp.Lexicographic.{slice_cmp, nat_list_eq_equiv, nat_list_cmp_total, texts_ties, texts_po};
ghost use Rattle.std.specs.Cmp.{partial_equiv_from_equiv};
ghost use Rattle.std.specs.Cmp.Rules.{hashing};
ghost use Rattle.std.specs.Hash as fed;
ghost use Rattle.std.proofs.Common.{rules};
ghost use Rattle.ev_types.specs.declared.text.TextFault.TheVariants.{Memory as out_of_memory};
ghost use Rattle.ev_types.specs.Text.{chars_bytes, IsNoText};

use crate::{Items, Memory};
use arrayvec::ArrayString;
use std::alloc::Global;
use std::cmp::Ordering;
use std::fmt;
use std::hash::{Hash, Hasher};
use std::marker::Model;
use std::str::{from_utf8, from_utf8_unchecked};
use thiserror::Error;

// A text that is read or copied takes no memory where it has at most this many bytes.
const SHORT: usize = 24;

/// A text, which contracts see as its bytes. They are UTF-8. Texts are ordered by their bytes.
pub struct Text {
    chars: Chars,
}

impl Drop for Text {
    fn drop(self) {
        let Text { chars: _chars } = self;
    }
}

/// Where the characters of a text are.
enum Chars {
    /// In the text itself.
    Inline(ArrayString<SHORT>),
    /// In memory of their own.
    Heap(String),
}

impl Drop for Chars {
    fn drop(self) {
        match self {
            Chars::Inline(_chars) => {}
            Chars::Heap(_chars) => {}
        }
    }
}

/// A list of texts.
pub type Texts = Items<Text>;

/// Why bytes are not a [`Text`].
#[derive(Debug, Drop, Error)]
pub enum TextFault {
    /// The bytes are not UTF-8: their longest prefix that is has `place` bytes.
    #[error("not UTF-8 from byte {place} on")]
    Utf8 { place: usize },
    #[error("out of memory")]
    Memory,
}

impl From<Memory> for TextFault {
    ghost from_gives = { λ _ fault. fault ≡ out_of_memory };

    fn from(_memory: Memory) -> TextFault {
        TextFault::Memory
    }
}

impl Model for Text {
    ghost Value = { List ℕ };

    ghost view = { λ text. chars_bytes text.chars };
}

impl Text {
    /// The text that the bytes spell.
    #[inline]
    pub fn read(alloc: Global, bytes: &[u8]) -> Result<Text, TextFault>
        ensures text { IfOk result (λ text. IsUtf8 bytes.now × (text ≡ bytes.now)) }
        ensures fault { IfErr result (IsNoText bytes.now) }
    {
        // Most texts are ASCII, which is quicker to test for than UTF-8.
        if bytes.is_ascii() {
            let chars = unsafe { from_utf8_unchecked(bytes) };
            return Ok(Text::from_str(alloc, chars)?);
        }
        match from_utf8(bytes) {
            Ok(chars) => Ok(Text::from_str(alloc, chars)?),
            Err(error) => Err(TextFault::Utf8 {
                place: error.valid_up_to(),
            }),
        }
    }

    /// A text of the same characters. At most 24 bytes take no memory.
    #[inline]
    pub fn from_str(alloc: Global, chars: &str) -> Result<Text, Memory>
        ensures { IfOk result (λ text. text ≡ chars.now) }
    {
        if chars.len() > SHORT {
            return Ok(Text::from_string(String::from_str(alloc, chars)?));
        }
        let mut short = ArrayString::new();
        short.push_str(chars);
        Ok(Text {
            chars: Chars::Inline(short),
        })
    }

    /// The text of these characters, with no copy.
    pub fn from_string(chars: String) -> Text
        ensures { result ≡ string_bytes chars }
    {
        Text {
            chars: Chars::Heap(chars),
        }
    }

    /// An equal text.
    pub fn copy(&self, alloc: Global) -> Result<Text, Memory>
        ensures { IfOk result (λ text. text ≡ self.now) }
    {
        Text::from_str(alloc, self.as_str())
    }

    pub fn as_str(&self) -> &str
        ensures { result.now ≡ self.now }
    {
        match &self.chars {
            Chars::Inline(chars) => chars.as_str(),
            Chars::Heap(chars) => chars.as_str(),
        }
    }

    pub fn as_bytes(&self) -> &[u8]
        ensures bytes { result.now ≡ self.now }
        ensures utf8 { IsUtf8 self.now }
    {
        self.as_str().as_bytes()
    }

    /// Whether these are the text's bytes.
    pub fn is(&self, bytes: &[u8]) -> bool
        ensures { IsTrue result ↔ (self.now ≡ bytes.now) }
    {
        self.as_bytes() == bytes
    }
}

impl PartialEq for Text {
    ghost eq = { bytes_eq };

    ghost laws = { partial_equiv_from_equiv nat_list_eq_equiv };

    fn eq(&self, other: &Text) -> bool {
        self.as_str() == other.as_str()
    }
}

impl Eq for Text {
    ghost laws = { nat_list_eq_equiv };
}

impl PartialOrd for Text {
    ghost partial_cmp = { λ a b. Some (slice_cmp nat_cmp a b) };

    ghost laws = { texts_po };

    fn partial_cmp(&self, other: &Text) -> Option<Ordering> {
        Some(self.cmp(other))
    }
}

impl Ord for Text {
    ghost cmp = { slice_cmp nat_cmp };

    ghost total = { nat_list_cmp_total };

    ghost matches_partial_cmp = { λ a b. refl };

    ghost matches_eq = { texts_ties };

    fn cmp(&self, other: &Text) -> Ordering {
        self.as_str().cmp(other.as_str())
    }
}

impl Hash for Text {
    ghost hash_input = { fed.str };

    ghost respects_eq = { Prim.search (hashing, rules) };

    fn hash<H: Hasher>(&self, state: &mut H) {
        self.as_str().hash(state);
    }
}

impl fmt::Debug for Text {
    fn fmt<W: fmt::Write>(&self, f: &mut fmt::Formatter<W>) -> fmt::Result {
        fmt::Debug::fmt(self.as_str(), f)
    }
}
