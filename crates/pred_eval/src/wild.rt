ghost use Rattle.std.specs.Prelude.{◌≡◌, ◌∷◌};
ghost use Rattle.pred_eval.specs.Wild.{is_wild, percent, WildTextsAreJoined};

use memchr::{memchr, memmem};

// Matches any bytes in a pattern.
const ANY: u8 = b'%';

/// A text matches a pattern exactly where it is the concatenation of the parts between the pattern's `%`, with any
/// bytes between these parts.
pub fn wild_texts_are_joined()
    ensures { WildTextsAreJoined }
{}

/// Whether the text as a whole matches the pattern, in which `%` matches any bytes, also none, and every other byte
/// matches itself. It takes no memory, and its time is that of a search for each part of the pattern.
pub fn is_wild(pattern: &[u8], text: &[u8]) -> bool
    ensures { result ≡ is_wild pattern.now text.now }
{
    let Some(at) = memchr(ANY, pattern) else {
        return pattern == text;
    };
    match text.strip_prefix(&pattern[..at]) {
        Some(rest) => ends_wild(&pattern[at + 1..], rest),
        None => false,
    }
}

// Whether the text is any bytes followed by a text that matches the pattern. Each part that a `%` follows is taken at
// its first place, which leaves the most for the others.
fn ends_wild(mut pattern: &[u8], mut text: &[u8]) -> bool
    ensures { result ≡ is_wild (percent ∷ pattern.now) text.now }
{
    while let Some(at) = memchr(ANY, pattern) {
        let Some(place) = memmem::find(text, &pattern[..at]) else {
            return false;
        };
        text = &text[place..][at..];
        pattern = &pattern[at..][1..];
    }
    text.ends_with(pattern)
}
