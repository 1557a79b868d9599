//! The lines of a text, one after the other.

ghost use Rattle.std.specs.Prelude.{◌≡◌, ◌<◌, [], ◌∷◌, length, IfSome, MatchOption};
ghost use Rattle.graphite_lines.specs.Lines.{lines_of, without_cr};

use crate::cut::find_byte;

const LINE_FEED: u8 = b'\n';

const CARRIAGE_RETURN: u8 = b'\r';

/// The first line of a text, and the text after its LF, where it ends with one.
pub(crate) fn cut_line(text: &[u8]) -> (&[u8], Option<&[u8]>)
    ensures lines { MatchOption result.1 (lines_of text.now ≡ result.0.now ∷ [])
        (λ rest. lines_of text.now ≡ result.0.now ∷ lines_of rest.now) }
    ensures shorter { IfSome result.1 (λ rest. length rest.now < length text.now) }
{
    match find_byte(LINE_FEED, text) {
        Some(end) => (without_cr(&text[..end]), Some(&text[end + 1..])),
        None => (text, None),
    }
}

#[tactic(auto, unfolding(crate::specs::Lines::without_cr))]
fn without_cr(line: &[u8]) -> &[u8]
    ensures { result.now ≡ without_cr line.now }
{
    let len = line.len();
    if len > 0 && line[len - 1] == CARRIAGE_RETURN {
        &line[..len - 1]
    } else {
        line
    }
}
