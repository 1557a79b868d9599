//! The words of a line.

ghost use Rattle.std.specs.Prelude.{◌≡◌, ◌<◌, false, not, [], ◌∷◌, length, position, slice_index, MatchOption};
ghost use Rattle.graphite_lines.specs.Reading.{AreWords};
ghost use Rattle.graphite_lines.specs.Words.{is_blank, words_of};

const SPACE: u8 = b' ';

const TAB: u8 = b'\t';

/// The words of a line, where they are three.
#[derive(Clone, Copy)]
pub(crate) enum LineWords<'a> {
    /// It has no words.
    Nothing,
    Three {
        path: &'a [u8],
        value: &'a [u8],
        time: &'a [u8],
    },
    /// It has one, two, or more than three words.
    Other,
}

pub(crate) fn split_line(line: &[u8]) -> LineWords<'_>
    ensures { AreWords (words_of line.now) result }
{
    let Some((path, rest)) = next_word(line) else {
        return LineWords::Nothing;
    };
    let Some((value, rest)) = next_word(rest) else {
        return LineWords::Other;
    };
    let Some((time, rest)) = next_word(rest) else {
        return LineWords::Other;
    };
    match next_word(rest) {
        Some(_) => LineWords::Other,
        None => LineWords::Three { path, value, time },
    }
}

/// The first word, and the bytes after it.
fn next_word(bytes: &[u8]) -> Option<(&[u8], &[u8])>
    ensures { MatchOption result (words_of bytes.now ≡ [])
        (λ cut. words_of bytes.now ≡ cut.0.now ∷ words_of cut.1.now) }
{
    let word = skip_blanks(bytes);
    if word.is_empty() {
        return None;
    }
    Some(cut_word(word))
}

/// The bytes from the first word on.
fn skip_blanks(bytes: &[u8]) -> &[u8]
    ensures words { words_of result.now ≡ words_of bytes.now }
    ensures begins { 0 < length result.now → is_blank (slice_index result.now 0) ≡ false }
{
    match find_word(bytes) {
        Some(start) => &bytes[start..],
        None => &[],
    }
}

/// The word with which the bytes begin, and the bytes after it.
fn cut_word(bytes: &[u8]) -> (&[u8], &[u8])
    requires some { 0 < length bytes.now }
    requires begins { is_blank (slice_index bytes.now 0) ≡ false }
    ensures { words_of bytes.now ≡ result.0.now ∷ words_of result.1.now }
{
    match find_blank(bytes) {
        Some(end) => (&bytes[..end], &bytes[end..]),
        None => (bytes, &[]),
    }
}

/// The place of the first byte of a word.
fn find_word(bytes: &[u8]) -> Option<usize>
    ensures { result ≡ position (λ byte. not (is_blank byte)) bytes.now }
{
    bytes.iter().position(|byte| !is_blank(*byte))
}

/// The place of the first space or tab.
fn find_blank(bytes: &[u8]) -> Option<usize>
    ensures { result ≡ position is_blank bytes.now }
{
    bytes.iter().position(|byte| is_blank(*byte))
}

fn is_blank(byte: u8) -> bool
    ensures { result ≡ is_blank byte }
{
    byte == SPACE || byte == TAB
}
