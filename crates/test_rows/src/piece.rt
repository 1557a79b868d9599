use crate::line::RowFault;
use crate::row::Field;
use crate::spelled::{decode, read_number};
use std::alloc::Global;

/// The forms of a piece of a value.
#[derive(Clone, Copy)]
pub(crate) enum Mark {
    /// A text.
    Text,
    /// A text and a line feed.
    Line,
    /// Words of bytes.
    Words,
}

/// Appends the piece after its mark to the value.
pub(crate) fn append_piece(
    alloc: Global,
    names: &[Field],
    mark: Mark,
    piece: &str,
    value: &mut Vec<u8>,
) -> Result<(), RowFault> {
    let piece = piece.strip_prefix(' ').unwrap_or(piece);
    match mark {
        Mark::Text => value.extend_from_slice(piece.as_bytes())?,
        Mark::Line => {
            value.extend_from_slice(piece.as_bytes())?;
            value.push(b'\n')?;
        }
        Mark::Words => {
            for word in piece.split(' ') {
                append_word(alloc, names, word, value)?;
            }
        }
    }
    Ok(())
}

/// Appends the bytes of a word, as many times as its number says.
fn append_word(
    alloc: Global,
    names: &[Field],
    word: &str,
    value: &mut Vec<u8>,
) -> Result<(), RowFault> {
    let (count, word) = match word.split_once('*') {
        Some((digits, word)) => (read_number(digits)?, word),
        None => (1, word),
    };
    if is_name(word) {
        let named = value_of(names, word).ok_or(RowFault::Unreadable)?;
        return append_copies(named, count, value);
    }
    let bytes = decode(alloc, word)?;
    append_copies(bytes.as_slice(), count, value)
}

/// Appends the bytes as many times as the number says.
pub(crate) fn append_copies(bytes: &[u8], count: u32, value: &mut Vec<u8>) -> Result<(), RowFault> {
    for _ in 0..count {
        value.extend_from_slice(bytes)?;
    }
    Ok(())
}

/// Whether the word begins as a name.
pub(crate) fn is_name(word: &str) -> bool {
    match word.as_bytes() {
        [b'A'..=b'Z', ..] => true,
        _ => false,
    }
}

/// The value of a name.
pub(crate) fn value_of<'a>(names: &'a [Field], name: &str) -> Option<&'a [u8]> {
    for named in names {
        if named.key.as_str() == name {
            return Some(named.value.as_slice());
        }
    }
    None
}
