//! What the words of a row spell.

use crate::line::RowFault;

/// What was read. Why something cannot be read does not count.
pub fn readable<T, E: Drop>(read: Result<T, E>) -> Result<T, RowFault> {
    match read {
        Ok(value) => Ok(value),
        Err(_) => Err(RowFault::Unreadable),
    }
}

pub fn read_long(word: &str) -> Result<u64, RowFault> {
    readable(word.parse::<u64>())
}

/// A moment in seconds since 1970, at most 2^40.
pub fn read_moment(word: &str) -> Result<u64, RowFault> {
    match word.parse::<u64>() {
        Ok(moment) if moment <= 1 << 40 => Ok(moment),
        _ => Err(RowFault::Unreadable),
    }
}

/// Two texts in quotes, with a blank between them.
pub fn two_texts(asked: &str) -> Result<(&str, &str), RowFault> {
    let rest = asked.strip_prefix('"').ok_or(RowFault::Unreadable)?;
    let rest = rest.strip_suffix('"').ok_or(RowFault::Unreadable)?;
    rest.split_once("\" \"").ok_or(RowFault::Unreadable)
}
