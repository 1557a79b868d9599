use crate::line::RowFault;
use crate::row::{Field, Row};
use script_text::read_number;
use std::alloc::Global;

/// The number that a key has, if it is there.
pub(crate) fn number_of(row: &Row, key: &str) -> Result<Option<u64>, RowFault> {
    match row.first(key) {
        Some(field) => Ok(Some(number(field, field.value.as_slice())?)),
        None => Ok(None),
    }
}

/// The numbers that a key has. Blanks separate them.
pub(crate) fn numbers_of(alloc: Global, row: &Row, key: &str) -> Result<Vec<u64>, RowFault> {
    let mut numbers = Vec::new(alloc);
    if let Some(field) = row.first(key) {
        for word in field.value.as_slice().split(|byte| *byte == b' ') {
            numbers.push(number(field, word)?)?;
        }
    }
    Ok(numbers)
}

/// The number that the digits of a field spell.
pub(crate) fn number(field: &Field, digits: &[u8]) -> Result<u64, RowFault> {
    read_number(digits).ok_or(field.unread("the value is not a number"))
}
