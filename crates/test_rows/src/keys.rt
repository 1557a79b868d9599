use crate::line::RowFault;
use crate::row::{Field, Row, Unread};

/// The keys that a row has once at most.
const ONCE: &[&str] = &[
    "row",
    "fault",
    "script",
    "fail reads",
    "fail links",
    "fail out",
    "fail err",
    "fail disk",
    "stop disk",
    "disk",
    "room",
    "status",
    "out",
    "err",
    "reads",
    "puts",
    "forks",
    "journal",
];

/// The keys that it has any number of times.
const MANY: &[&str] = &["args", "arg", "refused", "opened"];

/// The keys with a name of their own, once for each name.
const NAMED: &[&str] = &["file ", "sent "];

/// Checks that each key of the row is known, and that none is missing or occurs too often.
pub(crate) fn check_keys(row: &Row) -> Result<(), RowFault> {
    if let Some(unread) = row.unread {
        return Err(RowFault::Unread(unread));
    }
    for field in &row.fields {
        check_key(row, field)?;
    }
    match row.first("status") {
        Some(_) => Ok(()),
        None => Err(RowFault::Unread(Unread {
            line: row.line,
            why: "the row wants no status",
        })),
    }
}

fn check_key(row: &Row, field: &Field) -> Result<(), RowFault> {
    let key = field.key.as_str();
    if is_one_of(key, MANY) {
        return Ok(());
    }
    if !is_one_of(key, ONCE) && !begins_with_one_of(key, NAMED) {
        return Err(field.unread("the key is not known"));
    }
    match row.first(key) {
        Some(first) if first.line != field.line => Err(field.unread("the key occurs twice")),
        _ => Ok(()),
    }
}

fn is_one_of(key: &str, keys: &[&str]) -> bool {
    for known in keys {
        if key == *known {
            return true;
        }
    }
    false
}

fn begins_with_one_of(key: &str, starts: &[&str]) -> bool {
    for start in starts {
        if key.starts_with(*start) {
            return true;
        }
    }
    false
}
