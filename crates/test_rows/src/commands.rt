//! Rows of commands.

use crate::call::{Given, call, given_of};
use crate::keys::check_keys;
use crate::line::RowFault;
use crate::numbers::{number, number_of};
use crate::row::Row;
use crate::tally::Tally;
use command_io::Status;
use ev_types::Text;
use std::alloc::Global;

/// Carries out the command of a row, and compares what it leaves with what the row wants.
pub(crate) fn judge_command(alloc: Global, row: &Row, tally: &mut Tally) -> Result<(), RowFault> {
    check_keys(row)?;
    let mut given = given_of(alloc, row)?;
    let status = call(alloc, row, &mut given)?;
    judge_given(alloc, row, status, &given, tally)
}

fn judge_given(
    alloc: Global,
    row: &Row,
    status: Status,
    given: &Given,
    tally: &mut Tally,
) -> Result<(), RowFault> {
    let length = tally.report.len();
    let status = format!(in alloc; "{status:?}")?;
    compare(row, "status", status.as_bytes(), tally)?;
    compare(row, "out", given.out.text.as_slice(), tally)?;
    compare(row, "err", given.err.text.as_slice(), tally)?;
    compare_counts(alloc, row, given, tally)?;
    compare_texts(row, "refused", given.patterns.refused.as_slice(), tally)?;
    compare_texts(row, "opened", given.disk.opened.as_slice(), tally)?;
    if row.value("journal").is_some() {
        compare(row, "journal", given.disk.file.as_slice(), tally)?;
    }
    compare_sent(row, given, tally)?;
    tally.count(length);
    Ok(())
}

/// Compares what came with the value of a key, which is empty where it is not there.
fn compare(row: &Row, key: &str, came: &[u8], tally: &mut Tally) -> Result<(), RowFault> {
    let wanted = row.value(key).unwrap_or(b"");
    Ok(tally.compare(row.line, key, wanted, came)?)
}

/// Compares the counts that the row gives.
fn compare_counts(
    alloc: Global,
    row: &Row,
    given: &Given,
    tally: &mut Tally,
) -> Result<(), RowFault> {
    let reads = given.store.reads.len() as u64;
    compare_count(alloc, row, "reads", reads, tally)?;
    compare_count(alloc, row, "puts", given.out.puts, tally)?;
    compare_count(alloc, row, "forks", given.steps.ledger().forks, tally)
}

/// Compares a count with the value of a key, where it is there.
fn compare_count(
    alloc: Global,
    row: &Row,
    key: &str,
    came: u64,
    tally: &mut Tally,
) -> Result<(), RowFault> {
    match number_of(row, key)? {
        Some(wanted) if wanted != came => {
            let came = format!(in alloc; "{came}")?;
            compare(row, key, came.as_bytes(), tally)
        }
        _ => Ok(()),
    }
}

/// Compares texts with the values of the key, in order.
fn compare_texts(row: &Row, key: &str, came: &[Text], tally: &mut Tally) -> Result<(), RowFault> {
    let mut texts = came.iter();
    for field in &row.fields {
        if field.key.as_str() == key {
            let came = texts.next().map_or(NO_MORE, |text| text.as_bytes());
            tally.compare(row.line, key, field.value.as_slice(), came)?;
        }
    }
    let rest = texts.next().map_or(NO_MORE, |text| text.as_bytes());
    Ok(tally.compare(row.line, key, NO_MORE, rest)?)
}

/// What is wanted, or comes, where there are no more texts.
const NO_MORE: &[u8] = b"no more";

/// Compares what the links took that the row names.
fn compare_sent(row: &Row, given: &Given, tally: &mut Tally) -> Result<(), RowFault> {
    for field in &row.fields {
        let key = field.key.as_str();
        if let Some(link) = key.strip_prefix("sent ") {
            let link = number(field, link.as_bytes())?;
            compare(row, key, given.links.inner.taken(link).as_slice(), tally)?;
        }
    }
    Ok(())
}
