//! Rows of tests of configurations.

use crate::line::{RowFault, said};
use crate::shown::end_with_name;
use config_tests::{Entry, Expect, Test, TestFault, read_tests};
use ev_types::{Blob, Item, Memory};
use notice_sink::{put_item, put_quoted};
use std::alloc::Global;

/// The tests that the text is, in one line, or why it is no tests.
pub fn tests_answer(alloc: Global, text: &[u8]) -> Result<Blob, RowFault> {
    match read_tests(alloc, text) {
        Ok(tests) => Ok(tests_line(alloc, tests.as_slice())?),
        Err(fault) => refusal(alloc, fault),
    }
}

fn refusal(alloc: Global, fault: TestFault) -> Result<Blob, RowFault> {
    let mut printed = format!(in alloc; "{fault}")?;
    if let TestFault::Refused { why, .. } = fault {
        end_with_name(&mut printed, why.name())?;
    }
    Ok(said(printed))
}

/// Each test between brackets; `none` where there is no test.
fn tests_line(alloc: Global, tests: &[Test]) -> Result<Blob, Memory> {
    if tests.is_empty() {
        return Blob::from_slice(alloc, b"none");
    }
    let mut line = Blob::fresh(alloc);
    for test in tests {
        put_test(alloc, test, &mut line)?;
    }
    Ok(line)
}

/// The name, what comes, and what is expected, with events and items as in notice lines.
fn put_test(alloc: Global, test: &Test, line: &mut Blob) -> Result<(), Memory> {
    line.push(alloc, b'(')?;
    put_quoted(alloc, &test.name, line)?;
    for entry in test.entries.as_slice() {
        put_entry(alloc, entry, line)?;
    }
    for expect in test.expects.as_slice() {
        put_expect(alloc, expect, line)?;
    }
    line.push(alloc, b')')
}

fn put_entry(alloc: Global, entry: &Entry, line: &mut Blob) -> Result<(), Memory> {
    match entry {
        Entry::Tick { count } => {
            let printed = format!(in alloc; " tick {count}")?;
            line.append(alloc, printed.as_bytes())
        }
        Entry::Event(event) => {
            line.append(alloc, b" event ")?;
            put_item(alloc, &Item::One(event.copy(alloc)?), line)
        }
    }
}

/// The name, and each item after a blank.
fn put_expect(alloc: Global, expect: &Expect, line: &mut Blob) -> Result<(), Memory> {
    line.append(alloc, b" expect ")?;
    put_quoted(alloc, &expect.name, line)?;
    for item in expect.items.as_slice() {
        line.push(alloc, b' ')?;
        put_item(alloc, item, line)?;
    }
    Ok(())
}
