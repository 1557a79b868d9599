//! A file of rows.

use crate::block::Block;
use crate::commands::judge_command;
use crate::events::{Named, read_event};
use crate::gaps::judge_block;
use crate::kinds::judge_row;
use crate::line::{RowFault, split_row};
use crate::reader::read_rows;
use crate::rising::{Rising, judge_rising};
use crate::row::{Field, Row};
use crate::tally::Tally;
use ev_types::Memory;
use std::alloc::Global;

/// Judges the rows of the text.
pub fn read_sheet(alloc: Global, text: &str, tally: &mut Tally) -> Result<(), Memory> {
    let rows = read_rows(alloc, text)?;
    read_blocks(alloc, rows.as_slice(), tally)
}

fn read_blocks<'a>(alloc: Global, rows: &'a [Row], tally: &mut Tally) -> Result<(), Memory> {
    let mut block: Block<'a> = Block::fresh(alloc);
    let mut named = Vec::new(alloc);
    for row in rows {
        if row.first("row").is_some() {
            let judged = judge_command(alloc, row, tally);
            tally.note(row.line, judged)?;
        } else {
            read_block(alloc, row, &mut block, &mut named, tally)?;
        }
    }
    Ok(())
}

/// Judges the rows of one line of a block, its rising values, and the fillings of its gaps.
fn read_block<'a>(
    alloc: Global,
    row: &'a Row,
    block: &mut Block<'a>,
    named: &mut Vec<Named>,
    tally: &mut Tally,
) -> Result<(), Memory> {
    if let Some(unread) = row.unread {
        tally.note(row.line, Err(RowFault::Unread(unread)))?;
    }
    let mut rising = Rising::fresh(alloc);
    for field in &row.fields {
        let read = read_line(alloc, field, block, named, &mut rising, tally);
        tally.note(field.line, read)?;
    }
    judge_rising(alloc, &rising, tally)?;
    let judged = judge_block(alloc, block, tally);
    block.clear();
    tally.note(row.line, judged)
}

/// Reads a line of the block, or compares what comes of a row of one line with what it wants.
fn read_line<'a>(
    alloc: Global,
    field: &'a Field,
    block: &mut Block<'a>,
    named: &mut Vec<Named>,
    rising: &mut Rising,
    tally: &mut Tally,
) -> Result<(), RowFault> {
    let (key, text) = (field.key.as_str(), field.text()?);
    if let Some(name) = key.strip_prefix("named ") {
        named.push(read_event(alloc, name, text)?)?;
        return Ok(());
    }
    if key == "rising" {
        return rising.push_value(alloc, text);
    }
    if key == "rising keys" {
        return rising.push_key(alloc, named.as_slice(), text);
    }
    if block.read_part(key, text)? {
        return Ok(());
    }
    let (asked, wanted) = split_row(text)?;
    judge_row(alloc, key, asked, wanted, named.as_slice(), tally)
}
