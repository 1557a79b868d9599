//! What is answered of a text once its gap is filled.

use crate::block::{Block, Filling, Gap};
use crate::kinds::judge_row;
use crate::line::RowFault;
use crate::spelled::read_spelled;
use crate::tally::Tally;
use std::alloc::Global;

/// Puts each filling of the block into each gap.
pub fn judge_block(alloc: Global, block: &Block<'_>, tally: &mut Tally) -> Result<(), RowFault> {
    for gap in block.gaps.as_slice() {
        judge_all(alloc, block, *gap, block.common.as_slice(), tally)?;
        judge_all(alloc, block, *gap, block.fillings.as_slice(), tally)?;
    }
    Ok(())
}

fn judge_all(
    alloc: Global,
    block: &Block<'_>,
    gap: Gap<'_>,
    fillings: &[Filling<'_>],
    tally: &mut Tally,
) -> Result<(), RowFault> {
    for filling in fillings {
        match *filling {
            Filling::Misfit { text, why } => judge_misfit(
                alloc,
                block.around,
                gap,
                text,
                why,
                tally,
            )?,
            Filling::Fit { text } => judge_config(alloc, block.around, gap, text, "ok", tally)?,
            Filling::Part { text, canonical } => judge_part(
                alloc,
                block.heading,
                gap,
                (text, canonical),
                tally,
            )?,
        }
    }
    Ok(())
}

/// Whether the text is refused at the gap for the cause.
fn judge_misfit(
    alloc: Global,
    around: Gap<'_>,
    gap: Gap<'_>,
    text: &str,
    why: &str,
    tally: &mut Tally,
) -> Result<(), RowFault> {
    let front = format!(in alloc; "{}{}", around.before, gap.before)?;
    let place = read_spelled(alloc, front.as_str())?.len();
    let wanted = format!(in alloc; "config refused at {place}: {why}")?;
    judge_config(alloc, around, gap, text, wanted.as_str(), tally)
}

/// Whether this is said of the text as a configuration.
fn judge_config(
    alloc: Global,
    around: Gap<'_>,
    gap: Gap<'_>,
    text: &str,
    wanted: &str,
    tally: &mut Tally,
) -> Result<(), RowFault> {
    let asked = format!(in alloc;
        "{}{}{text}{}{}",
        around.before, gap.before, gap.after, around.after
    )?;
    judge_row(alloc, "config", asked.as_str(), wanted, &[], tally)
}

/// Whether the canonical text has the heading, and the canonical part in the gap.
fn judge_part(
    alloc: Global,
    heading: &str,
    gap: Gap<'_>,
    (text, canonical): (&str, &str),
    tally: &mut Tally,
) -> Result<(), RowFault> {
    let asked = format!(in alloc; "{}{text}{}@<0a>", gap.before, gap.after)?;
    let wanted = format!(in alloc; "{heading}@<0a>{}{canonical}{}@<0a>", gap.before, gap.after)?;
    judge_row(
        alloc,
        "written",
        asked.as_str(),
        wanted.as_str(),
        &[],
        tally,
    )
}
