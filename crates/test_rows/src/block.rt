//! Blocks of texts with a gap, and of what is put into each gap.

use crate::line::{RowFault, split_row};
use std::alloc::Global;

/// A text with a gap: what is before it, and what is after it.
#[derive(Clone, Copy)]
pub struct Gap<'a> {
    pub before: &'a str,
    pub after: &'a str,
}

/// What is put into a gap, and what is wanted then.
#[derive(Clone, Copy)]
pub enum Filling<'a> {
    /// It is refused at its first byte for the cause.
    Misfit { text: &'a str, why: &'a str },
    /// The text is a configuration.
    Fit { text: &'a str },
    /// The canonical text of the configuration has the second in its place.
    Part { text: &'a str, canonical: &'a str },
}

/// The lines of a block. Those of `around`, `heading` and `common` are for each block after them, too.
pub struct Block<'a> {
    pub around: Gap<'a>,
    pub heading: &'a str,
    pub common: Vec<Filling<'a>>,
    pub gaps: Vec<Gap<'a>>,
    pub fillings: Vec<Filling<'a>>,
}

impl<'a> Drop for Block<'a> {
    fn drop(self) {
        let Block {
            around: _around,
            heading: _heading,
            common: _common,
            gaps: _gaps,
            fillings: _fillings,
        } = self;
    }
}

/// The text with its gap, which is written `<>`.
fn read_gap(text: &str) -> Result<Gap<'_>, RowFault> {
    let (before, after) = text.split_once("<>").ok_or(RowFault::Unreadable)?;
    Ok(Gap { before, after })
}

fn misfit(text: &str) -> Result<Filling<'_>, RowFault> {
    let (text, why) = split_row(text)?;
    Ok(Filling::Misfit { text, why })
}

fn part(text: &str) -> Result<Filling<'_>, RowFault> {
    let (text, canonical) = split_row(text)?;
    Ok(Filling::Part { text, canonical })
}

impl<'a> Block<'a> {
    pub fn fresh(alloc: Global) -> Block<'a> {
        Block {
            around: Gap {
                before: "",
                after: "",
            },
            heading: "",
            common: Vec::new(alloc),
            gaps: Vec::new(alloc),
            fillings: Vec::new(alloc),
        }
    }

    /// Reads a line of a block, where it is one.
    pub fn read_part(&mut self, key: &str, text: &'a str) -> Result<bool, RowFault> {
        match key {
            "around" => self.around = read_gap(text)?,
            "heading" => self.heading = text,
            "gap" => self.gaps.push(read_gap(text)?)?,
            "common" => self.common.push(misfit(text)?)?,
            _ => return self.read_filling(key, text),
        }
        Ok(true)
    }

    /// Reads a line that says what is put into the gaps, where it is one.
    fn read_filling(&mut self, key: &str, text: &'a str) -> Result<bool, RowFault> {
        let filling = match key {
            "misfit" => misfit(text)?,
            "fit" => Filling::Fit { text },
            "part" => part(text)?,
            "same" => Filling::Part {
                text,
                canonical: text,
            },
            _ => return Ok(false),
        };
        self.fillings.push(filling)?;
        Ok(true)
    }

    /// Leaves out what is for this block alone.
    pub fn clear(&mut self) {
        self.gaps.clear();
        self.fillings.clear();
    }
}
