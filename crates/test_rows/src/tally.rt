//! What is found of the rows of a file.

use crate::line::RowFault;
use crate::spelled::put_spelled;
use ev_types::Memory;
use std::alloc::Global;
use std::fmt::{Display, Write};
use std::io;

/// How many rows there are and differ, and a report of those that do.
pub struct Tally {
    pub rows: u64,
    pub differ: u64,
    pub report: String,
}

impl Drop for Tally {
    fn drop(self) {
        let Tally {
            rows: _rows,
            differ: _differ,
            report: _report,
        } = self;
    }
}

impl Tally {
    pub fn fresh(alloc: Global) -> Tally {
        Tally {
            rows: 0,
            differ: 0,
            report: String::new(alloc),
        }
    }

    /// Counts a row of this kind that asks this, and reports it where what came is not what is wanted.
    pub fn judge(
        &mut self,
        kind: &str,
        asked: &str,
        wanted: &[u8],
        came: &[u8],
    ) -> Result<(), Memory> {
        let length = self.report.len();
        self.compare(kind, asked, wanted, came)?;
        self.count(length);
        Ok(())
    }

    /// Counts a row, which differs where the report is no longer as long as before it.
    pub fn count(&mut self, length: usize) {
        self.rows = self.rows.saturating_add(1);
        if self.report.len() != length {
            self.differ = self.differ.saturating_add(1);
        }
    }

    /// Reports what came of `asked` where it is not what is wanted.
    pub fn compare<T: Display + Copy>(
        &mut self,
        kind: T,
        asked: &str,
        wanted: &[u8],
        came: &[u8],
    ) -> Result<(), Memory> {
        if wanted == came {
            return Ok(());
        }
        write!(self.report, "{kind}: {asked}\n  wanted ")?;
        put_spelled(&mut self.report, wanted)?;
        self.report.push_str("\n  came   ")?;
        put_spelled(&mut self.report, came)?;
        self.report.push_str("\n")?;
        Ok(())
    }

    /// Counts and reports the line, where it cannot be read.
    pub fn note(&mut self, line: u64, read: Result<(), RowFault>) -> Result<(), Memory> {
        match read {
            Ok(()) => Ok(()),
            Err(RowFault::Unreadable) => self.refuse(line, "it is not a row of its kind"),
            Err(RowFault::Unread(unread)) => self.refuse(unread.line, unread.why),
            Err(RowFault::Memory) => Err(Memory),
        }
    }

    fn refuse(&mut self, line: u64, why: &str) -> Result<(), Memory> {
        let length = self.report.len();
        write!(self.report, "line {line} cannot be read: {why}\n")?;
        self.count(length);
        Ok(())
    }

    /// Prints the report, and how many rows of the file of this name there are and differ.
    pub fn print<R: Print>(&self, rt: &R, name: &str) -> io::Result<()> {
        let (report, rows, differ) = (self.report.as_str(), self.rows, self.differ);
        if rows == 0 {
            return println!(rt; "{report}{name}: no rows");
        }
        println!(rt; "{report}{name}: {rows} rows, {differ} differ")
    }
}
