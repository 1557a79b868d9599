use crate::LineWhy;
use ev_types::Items;

/// A line of a text that is refused.
#[derive(Clone, Copy, Debug, PartialEq, Eq)]
pub struct BadLine {
    /// The number of the line, from 1.
    pub line: u64,
    pub why: LineWhy,
}

/// A list of refused lines, by rising number.
pub type BadLines = Items<BadLine>;
