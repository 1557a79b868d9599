ghost use Rattle.std.specs.Prelude.{◌≡◌};

use std::fmt;
use thiserror::Error;

/// Why a line gives no event.
#[derive(Clone, Copy, Debug, PartialEq, Eq, Error)]
pub enum LineFault {
    /// The line is refused.
    #[error("line refused: {why}")]
    Refused { why: LineWhy },
    #[error("out of memory")]
    Memory,
}

/// For what a line is refused. The causes are looked for in this order.
#[derive(Clone, Copy, Debug, PartialEq, Eq)]
pub enum LineWhy {
    /// It has not exactly three words.
    Words,
    /// The first word has over 1,024 bytes, is not UTF-8, or has a control character of ASCII.
    Path,
    /// The second word is not a whole number of 64 signed bits. A point and zeros may follow its digits.
    Value,
    /// The third word is not 1 to 19 digits with a value of at most 2^63 - 1.
    Time,
}

impl LineWhy {
    ghost use Rattle.graphite_lines.specs.Names.{why_name};

    /// The name of the cause, in lower case.
    pub fn name(self) -> &'static str
        ensures { result.now ≡ why_name self }
    {
        match self {
            LineWhy::Words => "words",
            LineWhy::Path => "path",
            LineWhy::Value => "value",
            LineWhy::Time => "time",
        }
    }
}

impl fmt::Display for LineWhy {
    fn fmt<W: fmt::Write>(&self, f: &mut fmt::Formatter<W>) -> fmt::Result {
        let name = self.name();
        write!(f, "{name}")
    }
}
