ghost use Rattle.std.specs.Prelude.{◌≡◌};
ghost use Rattle.sexp_read.specs.Names.{why_name};
ghost use Rattle.sexp_read.specs.declared.fault.SexpFault.TheVariants.{Memory as out_of_memory};

use ev_types::Memory;
use std::alloc::AllocFailed;
use thiserror::Error;

/// Why a text was not read.
#[derive(Clone, Copy, Debug, PartialEq, Eq, Error)]
pub enum SexpFault {
    /// The text is refused at `place`, counted in bytes from its start.
    #[error("text refused at {place}: {why}")]
    Refused { place: usize, why: SexpWhy },
    /// Out of memory.
    #[error("out of memory")]
    Memory,
}

/// For what a text is refused.
#[derive(Clone, Copy, Debug, PartialEq, Eq, Error)]
pub enum SexpWhy {
    /// The text has more than 1,048,576 bytes.
    #[error("long")]
    Long,
    /// The text is not UTF-8 from the place on.
    #[error("utf8")]
    Utf8,
    /// A bracket, string or pattern that begins at the place is unclosed at the end of the text.
    #[error("open")]
    Open,
    /// A closing bracket where no bracket is open, or the innermost open one is of another kind.
    #[error("close")]
    Close,
    /// A run of bytes that is not a number, a keyword or a symbol, or a `#` without a quote after it.
    #[error("token")]
    Token,
    /// A run of bytes that begins as a number and is not one of 64 signed bits.
    #[error("number")]
    Number,
    /// A backslash in a string, before a byte with which it is not an escape.
    #[error("escape")]
    Escape,
    /// More than 64 brackets are open at once.
    #[error("deep")]
    Deep,
}

impl SexpWhy {
    /// The name of the cause, in lower case, as the texts of refusals have it.
    #[tactic(auto, unfolding(crate::specs::Names::why_name))]
    pub fn name(self) -> &'static str
        ensures { result.now ≡ why_name self }
    {
        match self {
            SexpWhy::Long => "long",
            SexpWhy::Utf8 => "utf8",
            SexpWhy::Open => "open",
            SexpWhy::Close => "close",
            SexpWhy::Token => "token",
            SexpWhy::Number => "number",
            SexpWhy::Escape => "escape",
            SexpWhy::Deep => "deep",
        }
    }
}

impl From<Memory> for SexpFault {
    ghost from_gives = { λ _ fault. fault ≡ out_of_memory };

    fn from(_memory: Memory) -> SexpFault {
        SexpFault::Memory
    }
}

impl<T: Drop> From<AllocFailed<T>> for SexpFault {
    ghost from_gives = { λ _ fault. fault ≡ out_of_memory };

    fn from(_failed: AllocFailed<T>) -> SexpFault {
        SexpFault::Memory
    }
}
