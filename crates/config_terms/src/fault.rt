ghost use Rattle.std.specs.Prelude.{◌≡◌};
ghost use Rattle.config_terms.specs.Names.{why_name};
ghost use Rattle.config_terms.specs.declared.fault.ConfigFault.TheVariants.{Memory as out_of_memory};

use ev_types::Memory;
use std::alloc::AllocFailed;
use thiserror::Error;

/// Why a configuration was not read.
#[derive(Clone, Copy, Debug, PartialEq, Eq, Error)]
pub enum ConfigFault {
    /// The text is refused at `place`, counted in bytes from its start.
    #[error("config refused at {place}: {why}")]
    Refused { place: usize, why: ConfigWhy },
    /// Out of memory.
    #[error("out of memory")]
    Memory,
}

/// For what a text is refused. The first eight are those of texts that are not forms.
#[derive(Clone, Copy, Debug, PartialEq, Eq, Error)]
pub enum ConfigWhy {
    /// The text has more than 1,048,576 bytes.
    #[error("long")]
    Long,
    /// The text is not UTF-8 from the place on.
    #[error("utf8")]
    Utf8,
    /// A bracket, string or pattern that begins at the place is unclosed at the end of the text.
    #[error("open")]
    Open,
    /// A closing bracket where no bracket is open, or the innermost open one is of another kind.
    #[error("close")]
    Close,
    /// A run of bytes that is not a number, a keyword or a symbol, or a `#` without a quote after it.
    #[error("token")]
    Token,
    /// A run of bytes that begins as a number and is not one of 64 signed bits.
    #[error("number")]
    Number,
    /// A backslash in a string, before a byte with which it is not an escape.
    #[error("escape")]
    Escape,
    /// More than 64 brackets are open at once.
    #[error("deep")]
    Deep,
    /// A form of a kind that is not allowed at the place.
    #[error("form")]
    Form,
    /// An argument that does not fit, or a form that lacks one.
    #[error("arguments")]
    Arguments,
    /// A number outside its range.
    #[error("range")]
    Range,
    /// A symbol that is bound to nothing, and is not a word of its place.
    #[error("name")]
    Name,
    /// A form, key or field that may come once comes again.
    #[error("twice")]
    Twice,
    /// Stream number 4,097.
    #[error("many")]
    Many,
    /// A stream that does not take what its parent passes on.
    #[error("kind")]
    Kind,
}

impl ConfigWhy {
    /// The name of the cause, in lower case, as the texts of refusals have it.
    #[tactic(auto, unfolding(crate::specs::Names::why_name))]
    pub fn name(self) -> &'static str
        ensures { result.now ≡ why_name self }
    {
        match self {
            ConfigWhy::Long => "long",
            ConfigWhy::Utf8 => "utf8",
            ConfigWhy::Open => "open",
            ConfigWhy::Close => "close",
            ConfigWhy::Token => "token",
            ConfigWhy::Number => "number",
            ConfigWhy::Escape => "escape",
            ConfigWhy::Deep => "deep",
            ConfigWhy::Form => "form",
            ConfigWhy::Arguments => "arguments",
            ConfigWhy::Range => "range",
            ConfigWhy::Name => "name",
            ConfigWhy::Twice => "twice",
            ConfigWhy::Many => "many",
            ConfigWhy::Kind => "kind",
        }
    }
}

impl From<Memory> for ConfigFault {
    ghost from_gives = { λ _ fault. fault ≡ out_of_memory };

    fn from(_memory: Memory) -> ConfigFault {
        ConfigFault::Memory
    }
}

impl<T: Drop> From<AllocFailed<T>> for ConfigFault {
    ghost from_gives = { λ _ fault. fault ≡ out_of_memory };

    fn from(_failed: AllocFailed<T>) -> ConfigFault {
        ConfigFault::Memory
    }
}
