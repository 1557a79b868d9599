ghost use Rattle.std.specs.Prelude.{◌≡◌};
ghost use Rattle.command_io.specs.Endings.{status_of};

use crate::Status;
use sexp_config::ConfigWhy;

/// How a command ended, with the values that its line shows.
#[derive(Clone, Copy)]
pub enum Ending<'a> {
    /// It did all that it had to.
    Finished,
    ConfigRefused(ConfigRefusal),
    /// The file of the name could not be read.
    Unread { name: &'a str },
    /// The file of the name has more than `limit` bytes.
    OverLimit { name: &'a str, limit: u64 },
    /// It did all that it had to, and `count` bytes, at least one, were left after the last whole frame.
    BytesLeft { count: usize },
    /// A notice line or the result of the command could not be written. The line of the ending does not count.
    WriteFailed,
    /// The links failed.
    LinksFailed,
    /// The script was refused at the line of this number, from 1.
    ScriptRefused { line: u64 },
    OutOfMemory,
}

/// Why a configuration was refused.
#[derive(Clone, Copy)]
pub enum ConfigRefusal {
    /// The text is not a configuration, for this cause at the place.
    Refused { place: usize, why: ConfigWhy },
    /// The pattern of this number, from 0, was refused.
    Pattern { number: u32 },
}

impl<'a> Ending<'a> {
    /// The status of a command that ended so.
    pub fn status(self) -> Status
        ensures { result ≡ status_of self.entry }
    {
        match self {
            Ending::Finished => Status::Done,
            Ending::ConfigRefused(_) => Status::Config,
            Ending::Unread { .. } => Status::ReadFault,
            Ending::OverLimit { .. } => Status::TooLong,
            Ending::BytesLeft { .. } => Status::Truncated,
            Ending::WriteFailed => Status::SinkFault,
            Ending::LinksFailed => Status::LinkFault,
            Ending::ScriptRefused { .. } => Status::Script,
            Ending::OutOfMemory => Status::Memory,
        }
    }
}
