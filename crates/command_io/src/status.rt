ghost use Rattle.std.specs.Prelude.{◌≡◌};

/// How a call of `riemann` ended.
#[derive(Clone, Copy, Debug, PartialEq, Eq)]
pub enum Status {
    /// The command was carried out.
    Done,
    /// No command matches the arguments.
    Usage,
    /// The configuration was refused.
    Config,
    /// A file could not be read.
    ReadFault,
    /// A notice line or the result of the command could not be written. The line of the ending does not count.
    SinkFault,
    /// The links failed.
    LinkFault,
    /// Out of memory.
    Memory,
    /// The script was refused.
    Script,
    /// The file that was fed ends with bytes of no frame: an incomplete frame, or a length over the limit and what
    /// comes after it.
    Truncated,
    /// A file is longer than its limit.
    TooLong,
    /// Lines of the text that was converted were refused.
    Lines,
    /// The tests were refused.
    Tests,
    /// All tests were run, and one did not pass.
    Verdict,
    /// Requests are left without a reply, and no reply can come, or no turn is left.
    Unanswered,
    /// A reply came whole before its request was sent whole, or is not a message.
    BadReply,
    /// The file of the journal was refused: it may hold a journal where one is to be begun, or holds none that can be
    /// resumed.
    Journal,
    /// The disk failed.
    DiskFault,
}

impl Status {
    ghost use Rattle.command_io.specs.Endings.{code_of};

    /// The exit status of the program.
    pub fn code(self) -> u8
        ensures { result ≡ code_of self }
    {
        match self {
            Status::Done => 0,
            Status::Usage => 1,
            Status::Config => 2,
            Status::ReadFault => 3,
            Status::SinkFault => 4,
            Status::LinkFault => 5,
            Status::Memory => 6,
            Status::Script => 7,
            Status::Truncated => 8,
            Status::TooLong => 9,
            Status::Lines => 10,
            Status::Tests => 11,
            Status::Verdict => 12,
            Status::Unanswered => 13,
            Status::BadReply => 14,
            Status::Journal => 15,
            Status::DiskFault => 16,
        }
    }
}
