ghost use Rattle.std.specs.Prelude.{◌≡◌, IfOk};
ghost use Rattle.command_serve.specs.Summaries.{summary_line};

use ev_types::{Memory, Text};
use std::alloc::Global;

/// What a load came to.
#[derive(Clone, Copy, PartialEq, Eq)]
pub(crate) struct Summary {
    /// The events that were sent.
    pub(crate) events: u64,
    /// The notices that the streams gave, or 2^64 - 1 where there are more.
    pub(crate) notices: u64,
    /// The reply frames that the client got.
    pub(crate) replies: u64,
    /// The events that are live at the end.
    pub(crate) live: u64,
}

impl Summary {
    /// The summary as a line.
    pub(crate) fn line(&self, alloc: Global) -> Result<Text, Memory>
        ensures { IfOk result (λ line. line ≡ summary_line self.now) }
    {
        let Summary {
            events,
            notices,
            replies,
            live,
        } = *self;
        Ok(Text::from_string(format!(in alloc;
            "events {events} notices {notices} replies {replies} live {live}\n"
        )?))
    }
}
