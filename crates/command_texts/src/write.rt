//! Writing what a text is converted to.

ghost use Rattle.std.specs.Prelude.{◌≡◌};
ghost use Rattle.command_io.specs.Endings.{IsRefusalOrMemory};
ghost use Rattle.command_texts.specs.Writing.{Writes};

use command_io::{Status, put_all};
use ev_types::Blob;
use ports::Sink;

/// What a text is converted to.
#[derive(Drop)]
pub(crate) struct Converted {
    /// The frames of its accepted lines.
    pub(crate) frames: Blob,
    /// The lines that say which of its lines are refused.
    pub(crate) refused: Blob,
}

/// Writes the frames to `out`, and then the lines of those that are refused to `err`.
pub(crate) fn write_converted<O: Sink, E: Sink>(
    made: &Converted,
    out: &mut O,
    err: &mut E,
) -> Status
    ensures ends { Writes made.now.frames made.now.refused (O.report out.old) (O.report out.new)
        (E.report err.old) (E.report err.new) result }
    ensures untouched { IsRefusalOrMemory result → out.new ≡ out.old }
    ensures no_line { result ≡ Status.Done → err.new ≡ err.old }
{
    let Ok(()) = put_all(out, made.frames.as_slice()) else {
        return Status::SinkFault;
    };
    if made.refused.len() == 0 {
        return Status::Done;
    }
    match put_all(err, made.refused.as_slice()) {
        Ok(()) => Status::Lines,
        Err(_) => Status::SinkFault,
    }
}
