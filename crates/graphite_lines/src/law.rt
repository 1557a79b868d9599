//! What the frames of a text owe.

ghost use Rattle.graphite_lines.specs.Frames.{FramesAreReadBack};

/// The frames of a text are whole, and each is read again, at any moment, as the message that holds the event of its
/// line alone. The frames are in the order of the accepted lines.
pub fn frames_are_read_back()
    ensures { FramesAreReadBack }
{}
