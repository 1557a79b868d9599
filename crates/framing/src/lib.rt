//! What the frames of a stream of bytes are: a length of four big-endian bytes, then that many bytes of body.
#![tactic(auto)]

ghost use Rattle.std.specs.Prelude.{◌≡◌};
ghost use Rattle.framing.specs.Frames.{FramesAreFound, FramesAreOne};
ghost use Rattle.framing.specs.Limits.{body_limit};
ghost use Rattle.framing.specs.declared.TheConstants.{BODY_LIMIT};

/// The most bytes that the body of a frame may have.
pub const BODY_LIMIT: u32 = 4_194_304;

/// The frames and the partial frame that the definitions compute are those of the stream, and no other split of
/// the stream is one into whole frames and a partial one.
pub fn frames_are_one()
    ensures found { FramesAreFound }
    ensures one { FramesAreOne }
{}

/// The limits of the code are the numbers that the definitions name.
pub fn limits_are_numbers()
    ensures body { BODY_LIMIT ≡ body_limit }
{}
