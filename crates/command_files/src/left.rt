ghost use Rattle.std.specs.Prelude.{◌≡◌, length, MatchOption};
ghost use Rattle.framing.specs.Frames.{HasFrame, after_frame, partial};

use framing::BODY_LIMIT;

/// The number of bytes after the last whole frame. Of each frame only the length is read.
#[tactic(auto, using(framing::proofs::FrameLaws::partial_at_frame, framing::proofs::FrameLaws::partial_at_none, framing::proofs::FrameLaws::after_frame_length))]
pub(crate) fn bytes_left(bytes: &[u8]) -> usize
    ensures { result ≡ length (partial bytes.now) }
{
    let mut rest = bytes;
    'frames: while let Some(next) = after_first(rest) {
        rest = next;
    }
    rest.len()
}

/// What follows the first frame, if that frame is whole and its body within the limit.
#[tactic(auto, unfolding(framing::specs::Frames::length_at))]
fn after_first(bytes: &[u8]) -> Option<&[u8]>
    ensures { MatchOption result (HasFrame bytes.now → ⊥)
        (λ rest. HasFrame bytes.now × (rest.now ≡ after_frame bytes.now)) }
{
    let (head, body) = bytes.split_first_chunk::<4>()?;
    let length = u32::from_be_bytes(*head);
    if length > BODY_LIMIT || body.len() < length as usize {
        return None;
    }
    Some(&body[length as usize..])
}
