ghost use Rattle.std.specs.Prelude.{◌≡◌, ◌<◌, length, MatchOption};
ghost use Rattle.framing.specs.Frames.{HasFrame, after_frame, frames_of};

use framing::BODY_LIMIT;

/// How many whole frames the bytes begin with.
#[tactic(auto, using(crate::proofs::LoadLemmas::counted_more, crate::proofs::LoadLemmas::bytes_fewer, framing::proofs::FrameLaws::frames_at_none))]
pub(crate) fn count_frames(bytes: &[u8]) -> u64
    ensures { result ≡ length (frames_of bytes.now) }
{
    let mut count = 0;
    let mut rest = bytes;
    'frames: loop {
        let Some(after) = after_frame(rest) else {
            return count;
        };
        rest = after;
        count += 1;
    }
}

/// What follows the first frame, where the bytes begin with a whole one.
#[tactic(auto, unfolding(framing::specs::Frames::length_at))]
fn after_frame(bytes: &[u8]) -> Option<&[u8]>
    ensures { MatchOption result (HasFrame bytes.now → ⊥)
        (λ after. HasFrame bytes.now × (after.now ≡ after_frame bytes.now)) }
{
    let (head, body) = bytes.split_first_chunk::<4>()?;
    let length = u32::from_be_bytes(*head);
    if length > BODY_LIMIT || body.len() < length as usize {
        return None;
    }
    Some(&body[length as usize..])
}
