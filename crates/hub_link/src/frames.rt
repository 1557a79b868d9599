ghost use Rattle.std.specs.Prelude.{◌≡◌, IfOk};
ghost use Rattle.msg_replies.specs.Arriving.{reported};
ghost use Rattle.hub_link.specs.Answering.{AnswersFirst, AnswersFrames, AreTaken, missing_bytes};

use crate::unsent::Unsent;
use ev_types::{Memory, Notices};
use frame_link::{FirstFrame, first_frame};
use msg_replies::Spare;
use msg_replies::event_core::Core;
use pred_eval::Patterns;
use std::alloc::Global;
use step_count::{Ledger, Steps};

/// Answers the messages of the whole frames that the bytes begin with, in order. The answer is how many bytes these
/// frames have. `spare` is memory that messages are read into.
pub(crate) fn answer_frames<P: Patterns, G: Ledger>(
    alloc: Global,
    bytes: &[u8],
    unsent: &mut Unsent,
    spare: &mut Spare,
    core: &mut Core,
    patterns: &mut P,
    notices: &mut Notices,
    steps: &mut Steps<G>,
) -> Result<usize, Memory>
    ensures frames { AnswersFrames bytes.now unsent.old unsent.new core.old core.new
        (P.report patterns.old) (P.report patterns.new) (reported notices.old steps.old.forks)
        (reported notices.new steps.new.forks) result }
    ensures taken { IfOk result (λ taken. AreTaken bytes.now taken) }
{
    let mut taken = 0;
    'frames: loop {
        let rest = &bytes[taken..];
        match answer_first(alloc, rest, unsent, spare, core, patterns, notices, steps)? {
            Some(size) => taken += size,
            None => return Ok(taken),
        }
    }
}

/// Answers the message of the frame that the bytes begin with, if it is whole. The answer is how many bytes it has.
fn answer_first<P: Patterns, G: Ledger>(
    alloc: Global,
    bytes: &[u8],
    unsent: &mut Unsent,
    spare: &mut Spare,
    core: &mut Core,
    patterns: &mut P,
    notices: &mut Notices,
    steps: &mut Steps<G>,
) -> Result<Option<usize>, Memory>
    ensures { AnswersFirst bytes.now unsent.old unsent.new core.old core.new
        (P.report patterns.old) (P.report patterns.new) (reported notices.old steps.old.forks)
        (reported notices.new steps.new.forks) result }
{
    match first_frame(bytes) {
        FirstFrame::Whole(body) => {
            unsent.append_reply(alloc, body, spare, core, patterns, notices, steps)?;
            Ok(Some(4 + body.len()))
        }
        FirstFrame::NotYet => Ok(None),
        FirstFrame::TooLong { .. } => Ok(None),
    }
}

/// How many bytes the first frame lacks, or its length, if that is not whole; 0 if the frame is whole.
#[tactic(auto, unfolding(framing::specs::Frames::length_at))]
pub(crate) fn missing_bytes(bytes: &[u8]) -> usize
    ensures { result ≡ missing_bytes bytes.now }
{
    let Some((head, body)) = bytes.split_first_chunk::<4>() else {
        return 4 - bytes.len();
    };
    let length = u32::from_be_bytes(*head) as usize;
    length.saturating_sub(body.len())
}
