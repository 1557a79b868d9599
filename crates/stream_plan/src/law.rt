//! What it means that a plan has no fault, and where paths lead.

ghost use Rattle.stream_plan.specs.Nesting.{SoundPlansEndOutermost};
ghost use Rattle.stream_plan.specs.Paths.{PathsLeadToStreams};
ghost use Rattle.stream_plan.specs.Sound.{SoundPlansHaveNoFault};

/// A plan has no fault exactly where it has at most 4,096 streams, at most 64 of them in a row from the top down, and
/// each has no streams but those that may follow it, its numbers and sets in their ranges, takes what its parent passes
/// on, and is no `By` with `idle` below another `By`.
pub fn sound_plans_have_no_fault()
    ensures { SoundPlansHaveNoFault }
{}

/// In a plan without faults, below a `By` each `By` is without `idle`, so that forks end only in streams that get every
/// tick.
pub fn sound_plans_end_outermost()
    ensures { SoundPlansEndOutermost }
{}

/// The numbers in the path of a stream lead to it from the top down: each counts the streams that follow the one above,
/// its children first.
pub fn paths_lead_to_their_streams()
    ensures { PathsLeadToStreams }
{}
