ghost use Rattle.recorded_links.specs.Laws.{CrashesLeaveTurns, LastTurnIsKept};

/// A crash at any moment leaves the first of the turns that were handed out, and a crash now all of them; then one more
/// at most, each whole.
pub fn crashes_leave_turns()
    ensures { CrashesLeaveTurns }
{}

/// The last turn that was handed out is on the disk when its lines and its replies go out, and so are those before it.
pub fn last_turn_is_kept()
    ensures { LastTurnIsKept }
{}
