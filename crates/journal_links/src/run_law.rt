ghost use Rattle.journal_links.specs.Laws.{CallsArePassed, LastTurnIsKept, TurnsAreRecorded};

/// The turns of the journal were handed out again, in order, and those after them were recorded in it. What a crash
/// leaves follows by [`recorded_links::crashes_leave_turns`].
pub fn turns_are_recorded()
    ensures { TurnsAreRecorded }
{}

/// Which calls were made of the inner links, while turns of the journal were left and after them.
pub fn calls_are_passed()
    ensures { CallsArePassed }
{}

/// The last turn that was handed out is on the disk when its lines and its replies go out, and so are those before it.
pub fn last_turn_is_kept()
    ensures { LastTurnIsKept }
{}
