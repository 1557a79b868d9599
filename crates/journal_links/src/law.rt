//! What a crash leaves of the turns that were handed out.

ghost use Rattle.journal_links.specs.Turns.{BegunKeepsTurns, CloseKeepsTurns, ListenKeepsTurns, NextKeepsTurns, ResumedKeepsTurns, SendKeepsTurns};

/// A crash at any moment of a call leaves a journal that begins with the turns that were handed out before it. Once a
/// call has handed out a turn, every crash leaves one that has it too.
pub fn turns_are_kept()
    ensures listen { ListenKeepsTurns }
    ensures next { NextKeepsTurns }
    ensures send { SendKeepsTurns }
    ensures close { CloseKeepsTurns }
{}

/// So it is from the moment on at which a journal was begun or loaded.
pub fn journals_have_turns()
    ensures begun { BegunKeepsTurns }
    ensures resumed { ResumedKeepsTurns }
{}
