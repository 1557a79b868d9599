ghost use Rattle.journal_run.specs.Crashes.{CrashesAreLoaded};

use journal_format::journals_are_one;

/// What is loaded after a crash begins with the journal in which turns were recorded, and has the first of them, all, or
/// all and one more. So it is after each further crash of a run that was resumed.
pub fn crashes_are_loaded()
    ensures { CrashesAreLoaded }
{
    journals_are_one();
}
