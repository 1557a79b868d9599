//! What holds of journals and the bytes that hold them.

ghost use Rattle.journal_format.specs.Laws.{FilesHoldOrMisfit, JournalsAreOne, MisfitsAreOne, MisfitsHoldNone, PrefixesAreJournals};

/// A file holds one journal at most.
pub fn journals_are_one()
    ensures { JournalsAreOne }
{}

/// A file that does not fit at some place holds no journal.
pub fn misfits_hold_none()
    ensures { MisfitsHoldNone }
{}

/// A file holds a journal, or it does not fit at one place.
pub fn files_hold_or_misfit()
    ensures either { FilesHoldOrMisfit }
    ensures one { MisfitsAreOne }
{}

/// The bytes of a journal begin with those of each of its prefixes.
pub fn prefixes_are_journals()
    ensures { PrefixesAreJournals }
{}
