use std::marker::Brand;

/// What was lent to links that resume a run, which proofs alone see. A call that passes [`Brand`] picks it.
pub trait JournalLoan {
    ghost use Rattle.journal_links.specs.Lending.{LentJournal};

    /// The links, the disk and the records of its journal, as they were lent.
    ghost lent: { LentJournal };
}

impl JournalLoan for Brand {
    ghost use Rattle.journal_links.specs.Lending.{no_journal};

    ghost lent = { no_journal };
}
