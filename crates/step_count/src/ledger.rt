ghost use Rattle.std.specs.Prelude.{◌≡◌, ℕ, ◌+◌, min, Option, Some, None};
ghost use Rattle.list_laws.specs.Counts.{greatest};
ghost use Rattle.step_count.specs.Count.{one_more};

/// Where steps are counted at run time. Its ghost members are what it counted, where that is known.
pub trait Ledger {
    ghost use Rattle.std.specs.Prelude.{ℕ, Option};

    /// How many forks it counted.
    ghost forks: { Self → Option ℕ };

    /// How many entries it counted.
    ghost entries: { Self → Option ℕ };

    /// Counts a fork. A count stays at its greatest number.
    fn fork(&mut self)
        ensures forks { forks self.new ≡ one_more (forks self.old) }
        ensures entries { entries self.new ≡ entries self.old };

    /// Counts an entry. A count stays at its greatest number.
    fn entry(&mut self)
        ensures forks { forks self.new ≡ forks self.old }
        ensures entries { entries self.new ≡ one_more (entries self.old) };
}

/// Counts nothing, and keeps nothing at run time.
#[derive(Clone, Copy, Debug, PartialEq, Eq)]
pub struct NoLedger;

impl Ledger for NoLedger {
    ghost forks = { λ _. None };

    ghost entries = { λ _. None };

    fn fork(&mut self) {}

    fn entry(&mut self) {}
}

/// Counts the forks that were entered and the entries that were visited. A count stays at its greatest number.
#[derive(Clone, Copy, Debug, PartialEq, Eq)]
pub struct CountLedger {
    pub forks: u64,
    pub entries: u64,
}

impl Ledger for CountLedger {
    ghost forks = { λ ledger. Some ledger.forks };

    ghost entries = { λ ledger. Some ledger.entries };

    fn fork(&mut self)
        ensures forks { self.new.forks ≡ min (self.old.forks + 1) greatest }
        ensures entries { self.new.entries ≡ self.old.entries }
    {
        self.forks = self.forks.saturating_add(1);
    }

    fn entry(&mut self)
        ensures forks { self.new.forks ≡ self.old.forks }
        ensures entries { self.new.entries ≡ min (self.old.entries + 1) greatest }
    {
        self.entries = self.entries.saturating_add(1);
    }
}
