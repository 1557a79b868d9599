ghost use Rattle.std.specs.Prelude.{◌≡◌, ℕ, ◌+◌, length, Some};
ghost use Rattle.step_count.specs.Count.{StepCount, IsCounted, more_by, noted_in, one_more};

use crate::Ledger;
use http_server::Log;
use std::marker::Model;

/// How many forks were entered and how many entries were visited. Contracts see both numbers, which take no memory
/// and no time when the program runs: what is counted then is up to the ledger. What the ledger has counted at any time
/// is what it had counted when the count began, and the steps since.
#[derive(Drop)]
pub struct Steps<G: Ledger> {
    ledger: G,

    // A `Log` is a ghost list, which has no bytes when the program runs. Two have one element a step, and one has the
    // ledger as it was when the count began.
    forks: Log<(), ()>,
    entries: Log<(), ()>,
    began: Log<G, ()>,
}

impl<G: Ledger> Model for Steps<G> {
    ghost Value = { StepCount G };

    ghost view = { λ steps. record {
      forks = length steps.forks.items;
      entries = length steps.entries.items;
      ledger = steps.ledger;
      began = noted_in steps.began.items;
    } };

    ghost invariant = { λ steps. IsCounted G.forks G.entries (record {
      forks = length steps.forks.items;
      entries = length steps.entries.items;
      ledger = steps.ledger;
      began = noted_in steps.began.items;
    }) };
}

impl<G: Ledger> Steps<G> {
    /// No steps so far.
    pub fn fresh(ledger: G) -> Steps<G>
        ensures forks { result.forks ≡ 0 }
        ensures entries { result.entries ≡ 0 }
        ensures ledger { result.ledger ≡ ledger }
        ensures began { result.began ≡ Some ledger }
    {
        let began = Log::new().and(&ledger, &());
        Steps {
            ledger,
            forks: Log::new(),
            entries: Log::new(),
            began,
        }
    }

    /// Counts that a fork was entered, once with the ledger too.
    pub fn enter_fork(&mut self)
        ensures forks { self.new.forks ≡ self.old.forks + 1 }
        ensures entries { self.new.entries ≡ self.old.entries }
        ensures began { self.new.began ≡ self.old.began }
        ensures forks_reported { G.forks self.new.ledger ≡ one_more (G.forks self.old.ledger) }
        ensures entries_reported { G.entries self.new.ledger ≡ G.entries self.old.ledger }
    {
        self.forks = self.forks.and(&(), &());
        self.ledger.fork();
    }

    /// Counts that an entry was visited, once with the ledger too.
    pub fn visit_entry(&mut self)
        ensures forks { self.new.forks ≡ self.old.forks }
        ensures entries { self.new.entries ≡ self.old.entries + 1 }
        ensures began { self.new.began ≡ self.old.began }
        ensures forks_reported { G.forks self.new.ledger ≡ G.forks self.old.ledger }
        ensures entries_reported { G.entries self.new.ledger
            ≡ one_more (G.entries self.old.ledger) }
    {
        self.entries = self.entries.and(&(), &());
        self.ledger.entry();
    }

    /// The ledger that counts the steps too.
    pub fn ledger(&self) -> &G
        ensures ledger { result.now ≡ self.now.ledger }
        ensures counted { IsCounted G.forks G.entries self.now }
    {
        &self.ledger
    }

    /// Between two moments of one count the ledger counted the steps between them.
    pub fn counts_between(&self, later: &Steps<G>)
        ensures forks { later.now.began ≡ self.now.began → (n : ℕ) →
            later.now.forks ≡ n + self.now.forks →
            G.forks later.now.ledger ≡ more_by n (G.forks self.now.ledger) }
        ensures entries { later.now.began ≡ self.now.began → (n : ℕ) →
            later.now.entries ≡ n + self.now.entries →
            G.entries later.now.ledger ≡ more_by n (G.entries self.now.ledger) }
    {
        let _ = &self.ledger;
        let _ = &later.ledger;
    }
}
