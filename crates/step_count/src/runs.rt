//! What a ledger has counted after any steps.

ghost use Rattle.std.specs.Prelude.{◌≡◌, ◌+◌, count_by, min};
ghost use Rattle.list_laws.specs.Counts.{greatest};
ghost use Rattle.step_count.specs.Count.{more_by};
ghost use Rattle.step_count.specs.Runs.{is_fork, is_entry};

use crate::{CountLedger, Ledger, Steps};

/// One step.
#[derive(Clone, Copy, Debug, PartialEq, Eq)]
pub enum Step {
    /// A fork is entered.
    Fork,
    /// An entry is visited.
    Entry,
}

/// Counts the steps in order, each by the call for it.
pub fn count_all<G: Ledger>(counted: &mut Steps<G>, steps: &[Step])
    ensures forks { counted.new.forks ≡ counted.old.forks + count_by is_fork steps.now }
    ensures entries { counted.new.entries ≡ counted.old.entries + count_by is_entry steps.now }
    ensures forks_reported { G.forks counted.new.ledger
        ≡ more_by (count_by is_fork steps.now) (G.forks counted.old.ledger) }
    ensures entries_reported { G.entries counted.new.ledger
        ≡ more_by (count_by is_entry steps.now) (G.entries counted.old.ledger) }
{
    for step in steps {
        match step {
            Step::Fork => counted.enter_fork(),
            Step::Entry => counted.visit_entry(),
        }
    }
}

/// Counts the steps from zero on. What the ledger counted is what contracts see of the steps, up to the greatest number
/// of 64 bits.
pub fn count_from_zero(steps: &[Step]) -> Steps<CountLedger>
    ensures forks { result.forks ≡ count_by is_fork steps.now }
    ensures entries { result.entries ≡ count_by is_entry steps.now }
    ensures forks_reported { result.ledger.forks ≡ min result.forks greatest }
    ensures entries_reported { result.ledger.entries ≡ min result.entries greatest }
{
    let mut counted = Steps::fresh(CountLedger {
        forks: 0,
        entries: 0,
    });
    count_all(&mut counted, steps);
    counted
}
