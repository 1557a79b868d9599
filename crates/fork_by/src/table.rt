//! Forks by key.
ghost use Rattle.std.specs.Prelude.{◌≡◌, ℕ, ◌+◌, ◌<◌, ◌≤◌, ◌++◌, ◌↔◌, [], ◌∷◌, length, map, None, Some, slice_index_or, IsTrue, IfOk, IfSome, OnOk, OnErr, IsOk};
ghost use Rattle.std.specs.Borrow.{sem};
ghost use Rattle.ev_types.specs.Key.{event_key};
ghost use Rattle.list_laws.specs.Prefix.{IsPrefix};
ghost use Rattle.tick_schedule.specs.Queue.{IsLeast};
ghost use Rattle.fork_by.specs.Labels.{IsLatest, IsLive, number_of, label_at, due_numbers, due_moments};
ghost use Rattle.fork_by.specs.Table.{fork_labels, kept_forks, kept_number, kept_at, due_kept, kept_dues, place_of, HasFork, IsTable, LendsFork, fork_touched, fork_dated, fork_cleared, later_than, TakesFork};

use crate::labels::Labels;
use ev_types::{Event, Fields, Key, Memory};
use list_laws::Ids;
use std::alloc::Global;
use step_count::{Ledger, Steps};

/// Forks by key, in the order in which they were added, of which those are dropped whose last item is old. A fork has a
/// number, by which it is entered, the moment of its last item in seconds since 1970, and a due moment or none. The
/// number of a fork that was dropped may be given to another one.
pub struct ForkTable<F> {
    labels: Labels,
    // A label says where its fork is.
    forks: Vec<F>,
}

impl<F: Drop> Drop for ForkTable<F> {
    fn drop(self) {
        let ForkTable {
            labels: _labels,
            forks: _forks,
        } = self;
    }
}

impl<F: Drop> ForkTable<F> {
    /// The table of no forks. It takes no memory.
    pub fn fresh(alloc: Global) -> ForkTable<F>
        ensures labels { fork_labels result ≡ [] }
        ensures forks { kept_forks result ≡ [] }
        ensures table { IsTable result }
    {
        ForkTable {
            labels: Labels::fresh(),
            forks: Vec::new(alloc),
        }
    }

    /// How many forks there are.
    pub fn len(&self) -> usize
        ensures { IsTable self.now → result ≡ length (kept_forks self.now) }
    {
        self.forks.len()
    }

    /// The number of the key's fork. It takes no memory.
    pub fn find(&self, key: &Key) -> Option<usize>
        ensures label { result ≡ number_of key.now (fork_labels self.now) }
        ensures live { IfSome result (λ number. IsLive number (fork_labels self.now)) }
        ensures found { IsTable self.now → result ≡ kept_number key.now (kept_forks self.now) }
        ensures has { IsTable self.now → IfSome result (λ number. HasFork number self.now) }
    {
        self.labels.find(key)
    }

    /// The number of the fork whose key is what the event holds in the fields, if that is found without making the key.
    /// It finds the forks that were added or noted last. It takes no memory.
    pub fn known(&self, event: &Event, fields: &Fields) -> Option<usize>
        ensures label { IfSome result (λ number.
            number_of (event_key event.now fields.now) (fork_labels self.now) ≡ Some number) }
        ensures live { IfSome result (λ number. IsLive number (fork_labels self.now)) }
        ensures found { IsTable self.now → IfSome result (λ number.
            kept_number (event_key event.now fields.now) (kept_forks self.now) ≡ Some number) }
        ensures has { IsTable self.now → IfSome result (λ number. HasFork number self.now) }
    {
        self.labels.known(event, fields)
    }

    /// Notes the fork of the number, so that [`ForkTable::known`] finds it until others of like hashes are noted. If
    /// memory runs out, it is not noted.
    pub fn note(&mut self, alloc: Global, number: usize)
        ensures { self.new ≡ self.old }
    {
        self.labels.note(alloc, number);
    }

    /// Whether the number has a fork.
    pub fn contains(&self, number: usize) -> bool
        ensures { IsTrue result ↔ HasFork number self.now }
    {
        self.labels.is_live(number) && self.labels.index(number) < self.forks.len()
    }

    /// The moment of the last item of the number's fork. If the number has no fork, the answer means nothing.
    pub fn moment(&self, number: usize) -> u64
        ensures { IsTable self.now →
            IfSome (kept_at number (kept_forks self.now)) (λ kept. result ≡ kept.moment) }
    {
        self.labels.moment(number)
    }

    /// Adds a fork of a key that is not there, whose last item came at the moment `now`, without a due moment, and
    /// gives its number. If `now` is before the moment of another fork, no clause says which moment is kept.
    pub fn add(&mut self, alloc: Global, key: Key, fork: F, now: u64) -> Result<usize, Memory>
        requires { number_of key (fork_labels self.old) ≡ None }
        ensures vacant { IfOk result (λ number. label_at number (fork_labels self.old) ≡ None) }
        ensures ok { IfOk result (λ number. IsTable self.old → IsLatest now (fork_labels self.old) →
            kept_forks self.new ≡ kept_forks self.old ++ record {
              key = key;
              number = number;
              fork = fork;
              moment = now;
              due = None;
            } ∷ []) }
        ensures has { IfOk result (λ number. IsTable self.old → HasFork number self.new) }
        ensures others { (number : ℕ) → HasFork number self.old → HasFork number self.new }
        ensures table { IsTable self.old → IsTable self.new }
        ensures err { OnErr result (kept_forks self.new ≡ kept_forks self.old) }
    {
        self.forks.reserve(1)?;
        let number = self.labels.add(alloc, key, now)?;
        self.forks.push_reserved(fork);
        Ok(number)
    }

    /// Sets the moment of the last item of the fork. If `now` is before the moment of another fork, no clause says
    /// which moment is kept.
    pub fn touch(&mut self, number: usize, now: u64)
        requires { IsLive number (fork_labels self.old) }
        ensures touched { IsLatest now (fork_labels self.old) →
            kept_forks self.new ≡ map (fork_touched number now) (kept_forks self.old) }
        ensures has { (other : ℕ) → HasFork other self.old → HasFork other self.new }
        ensures table { IsTable self.old → IsTable self.new }
    {
        self.labels.touch(number, now);
    }

    /// Drops the forks whose last items came at or before the moment `upto`. It takes no memory.
    pub fn drop_idle(&mut self, upto: u64)
        ensures dropped { IsTable self.old →
            kept_forks self.new ≡ later_than upto (kept_forks self.old) }
        ensures table { IsTable self.old → IsTable self.new }
    {
        while let Some(index) = self.labels.take_idle(upto) {
            take_fork(&mut self.forks, index);
        }
    }

    /// The fork of the number, for writing. It counts one fork, and is the only way to a fork.
    pub fn enter<G: Ledger>(&mut self, number: usize, steps: &mut Steps<G>) -> &mut F
        requires { HasFork number self.old }
        ensures* writes_back { sem 𝓛 (LendsFork F.row self.entry number result) }
        ensures value { result.now
            ≡ slice_index_or self.old.forks.items (place_of number self.old) result.now }
        ensures kept { IsTable self.old →
            IfSome (kept_at number (kept_forks self.old)) (λ kept. result.now ≡ kept.fork) }
        ensures forks { steps.new.forks ≡ steps.old.forks + 1 }
        ensures entries { steps.new.entries ≡ steps.old.entries }
        ensures began { steps.new.began ≡ steps.old.began }
    {
        steps.enter_fork();
        let place = self.labels.index(number);
        &mut self.forks[place]
    }

    /// Sets or clears the due moment of the fork. Clearing takes no memory.
    pub fn set_due(&mut self, alloc: Global, number: usize, due: Option<u64>) -> Result<(), Memory>
        requires { IsLive number (fork_labels self.old) }
        ensures ok { OnOk result (kept_forks self.new
            ≡ map (fork_dated number due) (kept_forks self.old)) }
        ensures clears { due ≡ None → IsOk result }
        ensures err { OnErr result (kept_forks self.new ≡ kept_forks self.old) }
        ensures has { (other : ℕ) → HasFork other self.old → HasFork other self.new }
        ensures table { IsTable self.old → IsTable self.new }
    {
        self.labels.set_due(alloc, number, due)?;
        Ok(())
    }

    /// Appends the numbers of the forks that are due at or before the moment `now`, in the order in which these were
    /// added, and clears their due moments. It counts one entry for each.
    pub fn due_forks<G: Ledger>(
        &mut self,
        alloc: Global,
        now: u64,
        out: &mut Ids,
        steps: &mut Steps<G>,
    ) -> Result<(), Memory>
        ensures numbers { OnOk result (out.new
            ≡ out.old ++ due_numbers now (fork_labels self.old)) }
        ensures later { OnOk result (kept_forks self.new
            ≡ map (fork_cleared now) (kept_forks self.old)) }
        ensures entries { OnOk result (steps.new.entries
            ≡ steps.old.entries + length (due_numbers now (fork_labels self.old))) }

        ensures kept { IsTable self.old → due_numbers now (fork_labels self.old)
            ≡ due_kept now (kept_forks self.old) }

        // Where nothing is due it takes no memory.
        ensures quiet { due_numbers now (fork_labels self.old) ≡ [] → IsOk result }
        ensures err { OnErr result (kept_forks self.new ≡ kept_forks self.old) }
        ensures prefix { OnErr result (IsPrefix out.old out.new) }
        ensures at_most { steps.new.entries ≤ steps.old.entries + length
            (due_numbers now (fork_labels self.old)) }
        ensures at_least { steps.old.entries ≤ steps.new.entries }
        ensures forks { steps.new.forks ≡ steps.old.forks }
        ensures began { steps.new.began ≡ steps.old.began }
        ensures has { (other : ℕ) → HasFork other self.old → HasFork other self.new }
        ensures table { IsTable self.old → IsTable self.new }
    {
        self.labels.due_forks(alloc, now, out, steps)?;
        Ok(())
    }

    /// The least due moment of a fork.
    pub fn next_due(&self) -> Option<u64>
        ensures label { IsLeast (due_moments (fork_labels self.now)) result }
        ensures kept { IsTable self.now → IsLeast (kept_dues (kept_forks self.now)) result }
    {
        self.labels.next_due()
    }
}

/// Drops the fork at the index. The last one comes there.
fn take_fork<F: Drop>(forks: &mut Vec<F>, index: usize)
    ensures { TakesFork forks.old.items forks.new.items index }
{
    if index < forks.len() {
        forks.swap_remove(index);
    }
}
