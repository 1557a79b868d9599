//! What is known of the forks of a table, as one small value.
ghost use Rattle.std.specs.Prelude.{◌≡◌, ◌+◌, ◌≤◌, ◌<◌, ◌++◌, ◌↔◌, [], length, unwrap_or, None, Some, IsTrue, IsOk, IfOk, IfSome, IfNone, OnOk, OnErr};
ghost use Rattle.std.specs.List.{All};
ghost use Rattle.ev_types.specs.Key.{event_key};
ghost use Rattle.list_laws.specs.Prefix.{IsPrefix};
ghost use Rattle.tick_schedule.specs.Queue.{IsLeast};
ghost use Rattle.fork_by.specs.Labels.{IsLive, number_of, index_at, last_moment_at, dues_set, due_numbers, dues_cleared, due_moments, AreSound, Adds, Touches, Drops, labels_in};

use crate::register::Register;
use ev_types::{Event, Fields, Key};
use list_laws::{Ids, Memory};
use std::alloc::Global;
use std::marker::Model;
use step_count::{Ledger, Steps};

/// The labels of the forks of a table, in the order in which these were added. What keeps them is in a box that is made
/// with the first fork, since most streams have no forks.
pub(crate) struct Labels {
    register: Option<Box<Register>>,
}

impl Drop for Labels {
    fn drop(self) {
        let Labels {
            register: _register,
        } = self;
    }
}

impl Model for Labels {
    ghost use Rattle.std.specs.Prelude.{List};
    ghost use Rattle.fork_by.specs.Labels.{Label, labels_in};

    ghost Value = { List Label };

    ghost view = { λ labels. labels_in labels.register };
}

impl Labels {
    /// The labels of no forks. It takes no memory.
    pub(crate) fn fresh() -> Labels
        ensures { result ≡ [] }
    {
        Labels { register: None }
    }

    /// The number of the key, if it has one.
    pub(crate) fn find(&self, key: &Key) -> Option<usize>
        ensures { result ≡ number_of key.now self.now }
    {
        match &self.register {
            Some(register) => register.find(key),
            None => None,
        }
    }

    /// The number of the key that is what the event holds in the fields, if it is found without the key.
    pub(crate) fn known(&self, event: &Event, fields: &Fields) -> Option<usize>
        ensures { IfSome result (λ number.
            number_of (event_key event.now fields.now) self.now ≡ Some number) }
    {
        match &self.register {
            Some(register) => register.known(event, fields),
            None => None,
        }
    }

    /// Notes the key of the number, for [`Labels::known`]. If memory runs out, it is not noted.
    pub(crate) fn note(&mut self, alloc: Global, number: usize)
        ensures { self.new ≡ self.old }
    {
        if let Some(register) = &mut self.register {
            register.note(alloc, number);
        }
    }

    /// Where the fork of the number is, and 0 where it has none.
    pub(crate) fn index(&self, number: usize) -> usize
        ensures { result ≡ unwrap_or (index_at number self.now) 0 }
    {
        match &self.register {
            Some(register) => register.index(number),
            None => 0,
        }
    }

    /// The moment of the last item of the fork of the number, and 0 where it has none.
    pub(crate) fn moment(&self, number: usize) -> u64
        ensures { result ≡ unwrap_or (last_moment_at number self.now) 0 }
    {
        match &self.register {
            Some(register) => register.moment(number),
            None => 0,
        }
    }

    /// Whether the number has a fork.
    pub(crate) fn is_live(&self, number: usize) -> bool
        ensures { IsTrue result ↔ IsLive number self.now }
    {
        match &self.register {
            Some(register) => register.is_live(number),
            None => false,
        }
    }

    /// Adds the label of a fork, and gives its number. If `now` is before the moment of another fork, no clause says
    /// which moment is kept.
    #[tactic(auto, using(crate::proofs::LabelLaws::sound_nothing))]
    pub(crate) fn add(&mut self, alloc: Global, key: Key, now: u64) -> Result<usize, Memory>
        requires { number_of key self.old ≡ None }
        ensures ok { IfOk result (λ number. Adds self.old self.new key number now) }
        ensures err { OnErr result (self.new ≡ self.old) }
        ensures sound { AreSound self.new }
    {
        if let Some(register) = &mut self.register {
            return add_noted(alloc, register, key, now);
        }
        let (register, number) = first_added(alloc, key, now)?;
        self.register = Some(register);
        Ok(number)
    }

    /// Sets the moment of the last item of the fork. If `now` is before the moment of another fork, no clause says
    /// which moment is kept.
    #[tactic(auto, using(crate::proofs::LabelLaws::sound_nothing))]
    pub(crate) fn touch(&mut self, number: usize, now: u64)
        requires { IsLive number self.old }
        ensures touched { Touches self.old self.new number now }
        ensures sound { AreSound self.new }
    {
        if let Some(register) = &mut self.register {
            register.touch(number, now);
        }
    }

    /// Removes the label of a fork whose moment is at or before `upto`, if there is one, and gives where the fork is.
    /// The last fork is to come there.
    #[tactic(auto, using(crate::proofs::LabelLaws::sound_nothing))]
    pub(crate) fn take_idle(&mut self, upto: u64) -> Option<usize>
        ensures none { IfNone result (self.new ≡ self.old) }
        ensures later { IfNone result (All (λ label. upto < label.moment) self.old) }
        ensures dropped { IfSome result (λ index. Drops self.old self.new upto index) }
        ensures sound { AreSound self.new }
    {
        let Some(register) = &mut self.register else {
            return None;
        };
        register.take_idle(upto)
    }

    /// Sets or clears the due moment of the fork. Clearing takes no memory.
    #[tactic(auto, using(crate::proofs::LabelLaws::sound_nothing))]
    pub(crate) fn set_due(
        &mut self,
        alloc: Global,
        number: usize,
        due: Option<u64>,
    ) -> Result<(), Memory>
        requires { IsLive number self.old }
        ensures ok { OnOk result (self.new ≡ dues_set number due self.old) }
        ensures clears { due ≡ None → IsOk result }
        ensures err { OnErr result (self.new ≡ self.old) }
        ensures sound { AreSound self.new }
    {
        let Some(register) = &mut self.register else {
            return Ok(());
        };
        register.set_due(alloc, number, due)
    }

    /// Appends the numbers of the forks that are due at or before the moment `now`, in the order of the labels, and
    /// clears their due moments. It counts one entry for each.
    #[tactic(auto, using(crate::proofs::LabelLaws::sound_nothing))]
    pub(crate) fn due_forks<G: Ledger>(
        &mut self,
        alloc: Global,
        now: u64,
        out: &mut Ids,
        steps: &mut Steps<G>,
    ) -> Result<(), Memory>
        ensures numbers { OnOk result (out.new ≡ out.old ++ due_numbers now self.old) }
        ensures later { OnOk result (self.new ≡ dues_cleared now self.old) }
        ensures entries { OnOk result (steps.new.entries
            ≡ steps.old.entries + length (due_numbers now self.old)) }

        // Where nothing is due it takes no memory.
        ensures quiet { due_numbers now self.old ≡ [] → IsOk result }
        ensures err { OnErr result (self.new ≡ self.old) }
        ensures sound { AreSound self.new }
        ensures prefix { OnErr result (IsPrefix out.old out.new) }
        ensures at_most { steps.new.entries
            ≤ steps.old.entries + length (due_numbers now self.old) }
        ensures at_least { steps.old.entries ≤ steps.new.entries }
        ensures forks { steps.new.forks ≡ steps.old.forks }
        ensures began { steps.new.began ≡ steps.old.began }
    {
        let Some(register) = &mut self.register else {
            return Ok(());
        };
        register.due_forks(alloc, now, out, steps)
    }

    /// The least due moment of a fork.
    pub(crate) fn next_due(&self) -> Option<u64>
        ensures { IsLeast (due_moments self.now) result }
    {
        match &self.register {
            Some(register) => register.next_due(),
            None => None,
        }
    }
}

/// The label of one fork, which is the first one, and its number.
fn first_added(alloc: Global, key: Key, now: u64) -> Result<(Box<Register>, usize), Memory>
    ensures added { IfOk result (λ made. Adds [] made.0.value key made.1 now) }
    ensures sound { IfOk result (λ made. AreSound made.0.value) }
{
    let mut register = Box::new(alloc, Register::fresh(alloc)?)?;
    let number = add_noted(alloc, &mut register, key, now)?;
    Ok((register, number))
}

/// Adds the label of a fork, notes its key, and gives its number.
fn add_noted(alloc: Global, register: &mut Register, key: Key, now: u64) -> Result<usize, Memory>
    requires { number_of key register.old ≡ None }
    ensures ok { IfOk result (λ number. Adds register.old register.new key number now) }
    ensures err { OnErr result (register.new ≡ register.old) }
    ensures sound { AreSound register.new }
{
    let number = register.add(alloc, key, now)?;
    register.note(alloc, number);
    Ok(number)
}
