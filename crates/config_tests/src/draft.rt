//! The entries of a test.

ghost use Rattle.std.specs.Prelude.{◌≡◌, ◌+◌, ◌≤◌, [], IfOk, OnOk, Ok};
ghost use Rattle.sexp_read.specs.Tree.{form_tree, form_trees};
ghost use Rattle.config_terms.specs.Steps.{Gives, GivesAs, each, onto};
ghost use Rattle.config_tests.specs.Words.{entry_word as entry_word_of};
ghost use Rattle.config_tests.specs.Grammar.{has_expect};
ghost use Rattle.config_tests.specs.Entries.{no_entries, passed, posted, expected, count_at as count_from, timed, timed_at as timed_from, some_timed, item_at as item_from, with_tick, with_event, with_expect, entry_by, with_entry};

use crate::entry::{Entries, Entry, Expect, Expects, Test};
use crate::map::{Described, described_at};
use crate::word::{EntryWord, entry_word};
use config_terms::{
    Argument, ConfigFault, ConfigWhy, View, argument, argument_of, at_most, first, is, later,
    ranged_at, refused, text_at, view_of,
};
use ev_types::{Event, Events, Field, Item, Items, Memory, Text};
use sexp_read::Form;
use std::alloc::Global;

/// The most seconds that pass in one tick. The least is 1.
pub const MAX_TICK: u32 = 86_400;

/// The most seconds that pass in one test.
pub const MAX_SECONDS: u32 = 1_000_000;

/// What was read of a test so far.
#[derive(Drop)]
pub(crate) struct Draft {
    /// The seconds that passed.
    moment: u32,
    entries: Entries,
    expects: Expects,
}

impl Draft {
    /// A test of which nothing is read yet. It takes no memory.
    pub(crate) fn fresh(alloc: Global) -> Draft
        ensures { result ≡ no_entries }
    {
        Draft {
            moment: 0,
            entries: Entries::fresh(alloc),
            expects: Expects::fresh(alloc),
        }
    }

    /// The test of this name that has the entries.
    pub(crate) fn into_test(self, name: Text) -> Test
        ensures { result ≡ record { name = name; entries = self.entries; expects = self.expects } }
    {
        Test {
            name,
            entries: self.entries,
            expects: self.expects,
        }
    }

    fn pass(&mut self, alloc: Global, count: u32) -> Result<(), Memory>
        requires { self.old.moment + count ≤ MAX_SECONDS }
        ensures { OnOk result (self.new ≡ passed count self.old) }
    {
        self.entries.push(alloc, Entry::Tick { count })?;
        self.moment += count;
        Ok(())
    }

    fn post(&mut self, alloc: Global, event: Event) -> Result<(), Memory>
        ensures { OnOk result (self.new ≡ posted event self.old) }
    {
        self.entries.push(alloc, Entry::Event(event))?;
        Ok(())
    }

    fn expect(&mut self, alloc: Global, name: Text, items: Items<Item>) -> Result<(), Memory>
        ensures { OnOk result (self.new ≡ expected name items self.old) }
    {
        self.expects.push(alloc, Expect { name, items })?;
        Ok(())
    }

    fn has_expect(&self, name: &Text) -> bool
        ensures { result ≡ has_expect name.now self.now.expects }
    {
        self.expects
            .as_slice()
            .iter()
            .any(|expect| is(expect.name.as_bytes(), name.as_bytes()))
    }

    /// Reads what follows `tick`, in a list that starts at `start`.
    #[tactic(auto, unfolding(crate::specs::Entries::with_tick))]
    fn read_tick(&mut self, alloc: Global, start: usize, forms: &[Form]) -> Result<(), ConfigFault>
        ensures { GivesAs (λ _. self.new) result
            (with_tick start (form_trees forms.now) self.old) }
    {
        let count = count_at(self.moment, argument(start, 0, forms)?)?;
        at_most(1, forms)?;
        self.pass(alloc, count)?;
        Ok(())
    }

    /// Reads what follows `event`, in a list that starts at `start`.
    #[tactic(auto, unfolding(crate::specs::Entries::with_event))]
    fn read_event(&mut self, alloc: Global, start: usize, forms: &[Form]) -> Result<(), ConfigFault>
        ensures { GivesAs (λ _. self.new) result
            (with_event start (form_trees forms.now) self.old) }
    {
        let described = described_at(alloc, argument(start, 0, forms)?)?;
        at_most(1, forms)?;
        let event = described.into_event(alloc, self.moment)?;
        self.post(alloc, event)?;
        Ok(())
    }

    /// Reads what follows `expect`, in a list that starts at `start`.
    #[tactic(auto, unfolding(crate::specs::Entries::with_expect))]
    fn read_expect(
        &mut self,
        alloc: Global,
        start: usize,
        forms: &[Form],
    ) -> Result<(), ConfigFault>
        ensures { GivesAs (λ _. self.new) result
            (with_expect start (form_trees forms.now) self.old) }
    {
        let name = text_at(alloc, &[], argument(start, 0, forms)?)?;
        if self.has_expect(&name) {
            return Err(refused(start, ConfigWhy::Twice));
        }
        let items = items_in(alloc, later(forms, 1))?;
        self.expect(alloc, name, items)?;
        Ok(())
    }

    /// Reads the entry that the name begins, in a list that starts at `start`.
    #[tactic(auto, unfolding(crate::specs::Entries::entry_by))]
    fn read_call(
        &mut self,
        alloc: Global,
        name: &Text,
        start: usize,
        forms: &[Form],
    ) -> Result<(), ConfigFault>
        ensures { GivesAs (λ _. self.new) result
            (entry_by (entry_word_of name.now) start (form_trees forms.now) self.old) }
    {
        match entry_word(name) {
            Some(EntryWord::Tick) => self.read_tick(alloc, start, forms),
            Some(EntryWord::Event) => self.read_event(alloc, start, forms),
            Some(EntryWord::Expect) => self.read_expect(alloc, start, forms),
            None => Err(refused(start, ConfigWhy::Form)),
        }
    }

    /// Reads the entry that the form is.
    #[tactic(auto, using(config_terms::proofs::FormLaws::start_of_form))]
    fn read_entry(&mut self, alloc: Global, form: &Form) -> Result<(), ConfigFault>
        ensures { GivesAs (λ _. self.new) result (with_entry self.old (form_tree form.now)) }
    {
        match view_of(form) {
            View::Call(name, forms) => self.read_call(alloc, name, form.start, forms),
            _ => Err(refused(form.start, ConfigWhy::Form)),
        }
    }
}

/// What the forms say as entries of a test, one after another.
#[tactic(auto, unfolding(config_terms::specs::Steps::each))]
pub(crate) fn entries_in(alloc: Global, forms: &[Form]) -> Result<Draft, ConfigFault>
    ensures { Gives result (each with_entry no_entries (form_trees forms.now)) }
{
    let mut draft = Draft::fresh(alloc);
    let mut left = forms;
    'entries: while let Some((form, rest)) = first(left) {
        draft.read_entry(alloc, form)?;
        left = rest;
    }
    Ok(draft)
}

/// The number of seconds that the form is, where they pass after `moment` others.
#[tactic(auto, using(config_terms::proofs::FormLaws::start_of_form), unfolding(crate::specs::Entries::count_at))]
fn count_at(moment: u32, form: &Form) -> Result<u32, ConfigFault>
    ensures gives { Gives result (count_from moment (form_tree form.now)) }
    ensures within { IfOk result (λ count. moment + count ≤ MAX_SECONDS) }
{
    let count = ranged_at(&[], form, 1, MAX_TICK)?;
    if u64::from(moment) + u64::from(count) > u64::from(MAX_SECONDS) {
        return Err(refused(form.start, ConfigWhy::Range));
    }
    Ok(count)
}

/// The event that is expected, of which the form says the time.
#[tactic(auto, using(config_terms::proofs::FormLaws::start_of_form), unfolding(crate::specs::Entries::timed_at))]
fn timed_at(alloc: Global, form: &Form) -> Result<Event, ConfigFault>
    ensures { Gives result (timed_from (form_tree form.now)) }
{
    let described = described_at(alloc, form)?;
    timed(alloc, form.start, described)
}

fn timed(alloc: Global, place: usize, described: Described) -> Result<Event, ConfigFault>
    ensures { Gives result (timed place described) }
{
    if !described.has_field(&Field::Time) {
        return Err(refused(place, ConfigWhy::Arguments));
    }
    Ok(described.into_event(alloc, 0)?)
}

#[tactic(auto, unfolding(config_terms::specs::Steps::each))]
fn events_in(alloc: Global, forms: &[Form]) -> Result<Events, ConfigFault>
    ensures { Gives result (each (onto timed_from) [] (form_trees forms.now)) }
{
    let mut events = Events::fresh(alloc);
    let mut left = forms;
    'events: while let Some((form, rest)) = first(left) {
        let event = timed_at(alloc, form)?;
        events.push(alloc, event)?;
        left = rest;
    }
    Ok(events)
}

/// The events in a vector that starts at `place`, of which there is one at least.
fn some_events(alloc: Global, place: usize, forms: &[Form]) -> Result<Events, ConfigFault>
    ensures { Gives result (some_timed place (form_trees forms.now)) }
{
    let events = events_in(alloc, forms)?;
    if events.len() == 0 {
        return Err(refused(place, ConfigWhy::Arguments));
    }
    Ok(events)
}

/// The item that is expected.
#[tactic(auto, using(config_terms::proofs::FormLaws::start_of_form), unfolding(crate::specs::Entries::item_at))]
fn item_at(alloc: Global, form: &Form) -> Result<Item, ConfigFault>
    ensures { Gives result (item_from (form_tree form.now)) }
{
    match argument_of(&[], form) {
        Argument::Vector(forms) => Ok(Item::Many(some_events(alloc, form.start, forms)?)),
        _ => Ok(Item::One(timed_at(alloc, form)?)),
    }
}

#[tactic(auto, unfolding(config_terms::specs::Steps::each))]
fn items_in(alloc: Global, forms: &[Form]) -> Result<Items<Item>, ConfigFault>
    ensures { Gives result (each (onto item_from) [] (form_trees forms.now)) }
{
    let mut items = Items::fresh(alloc);
    let mut left = forms;
    'items: while let Some((form, rest)) = first(left) {
        let item = item_at(alloc, form)?;
        items.push(alloc, item)?;
        left = rest;
    }
    Ok(items)
}
