//! Maps that describe an event.

ghost use Rattle.std.specs.Prelude.{◌≡◌, [], IfOk, OnOk, None};
ghost use Rattle.std.specs.Option.{is_some};
ghost use Rattle.sexp_read.specs.Tree.{form_tree, form_trees};
ghost use Rattle.ev_types.specs.Names.{named_field};
ghost use Rattle.config_terms.specs.Code.{argument_in};
ghost use Rattle.config_terms.specs.Steps.{Gives, GivesAs};
ghost use Rattle.config_terms.specs.Arguments.{has_field};
ghost use Rattle.config_tests.specs.Events.{with_sets, with_tags, event_of};
ghost use Rattle.config_tests.specs.Grammar.{nothing, has_key};
ghost use Rattle.config_tests.specs.Maps.{key_of_field, key_in as key_of, key_at as key_from, new_key_at as new_key_from, tags_at as tags_from, with_part, described_from as described_in, described_at as described_from_form};

use config_terms::{
    Argument, ConfigFault, ConfigWhy, argument_of, field_of, first, is, map_at, refused, set_at,
    texts_at, unfit, vector_at,
};
use ev_types::{Event, Field, Memory, Sets, Tags, Text};
use sexp_read::Form;
use std::alloc::Global;

/// What a map says of an event.
#[derive(Drop)]
pub(crate) struct Described {
    /// Its fields, each once at most.
    sets: Sets,
    tags: Option<Tags>,
}

/// The key of an entry of a map.
#[derive(Drop)]
pub(crate) enum MapKey {
    Field(Field),
    Tags,
}

fn field_key(alloc: Global, name: &Text) -> Result<Option<MapKey>, Memory>
    ensures { IfOk result (λ key. key ≡ key_of_field (named_field name.now)) }
{
    match field_of(alloc, name)? {
        Some(field) => Ok(Some(MapKey::Field(field))),
        None => Ok(None),
    }
}

fn key_in(alloc: Global, argument: Argument<'_>) -> Result<Option<MapKey>, Memory>
    ensures { IfOk result (λ key. key ≡ key_of (argument_in argument.entry)) }
{
    match argument {
        Argument::Keyword(name) if is(name.as_bytes(), b"tags") => Ok(Some(MapKey::Tags)),
        Argument::Keyword(name) => field_key(alloc, name),
        _ => Ok(None),
    }
}

/// The key that the form is.
#[tactic(auto, unfolding(crate::specs::Maps::key_at))]
fn key_at(alloc: Global, form: &Form) -> Result<MapKey, ConfigFault>
    ensures { Gives result (key_from (form_tree form.now)) }
{
    let argument = argument_of(&[], form);
    match key_in(alloc, argument)? {
        Some(key) => Ok(key),
        None => Err(unfit(form, argument)),
    }
}

/// The tags in the vector that the form is.
#[tactic(auto, unfolding(crate::specs::Maps::tags_at))]
fn tags_at(alloc: Global, form: &Form) -> Result<Tags, ConfigFault>
    ensures { Gives result (tags_from (form_tree form.now)) }
{
    vector_at(&[], form)?;
    texts_at(alloc, &[], form)
}

fn has_field(field: &Field, sets: &Sets) -> bool
    ensures { result ≡ has_field field.now sets.now }
{
    sets.as_slice().iter().any(|set| is(set.field.name().as_bytes(), field.name().as_bytes()))
}

impl Described {
    fn fresh(alloc: Global) -> Described
        ensures { result ≡ nothing }
    {
        Described {
            sets: Sets::fresh(alloc),
            tags: None,
        }
    }

    /// Whether it says something of the field.
    pub(crate) fn has_field(&self, field: &Field) -> bool
        ensures { result ≡ has_field field.now self.now.sets }
    {
        has_field(field, &self.sets)
    }

    fn has_key(&self, key: &MapKey) -> bool
        ensures { result ≡ has_key key.now self.now }
    {
        match key {
            MapKey::Field(field) => self.has_field(field),
            MapKey::Tags => self.tags.is_some(),
        }
    }

    /// The key that the form is, where the map did not have it before.
    #[tactic(auto, using(config_terms::proofs::FormLaws::start_of_form), unfolding(crate::specs::Maps::new_key_at))]
    fn new_key_at(&self, alloc: Global, form: &Form) -> Result<MapKey, ConfigFault>
        ensures { Gives result (new_key_from self.now (form_tree form.now)) }
    {
        let key = key_at(alloc, form)?;
        if self.has_key(&key) {
            return Err(refused(form.start, ConfigWhy::Twice));
        }
        Ok(key)
    }

    /// Reads what the map says under the key.
    #[tactic(auto, unfolding(crate::specs::Maps::with_part))]
    fn read_part(&mut self, alloc: Global, key: MapKey, form: &Form) -> Result<(), ConfigFault>
        ensures { GivesAs (λ _. self.new) result (with_part self.old key (form_tree form.now)) }
    {
        match key {
            MapKey::Field(field) => {
                let set = set_at(alloc, &[], field, form)?;
                self.sets.push(alloc, set)?;
            }
            MapKey::Tags => self.tags = Some(tags_at(alloc, form)?),
        }
        Ok(())
    }

    /// The event that holds what is said, at the moment in seconds where nothing is said of its time.
    pub(crate) fn into_event(self, alloc: Global, moment: u32) -> Result<Event, Memory>
        ensures { IfOk result (λ event. event ≡ event_of moment self) }
    {
        let mut event = Event::at(alloc, i64::from(moment));
        set_all(alloc, &self.sets, &mut event)?;
        Ok(with_tags(event, self.tags))
    }
}

fn with_tags(event: Event, tags: Option<Tags>) -> Event
    ensures { result ≡ with_tags event tags }
{
    let mut event = event;
    match tags {
        Some(tags) => {
            event.tags = tags;
            event
        }
        None => event,
    }
}

fn set_all(alloc: Global, sets: &Sets, event: &mut Event) -> Result<(), Memory>
    ensures { OnOk result (event.new ≡ with_sets sets.now event.old) }
{
    let sets = sets.as_slice();
    for set in sets {
        event.set(alloc, &set.field, &set.value)?;
    }
    Ok(())
}

/// What the map says that starts at `place`.
#[tactic(auto, unfolding(crate::specs::Maps::described_from))]
fn described_from(alloc: Global, place: usize, entries: &[Form]) -> Result<Described, ConfigFault>
    ensures { Gives result (described_in place nothing (form_trees entries.now)) }
{
    let mut described = Described::fresh(alloc);
    let mut left = entries;
    'entries: while let Some((form, rest)) = first(left) {
        let key = described.new_key_at(alloc, form)?;
        let Some((part, later)) = first(rest) else {
            return Err(refused(place, ConfigWhy::Arguments));
        };
        described.read_part(alloc, key, part)?;
        left = later;
    }
    Ok(described)
}

/// What the map says that the form is.
#[tactic(auto, using(config_terms::proofs::FormLaws::start_of_form), unfolding(crate::specs::Maps::described_at))]
pub(crate) fn described_at(alloc: Global, form: &Form) -> Result<Described, ConfigFault>
    ensures { Gives result (described_from_form (form_tree form.now)) }
{
    let entries = map_at(&[], form)?;
    described_from(alloc, form.start, entries)
}
