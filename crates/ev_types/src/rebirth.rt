ghost use Rattle.std.specs.Prelude.{◌≡◌, ◌≤◌, ◌^◌, ℕ, [], pos, IfOk, OnOk, if◌then◌else◌};
ghost use Rattle.std.specs.List.{list_any};
ghost use Rattle.ev_types.specs.Set.{event_at};
ghost use Rattle.ev_types.specs.Rebirth.{names, names_tags, kept_of, kept_attributes, attribute_key, has_key, with_kept, with_key, expired_copy};

use crate::event::{copy_option, copy_tags};
use crate::field::last_value;
use crate::{Attr, Attrs, Event, Field, KeepKey, KeepKeys, Memory, Tags, Text};
use std::alloc::Global;

const EXPIRED: &str = "expired";

impl Event {
    /// The event as it comes again once it has expired, in memory of its own: the fields that are kept, and the tags
    /// where they are, with the state "expired" and the time `now`, in seconds since 1970, at most 2^40. All else is
    /// absent, so naming the state or the time keeps nothing. Kept attributes that have a value come once each, in
    /// the order of `keep`.
    pub fn reborn(&self, alloc: Global, keep: &KeepKeys, now: u64) -> Result<Event, Memory>
        requires { now ≤ 2 ^ 40 }
        ensures { IfOk result (λ event. event ≡ expired_copy keep.now self.now now) }
    {
        let mut reborn = Event::at(alloc, now as i64);
        self.keep_into(alloc, keep.as_slice(), &mut reborn)?;
        Ok(reborn)
    }

    // Makes an event that holds nothing but its time this one as it comes again at that time.
    fn keep_into(&self, alloc: Global, keep: &[KeepKey], reborn: &mut Event) -> Result<(), Memory>
        requires { reborn.old ≡ event_at reborn.old.time }
        ensures { OnOk result ((now : ℕ) → reborn.old.time ≡ pos now →
            reborn.new ≡ expired_copy keep.now self.now now) }
    {
        reborn.ttl = kept_number(keep, &Field::Ttl, self.ttl);
        reborn.metric = kept_number(keep, &Field::Metric, self.metric);
        reborn.host = kept_text(alloc, keep, &Field::Host, &self.host)?;
        reborn.service = kept_text(alloc, keep, &Field::Service, &self.service)?;
        reborn.state = Some(Text::from_str(alloc, EXPIRED)?);
        reborn.description = kept_text(alloc, keep, &Field::Description, &self.description)?;
        reborn.tags = kept_tags(alloc, keep, &self.tags)?;
        reborn.attributes = self.kept_attributes(alloc, keep)?;
        Ok(())
    }

    fn kept_attributes(&self, alloc: Global, keep: &[KeepKey]) -> Result<Attrs, Memory>
        ensures { IfOk result (λ attributes. attributes ≡ kept_attributes keep.now self.now) }
    {
        let mut kept = Attrs::fresh(alloc);
        for key in keep {
            self.keep_attribute(alloc, key, &mut kept)?;
        }
        Ok(kept)
    }

    // Adds the attribute that the key names, where it names one.
    fn keep_attribute(&self, alloc: Global, key: &KeepKey, kept: &mut Attrs) -> Result<(), Memory>
        ensures { OnOk result (kept.new ≡ with_key self.now (attribute_key key.now) kept.old) }
    {
        if let KeepKey::Field(Field::Attribute(key)) = key {
            self.keep_once(alloc, key, kept)?;
        }
        Ok(())
    }

    // Adds the attribute of this key, where the event has a value there and none of the key was kept before.
    fn keep_once(&self, alloc: Global, key: &Text, kept: &mut Attrs) -> Result<(), Memory>
        ensures { OnOk result (kept.new ≡ with_kept self.now key.now kept.old) }
    {
        if has_key(key, kept.as_slice()) {
            return Ok(());
        }
        if let Some(value) = last_value(self.attributes.as_slice(), key) {
            kept.push(alloc, Attr::of(alloc, key, value)?)?;
        }
        Ok(())
    }
}

fn has_key(key: &Text, attributes: &[Attr]) -> bool
    ensures { result ≡ has_key key.now attributes.now }
{
    attributes.iter().any(|attribute| attribute.key == *key)
}

fn kept_text(
    alloc: Global,
    keep: &[KeepKey],
    field: &Field,
    held: &Option<Text>,
) -> Result<Option<Text>, Memory>
    ensures { IfOk result (λ text. text ≡ kept_of field.now keep.now held.now) }
{
    if keeps(keep, field) {
        copy_option(alloc, held)
    } else {
        Ok(None)
    }
}

fn kept_number<N: Copy>(keep: &[KeepKey], field: &Field, held: Option<N>) -> Option<N>
    ensures { result ≡ kept_of field.now keep.now held }
{
    if keeps(keep, field) { held } else { None }
}

fn kept_tags(alloc: Global, keep: &[KeepKey], tags: &Tags) -> Result<Tags, Memory>
    ensures { IfOk result (λ kept. kept ≡ (if list_any names_tags keep.now then tags.now else
        [])) }
{
    if keeps_tags(keep) {
        copy_tags(alloc, tags)
    } else {
        Ok(Tags::fresh(alloc))
    }
}

fn keeps(keep: &[KeepKey], field: &Field) -> bool
    ensures { result ≡ list_any (names field.now) keep.now }
{
    keep.iter().any(|key| key.names(field))
}

fn keeps_tags(keep: &[KeepKey]) -> bool
    ensures { result ≡ list_any names_tags keep.now }
{
    keep.iter().any(|key| key.names_tags())
}

impl KeepKey {
    fn names(&self, field: &Field) -> bool
        ensures { result ≡ names field.now self.now }
    {
        match self {
            KeepKey::Field(named) => named == field,
            KeepKey::Tags => false,
        }
    }

    fn names_tags(&self) -> bool
        ensures { result ≡ names_tags self.now }
    {
        match self {
            KeepKey::Field(_) => false,
            KeepKey::Tags => true,
        }
    }
}
