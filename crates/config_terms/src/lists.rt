//! Vectors and maps of arguments.

ghost use Rattle.std.specs.Prelude.{◌≡◌, [], ◌∷◌, ◌&&◌, if◌then◌else◌, None, Ok};
ghost use Rattle.sexp_read.specs.Tree.{form_tree, form_trees};
ghost use Rattle.config_terms.specs.Steps.{Gives, GivesAs, each, onto, start_of};
ghost use Rattle.config_terms.specs.Code.{argument_in};
ghost use Rattle.config_terms.specs.Arguments.{text_at as text_from, field_at as field_from, texts_at as texts_from, one_field, some_fields, fields_at as fields_from, set_at as set_from, has_field, new_field_at as new_field_from, sets_from as sets_in, is_number, is_ttl_field, value_at as value_from, only_key_at as only_key_from, one_entry, is_idle_key, idle_number, idle_in};
ghost use Rattle.config_terms.specs.declared.fault.ConfigWhy.TheVariants.{Range, Arguments};
ghost use Rattle.config_terms.specs.Words.{init_text};

use crate::arguments::{
    Argument, argument_of, field_at, in_range, keyword_at, text_at, unfit, value_at,
};
use crate::forms::{first, pair_of, refused};
use crate::word::{is, same_field};
use crate::{Binding, ConfigFault, ConfigWhy};
use ev_types::{Field, Fields, Set, Sets, Text, Texts, Value, fits};
use sexp_read::Form;
use std::alloc::Global;

/// The texts of the vector that the form is, or the one text that it is. Any other argument is refused as [`unfit`]
/// says, and so is the first one in the vector that is not a text. `Memory`: out of memory.
#[tactic(auto, unfolding(crate::specs::Arguments::texts_at))]
pub fn texts_at(alloc: Global, env: &[Binding], form: &Form) -> Result<Texts, ConfigFault>
    ensures { Gives result (texts_from env.now (form_tree form.now)) }
{
    let argument = argument_of(env, form);
    match argument {
        Argument::Text(text) => one_text(alloc, text),
        Argument::Vector(forms) => texts_in(alloc, env, forms),
        _ => Err(unfit(form, argument)),
    }
}

fn one_text(alloc: Global, text: &Text) -> Result<Texts, ConfigFault>
    ensures { Gives result (Ok (text.now ∷ [])) }
{
    let mut texts = Texts::fresh(alloc);
    texts.push(alloc, text.copy(alloc)?)?;
    Ok(texts)
}

#[tactic(auto, unfolding(crate::specs::Steps::each))]
fn texts_in(alloc: Global, env: &[Binding], forms: &[Form]) -> Result<Texts, ConfigFault>
    ensures { Gives result (each (onto (text_from env.now)) [] (form_trees forms.now)) }
{
    let mut texts = Texts::fresh(alloc);
    let mut left = forms;
    'texts: while let Some((form, rest)) = first(left) {
        let text = text_at(alloc, env, form)?;
        texts.push(alloc, text)?;
        left = rest;
    }
    Ok(texts)
}

/// The fields of the vector that the form is, or the one field that it is. An empty vector is refused at its start
/// (Arguments). Any other argument is refused as [`unfit`] says, and so is the first one in the vector that is not a
/// field. `Memory`: out of memory.
#[tactic(auto, using(crate::proofs::FormLaws::start_of_form), unfolding(crate::specs::Arguments::fields_at))]
pub fn fields_at(alloc: Global, env: &[Binding], form: &Form) -> Result<Fields, ConfigFault>
    ensures { Gives result (fields_from env.now (form_tree form.now)) }
{
    match argument_of(env, form) {
        Argument::Vector(forms) => some_fields(alloc, env, form.start, forms),
        _ => one_field(alloc, env, form),
    }
}

fn one_field(alloc: Global, env: &[Binding], form: &Form) -> Result<Fields, ConfigFault>
    ensures { Gives result (one_field env.now (form_tree form.now)) }
{
    let field = field_at(alloc, env, form)?;
    let mut fields = Fields::fresh(alloc);
    fields.push(alloc, field)?;
    Ok(fields)
}

fn some_fields(
    alloc: Global,
    env: &[Binding],
    place: usize,
    forms: &[Form],
) -> Result<Fields, ConfigFault>
    ensures { Gives result (some_fields env.now place (form_trees forms.now)) }
{
    let fields = fields_in(alloc, env, forms)?;
    if fields.len() == 0 {
        return Err(refused(place, ConfigWhy::Arguments));
    }
    Ok(fields)
}

#[tactic(auto, unfolding(crate::specs::Steps::each))]
fn fields_in(alloc: Global, env: &[Binding], forms: &[Form]) -> Result<Fields, ConfigFault>
    ensures { Gives result (each (onto (field_from env.now)) [] (form_trees forms.now)) }
{
    let mut fields = Fields::fresh(alloc);
    let mut left = forms;
    'fields: while let Some((form, rest)) = first(left) {
        let field = field_at(alloc, env, form)?;
        fields.push(alloc, field)?;
        left = rest;
    }
    Ok(fields)
}

fn is_number(value: &Value) -> bool
    ensures { result ≡ is_number value.now }
{
    matches!(value, Value::Number(_))
}

/// The set of the field to the value that the form is. A form that is not a value is refused as [`unfit`] says. A value
/// that does not fit the field is refused at its start: for Range where it is a number and the field is the ttl, else
/// for Arguments. `Memory`: out of memory.
#[tactic(auto, using(crate::proofs::FormLaws::start_of_form), unfolding(crate::specs::Arguments::set_at))]
pub fn set_at(alloc: Global, env: &[Binding], field: Field, form: &Form) -> Result<Set, ConfigFault>
    ensures { Gives result (set_from env.now field (form_tree form.now)) }
{
    let value = value_at(alloc, env, form)?;
    if fits(&field, &value) {
        return Ok(Set { field, value });
    }
    Err(refused(form.start, unfit_value(&field, &value)))
}

/// For what a value is refused that does not fit the field.
fn unfit_value(field: &Field, value: &Value) -> ConfigWhy
    ensures { result ≡ (if is_ttl_field field.now && is_number value.now then Range else
        Arguments) }
{
    if matches!(field, Field::Ttl) && is_number(value) {
        ConfigWhy::Range
    } else {
        ConfigWhy::Arguments
    }
}

fn has_field(field: &Field, sets: &[Set]) -> bool
    ensures { result ≡ has_field field.now sets.now }
{
    sets.iter().any(|set| same_field(&set.field, field))
}

/// The field that a key names, where no set before it is of that field.
#[tactic(auto, using(crate::proofs::FormLaws::start_of_form), unfolding(crate::specs::Arguments::new_field_at))]
fn new_field_at(
    alloc: Global,
    env: &[Binding],
    sets: &Sets,
    key: &Form,
) -> Result<Field, ConfigFault>
    ensures { Gives result (new_field_from env.now sets.now (form_tree key.now)) }
{
    let field = field_at(alloc, env, key)?;
    if has_field(&field, sets.as_slice()) {
        return Err(refused(key.start, ConfigWhy::Twice));
    }
    Ok(field)
}

/// The sets of a map that starts at `place`: fields and values alternately. A field that comes again is refused at its
/// start (Twice), and one without a value at `place` (Arguments). A key that is not a field is refused as [`unfit`]
/// says, and a value as [`set_at`] says. `Memory`: out of memory.
#[tactic(auto, unfolding(crate::specs::Arguments::sets_from))]
pub fn sets_from(
    alloc: Global,
    place: usize,
    env: &[Binding],
    entries: &[Form],
) -> Result<Sets, ConfigFault>
    ensures { Gives result (sets_in place env.now [] (form_trees entries.now)) }
{
    let mut sets = Sets::fresh(alloc);
    let mut left = entries;
    'sets: while let Some((key, rest)) = first(left) {
        let field = new_field_at(alloc, env, &sets, key)?;
        let Some((form, later)) = first(rest) else {
            return Err(refused(place, ConfigWhy::Arguments));
        };
        let set = set_at(alloc, env, field, form)?;
        sets.push(alloc, set)?;
        left = later;
    }
    Ok(sets)
}

/// Refuses, at its start, a key that is not `wanted` (Arguments) and, where `twice` holds, one that is (Twice). A form
/// that is not a keyword is refused as [`unfit`] says.
#[tactic(auto, using(crate::proofs::FormLaws::start_of_form), unfolding(crate::specs::Arguments::only_key_at))]
pub fn only_key_at(
    env: &[Binding],
    wanted: &[u8],
    twice: bool,
    key: &Form,
) -> Result<(), ConfigFault>
    ensures { GivesAs (λ _. tt) result
        (only_key_from wanted.now twice env.now (form_tree key.now)) }
{
    let name = keyword_at(env, key)?;
    if !is(name.as_bytes(), wanted) {
        return Err(refused(key.start, ConfigWhy::Arguments));
    }
    if twice {
        return Err(refused(key.start, ConfigWhy::Twice));
    }
    Ok(())
}

/// The value of the one key, `:init`, of a map that starts at `place`. A map without the key, or with a key without a
/// value, is refused at `place` (Arguments). A key is refused as [`only_key_at`] says, and a form that is not a value
/// as [`unfit`] says. `Memory`: out of memory.
#[tactic(auto, unfolding(crate::specs::Arguments::one_entry))]
pub fn init_from(
    alloc: Global,
    place: usize,
    env: &[Binding],
    entries: &[Form],
) -> Result<Value, ConfigFault>
    ensures { Gives result (one_entry init_text value_from place env.now None
        (form_trees entries.now)) }
{
    let mut init = None;
    let mut left = entries;
    'entries: while let Some((key, rest)) = first(left) {
        only_key_at(env, b"init", init.is_some(), key)?;
        let Some((form, later)) = first(rest) else {
            return Err(refused(place, ConfigWhy::Arguments));
        };
        init = Some(value_at(alloc, env, form)?);
        left = later;
    }
    match init {
        Some(value) => Ok(value),
        None => Err(refused(place, ConfigWhy::Arguments)),
    }
}

/// The seconds in the map of a `by` that starts at `place`: exactly `:idle` and a number from 1 to `most`. Any other
/// map is refused at `place` (Arguments), and a number outside this range at its start (Range).
#[tactic(auto, unfolding(crate::specs::Arguments::idle_in))]
pub fn idle_from(
    place: usize,
    env: &[Binding],
    entries: &[Form],
    most: u32,
) -> Result<u32, ConfigFault>
    ensures { Gives result (idle_in most place env.now (form_trees entries.now)) }
{
    let Some((key, form)) = pair_of(entries) else {
        return Err(refused(place, ConfigWhy::Arguments));
    };
    if !is_idle_key(argument_of(env, key)) {
        return Err(refused(place, ConfigWhy::Arguments));
    }
    idle_number(place, form, argument_of(env, form), most)
}

fn is_idle_key(key: Argument<'_>) -> bool
    ensures { result ≡ is_idle_key (argument_in key.entry) }
{
    match key {
        Argument::Keyword(name) => is(name.as_bytes(), b"idle"),
        _ => false,
    }
}

#[tactic(auto, using(crate::proofs::FormLaws::start_of_form))]
fn idle_number(
    place: usize,
    form: &Form,
    argument: Argument<'_>,
    most: u32,
) -> Result<u32, ConfigFault>
    ensures { Gives result (idle_number most place (start_of (form_tree form.now))
        (argument_in argument.entry)) }
{
    match argument {
        Argument::Number(number) => in_range(form.start, number, 1, most),
        _ => Err(refused(place, ConfigWhy::Arguments)),
    }
}
