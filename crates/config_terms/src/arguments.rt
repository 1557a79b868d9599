//! Arguments, and what fits in their places.

ghost use Rattle.std.specs.Prelude.{◌≡◌, ◌≤◌, option_copied, IfOk};
ghost use Rattle.std.specs.Option.{option_map};
ghost use Rattle.sexp_read.specs.Tree.{form_tree, form_trees};
ghost use Rattle.config_terms.specs.Steps.{Gives, GivesAs, start_of};
ghost use Rattle.config_terms.specs.Arguments.{bound_value, argument_of as argument_from, bound_argument as bound_from, misfit as misfit_of, text_in, keyword_in, number_in, vector_in, map_in, field_in, value_in, text_at as text_from, keyword_at as keyword_from, number_at as number_from, ranged, ranged_at as ranged_from, field_at as field_from, value_at as value_from, vector_at as vector_from, map_at as map_from};
ghost use Rattle.config_terms.specs.Code.{argument_in};

use crate::forms::refused;
use crate::word::{field_of, is};
use crate::{Binding, Bound, ConfigFault, ConfigWhy};
use ev_types::{Field, Memory, Text, Value};
use sexp_read::{Form, Shape};
use std::alloc::Global;

/// An argument, where a bound symbol is its value.
#[derive(Clone, Copy)]
pub enum Argument<'a> {
    Text(&'a Text),
    Pattern(&'a Text),
    Number(i64),
    Keyword(&'a Text),
    /// The stream that writes the index, as the value of a name.
    Index,
    /// A symbol that is bound to nothing.
    Unbound(&'a Text),
    List(&'a [Form]),
    Vector(&'a [Form]),
    Map(&'a [Form]),
}

/// What the name is bound to.
pub fn value_of<'a>(env: &'a [Binding], name: &Text) -> Option<&'a Bound>
    ensures { option_copied result ≡ bound_value name.now env.now }
{
    let mut outer = env;
    while let Some((binding, front)) = outer.split_last() {
        if binding.name == *name {
            return Some(&binding.value);
        }
        outer = front;
    }
    None
}

fn bound_argument<'a>(env: &'a [Binding], name: &'a Text) -> Argument<'a>
    ensures { argument_in result ≡ bound_from name.now (bound_value name.now env.now) }
{
    match value_of(env, name) {
        None => Argument::Unbound(name),
        Some(Bound::Text(text)) => Argument::Text(text),
        Some(Bound::Pattern(text)) => Argument::Pattern(text),
        Some(Bound::Number(number)) => Argument::Number(*number),
        Some(Bound::Keyword(key)) => Argument::Keyword(key),
        Some(Bound::Index) => Argument::Index,
    }
}

/// The argument that the form is.
#[tactic(auto, unfolding(crate::specs::Arguments::argument_of))]
pub fn argument_of<'a>(env: &'a [Binding], form: &'a Form) -> Argument<'a>
    ensures { argument_in result ≡ argument_from env.now (form_tree form.now) }
{
    match &form.shape {
        Shape::Text(text) => Argument::Text(text),
        Shape::Pattern(text) => Argument::Pattern(text),
        Shape::Number(number) => Argument::Number(*number),
        Shape::Keyword(key) => Argument::Keyword(key),
        Shape::Symbol(name) => bound_argument(env, name),
        Shape::List(forms) => Argument::List(forms),
        Shape::Vector(forms) => Argument::Vector(forms),
        Shape::Map(forms) => Argument::Map(forms),
    }
}

/// For what the argument is refused where it does not fit.
pub(crate) fn misfit(argument: Argument<'_>) -> ConfigWhy
    ensures { result ≡ misfit_of (argument_in argument.entry) }
{
    match argument {
        Argument::Index | Argument::List(_) => ConfigWhy::Form,
        Argument::Unbound(_) => ConfigWhy::Name,
        _ => ConfigWhy::Arguments,
    }
}

/// The refusal of the argument, placed at the start of its form. The cause is Form for a list or the stream that writes
/// the index, Name for a symbol that is bound to nothing, and Arguments for any other argument.
#[tactic(auto, using(crate::proofs::FormLaws::start_of_form))]
pub fn unfit(form: &Form, argument: Argument<'_>) -> ConfigFault
    ensures { result ≡ ConfigFault.Refused (start_of (form_tree form.now))
        (misfit_of (argument_in argument.entry)) }
{
    refused(form.start, misfit(argument))
}

fn text_in(argument: Argument<'_>) -> Option<&Text>
    ensures { option_copied result ≡ text_in (argument_in argument.entry) }
{
    match argument {
        Argument::Text(text) => Some(text),
        _ => None,
    }
}

fn keyword_in(argument: Argument<'_>) -> Option<&Text>
    ensures { option_copied result ≡ keyword_in (argument_in argument.entry) }
{
    match argument {
        Argument::Keyword(key) => Some(key),
        _ => None,
    }
}

fn number_in(argument: Argument<'_>) -> Option<i64>
    ensures { result ≡ number_in (argument_in argument.entry) }
{
    match argument {
        Argument::Number(number) => Some(number),
        _ => None,
    }
}

fn vector_in(argument: Argument<'_>) -> Option<&[Form]>
    ensures { option_map (λ forms. form_trees forms.now) result
        ≡ vector_in (argument_in argument.entry) }
{
    match argument {
        Argument::Vector(forms) => Some(forms),
        _ => None,
    }
}

fn map_in(argument: Argument<'_>) -> Option<&[Form]>
    ensures { option_map (λ forms. form_trees forms.now) result
        ≡ map_in (argument_in argument.entry) }
{
    match argument {
        Argument::Map(forms) => Some(forms),
        _ => None,
    }
}

fn field_in(alloc: Global, argument: Argument<'_>) -> Result<Option<Field>, Memory>
    ensures { IfOk result (λ field. field ≡ field_in (argument_in argument.entry)) }
{
    match argument {
        Argument::Keyword(key) => field_of(alloc, key),
        _ => Ok(None),
    }
}

fn value_in(alloc: Global, argument: Argument<'_>) -> Result<Option<Value>, Memory>
    ensures { IfOk result (λ value. value ≡ value_in (argument_in argument.entry)) }
{
    match argument {
        Argument::Text(text) => Ok(Some(Value::Text(text.copy(alloc)?))),
        Argument::Number(number) => Ok(Some(Value::Number(number))),
        Argument::Unbound(name) if is(name.as_bytes(), b"nil") => Ok(Some(Value::Nil)),
        _ => Ok(None),
    }
}

/// The text that the form is. Any other argument is refused as [`unfit`] says. `Memory`: out of memory.
#[tactic(auto, unfolding(crate::specs::Arguments::text_at))]
pub fn text_at(alloc: Global, env: &[Binding], form: &Form) -> Result<Text, ConfigFault>
    ensures { Gives result (text_from env.now (form_tree form.now)) }
{
    let argument = argument_of(env, form);
    match text_in(argument) {
        Some(text) => Ok(text.copy(alloc)?),
        None => Err(unfit(form, argument)),
    }
}

/// The name of the keyword that the form is. Any other argument is refused as [`unfit`] says.
#[tactic(auto, unfolding(crate::specs::Arguments::keyword_at))]
pub fn keyword_at<'a>(env: &'a [Binding], form: &'a Form) -> Result<&'a Text, ConfigFault>
    ensures { GivesAs (λ key. key.now) result (keyword_from env.now (form_tree form.now)) }
{
    let argument = argument_of(env, form);
    match keyword_in(argument) {
        Some(key) => Ok(key),
        None => Err(unfit(form, argument)),
    }
}

/// The number that the form is. Any other argument is refused as [`unfit`] says.
#[tactic(auto, unfolding(crate::specs::Arguments::number_at))]
pub fn number_at(env: &[Binding], form: &Form) -> Result<i64, ConfigFault>
    ensures { Gives result (number_from env.now (form_tree form.now)) }
{
    let argument = argument_of(env, form);
    match number_in(argument) {
        Some(number) => Ok(number),
        None => Err(unfit(form, argument)),
    }
}

/// The number that the form is, from `least` to `most`. One outside this range is refused at its start (Range), and any
/// other argument as [`unfit`] says.
#[tactic(auto, using(crate::proofs::FormLaws::start_of_form), unfolding(crate::specs::Arguments::ranged_at))]
pub fn ranged_at(env: &[Binding], form: &Form, least: u32, most: u32) -> Result<u32, ConfigFault>
    ensures gives { Gives result (ranged_from least most env.now (form_tree form.now)) }
    ensures within { IfOk result (λ number. (least ≤ number) × (number ≤ most)) }
{
    let number = number_at(env, form)?;
    in_range(form.start, number, least, most)
}

/// The number at the place, if it is from `least` to `most`.
pub(crate) fn in_range(place: usize, number: i64, least: u32, most: u32) -> Result<u32, ConfigFault>
    ensures gives { Gives result (ranged least most place number) }
    ensures within { IfOk result (λ number. (least ≤ number) × (number ≤ most)) }
{
    if number < i64::from(least) || number > i64::from(most) {
        return Err(refused(place, ConfigWhy::Range));
    }
    Ok(number as u32)
}

/// The field that the form names by a keyword. Any other argument is refused as [`unfit`] says. `Memory`: out of
/// memory.
#[tactic(auto, unfolding(crate::specs::Arguments::field_at))]
pub fn field_at(alloc: Global, env: &[Binding], form: &Form) -> Result<Field, ConfigFault>
    ensures { Gives result (field_from env.now (form_tree form.now)) }
{
    let argument = argument_of(env, form);
    match field_in(alloc, argument)? {
        Some(field) => Ok(field),
        None => Err(unfit(form, argument)),
    }
}

/// The value that the form is: a text, a number or `nil`. Any other argument is refused as [`unfit`] says. `Memory`:
/// out of memory.
#[tactic(auto, unfolding(crate::specs::Arguments::value_at))]
pub(crate) fn value_at(alloc: Global, env: &[Binding], form: &Form) -> Result<Value, ConfigFault>
    ensures { Gives result (value_from env.now (form_tree form.now)) }
{
    let argument = argument_of(env, form);
    match value_in(alloc, argument)? {
        Some(value) => Ok(value),
        None => Err(unfit(form, argument)),
    }
}

/// The forms in the vector that the form is. Any other argument is refused as [`unfit`] says.
#[tactic(auto, unfolding(crate::specs::Arguments::vector_at))]
pub fn vector_at<'a>(env: &'a [Binding], form: &'a Form) -> Result<&'a [Form], ConfigFault>
    ensures { GivesAs (λ forms. form_trees forms.now) result
        (vector_from env.now (form_tree form.now)) }
{
    let argument = argument_of(env, form);
    match vector_in(argument) {
        Some(forms) => Ok(forms),
        None => Err(unfit(form, argument)),
    }
}

/// The forms in the map that the form is. Any other argument is refused as [`unfit`] says.
#[tactic(auto, unfolding(crate::specs::Arguments::map_at))]
pub fn map_at<'a>(env: &'a [Binding], form: &'a Form) -> Result<&'a [Form], ConfigFault>
    ensures { GivesAs (λ forms. form_trees forms.now) result
        (map_from env.now (form_tree form.now)) }
{
    let argument = argument_of(env, form);
    match map_in(argument) {
        Some(forms) => Ok(forms),
        None => Err(unfit(form, argument)),
    }
}
