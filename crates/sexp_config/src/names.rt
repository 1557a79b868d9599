//! Names that a `let` binds.

ghost use Rattle.std.specs.Prelude.{◌≡◌, [], length, take, OnOk, IfErr, Ok};
ghost use Rattle.std.specs.Option.{option_map};
ghost use Rattle.sexp_read.specs.Tree.{form_tree, form_trees};
ghost use Rattle.config_terms.specs.Steps.{Gives, GivesAs, Fails};
ghost use Rattle.sexp_config.specs.Tops.{name_at as name_from, bound_by as bound_by_argument, index_by as index_read, bound_at as bound_from, names_from as names_of, names_at as names_read};
ghost use Rattle.config_terms.specs.Code.{argument_in, vector_in_form};

use config_terms::{
    Argument, Binding, Bound, ConfigFault, ConfigWhy, View, argument_of, at_most, first, is,
    refused, symbol_of, unfit, view_of,
};
use ev_types::Text;
use sexp_read::{Form, Shape};
use std::alloc::Global;

#[tactic(auto, unfolding(crate::specs::Tops::name_at))]
fn name_at(form: &Form) -> Result<&Text, ConfigFault>
    ensures { GivesAs (λ name. name.now) result (name_from (form_tree form.now)) }
{
    match symbol_of(form) {
        Some(name) => Ok(name),
        None => Err(unfit(form, argument_of(&[], form))),
    }
}

/// What a name is bound to by this form, which is read as the argument.
fn bound_by(alloc: Global, form: &Form, argument: Argument<'_>) -> Result<Bound, ConfigFault>
    ensures { Gives result (bound_by_argument (form_tree form.now) (argument_in argument.entry)) }
{
    match argument {
        Argument::Text(text) => Ok(Bound::Text(text.copy(alloc)?)),
        Argument::Pattern(text) => Ok(Bound::Pattern(text.copy(alloc)?)),
        Argument::Number(number) => Ok(Bound::Number(number)),
        Argument::Keyword(key) => Ok(Bound::Keyword(key.copy(alloc)?)),
        Argument::Index => Ok(Bound::Index),
        Argument::Unbound(_) | Argument::List(_) | Argument::Vector(_) | Argument::Map(_) => Err(
            unfit(form, argument),
        ),
    }
}

/// What a name is bound to by a list that the symbol begins.
fn index_by(name: &Text, start: usize, forms: &[Form]) -> Result<Bound, ConfigFault>
    ensures { Gives result (index_read name.now start (form_trees forms.now)) }
{
    if !is(name.as_bytes(), b"index") {
        return Err(refused(start, ConfigWhy::Form));
    }
    at_most(0, forms)?;
    Ok(Bound::Index)
}

#[tactic(auto, using(config_terms::proofs::FormLaws::start_of_form))]
fn bound_at(alloc: Global, env: &[Binding], form: &Form) -> Result<Bound, ConfigFault>
    ensures { Gives result (bound_from env.now (form_tree form.now)) }
{
    match view_of(form) {
        View::Call(name, forms) => index_by(name, form.start, forms),
        View::Symbol(_) => bound_by(alloc, form, argument_of(env, form)),
        View::Lookup(_, _) => bound_by(alloc, form, argument_of(env, form)),
        View::Other => bound_by(alloc, form, argument_of(env, form)),
    }
}

/// The forms of a vector, where the form is one.
fn vector_of(form: &Form) -> Option<&[Form]>
    ensures { option_map (λ forms. form_trees forms.now) result
        ≡ vector_in_form (form_tree form.now) }
{
    match &form.shape {
        Shape::Vector(forms) => Some(forms),
        _ => None,
    }
}

/// Adds the names of the vector that the form is.
pub(crate) fn names_at(
    alloc: Global,
    env: &mut Vec<Binding>,
    form: &Form,
) -> Result<(), ConfigFault>
    ensures ok { OnOk result (names_read env.old.items (form_tree form.now) ≡ Ok env.new.items) }
    ensures kept { OnOk result (take (length env.old.items) env.new.items ≡ env.old.items) }
    ensures refused { IfErr result (λ fault.
        Fails fault (names_read env.old.items (form_tree form.now))) }
{
    match vector_of(form) {
        Some(entries) => names_from(alloc, form.start, env, entries),
        None => Err(unfit(form, argument_of(env, form))),
    }
}

/// Adds the names of a vector that starts at `place`. Each value knows the names before it.
#[tactic(auto, unfolding(crate::specs::Tops::names_from))]
fn names_from(
    alloc: Global,
    place: usize,
    env: &mut Vec<Binding>,
    entries: &[Form],
) -> Result<(), ConfigFault>
    ensures ok { OnOk result (names_of place env.old.items (form_trees entries.now)
        ≡ Ok env.new.items) }
    ensures kept { OnOk result (take (length env.old.items) env.new.items ≡ env.old.items) }
    ensures refused { IfErr result (λ fault.
        Fails fault (names_of place env.old.items (form_trees entries.now))) }
{
    let mut left = entries;
    'names: while let Some((key, rest)) = first(left) {
        let name = name_at(key)?;
        let Some((form, later)) = first(rest) else {
            return Err(refused(place, ConfigWhy::Arguments));
        };
        let value = bound_at(alloc, env, form)?;
        env.push(Binding {
            name: name.copy(alloc)?,
            value,
        })?;
        left = later;
    }
    Ok(())
}
