//! How expired events are looked for.

ghost use Rattle.std.specs.Prelude.{◌≡◌, ◌≤◌, [], IfOk, None, Ok};
ghost use Rattle.sexp_read.specs.Tree.{form_tree, form_trees};
ghost use Rattle.config_terms.specs.Words.{keep_text};
ghost use Rattle.config_terms.specs.Steps.{Gives, each, onto, nth as nth_of};
ghost use Rattle.config_terms.specs.Arguments.{one_entry};
ghost use Rattle.sexp_config.specs.Tops.{keep_in as keep_of, keep_field, keep_at as keep_from, keys_at as keys_read, default_keys as default_keys_of, interval_by as interval_of, keys_of_map as keys_of_map_at, keys_by as keys_by_form, expiry_in as expiry_of};
ghost use Rattle.ev_types.specs.Names.{named_field};
ghost use Rattle.config_terms.specs.Code.{argument_in};

use config_terms::{
    Argument, Binding, ConfigFault, ConfigWhy, argument_of, at_most, field_of, first, is, map_at,
    nth, only_key_at, ranged_at, refused, unfit, vector_at,
};
use ev_types::{Expiry, Field, KeepKey, KeepKeys, Memory, Text};
use sexp_read::Form;
use std::alloc::Global;
use stream_plan::MAX_SECS;

const DEFAULT_INTERVAL: u32 = 10;

fn kept_field(alloc: Global, name: &Text) -> Result<Option<KeepKey>, Memory>
    ensures { IfOk result (λ key. key ≡ keep_field (named_field name.now)) }
{
    match field_of(alloc, name)? {
        Some(field) => Ok(Some(KeepKey::Field(field))),
        None => Ok(None),
    }
}

fn keep_in(alloc: Global, argument: Argument<'_>) -> Result<Option<KeepKey>, Memory>
    ensures { IfOk result (λ key. key ≡ keep_of (argument_in argument.entry)) }
{
    match argument {
        Argument::Keyword(name) if is(name.as_bytes(), b"tags") => Ok(Some(KeepKey::Tags)),
        Argument::Keyword(name) => kept_field(alloc, name),
        _ => Ok(None),
    }
}

#[tactic(auto, unfolding(crate::specs::Tops::keep_at))]
fn keep_at(alloc: Global, env: &[Binding], form: &Form) -> Result<KeepKey, ConfigFault>
    ensures { Gives result (keep_from env.now (form_tree form.now)) }
{
    let argument = argument_of(env, form);
    match keep_in(alloc, argument)? {
        Some(key) => Ok(key),
        None => Err(unfit(form, argument)),
    }
}

#[tactic(auto, unfolding(config_terms::specs::Steps::each))]
fn keys_in(alloc: Global, env: &[Binding], forms: &[Form]) -> Result<KeepKeys, ConfigFault>
    ensures { Gives result (each (onto (keep_from env.now)) [] (form_trees forms.now)) }
{
    let mut keys = KeepKeys::fresh(alloc);
    let mut left = forms;
    'keys: while let Some((form, rest)) = first(left) {
        let key = keep_at(alloc, env, form)?;
        keys.push(alloc, key)?;
        left = rest;
    }
    Ok(keys)
}

/// The keys in the vector that the form is.
#[tactic(auto, unfolding(crate::specs::Tops::keys_at))]
fn keys_at(alloc: Global, env: &[Binding], form: &Form) -> Result<KeepKeys, ConfigFault>
    ensures { Gives result (keys_read env.now (form_tree form.now)) }
{
    let forms = vector_at(env, form)?;
    keys_in(alloc, env, forms)
}

/// The keys that the map says that starts at `place`.
#[tactic(auto, unfolding(config_terms::specs::Arguments::one_entry))]
fn keys_from(
    alloc: Global,
    place: usize,
    env: &[Binding],
    entries: &[Form],
) -> Result<KeepKeys, ConfigFault>
    ensures { Gives result (one_entry keep_text keys_read place env.now None
        (form_trees entries.now)) }
{
    let mut keys = None;
    let mut left = entries;
    'entries: while let Some((key, rest)) = first(left) {
        only_key_at(env, b"keep-keys", keys.is_some(), key)?;
        let Some((form, later)) = first(rest) else {
            return Err(refused(place, ConfigWhy::Arguments));
        };
        keys = Some(keys_at(alloc, env, form)?);
        left = later;
    }
    match keys {
        Some(keys) => Ok(keys),
        None => Err(refused(place, ConfigWhy::Arguments)),
    }
}

fn default_keys(alloc: Global) -> Result<KeepKeys, ConfigFault>
    ensures { Gives result (Ok default_keys_of) }
{
    let mut keys = KeepKeys::fresh(alloc);
    keys.push(alloc, KeepKey::Field(Field::Host))?;
    keys.push(alloc, KeepKey::Field(Field::Service))?;
    Ok(keys)
}

fn interval_of(env: &[Binding], forms: &[Form]) -> Result<u32, ConfigFault>
    ensures gives { Gives result (interval_of env.now (nth_of 0 (form_trees forms.now))) }
    ensures within { IfOk result (λ interval. (1 ≤ interval) × (interval ≤ MAX_SECS)) }
{
    match nth(forms, 0) {
        None => Ok(DEFAULT_INTERVAL),
        Some(form) => ranged_at(env, form, 1, MAX_SECS),
    }
}

#[tactic(auto, using(config_terms::proofs::FormLaws::start_of_form))]
fn keys_of_map(alloc: Global, env: &[Binding], form: &Form) -> Result<KeepKeys, ConfigFault>
    ensures { Gives result (keys_of_map_at env.now (form_tree form.now)) }
{
    let entries = map_at(env, form)?;
    keys_from(alloc, form.start, env, entries)
}

fn keys_by(alloc: Global, env: &[Binding], forms: &[Form]) -> Result<KeepKeys, ConfigFault>
    ensures { Gives result (keys_by_form env.now (nth_of 1 (form_trees forms.now))) }
{
    match nth(forms, 1) {
        None => default_keys(alloc),
        Some(form) => keys_of_map(alloc, env, form),
    }
}

/// How expired events are looked for by the arguments.
#[tactic(auto, unfolding(crate::specs::Tops::expiry_in))]
pub(crate) fn expiry_in(
    alloc: Global,
    env: &[Binding],
    forms: &[Form],
) -> Result<Expiry, ConfigFault>
    ensures gives { Gives result (expiry_of env.now (form_trees forms.now)) }
    ensures within { IfOk result (λ expiry. (1 ≤ expiry.interval) ×
        (expiry.interval ≤ MAX_SECS)) }
{
    let interval = interval_of(env, forms)?;
    let keep = keys_by(alloc, env, forms)?;
    at_most(2, forms)?;
    Ok(Expiry { interval, keep })
}
