//! Forms, as they are looked at.

ghost use Rattle.std.specs.Prelude.{◌≡◌, ◌+◌, ◌≤◌, length, MatchOption, option_map, option_copied};
ghost use Rattle.sexp_read.specs.declared.piece.Bracket.TheVariants.{Round};
ghost use Rattle.sexp_read.specs.Tree.{form_tree, form_trees, none, also, Group};
ghost use Rattle.config_terms.specs.Steps.{nth, pair_in, argument as argument_at, at_most, GivesAs, name_in};
ghost use Rattle.config_terms.specs.Code.{later as later_of, next_of, look_of, look_in, IsWithin, weight, form_weight};

use crate::{ConfigFault, ConfigWhy};
use ev_types::Text;
use sexp_read::{Form, Shape};

/// A form, by its head.
#[derive(Clone, Copy)]
pub enum View<'a> {
    Symbol(&'a Text),
    /// A list whose first form is a symbol: the name of the symbol, and the other forms.
    Call(&'a Text, &'a [Form]),
    /// A list whose first form is a keyword: the name of the keyword, and the other forms.
    Lookup(&'a Text, &'a [Form]),
    Other,
}

/// The refusal of a text at the place, for the cause.
pub fn refused(place: usize, why: ConfigWhy) -> ConfigFault
    ensures { result ≡ ConfigFault.Refused place why }
{
    ConfigFault::Refused { place, why }
}

/// The form by its head.
#[tactic(auto, using(crate::proofs::FormLaws::same_look_is_within))]
pub fn view_of(form: &Form) -> View<'_>
    ensures look { look_in result ≡ look_of (form_tree form.now) }
    ensures within { IsWithin (look_in result) (form_tree form.now) }
{
    view_form(form)
}

#[tactic(auto, unfolding(crate::specs::Code::look_of))]
fn view_form(form: &Form) -> View<'_>
    ensures { look_in result ≡ look_of (form_tree form.now) }
{
    match &form.shape {
        Shape::Symbol(name) => View::Symbol(name),
        Shape::List(forms) => view_list(forms),
        _ => View::Other,
    }
}

/// The name of the symbol that the form is.
pub fn symbol_of(form: &Form) -> Option<&Text>
    ensures { option_copied result ≡ name_in (form_tree form.now) }
{
    match &form.shape {
        Shape::Symbol(name) => Some(name),
        _ => None,
    }
}

/// The first form, and those after it.
pub fn first(forms: &[Form]) -> Option<(&Form, &[Form])>
    ensures split { MatchOption result (form_trees forms.now ≡ none)
        (λ pair. form_trees forms.now ≡ also (form_tree pair.0.now) (form_trees pair.1.now)) }
    ensures shorter { MatchOption result (length forms.now ≡ 0) (λ pair.
        length forms.now ≡ length pair.1.now + 1) }
    ensures lighter { MatchOption result (weight (form_trees forms.now) ≡ 0)
        (λ pair. weight (form_trees forms.now)
        ≡ form_weight (form_tree pair.0.now) + weight (form_trees pair.1.now) + 1) }
{
    forms.split_first()
}

/// The two forms, if there are exactly two.
pub(crate) fn pair_of(forms: &[Form]) -> Option<(&Form, &Form)>
    ensures { option_map (λ pair. (form_tree pair.0.now, form_tree pair.1.now)) result
        ≡ pair_in (form_trees forms.now) }
{
    let (one, rest) = first(forms)?;
    let (two, more) = first(rest)?;
    match first(more) {
        Some(_) => None,
        None => Some((one, two)),
    }
}

/// The form of a number, from 0.
#[tactic(auto, using(crate::proofs::FormLaws::nth_within, crate::proofs::FormLaws::nth_past))]
pub fn nth(forms: &[Form], n: usize) -> Option<&Form>
    ensures { option_map (λ form. form_tree form.now) result ≡ nth n (form_trees forms.now) }
{
    if n < forms.len() {
        Some(&forms[n])
    } else {
        None
    }
}

/// The form of a number, which has to be there: the form that lacks it starts at `start`.
#[tactic(auto, unfolding(crate::specs::Steps::argument))]
pub fn argument(start: usize, n: usize, forms: &[Form]) -> Result<&Form, ConfigFault>
    ensures { GivesAs (λ form. form_tree form.now) result
        (argument_at start n (form_trees forms.now)) }
{
    match nth(forms, n) {
        Some(form) => Ok(form),
        None => Err(refused(start, ConfigWhy::Arguments)),
    }
}

/// Refuses more than `n` forms, at the first form too many.
#[tactic(auto, using(crate::proofs::FormLaws::start_of_form), unfolding(crate::specs::Steps::at_most))]
pub fn at_most(n: usize, forms: &[Form]) -> Result<(), ConfigFault>
    ensures { GivesAs (λ _. tt) result (at_most n (form_trees forms.now)) }
{
    match nth(forms, n) {
        Some(form) => Err(refused(form.start, ConfigWhy::Arguments)),
        None => Ok(()),
    }
}

#[tactic(auto, unfolding(crate::specs::Code::look_of))]
fn view_list(forms: &[Form]) -> View<'_>
    ensures { look_in result ≡ look_of (Group Round (form_trees forms.now) 0 0) }
{
    match forms.split_first() {
        Some((head, rest)) => match &head.shape {
            Shape::Symbol(name) => View::Call(name, rest),
            Shape::Keyword(name) => View::Lookup(name, rest),
            _ => View::Other,
        },
        None => View::Other,
    }
}

/// The forms after the first n.
#[tactic(auto, using(crate::proofs::FormLaws::later_within, crate::proofs::FormLaws::later_past, crate::proofs::FormLaws::later_is_lighter))]
pub fn later(forms: &[Form], n: usize) -> &[Form]
    ensures rest { form_trees result.now ≡ later_of n (form_trees forms.now) }
    ensures lighter { weight (form_trees result.now) ≤ weight (form_trees forms.now) }
{
    if n < forms.len() { &forms[n..] } else { &[] }
}

/// The place of the first form.
#[tactic(auto, using(crate::proofs::FormLaws::start_of_form))]
pub fn next_start(forms: &[Form]) -> Option<usize>
    ensures { result ≡ next_of (form_trees forms.now) }
{
    match first(forms) {
        Some((form, _)) => Some(form.start),
        None => None,
    }
}
