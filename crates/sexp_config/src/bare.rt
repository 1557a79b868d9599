//! Forms without a source: they have no place in a text yet.

ghost use Rattle.std.specs.Prelude.{◌≡◌, ◌++◌, ◌∷◌, [], IfOk, OnOk};
ghost use Rattle.sexp_config.specs.Canonical.{bare_form, bare_forms, symbol_form, keyword_form, text_form, pattern_form, number_form, list_form, vector_form, map_form, value_form, field_form};

use ev_types::{Field, Memory, Text, Value};
use sexp_read::{Atom, Bracket, Form, Forms, atom_form, group_form};
use std::alloc::Global;

pub(crate) fn symbol(alloc: Global, name: &str) -> Result<Form, Memory>
    ensures { IfOk result (λ form. bare_form form ≡ symbol_form name.now) }
{
    let name = Text::from_str(alloc, name)?;
    Ok(atom_form(Atom::Symbol(name), 0, 0))
}

pub(crate) fn keyword(alloc: Global, name: &str) -> Result<Form, Memory>
    ensures { IfOk result (λ form. bare_form form ≡ keyword_form name.now) }
{
    let name = Text::from_str(alloc, name)?;
    Ok(atom_form(Atom::Keyword(name), 0, 0))
}

pub(crate) fn text(alloc: Global, text: &Text) -> Result<Form, Memory>
    ensures { IfOk result (λ form. bare_form form ≡ text_form text.now) }
{
    let text = text.copy(alloc)?;
    Ok(atom_form(Atom::Text(text), 0, 0))
}

pub(crate) fn pattern(alloc: Global, text: &Text) -> Result<Form, Memory>
    ensures { IfOk result (λ form. bare_form form ≡ pattern_form text.now) }
{
    let text = text.copy(alloc)?;
    Ok(atom_form(Atom::Pattern(text), 0, 0))
}

pub(crate) fn number(number: i64) -> Form
    ensures { bare_form result ≡ number_form number }
{
    atom_form(Atom::Number(number), 0, 0)
}

#[tactic(auto, using(crate::proofs::CanonicalLaws::bare_listed))]
pub(crate) fn list(forms: Forms) -> Form
    ensures { bare_form result ≡ list_form (bare_forms forms.items) }
{
    group_form(Bracket::Round, forms, 0, 0)
}

#[tactic(auto, using(crate::proofs::CanonicalLaws::bare_listed))]
pub(crate) fn vector(forms: Forms) -> Form
    ensures { bare_form result ≡ vector_form (bare_forms forms.items) }
{
    group_form(Bracket::Square, forms, 0, 0)
}

#[tactic(auto, using(crate::proofs::CanonicalLaws::bare_listed))]
pub(crate) fn map(forms: Forms) -> Form
    ensures { bare_form result ≡ map_form (bare_forms forms.items) }
{
    group_form(Bracket::Curly, forms, 0, 0)
}

/// Adds the form at the end.
#[tactic(auto, using(crate::proofs::CanonicalLaws::bare_pushed))]
pub(crate) fn put(forms: &mut Forms, form: Form) -> Result<(), Memory>
    ensures { OnOk result (bare_forms forms.new.items ≡ bare_forms forms.old.items
        ++ bare_form form ∷ []) }
{
    forms.push(form)?;
    Ok(())
}

/// The one form.
pub(crate) fn only(alloc: Global, form: Form) -> Result<Forms, Memory>
    ensures { IfOk result (λ forms. bare_forms forms.items ≡ bare_form form ∷ []) }
{
    let mut forms = Vec::new(alloc);
    put(&mut forms, form)?;
    Ok(forms)
}

/// Two forms.
pub(crate) fn pair(alloc: Global, first: Form, second: Form) -> Result<Forms, Memory>
    ensures { IfOk result (λ forms. bare_forms forms.items
        ≡ bare_form first ∷ bare_form second ∷ []) }
{
    let mut forms = only(alloc, first)?;
    put(&mut forms, second)?;
    Ok(forms)
}

/// The symbol alone.
pub(crate) fn word(alloc: Global, name: &str) -> Result<Forms, Memory>
    ensures { IfOk result (λ forms. bare_forms forms.items ≡ symbol_form name.now ∷ []) }
{
    let first = symbol(alloc, name)?;
    only(alloc, first)
}

/// The symbol, and one argument.
pub(crate) fn word_with(alloc: Global, name: &str, argument: Form) -> Result<Forms, Memory>
    ensures { IfOk result (λ forms. bare_forms forms.items
        ≡ symbol_form name.now ∷ bare_form argument ∷ []) }
{
    let first = symbol(alloc, name)?;
    pair(alloc, first, argument)
}

/// The symbol, and two arguments.
pub(crate) fn word_with_two(
    alloc: Global,
    name: &str,
    argument: Form,
    second: Form,
) -> Result<Forms, Memory>
    ensures { IfOk result (λ forms. bare_forms forms.items
        ≡ symbol_form name.now ∷ bare_form argument ∷ bare_form second ∷ []) }
{
    let mut forms = word_with(alloc, name, argument)?;
    put(&mut forms, second)?;
    Ok(forms)
}

/// A text, a number or `nil`.
pub(crate) fn value(alloc: Global, value: &Value) -> Result<Form, Memory>
    ensures { IfOk result (λ form. bare_form form ≡ value_form value.now) }
{
    match value {
        Value::Nil => symbol(alloc, "nil"),
        Value::Number(count) => Ok(number(*count)),
        Value::Text(chars) => text(alloc, chars),
    }
}

/// A field as a keyword.
pub(crate) fn field(alloc: Global, field: &Field) -> Result<Form, Memory>
    ensures { IfOk result (λ form. bare_form form ≡ field_form field.now) }
{
    keyword(alloc, field.name())
}
