//! Forms that are made of what was read.

ghost use Rattle.std.specs.Prelude.{◌≡◌};
ghost use Rattle.sexp_read.specs.Tree.{form_tree, form_trees, Single, Group};

use crate::form::{Form, Forms, Shape};
use crate::piece::{Atom, Bracket};

/// The form that is one atom.
pub fn atom_form(atom: Atom, start: usize, end: usize) -> Form
    ensures { form_tree result ≡ Single atom start end }
{
    let shape = match atom {
        Atom::Text(text) => Shape::Text(text),
        Atom::Pattern(text) => Shape::Pattern(text),
        Atom::Number(number) => Shape::Number(number),
        Atom::Keyword(name) => Shape::Keyword(name),
        Atom::Symbol(name) => Shape::Symbol(name),
    };
    Form { shape, start, end }
}

/// The forms between brackets as one.
pub fn group_form(bracket: Bracket, forms: Forms, start: usize, end: usize) -> Form
    ensures { form_tree result ≡ Group bracket (form_trees forms.items) start end }
{
    let shape = match bracket {
        Bracket::Round => Shape::List(forms),
        Bracket::Square => Shape::Vector(forms),
        Bracket::Curly => Shape::Map(forms),
    };
    Form { shape, start, end }
}
