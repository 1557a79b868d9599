//! Writing forms.

ghost use Rattle.std.specs.Prelude.{◌≡◌, ◌++◌, ◌∷◌, [], OnOk, OnErr};
ghost use Rattle.std.specs.Fmt.{signed_decimal};
ghost use Rattle.list_laws.specs.Prefix.{IsPrefix};
ghost use Rattle.sexp_read.specs.Tree.{form_tree, form_trees};
ghost use Rattle.sexp_read.specs.Written.{bare_tree, bare_trees, Branch, tree_text, between_text, lines_text, opening as opening_byte, closing as closing_byte};

use crate::form::{Form, Shape};
use crate::piece::Bracket;
use ev_types::{Blob, Memory, Text};
use itoa::Buffer;
use std::alloc::Global;
use string_literals::put_literal;

/// Appends the forms, each on a line of its own that ends with a line feed, whatever their places are. Single spaces
/// are between the forms inside brackets, numbers are in decimal, and in a text `"`, `\\`, LF, CR and tab are written
/// as escapes. After `Memory` the old bytes of `out` are a prefix of it.
#[tactic(auto, using(crate::proofs::WritingLaws::lines_all))]
pub fn write_forms(alloc: Global, forms: &[Form], out: &mut Blob) -> Result<(), Memory>
    ensures ok { OnOk result (out.new ≡ out.old
        ++ lines_text (bare_trees (form_trees forms.now))) }
    ensures err { OnErr result (IsPrefix out.old out.new) }
{
    for form in forms {
        put_form(alloc, form, out)?;
        out.push(alloc, b'\n')?;
    }
    Ok(())
}

/// Appends a form.
#[cycle(write)]
fn put_form(alloc: Global, form: &Form, out: &mut Blob) -> Result<(), Memory>
    ensures ok { OnOk result (out.new ≡ out.old ++ tree_text (bare_tree (form_tree form.now))) }
    ensures err { OnErr result (IsPrefix out.old out.new) }
{
    match &form.shape {
        Shape::List(forms) => put_group(alloc, Bracket::Round, forms.as_slice(), out)?,
        Shape::Vector(forms) => put_group(alloc, Bracket::Square, forms.as_slice(), out)?,
        Shape::Map(forms) => put_group(alloc, Bracket::Curly, forms.as_slice(), out)?,
        Shape::Text(text) => put_literal(alloc, text, out)?,
        Shape::Pattern(text) => put_pattern(alloc, text, out)?,
        Shape::Number(number) => put_number(alloc, *number, out)?,
        Shape::Keyword(name) => {
            out.push(alloc, b':')?;
            out.append(alloc, name.as_bytes())?;
        }
        Shape::Symbol(name) => out.append(alloc, name.as_bytes())?,
    }
    Ok(())
}

/// Appends the forms between brackets of a kind.
#[cycle(write)]
fn put_group(alloc: Global, bracket: Bracket, forms: &[Form], out: &mut Blob) -> Result<(), Memory>
    ensures ok { OnOk result
        (out.new ≡ out.old ++ tree_text (Branch bracket (bare_trees (form_trees forms.now)))) }
    ensures err { OnErr result (IsPrefix out.old out.new) }
{
    out.push(alloc, opening(bracket))?;
    put_between(alloc, forms, out)?;
    out.push(alloc, closing(bracket))?;
    Ok(())
}

/// Appends the forms with single spaces between them.
#[cycle(write)]
#[tactic(auto, using(crate::proofs::WritingLaws::following_all))]
fn put_between(alloc: Global, forms: &[Form], out: &mut Blob) -> Result<(), Memory>
    ensures ok { OnOk result (out.new ≡ out.old
        ++ between_text (bare_trees (form_trees forms.now))) }
    ensures err { OnErr result (IsPrefix out.old out.new) }
{
    let Some((first, rest)) = forms.split_first() else {
        return Ok(());
    };
    put_form(alloc, first, out)?;
    for form in rest {
        out.push(alloc, b' ')?;
        put_form(alloc, form, out)?;
    }
    Ok(())
}

fn opening(bracket: Bracket) -> u8
    ensures { result ≡ opening_byte bracket }
{
    match bracket {
        Bracket::Round => b'(',
        Bracket::Square => b'[',
        Bracket::Curly => b'{',
    }
}

fn closing(bracket: Bracket) -> u8
    ensures { result ≡ closing_byte bracket }
{
    match bracket {
        Bracket::Round => b')',
        Bracket::Square => b']',
        Bracket::Curly => b'}',
    }
}

fn put_number(alloc: Global, number: i64, out: &mut Blob) -> Result<(), Memory>
    ensures ok { OnOk result (out.new ≡ out.old ++ signed_decimal number) }
    ensures err { OnErr result (IsPrefix out.old out.new) }
{
    let mut digits = Buffer::new();
    out.append(alloc, digits.format(number).as_bytes())?;
    Ok(())
}

/// Appends the pattern as it is, in quotes after a `#`.
fn put_pattern(alloc: Global, text: &Text, out: &mut Blob) -> Result<(), Memory>
    ensures ok { OnOk result (out.new ≡ out.old ++ 35 ∷ 34 ∷ (text.now ++ 34 ∷ [])) }
    ensures err { OnErr result (IsPrefix out.old out.new) }
{
    out.append(alloc, b"#\"")?;
    out.append(alloc, text.as_bytes())?;
    out.push(alloc, b'"')?;
    Ok(())
}
