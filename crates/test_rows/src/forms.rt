//! Rows of s-expressions.

use crate::line::{RowFault, said};
use crate::shown::end_with_name;
use ev_types::{Blob, Memory};
use sexp_read::{Form, SexpFault, Shape, read_forms, write_forms};
use std::alloc::Global;
use std::fmt::Write;

/// Writes the form with its places and a blank after it.
#[cycle(show)]
fn show(out: &mut String, form: &Form) -> Result<(), Memory> {
    put_places(out, form.start, form.end)?;
    match &form.shape {
        Shape::List(forms) => show_group(out, "list", forms.as_slice()),
        Shape::Vector(forms) => show_group(out, "vector", forms.as_slice()),
        Shape::Map(forms) => show_group(out, "map", forms.as_slice()),
        Shape::Text(text) => put_word(out, "text", text.as_str()),
        Shape::Pattern(text) => put_word(out, "pattern", text.as_str()),
        Shape::Number(number) => put_number(out, *number),
        Shape::Keyword(name) => put_word(out, "keyword", name.as_str()),
        Shape::Symbol(name) => put_word(out, "symbol", name.as_str()),
    }
}

/// Writes the forms between the brackets of this kind.
#[cycle(show)]
fn show_group(out: &mut String, kind: &str, forms: &[Form]) -> Result<(), Memory> {
    put_start(out, kind)?;
    for form in forms {
        show(out, form)?;
    }
    put_end(out)
}

fn put_places(out: &mut String, start: usize, end: usize) -> Result<(), Memory> {
    write!(out, "{start}-{end} ")?;
    Ok(())
}

fn put_word(out: &mut String, kind: &str, text: &str) -> Result<(), Memory> {
    write!(out, "{kind} {text} ")?;
    Ok(())
}

fn put_number(out: &mut String, number: i64) -> Result<(), Memory> {
    write!(out, "{number} ")?;
    Ok(())
}

fn put_start(out: &mut String, kind: &str) -> Result<(), Memory> {
    write!(out, "{kind}< ")?;
    Ok(())
}

fn put_end(out: &mut String) -> Result<(), Memory> {
    out.push_str("> ")?;
    Ok(())
}

/// What the kind asks of the forms of the text, or why it has none.
pub fn forms_answer(alloc: Global, kind: &str, text: &[u8]) -> Result<Blob, RowFault> {
    match read_forms(alloc, text) {
        Ok(forms) => answer(alloc, kind, forms.as_slice()),
        Err(fault) => refusal(alloc, fault),
    }
}

/// The forms with their places, how many there are, or what is written of them.
fn answer(alloc: Global, kind: &str, forms: &[Form]) -> Result<Blob, RowFault> {
    match kind {
        "forms" => {
            let mut out = String::new(alloc);
            for form in forms {
                show(&mut out, form)?;
            }
            let _ = out.pop();
            Ok(said(out))
        }
        "form-count" => Ok(said(format!(in alloc; "{}", forms.len())?)),
        _ => {
            let mut out = Blob::fresh(alloc);
            write_forms(alloc, forms, &mut out)?;
            Ok(out)
        }
    }
}

fn refusal(alloc: Global, fault: SexpFault) -> Result<Blob, RowFault> {
    let mut printed = format!(in alloc; "{fault}")?;
    if let SexpFault::Refused { why, .. } = fault {
        end_with_name(&mut printed, why.name())?;
    }
    Ok(said(printed))
}
