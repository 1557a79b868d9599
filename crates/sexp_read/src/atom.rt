//! Numbers, keywords and symbols.

ghost use Rattle.std.specs.Prelude.{◌≡◌, ◌≢◌, IfOk, slice_index};
ghost use Rattle.std.specs.Str.{IsUtf8};
ghost use Rattle.sexp_read.specs.Bytes.{number_of as number_in, number_atom as number_atom_in, atom_of as atom_in_run};
ghost use Rattle.sexp_read.specs.Tokens.{placed};
ghost use Rattle.sexp_read.specs.Gives.{Gives};

use crate::bytes::{begins_number, is_keyword, is_symbol};
use crate::fault::{SexpFault, SexpWhy};
use crate::piece::Atom;
use ev_types::{Memory, Text, TextFault};
use std::alloc::Global;
use std::str;

const PLUS: u8 = b'+';

/// The text of bytes that are UTF-8.
pub(crate) fn text_of(alloc: Global, bytes: &[u8]) -> Result<Text, Memory>
    requires { IsUtf8 bytes.now }
    ensures { IfOk result (λ text. text ≡ bytes.now) }
{
    match Text::read(alloc, bytes) {
        Ok(text) => Ok(text),
        Err(TextFault::Memory) => Err(Memory),
        Err(TextFault::Utf8 { .. }) => unreachable!(),
    }
}

/// The number that the run is, where it is one.
fn number_of(run: &[u8]) -> Option<i64>
    requires { slice_index run.now 0 ≢ PLUS }
    ensures { result ≡ number_in run.now }
{
    match str::from_utf8(run) {
        Ok(chars) => chars.parse::<i64>().ok(),
        Err(_) => None,
    }
}

/// Reads the run, which begins at `start`, as a number. A number has no plus sign.
#[tactic(auto, using(crate::proofs::Numbers::number_with_plus))]
fn number_atom(run: &[u8], start: usize) -> Result<Atom, SexpFault>
    ensures { Gives result (placed start (number_atom_in (number_in run.now))) }
{
    if run.len() > 0 && run[0] != PLUS {
        if let Some(number) = number_of(run) {
            return Ok(Atom::Number(number));
        }
    }
    Err(SexpFault::Refused {
        place: start,
        why: SexpWhy::Number,
    })
}

/// The number, keyword or symbol that the run is. It begins at `start`.
#[tactic(auto, unfolding(crate::specs::Bytes::atom_of))]
pub(crate) fn atom_of(alloc: Global, run: &[u8], start: usize) -> Result<Atom, SexpFault>
    ensures { Gives result (placed start (atom_in_run run.now)) }
{
    if begins_number(run) {
        return number_atom(run, start);
    }
    if is_keyword(run) {
        let name = text_of(alloc, &run[1..])?;
        return Ok(Atom::Keyword(name));
    }
    if is_symbol(run) {
        let name = text_of(alloc, run)?;
        return Ok(Atom::Symbol(name));
    }
    Err(SexpFault::Refused {
        place: start,
        why: SexpWhy::Token,
    })
}
