//! The pieces of a text.

ghost use Rattle.std.specs.Prelude.{◌≡◌, ◌<◌, ◌≤◌, ◌+◌, drop, length, slice_index, IfOk};
ghost use Rattle.std.specs.Str.{IsUtf8};
ghost use Rattle.sexp_read.specs.Bytes.{run_of, comment_of};
ghost use Rattle.sexp_read.specs.Tokens.{run_at as run_piece_at, piece_at as piece_from};
ghost use Rattle.sexp_read.specs.Gives.{Gives};

use crate::atom::atom_of;
use crate::bytes::{class_of, runs_on};
use crate::fault::SexpFault;
use crate::piece::{Class, Piece, Quoted};
use crate::quoted::quoted_at;
use std::alloc::Global;

const QUOTE: u8 = b'"';

const LINE_FEED: u8 = b'\n';

/// The piece that begins at `place`, and the place just past it.
#[tactic(auto, unfolding(crate::specs::Tokens::piece_at))]
pub(crate) fn piece_at(
    alloc: Global,
    text: &[u8],
    place: usize,
) -> Result<(Piece, usize), SexpFault>
    requires within { place < length text.now }
    requires utf8 { IsUtf8 text.now }
    ensures gives { Gives result (piece_from place (slice_index text.now place)
        (drop (place + 1) text.now)) }
    ensures moves { IfOk result (λ read. (place < read.1) × (read.1 ≤ length text.now)) }
{
    match class_of(text[place]) {
        Class::Separator => Ok((Piece::Blank, place + 1)),
        Class::Comment => Ok((Piece::Blank, place + 1 + comment_len(&text[place + 1..]))),
        Class::Opens(bracket) => Ok((Piece::Opening(bracket), place + 1)),
        Class::Closes(bracket) => Ok((Piece::Closing(bracket), place + 1)),
        Class::Quote => quoted_at(alloc, Quoted::Text, text, place, place + 1),
        Class::Hash if place + 1 < text.len() && text[place + 1] == QUOTE => {
            quoted_at(alloc, Quoted::Pattern, text, place, place + 2)
        }
        Class::Hash | Class::Run => run_at(alloc, text, place),
    }
}

/// The piece that the run at `place` is, and the place just past it.
#[tactic(auto, unfolding(crate::specs::Tokens::run_at))]
fn run_at(alloc: Global, text: &[u8], place: usize) -> Result<(Piece, usize), SexpFault>
    requires { place ≤ length text.now }
    ensures gives { Gives result (run_piece_at place (drop place text.now)) }
    ensures moves { IfOk result (λ read. (place < read.1) × (read.1 ≤ length text.now)) }
{
    let rest = &text[place..];
    let size = run_len(rest);
    let atom = atom_of(alloc, &rest[..size], place)?;
    Ok((Piece::Whole(atom), place + size))
}

/// The length of the run at the start of the bytes.
fn run_len(bytes: &[u8]) -> usize
    ensures { result ≡ length (run_of bytes.now) }
{
    bytes.iter().take_while(|byte| runs_on(**byte)).count()
}

/// The length of the rest of a comment at the start of the bytes.
fn comment_len(bytes: &[u8]) -> usize
    ensures { result ≡ length (comment_of bytes.now) }
{
    bytes.iter().take_while(|byte| **byte != LINE_FEED).count()
}
