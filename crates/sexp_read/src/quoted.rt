//! Texts and patterns.

ghost use Rattle.std.specs.Prelude.{◌≡◌, ◌≢◌, ◌<◌, ◌≤◌, ◌++◌, drop, length, slice_index, OnOk, IfOk, IfErr, Some};
ghost use Rattle.std.specs.Option.{option_map};
ghost use Rattle.std.specs.Str.{IsUtf8};
ghost use Rattle.sexp_read.specs.Bytes.{escape_of};
ghost use Rattle.sexp_read.specs.Tokens.{quoted_from, quoted_at as quoted_piece_at, with_prefix};
ghost use Rattle.sexp_read.specs.Gives.{Gives, Fails, IsEscapeFault};

use crate::atom::text_of;
use crate::fault::{SexpFault, SexpWhy};
use crate::piece::{Atom, Piece, Quoted};
use ev_types::Blob;
use std::alloc::Global;
use string_literals::escaped;

const QUOTE: u8 = b'"';

const BACKSLASH: u8 = b'\\';

/// The text or pattern that begins at `start`, and is quoted from `place` on.
#[tactic(auto, unfolding(crate::specs::Tokens::quoted_at))]
pub(crate) fn quoted_at(
    alloc: Global,
    kind: Quoted,
    text: &[u8],
    start: usize,
    place: usize,
) -> Result<(Piece, usize), SexpFault>
    requires within { place ≤ length text.now }
    requires utf8 { IsUtf8 (drop place text.now) }
    ensures gives { Gives result (quoted_piece_at kind start place (drop place text.now)) }
    ensures moves { IfOk result (λ read. (place < read.1) × (read.1 ≤ length text.now)) }
{
    let (bytes, end) = quoted_bytes(alloc, kind, text, start, place)?;
    let quoted = text_of(alloc, bytes.as_slice())?;
    let atom = match kind {
        Quoted::Text => Atom::Text(quoted),
        Quoted::Pattern => Atom::Pattern(quoted),
    };
    Ok((Piece::Whole(atom), end))
}

/// What is quoted from `place` on, and the place just past the closing quote.
#[tactic(auto, using(crate::proofs::QuotedLaws::quoted_steps))]
fn quoted_bytes(
    alloc: Global,
    kind: Quoted,
    text: &[u8],
    start: usize,
    place: usize,
) -> Result<(Blob, usize), SexpFault>
    requires { place ≤ length text.now }
    ensures gives { Gives result (quoted_from kind start place (drop place text.now)) }
    ensures moves { IfOk result (λ read. (place < read.1) × (read.1 ≤ length text.now)) }
{
    let mut bytes = Blob::fresh(alloc);
    let mut next = place;
    'quoted: while next < text.len() && text[next] != QUOTE {
        next = take_one(alloc, kind, text, start, next, &mut bytes)?;
    }
    if next == text.len() {
        return Err(SexpFault::Refused {
            place: start,
            why: SexpWhy::Open,
        });
    }
    Ok((bytes, next + 1))
}

/// Adds what is at `place` between the quotes: a byte, or what a backslash and the byte after it represent. It
/// gives the place to go on at.
#[tactic(auto, using(crate::proofs::QuotedLaws::quoted_steps))]
fn take_one(
    alloc: Global,
    kind: Quoted,
    text: &[u8],
    start: usize,
    place: usize,
    bytes: &mut Blob,
) -> Result<usize, SexpFault>
    requires within { place < length text.now }
    requires inside { slice_index text.now place ≢ QUOTE }
    ensures moves { IfOk result (λ next. (place < next) × (next ≤ length text.now)) }
    ensures takes { IfOk result (λ next. with_prefix bytes.old
        (quoted_from kind start place (drop place text.now))
        ≡ with_prefix bytes.new (quoted_from kind start next (drop next text.now))) }
    ensures refused { IfErr result (λ fault.
        Fails fault (quoted_from kind start place (drop place text.now))) }
{
    let byte = text[place];
    if byte != BACKSLASH {
        bytes.push(alloc, byte)?;
        return Ok(place + 1);
    }
    if place + 1 == text.len() {
        return Err(SexpFault::Refused {
            place: start,
            why: SexpWhy::Open,
        });
    }
    put_escape(alloc, kind, text[place + 1], place, bytes)?;
    Ok(place + 2)
}

/// Adds what a backslash at `place` and the byte after it represent.
fn put_escape(
    alloc: Global,
    kind: Quoted,
    byte: u8,
    place: usize,
    bytes: &mut Blob,
) -> Result<(), SexpFault>
    ensures ok { OnOk result (option_map (λ front. bytes.old ++ front) (escape_of kind byte)
        ≡ Some bytes.new) }
    ensures refused { IfErr result (λ fault. IsEscapeFault fault place (escape_of kind byte)) }
{
    match kind {
        Quoted::Text => match escaped(byte) {
            Some(escape) => bytes.push(alloc, escape)?,
            None => {
                return Err(SexpFault::Refused {
                    place,
                    why: SexpWhy::Escape,
                });
            }
        },
        Quoted::Pattern => bytes.append(alloc, &[BACKSLASH, byte])?,
    }
    Ok(())
}
