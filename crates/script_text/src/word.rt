//! Reading the words of a line.

ghost use Rattle.std.specs.Prelude.{◌≡◌, ◌≢◌, ◌<◌, ◌≤◌, ◌*◌, length, slice_index, IfOk};
ghost use Rattle.std.specs.Str.{bytes_eq};
ghost use Rattle.script_text.specs.Words.{number_of, piece_of};

use ev_types::{Blob, Memory};
use hex::FromHexError;
use ports::{PIECE_LIMIT, Piece};
use std::alloc::Global;
use std::str;

const PLUS: u8 = b'+';

/// The largest number of digits of a number.
const DIGITS_LIMIT: usize = 20;

pub(crate) fn is(word: &[u8], wanted: &[u8]) -> bool
    ensures { result ≡ bytes_eq word.now wanted.now }
{
    word == wanted
}

/// The value of 1 to 20 decimal digits, where it is below 2^64.
#[tactic(auto, using(crate::proofs::NumberLemmas::number_of_many, crate::proofs::NumberLemmas::number_of_none, crate::proofs::NumberLemmas::number_with_plus))]
pub fn read_number(word: &[u8]) -> Option<u64>
    ensures { result ≡ number_of word.now }
{
    if word.is_empty() || word.len() > DIGITS_LIMIT || word[0] == PLUS {
        return None;
    }
    parse_number(word)
}

fn parse_number(word: &[u8]) -> Option<u64>
    requires few { length word.now ≤ DIGITS_LIMIT }
    requires no_plus { slice_index word.now 0 ≢ PLUS }
    ensures { result ≡ number_of word.now }
{
    match str::from_utf8(word) {
        Ok(digits) => digits.parse::<u64>().ok(),
        Err(_) => None,
    }
}

/// The piece that pairs of hexadecimal digits spell, in either case.
#[tactic(auto, using(crate::proofs::PieceLemmas::piece_of_none, crate::proofs::PieceLemmas::piece_of_many))]
pub(crate) fn read_piece(alloc: Global, word: &[u8]) -> Result<Option<Piece>, Memory>
    ensures { IfOk result (λ piece. piece ≡ piece_of word.now) }
{
    if word.is_empty() || word.len() > 2 * PIECE_LIMIT {
        return Ok(None);
    }
    decode_piece(alloc, word)
}

fn decode_piece(alloc: Global, word: &[u8]) -> Result<Option<Piece>, Memory>
    requires some { 0 < length word.now }
    requires within { length word.now ≤ 2 * PIECE_LIMIT }
    ensures { IfOk result (λ piece. piece ≡ piece_of word.now) }
{
    match hex::decode(alloc, word) {
        Ok(bytes) => Ok(Piece::from_blob(Blob::from_vec(bytes))),
        Err(fault) => match fault {
            FromHexError::OutOfMemory => Err(Memory),
            _ => Ok(None),
        },
    }
}
