//! Reading values and times.

ghost use Rattle.std.specs.Prelude.{◌≡◌, ◌≢◌, ◌≤◌, ◌==◌, ◌↔◌, true, false, length, slice_index, IsTrue, MatchOption};
ghost use Rattle.std.specs.List.{list_all};
ghost use Rattle.std.specs.Str.Parse.{signed_digits_value};
ghost use Rattle.graphite_lines.specs.Words.{are_zeros, is_time, is_value, is_whole, time_of, value_of, without_minus};

use crate::cut::find_byte;
use std::str;

const MINUS: u8 = b'-';

const PLUS: u8 = b'+';

const POINT: u8 = b'.';

const ZERO: u8 = b'0';

/// The most digits of a value, and zeros after its point.
const VALUE_DIGITS: usize = 20;

const TIME_DIGITS: usize = 19;

/// The number of a value.
pub(crate) fn read_value(word: &[u8]) -> Option<i64>
    ensures { MatchOption result (is_value word.now ≡ false)
        (λ number. (is_value word.now ≡ true) × (number ≡ value_of word.now)) }
{
    match find_byte(POINT, word) {
        Some(point) => {
            if !are_zeros(&word[point + 1..]) {
                return None;
            }
            read_whole(&word[..point])
        }
        None => read_whole(word),
    }
}

#[tactic(auto, using(std::proofs::lemmas::Bool::Decides::nat_tests), unfolding(crate::specs::Words::are_zeros))]
fn are_zeros(word: &[u8]) -> bool
    ensures { result ≡ are_zeros word.now }
{
    !word.is_empty() && word.len() <= VALUE_DIGITS && all_zeros(word)
}

fn all_zeros(word: &[u8]) -> bool
    ensures { result ≡ list_all (λ digit. digit == ZERO) word.now }
{
    word.iter().all(|digit| *digit == ZERO)
}

/// The number of an optional `-` and digits.
#[tactic(auto, using(crate::proofs::NumberLaws::whole_of_many, crate::proofs::NumberLaws::whole_with_plus))]
fn read_whole(word: &[u8]) -> Option<i64>
    ensures { MatchOption result (is_whole word.now ≡ false)
        (λ number. (is_whole word.now ≡ true) × (number ≡ signed_digits_value 10 word.now)) }
{
    if digits_of(word).len() > VALUE_DIGITS || starts_with(PLUS, word) {
        return None;
    }
    parse_number(word)
}

/// The word without a `-` at its start.
fn digits_of(word: &[u8]) -> &[u8]
    ensures { result.now ≡ without_minus word.now }
{
    if starts_with(MINUS, word) {
        &word[1..]
    } else {
        word
    }
}

fn starts_with(byte: u8, word: &[u8]) -> bool
    requires { byte ≢ 0 }
    ensures { IsTrue result ↔ (slice_index word.now 0 ≡ byte) }
{
    !word.is_empty() && word[0] == byte
}

/// The number of a time.
#[tactic(auto, using(crate::proofs::NumberLaws::time_of_many, crate::proofs::NumberLaws::time_with_minus, crate::proofs::NumberLaws::time_with_plus))]
pub(crate) fn read_time(word: &[u8]) -> Option<i64>
    ensures { MatchOption result (is_time word.now ≡ false)
        (λ number. (is_time word.now ≡ true) × (number ≡ time_of word.now)) }
{
    if word.len() > TIME_DIGITS || starts_with(MINUS, word) || starts_with(PLUS, word) {
        return None;
    }
    parse_number(word)
}

/// The number of digits, with a `-` before them or not.
fn parse_number(word: &[u8]) -> Option<i64>
    requires few { length (without_minus word.now) ≤ VALUE_DIGITS }
    requires no_plus { slice_index word.now 0 ≢ PLUS }
    ensures { MatchOption result (is_whole word.now ≡ false)
        (λ number. (is_whole word.now ≡ true) × (number ≡ signed_digits_value 10 word.now)) }
{
    match str::from_utf8(word) {
        Ok(digits) => digits.parse::<i64>().ok(),
        Err(_) => None,
    }
}
