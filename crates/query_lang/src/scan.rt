//! The tokens of a text, one after the other.

ghost use Rattle.std.specs.Prelude.{◌≡◌, ◌<◌, ◌≤◌, length, take, Some, None, if◌then◌else◌, OnOk, OnSome, IfOk, IfSome, IsTrue};
ghost use Rattle.std.specs.List.{prefix_len};
ghost use Rattle.std.specs.Char.{is_ascii_digit};
ghost use Rattle.std.specs.Str.{is_utf8, bytes_eq};
ghost use Rattle.std.specs.Option.{option_map};
ghost use Rattle.query_lang.specs.Answers.{Gives};
ghost use Rattle.query_lang.specs.Tokens.{is_blank, is_name_byte, is_name_start, is_number_start, past_blanks, goes_on, token_at, name_at, word_of, number_at, number_of, IsLiteral, symbol_at, long_symbol, short_symbol, string_at, quoted, unescape};
ghost use Rattle.query_lang.specs.declared.scan.ScanFault.TheVariants.{Memory as out_of_memory};

use crate::token::{Operator, Token};
use ev_types::{Blob, Memory, Text, TextFault};
use pred_eval::Ordering;
use std::alloc::{AllocFailed, Global};
use std::str;
use string_literals::escaped;

/// Why no token was read.
#[derive(Clone, Copy, PartialEq, Eq)]
pub(crate) enum ScanFault {
    Unreadable,
    Memory,
}

impl From<Memory> for ScanFault {
    ghost from_gives = { λ _ fault. fault ≡ out_of_memory };

    fn from(_memory: Memory) -> ScanFault {
        ScanFault::Memory
    }
}

/// The bytes from the first one on that is not a blank.
pub(crate) fn past_blanks(bytes: &[u8]) -> &[u8]
    ensures { result.now ≡ past_blanks bytes.now }
{
    let mut rest = bytes;
    while let Some((byte, after)) = rest.split_first() {
        if !is_blank(*byte) {
            return rest;
        }
        rest = after;
    }
    rest
}

/// The first token of the bytes, and the bytes after it.
#[tactic(auto, unfolding(crate::specs::Tokens::token_at))]
pub(crate) fn token_at(alloc: Global, bytes: &[u8]) -> Result<(Token, &[u8]), ScanFault>
    ensures read { Gives (λ x. (x.0, x.1.now)) ScanFault.Unreadable result (token_at bytes.now) }
{
    match bytes.split_first() {
        Some((byte, _)) if is_name_start(*byte) => name_at(alloc, bytes),
        Some((byte, _)) if is_number_start(*byte) => number_at(bytes).ok_or(ScanFault::Unreadable),
        Some((b'"', after)) => string_at(alloc, after),
        Some(_) => symbol_at(bytes).ok_or(ScanFault::Unreadable),
        None => Err(ScanFault::Unreadable),
    }
}

fn is_blank(byte: u8) -> bool
    ensures { result ≡ is_blank byte }
{
    byte == b' ' || byte == b'\t' || byte == b'\r' || byte == b'\n'
}

fn is_name_start(byte: u8) -> bool
    ensures { result ≡ is_name_start byte }
{
    byte.is_ascii_alphabetic() || byte == b'_'
}

fn is_name_byte(byte: u8) -> bool
    ensures { result ≡ is_name_byte byte }
{
    byte.is_ascii_alphanumeric() || byte == b'_' || byte == b'-' || byte == b'.'
}

fn is_number_start(byte: u8) -> bool
    ensures { result ≡ is_number_start byte }
{
    byte == b'-' || byte.is_ascii_digit()
}

/// The name at the start, or the word that it is.
#[tactic(auto, using(crate::proofs::ScanLaws::names_are_utf8), unfolding(crate::specs::Tokens::name_at))]
fn name_at(alloc: Global, bytes: &[u8]) -> Result<(Token, &[u8]), ScanFault>
    ensures { Gives (λ x. (x.0, x.1.now)) ScanFault.Unreadable result (Some (name_at bytes.now)) }
{
    let (name, rest) = bytes.split_at(name_len(bytes));
    let token = match word_of(name) {
        Some(word) => word,
        None => Token::Name(read_text(alloc, name)?),
    };
    Ok((token, rest))
}

/// The number of name bytes at the start.
fn name_len(bytes: &[u8]) -> usize
    ensures value { result ≡ prefix_len is_name_byte bytes.now }
    ensures within { result ≤ length bytes.now }
{
    bytes.iter().take_while(|byte| is_name_byte(**byte)).count()
}

/// The number of digits at the start.
fn digits_len(bytes: &[u8]) -> usize
    ensures value { result ≡ prefix_len is_ascii_digit bytes.now }
    ensures within { result ≤ length bytes.now }
{
    bytes
        .iter()
        .take_while(|byte| byte.is_ascii_digit())
        .count()
}

/// The word that the name is, where it is one.
#[tactic(auto, unfolding(crate::specs::Tokens::word_of))]
fn word_of(name: &[u8]) -> Option<Token>
    ensures { result ≡ word_of name.now }
{
    if is(name, b"and") {
        Some(Token::And)
    } else if is(name, b"or") {
        Some(Token::Or)
    } else if is(name, b"not") {
        Some(Token::Not)
    } else if is(name, b"true") {
        Some(Token::True)
    } else if is(name, b"false") {
        Some(Token::False)
    } else if is(name, b"nil") {
        Some(Token::Nil)
    } else if is(name, b"tagged") {
        Some(Token::Tagged)
    } else {
        None
    }
}

fn is(bytes: &[u8], wanted: &[u8]) -> bool
    ensures { result ≡ bytes_eq bytes.now wanted.now }
{
    bytes == wanted
}

/// The text of these bytes.
#[tactic(auto, using(crate::proofs::ScanLaws::read_utf8, crate::proofs::ScanLaws::no_utf8))]
fn read_text(alloc: Global, bytes: &[u8]) -> Result<Text, ScanFault>
    ensures { Gives (λ text. text) ScanFault.Unreadable result
        (if is_utf8 bytes.now then Some bytes.now else None) }
{
    match Text::read(alloc, bytes) {
        Ok(text) => Ok(text),
        Err(TextFault::Utf8 { .. }) => Err(ScanFault::Unreadable),
        Err(TextFault::Memory) => Err(ScanFault::Memory),
    }
}

/// The number at the start.
#[tactic(auto, using(crate::proofs::ScanLaws::literal_at), unfolding(crate::specs::Tokens::number_at))]
fn number_at(bytes: &[u8]) -> Option<(Token, &[u8])>
    requires { IsLiteral (take 1 bytes.now) }
    ensures { option_map (λ x. (x.0, x.1.now)) result ≡ number_at bytes.now }
{
    let size = 1 + digits_len(&bytes[1..]);
    let (literal, rest) = bytes.split_at(size);
    if goes_on(rest) {
        return None;
    }
    let number = number_of(literal)?;
    Some((Token::Number(number), rest))
}

/// Whether the first byte is a name byte.
fn goes_on(bytes: &[u8]) -> bool
    ensures { result ≡ goes_on bytes.now }
{
    match bytes.split_first() {
        Some((byte, _)) => is_name_byte(*byte),
        None => false,
    }
}

/// The number that digits spell, a minus before them or not, where it has 64 bits.
#[tactic(auto, using(crate::proofs::ScanLaws::literal_utf8))]
fn number_of(literal: &[u8]) -> Option<i64>
    requires { IsLiteral literal.now }
    ensures { result ≡ number_of literal.now }
{
    let Ok(literal) = str::from_utf8(literal) else {
        return None;
    };
    literal.parse::<i64>().ok()
}

/// The string after its opening quote.
#[tactic(auto, unfolding(crate::specs::Tokens::string_at))]
fn string_at(alloc: Global, bytes: &[u8]) -> Result<(Token, &[u8]), ScanFault>
    ensures { Gives (λ x. (x.0, x.1.now)) ScanFault.Unreadable result (string_at bytes.now) }
{
    let (content, rest) = quoted(alloc, bytes)?;
    let text = read_text(alloc, content.as_slice())?;
    Ok((Token::Quoted(text), rest))
}

/// What a string holds, and the bytes after its closing quote.
#[tactic(auto, using(crate::proofs::ScanLaws::following_more, crate::proofs::ScanLaws::following_none, crate::proofs::ScanLaws::quoted_stops, crate::proofs::ScanLaws::quoted_more))]
fn quoted(alloc: Global, bytes: &[u8]) -> Result<(Blob, &[u8]), ScanFault>
    ensures { Gives (λ x. (x.0, x.1.now)) ScanFault.Unreadable result (quoted bytes.now) }
{
    let mut content = Blob::fresh(alloc);
    let mut rest = bytes;
    'bytes: while let Some((byte, after)) = rest.split_first() {
        if *byte == b'"' {
            return Ok((content, after));
        }
        let Some((meant, after)) = unescape(*byte, after) else {
            return Err(ScanFault::Unreadable);
        };
        content.push(alloc, meant)?;
        rest = after;
    }
    Err(ScanFault::Unreadable)
}

/// The byte that the byte represents, with the one after it where it is a backslash, and the bytes after these.
fn unescape(byte: u8, after: &[u8]) -> Option<(u8, &[u8])>
    ensures { option_map (λ x. (x.0, x.1.now)) result ≡ unescape byte after.now }
{
    if byte != b'\\' {
        return Some((byte, after));
    }
    let (letter, after) = after.split_first()?;
    let meant = escaped(*letter)?;
    Some((meant, after))
}

/// The longest symbol at the start.
fn symbol_at(bytes: &[u8]) -> Option<(Token, &[u8])>
    ensures { option_map (λ x. (x.0, x.1.now)) result ≡ symbol_at bytes.now }
{
    let (first, after) = bytes.split_first()?;
    if let Some((second, rest)) = after.split_first() {
        if let Some(token) = long_symbol(*first, *second) {
            return Some((token, rest));
        }
    }
    let token = short_symbol(*first)?;
    Some((token, after))
}

/// The symbol of these two bytes.
#[tactic(auto, unfolding(crate::specs::Tokens::long_symbol))]
fn long_symbol(first: u8, second: u8) -> Option<Token>
    ensures { result ≡ long_symbol first second }
{
    match (first, second) {
        (b'!', b'=') => Some(Token::Operator(Operator::Unequal)),
        (b'<', b'=') => Some(Token::Operator(Operator::Order(Ordering::LessEqual))),
        (b'>', b'=') => Some(Token::Operator(Operator::Order(Ordering::GreaterEqual))),
        (b'=', b'~') => Some(Token::Operator(Operator::Wild)),
        (b'~', b'=') => Some(Token::Operator(Operator::Search)),
        _ => None,
    }
}

/// The symbol of this byte.
#[tactic(auto, unfolding(crate::specs::Tokens::short_symbol))]
fn short_symbol(byte: u8) -> Option<Token>
    ensures { result ≡ short_symbol byte }
{
    match byte {
        b'(' => Some(Token::Open),
        b')' => Some(Token::Close),
        b'=' => Some(Token::Operator(Operator::Equal)),
        b'<' => Some(Token::Operator(Operator::Order(Ordering::Less))),
        b'>' => Some(Token::Operator(Operator::Order(Ordering::Greater))),
        _ => None,
    }
}
