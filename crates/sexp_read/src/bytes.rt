//! What the bytes of a text are to a form.

ghost use Rattle.std.specs.Prelude.{◌≡◌};
ghost use Rattle.std.specs.List.{list_all};
ghost use Rattle.sexp_read.specs.Bytes.{class_of as byte_class, runs_on as class_runs_on, is_letter as letter, is_digit as digit, is_name_byte as name_byte, is_symbol_byte as symbol_byte, is_name_start as name_start, is_name as name_of_bytes, is_keyword as keyword_of_bytes, is_symbol as symbol_of_bytes, is_word as word_of_bytes, is_comparison as comparison_of_bytes, begins_number as number_begins};

use crate::piece::{Bracket, Class};

/// What begins at the byte, where no piece goes on.
pub(crate) fn class_of(byte: u8) -> Class
    ensures { result ≡ byte_class byte }
{
    match byte {
        b' ' | b'\t' | b'\r' | b'\n' | b',' => Class::Separator,
        b';' => Class::Comment,
        b'(' => Class::Opens(Bracket::Round),
        b'[' => Class::Opens(Bracket::Square),
        b'{' => Class::Opens(Bracket::Curly),
        b')' => Class::Closes(Bracket::Round),
        b']' => Class::Closes(Bracket::Square),
        b'}' => Class::Closes(Bracket::Curly),
        b'"' => Class::Quote,
        b'#' => Class::Hash,
        _ => Class::Run,
    }
}

/// Whether a run of bytes goes on with the byte.
pub(crate) fn runs_on(byte: u8) -> bool
    ensures { result ≡ class_runs_on (byte_class byte) }
{
    match class_of(byte) {
        Class::Hash | Class::Run => true,
        Class::Separator | Class::Comment | Class::Opens(_) | Class::Closes(_) | Class::Quote =>
            false,
    }
}

fn is_letter(byte: u8) -> bool
    ensures { result ≡ letter byte }
{
    match byte {
        b'A'..=b'Z' | b'a'..=b'z' => true,
        _ => false,
    }
}

fn is_digit(byte: u8) -> bool
    ensures { result ≡ digit byte }
{
    match byte {
        b'0'..=b'9' => true,
        _ => false,
    }
}

fn is_name_start(byte: u8) -> bool
    ensures { result ≡ name_start byte }
{
    is_letter(byte) || byte == b'_'
}

fn is_name_byte(byte: u8) -> bool
    ensures { result ≡ name_byte byte }
{
    is_letter(byte) || is_digit(byte) || byte == b'_' || byte == b'-' || byte == b'.'
}

fn is_symbol_byte(byte: u8) -> bool
    ensures { result ≡ symbol_byte byte }
{
    is_letter(byte)
        || is_digit(byte)
        || match byte {
            b'_' | b'.' | b'/' | b'?' | b'!' | b'*' | b'-' => true,
            _ => false,
        }
}

fn are_name_bytes(bytes: &[u8]) -> bool
    ensures { result ≡ list_all name_byte bytes.now }
{
    bytes.iter().all(|byte| is_name_byte(*byte))
}

fn are_symbol_bytes(bytes: &[u8]) -> bool
    ensures { result ≡ list_all symbol_byte bytes.now }
{
    bytes.iter().all(|byte| is_symbol_byte(*byte))
}

/// Whether the bytes are the name of a keyword.
fn is_name(bytes: &[u8]) -> bool
    ensures { result ≡ name_of_bytes bytes.now }
{
    match bytes {
        [] => false,
        [first, rest @ ..] => { is_name_start(*first) && are_name_bytes(rest) }
    }
}

/// Whether the run is a keyword.
pub(crate) fn is_keyword(run: &[u8]) -> bool
    ensures { result ≡ keyword_of_bytes run.now }
{
    match run {
        [] => false,
        [first, rest @ ..] => *first == b':' && is_name(rest),
    }
}

fn is_word(run: &[u8]) -> bool
    ensures { result ≡ word_of_bytes run.now }
{
    match run {
        [] => false,
        [first, rest @ ..] => { is_name_start(*first) && are_symbol_bytes(rest) }
    }
}

fn is_comparison(run: &[u8]) -> bool
    ensures { result ≡ comparison_of_bytes run.now }
{
    run == b"=".as_slice()
        || run == b"not=".as_slice()
        || run == b"<".as_slice()
        || run == b"<=".as_slice()
        || run == b">".as_slice()
        || run == b">=".as_slice()
}

/// Whether the run is a symbol.
pub(crate) fn is_symbol(run: &[u8]) -> bool
    ensures { result ≡ symbol_of_bytes run.now }
{
    is_word(run) || is_comparison(run)
}

/// Whether the run has to be a number.
pub(crate) fn begins_number(run: &[u8]) -> bool
    ensures { result ≡ number_begins run.now }
{
    match run {
        [] => false,
        [b'-' | b'+', second, ..] => is_digit(*second),
        [first, ..] => is_digit(*first),
    }
}
