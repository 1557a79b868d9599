ghost use Rattle.std.specs.Prelude.{◌≡◌, ◌<◌, ◌≤◌, ◌/◌, ◌%◌, ◌||◌, ◌∷◌, ◌++◌, [], length, take, OnOk, OnErr};
ghost use Rattle.std.specs.List.{flat_map};
ghost use Rattle.list_laws.specs.Prefix.{IsPrefix};
ghost use Rattle.notice_sink.specs.Quoting.{hex_digit, is_control, is_escaped, quoted, quoted_byte};

use ev_types::{Blob, Memory, Text};
use std::alloc::Global;

/// Appends the text in double quotes, with a backslash before `"` and `\`, and bytes below 32, and 127, as `\x` and two
/// hexadecimal digits in lower case. After `Memory`, `out` begins with what it had.
pub fn put_quoted(alloc: Global, text: &Text, out: &mut Blob) -> Result<(), Memory>
    ensures ok { OnOk result (out.new ≡ out.old ++ quoted text.now) }
    ensures err { OnErr result (IsPrefix out.old out.new) }
{
    out.push(alloc, b'"')?;
    put_content(alloc, text.as_bytes(), out)?;
    out.push(alloc, b'"')
}

/// Appends what is between the quotes: stretches of plain bytes whole, and the others one by one.
#[tactic(auto, using(crate::proofs::QuotingLemmas::stretch, crate::proofs::QuotingLemmas::stretch_last))]
fn put_content(alloc: Global, bytes: &[u8], out: &mut Blob) -> Result<(), Memory>
    ensures ok { OnOk result (out.new ≡ out.old ++ flat_map quoted_byte bytes.now) }
    ensures err { OnErr result (IsPrefix out.old out.new) }
{
    let mut rest = bytes;
    'stretches: loop {
        let count = count_plain(rest);
        let (plain, others) = rest.split_at(count);
        out.append(alloc, plain)?;
        let Some((byte, more)) = others.split_first() else {
            return Ok(());
        };
        put_byte(alloc, *byte, out)?;
        rest = more;
    }
}

/// The number of bytes at the start that are written as they are.
#[tactic(auto, using(crate::proofs::QuotingLemmas::plain_more))]
fn count_plain(bytes: &[u8]) -> usize
    ensures within { result ≤ length bytes.now }
    ensures plain { flat_map quoted_byte (take result bytes.now) ≡ take result bytes.now }
{
    let mut count = 0;
    for byte in bytes {
        if is_escaped(*byte) || is_control(*byte) {
            return count;
        }
        count += 1;
    }
    count
}

fn is_escaped(byte: u8) -> bool
    ensures { result ≡ is_escaped byte }
{
    byte == b'"' || byte == b'\\'
}

fn is_control(byte: u8) -> bool
    ensures { result ≡ is_control byte }
{
    byte < 32 || byte == 127
}

/// Appends a byte of a text.
fn put_byte(alloc: Global, byte: u8, out: &mut Blob) -> Result<(), Memory>
    ensures ok { OnOk result (out.new ≡ out.old ++ quoted_byte byte) }
    ensures err { OnErr result (IsPrefix out.old out.new) }
{
    if is_escaped(byte) {
        out.append(alloc, &[b'\\', byte])
    } else if is_control(byte) {
        put_hex(alloc, byte, out)
    } else {
        out.push(alloc, byte)
    }
}

/// Appends `\x` and the two digits of the byte.
fn put_hex(alloc: Global, byte: u8, out: &mut Blob) -> Result<(), Memory>
    ensures ok { OnOk result (out.new ≡ out.old
        ++ (92 ∷ 120 ∷ hex_digit (byte / 16) ∷ hex_digit (byte % 16) ∷ [])) }
    ensures err { OnErr result (out.new ≡ out.old) }
{
    let (high, low) = (hex_digit(byte / 16), hex_digit(byte % 16));
    out.append(alloc, &[b'\\', b'x', high, low])
}

fn hex_digit(digit: u8) -> u8
    requires { digit < 16 }
    ensures { result ≡ hex_digit digit }
{
    if digit < 10 {
        b'0' + digit
    } else {
        b'a' - 10 + digit
    }
}
