ghost use Rattle.std.specs.Prelude.{◌≡◌, ◌++◌, OnOk, OnErr};
ghost use Rattle.std.specs.List.{flat_map};
ghost use Rattle.list_laws.specs.Prefix.{IsPrefix};
ghost use Rattle.string_literals.specs.Literals.{escape, string_literal};

use ev_types::{Blob, Memory, Text};
use std::alloc::Global;

/// Appends the text as a literal. `"`, `\`, LF, CR and tab are written as escapes, and every other byte as it is. After
/// `Memory` what `out` had is a prefix of it.
pub fn put_literal(alloc: Global, text: &Text, out: &mut Blob) -> Result<(), Memory>
    ensures ok { OnOk result (out.new ≡ out.old ++ string_literal text.now) }
    ensures err { OnErr result (IsPrefix out.old out.new) }
{
    out.push(alloc, b'"')?;
    put_content(alloc, text.as_bytes(), out)?;
    out.push(alloc, b'"')?;
    Ok(())
}

// Appends the bytes between the quotes.
#[tactic(auto, using(crate::proofs::ContentLaws::content_more, crate::proofs::ContentLaws::content_all, crate::proofs::ContentLaws::content_none))]
fn put_content(alloc: Global, bytes: &[u8], out: &mut Blob) -> Result<(), Memory>
    ensures ok { OnOk result (out.new ≡ out.old ++ flat_map escape bytes.now) }
    ensures err { OnErr result (IsPrefix out.old out.new) }
{
    for byte in bytes {
        put_escaped(alloc, *byte, out)?;
    }
    Ok(())
}

// Appends a byte, or its escape.
fn put_escaped(alloc: Global, byte: u8, out: &mut Blob) -> Result<(), Memory>
    ensures ok { OnOk result (out.new ≡ out.old ++ escape byte) }
    ensures err { OnErr result (IsPrefix out.old out.new) }
{
    match byte {
        b'"' => out.append(alloc, b"\\\"")?,
        b'\\' => out.append(alloc, b"\\\\")?,
        b'\n' => out.append(alloc, b"\\n")?,
        b'\r' => out.append(alloc, b"\\r")?,
        b'\t' => out.append(alloc, b"\\t")?,
        _ => out.push(alloc, byte)?,
    }
    Ok(())
}
