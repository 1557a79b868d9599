ghost use Rattle.std.specs.Prelude.{◌≡◌};
ghost use Rattle.string_literals.specs.Literals.{escaped};

/// The byte that a backslash and the letter represent in a literal, or `None` where they are not an escape. The letters
/// are `"`, `\`, `n` for LF, `r` for CR and `t` for tab.
pub fn escaped(letter: u8) -> Option<u8>
    ensures { result ≡ escaped letter }
{
    match letter {
        b'"' | b'\\' => Some(letter),
        b'n' => Some(b'\n'),
        b'r' => Some(b'\r'),
        b't' => Some(b'\t'),
        _ => None,
    }
}
