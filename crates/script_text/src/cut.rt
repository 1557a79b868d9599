//! Cutting bytes at a separator.

ghost use Rattle.std.specs.Prelude.{◌≡◌, ◌==◌, ◌<◌, [], ◌∷◌, length, position, IfSome, MatchOption};
ghost use Rattle.std.specs.List.{slice_split};

/// The place of the first such byte.
fn find(bytes: &[u8], wanted: u8) -> Option<usize>
    ensures { result ≡ position (λ byte. byte == wanted) bytes.now }
{
    bytes.iter().position(|byte| *byte == wanted)
}

/// The bytes up to the first separator, and the bytes after it, where there is one.
#[tactic(auto, using(crate::proofs::CutLemmas::cut_at, crate::proofs::CutLemmas::cut_nowhere))]
pub(crate) fn cut(bytes: &[u8], separator: u8) -> (&[u8], Option<&[u8]>)
    ensures parts { MatchOption result.1
        (slice_split (λ byte. byte == separator) bytes.now ≡ result.0.now ∷ [])
        (λ rest. slice_split (λ byte. byte == separator) bytes.now
        ≡ result.0.now ∷ slice_split (λ byte. byte == separator) rest.now) }
    ensures shorter { IfSome result.1 (λ rest. length rest.now < length bytes.now) }
{
    match find(bytes, separator) {
        Some(end) => (&bytes[..end], Some(&bytes[end + 1..])),
        None => (bytes, None),
    }
}
