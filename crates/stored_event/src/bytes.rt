//! Equality of bytes, most of which are hosts and services of at most 32.

ghost use Rattle.std.specs.Prelude.{◌≡◌, ◌*◌, ◌≤◌, ◌↔◌, length, IsTrue};

/// Whether both have the same bytes. Few bytes are compared by two words, the first and the last one, which may overlap:
/// a call would cost more.
#[inline]
pub(crate) fn are_equal(a: &[u8], b: &[u8]) -> bool
    ensures { IsTrue result ↔ (a.now ≡ b.now) }
{
    if a.len() != b.len() {
        return false;
    }
    match a.len() {
        4..=8 => ends_are_equal::<4>(a, b),
        9..=16 => ends_are_equal::<8>(a, b),
        17..=32 => ends_are_equal::<16>(a, b),
        _ => a == b,
    }
}

/// Whether the first and the last `N` bytes are the same. These are all bytes.
#[tactic(auto, using(crate::proofs::Ends::ends_decide))]
#[inline(always)]
fn ends_are_equal<const N: usize>(a: &[u8], b: &[u8]) -> bool
    requires same_len { length a.now ≡ length b.now }
    requires at_least { N ≤ length a.now }
    requires at_most { length a.now ≤ 2 * N }
    ensures { IsTrue result ↔ (a.now ≡ b.now) }
{
    let (Some(first), Some(other_first)) = (a.first_chunk::<N>(), b.first_chunk::<N>()) else {
        return false;
    };
    let (Some(last), Some(other_last)) = (a.last_chunk::<N>(), b.last_chunk::<N>()) else {
        return false;
    };
    is_same(first, other_first) && is_same(last, other_last)
}

#[inline(always)]
fn is_same<const N: usize>(a: &[u8; N], b: &[u8; N]) -> bool
    ensures { IsTrue result ↔ (a.now ≡ b.now) }
{
    *a == *b
}
