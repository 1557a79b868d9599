ghost use Rattle.std.specs.Prelude.{◌≡◌, ◌↔◌, IsTrue};
ghost use Rattle.std.specs.List.{starts_with};
ghost use Rattle.list_laws.specs.Prefix.{IsPrefix, TellsApart};

/// Whether the list `whole` begins with the list `front`.
pub fn is_prefix<T: Eq>(front: &[T], whole: &[T]) -> bool
    ensures equal { result ≡ starts_with T.eq whole.now front.now }
    ensures same { TellsApart T.eq → IsTrue result ↔ IsPrefix front.now whole.now }
{
    whole.starts_with(front)
}
