//! What is so of every table of forks.

ghost use Rattle.fork_by.specs.Laws.{
  ForksAreApart,
  KeysHaveForks,
  ForksAreReached,
  NumbersReachForks,
  LatestIsOfForks,
  WrittenIsTable,
  WrittenHasForks,
  WrittenIsReplaced,
};

/// Each fork has a key and a number of its own, and the number of a key is that of the key's fork.
pub fn forks_are_apart<F>()
    ensures apart { ForksAreApart F }
    ensures keys { KeysHaveForks F }
{}

/// A number that has a fork reaches it, and each fork is reached by its number.
pub fn numbers_reach_forks<F>()
    ensures forks { ForksAreReached F }
    ensures numbers { NumbersReachForks F }
{}

/// If no fork has a moment after `now`, no label has one, and then `add` and `touch` keep `now` itself.
pub fn latest_is_of_forks<F>()
    ensures { LatestIsOfForks F }
{}

/// A fork that is written through what `enter` lends takes the place of that fork alone. The table is still one, and
/// every number that had a fork has one.
pub fn written_forks_are_replaced<F>()
    ensures table { WrittenIsTable F }
    ensures numbers { WrittenHasForks F }
    ensures forks { WrittenIsReplaced F }
{}
