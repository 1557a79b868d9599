//! The words of tests.

ghost use Rattle.std.specs.Prelude.{◌≡◌};
ghost use Rattle.config_tests.specs.Words.{entry_word};

use ev_types::Text;

/// A word that begins an entry of a test.
#[derive(Clone, Copy, PartialEq, Eq)]
pub(crate) enum EntryWord {
    Tick,
    Event,
    Expect,
}

/// The word of this name that begins an entry.
#[tactic(auto, unfolding(crate::specs::Words::entry_word))]
pub(crate) fn entry_word(name: &Text) -> Option<EntryWord>
    ensures { result ≡ entry_word name.now }
{
    match name.as_str() {
        "tick" => Some(EntryWord::Tick),
        "event" => Some(EntryWord::Event),
        "expect" => Some(EntryWord::Expect),
        _ => None,
    }
}
