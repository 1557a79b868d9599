//! What ties writing and reading together.

ghost use Rattle.std.specs.Prelude.{ℕ, ◌^◌, ◌≤◌};
ghost use Rattle.riemann_msg.specs.Ttl.{IsSpellableTtl};
ghost use Rattle.riemann_msg.specs.ReadBack.{MessagesAreReadBack};

/// What is written is read again as it was, at any moment: each message whose events have the time that their
/// time_micros gives, where they have that field, and a ttl that bits represent, and whose texts are UTF-8.
pub fn written_is_read()
    ensures { MessagesAreReadBack }
{}

/// Every whole number of seconds up to 16,777,216 can be spelled as a ttl.
pub fn small_ttls_are_spellable()
    ensures { (seconds : ℕ) → seconds ≤ 2 ^ 24 → IsSpellableTtl seconds }
{}
