//! What the reading of streams owes the grammar.

ghost use Rattle.config_streams.specs.Grammar.{StreamsAreRead, OnlyStreamsAreRead};

/// The forms that are read as streams are exactly those of the grammar, and these streams come after those that there
/// were. So forms represent one list of streams at most.
pub fn streams_are_read()
    ensures read { StreamsAreRead }
    ensures only { OnlyStreamsAreRead }
{}
