//! What ties writing and reading together.

ghost use Rattle.query_lang.specs.ReadBack.{QueriesAreReadBack};

/// What is written of a rule that was read is read again as that rule, where it is within the limits of a query.
pub fn written_is_read()
    ensures { QueriesAreReadBack }
{}
