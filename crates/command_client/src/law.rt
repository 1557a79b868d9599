//! What holds of the definitions of a client.

ghost use Rattle.command_client.specs.Queries.{QueriesAreRequests};

/// The frame of a message that asks a query is one request.
pub fn queries_are_requests()
    ensures { QueriesAreRequests }
{}
