ghost use Rattle.hub_run.specs.Laws.{FeedsAreAnswered, FeedsArePosted, PrefixesAreTaken, SendsAreTaken};

/// What a legal run of turns took of a link is what the link was sent, and a prefix of its replies.
pub fn sends_are_taken()
    ensures sent { SendsAreTaken }
    ensures prefix { PrefixesAreTaken }
{}

/// Where bytes are fed to a server on link 0, all its replies to that link are taken once the links are settled.
pub fn feeds_are_answered()
    ensures { FeedsAreAnswered }
{}

/// Where bytes are fed to a server on link 0, and nothing is left after their last whole frame, the events of all
/// messages are posted in order, at moment 0.
pub fn feeds_are_posted()
    ensures { FeedsArePosted }
{}
