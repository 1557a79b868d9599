//! What the reading of tests owes the grammar.

ghost use Rattle.config_tests.specs.Answer.{TextsAreAnswered, TestsAreNotRefused, TestsAreOne, RefusalsAreOne};
ghost use Rattle.config_tests.specs.Tests.{TestsAreRead, FaultsAreFirst};

/// The forms that are read as tests are exactly those that represent these tests by the grammar. So forms represent one
/// list of tests at most.
pub fn tests_are_read()
    ensures { TestsAreRead }
{}

/// Forms are refused for exactly the first fault that they have, at its place: what comes before it represents
/// something by the grammar.
pub fn faults_are_first()
    ensures { FaultsAreFirst }
{}

/// Each text has one answer: the tests that it is, or the place and the cause for which it is refused.
pub fn texts_have_one_answer()
    ensures answered { TextsAreAnswered }
    ensures apart { TestsAreNotRefused }
    ensures one { TestsAreOne }
    ensures one_refusal { RefusalsAreOne }
{}
