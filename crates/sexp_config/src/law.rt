//! What the definition of a configuration owes, apart from how a text is read.

ghost use Rattle.sexp_config.specs.Answer.{TextsAreAnswered, ConfigsAreNotRefused, ConfigsAreOne, RefusalsAreOne};
ghost use Rattle.sexp_config.specs.Config.{ConfigsAreRead};
ghost use Rattle.sexp_config.specs.WellBuilt.{ReadPlansHaveNoFault};
ghost use Rattle.sexp_config.specs.ReadBack.{CanonicalIsRead};

/// The forms that are read as a configuration are exactly those that represent it by the grammar. So forms represent
/// one configuration at most.
pub fn configs_are_read()
    ensures { ConfigsAreRead }
{}

/// What is written of a configuration that was read is read again as that configuration, where it is within the limits
/// of a text.
pub fn written_is_read()
    ensures { CanonicalIsRead }
{}

/// The plan of a configuration that was read has no fault: it has at most 4,096 streams, at most 64 of them in a row
/// from the top down, and each has no streams but those that may follow it, its numbers and sets in their ranges, takes
/// what its parent passes on, and is no `By` with `idle` below another `By`.
pub fn read_plans_have_no_fault()
    ensures { ReadPlansHaveNoFault }
{}

/// Each text has one answer: the configuration that it is, or the place and the cause for which it is refused.
pub fn texts_have_one_answer()
    ensures answered { TextsAreAnswered }
    ensures apart { ConfigsAreNotRefused }
    ensures one { ConfigsAreOne }
    ensures one_refusal { RefusalsAreOne }
{}
