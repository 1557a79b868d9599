ghost use Rattle.key_laws.specs.Examples.{TestExamples, SetHostMixes, ForgottenHostMixes, SharedStreamMixes};

/// Which small plans have keys that are apart; and that keys are mixed where a stream sets one of the fields, expired
/// events lose one, or a stream that keeps something is beside the `by`. All of it is computed by the definitions.
pub fn key_examples_are_computed()
    ensures tests { TestExamples }
    ensures set_host { SetHostMixes }
    ensures forgotten_host { ForgottenHostMixes }
    ensures shared_stream { SharedStreamMixes }
{}
