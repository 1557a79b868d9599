//! What the definitions of tokens and forms owe, apart from how a text is read.

ghost use Rattle.sexp_read.specs.Prefixes.{FaultsAreFirst, ClosedAreForms, FormsAreClosed, FormsAreOne};
ghost use Rattle.sexp_read.specs.Written.{WrittenIsRead, ReadIsWritable};

/// The fault of the brackets comes at the first token with which the tokens so far begin no forms, however they go on,
/// or with which one bracket too many is open. Tokens without such a fault are those of forms exactly where they leave
/// no bracket open, and then of no other forms.
pub fn faults_are_first()
    ensures first { FaultsAreFirst }
    ensures closed { ClosedAreForms }
    ensures open { FormsAreClosed }
    ensures one { FormsAreOne }
{}

/// What is written of forms is read again as these forms, up to their places, where it is within the limits of a text.
/// Forms that were read can be written.
pub fn written_is_read()
    ensures read { WrittenIsRead }
    ensures writable { ReadIsWritable }
{}
