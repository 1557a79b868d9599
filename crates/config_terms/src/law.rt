//! What the readings of forms owe the grammar.

ghost use Rattle.config_terms.specs.Grammar.{PredicatesAreRead};
ghost use Rattle.config_terms.specs.Terms.{TextsAreRead, NumbersAreRead, ValuesAreRead, FieldsAreRead, RangesAreRead, TextVectorsAreRead, FieldVectorsAreRead, SetsAreRead, SetMapsAreRead, InitsAreRead, IdlesAreRead};

/// The forms that are read as predicates are exactly those of the grammar, each as the rule that the grammar says. So a
/// form represents one rule at most.
pub fn predicates_are_read()
    ensures { PredicatesAreRead }
{}

/// The forms that are read as texts, numbers, values and fields are exactly those of the grammar.
pub fn terms_are_read()
    ensures texts { TextsAreRead }
    ensures numbers { NumbersAreRead }
    ensures values { ValuesAreRead }
    ensures fields { FieldsAreRead }
{}

/// The forms that are read as numbers in a range, as vectors of texts or of fields, as sets, and as maps of sets, with
/// a value after `:init` or with a number after `:idle` are exactly those of the grammar.
pub fn groups_are_read()
    ensures ranges { RangesAreRead }
    ensures texts { TextVectorsAreRead }
    ensures fields { FieldVectorsAreRead }
    ensures sets { SetsAreRead }
    ensures maps { SetMapsAreRead }
    ensures inits { InitsAreRead }
    ensures idles { IdlesAreRead }
{}
