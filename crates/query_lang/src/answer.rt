//! What follows of the grammar of queries.

ghost use Rattle.query_lang.specs.Answer.{AnswersAreOne, PatternsAreFew, TextsAreAnswered};

/// Each text has one answer: the rule that it states as a query, or the first place at which it is not valid. A query
/// has at most 4,096 regular expressions.
pub fn texts_have_one_answer()
    ensures answered { TextsAreAnswered }
    ensures one { AnswersAreOne }
    ensures few { PatternsAreFew }
{}
