ghost use Rattle.graphite_lines.specs.Examples.{LineExamples, ValueExamples, TextExamples};

/// What small lines and texts say, computed by the definitions.
pub fn graphite_examples_are_computed()
    ensures values { ValueExamples }
    ensures lines { LineExamples }
    ensures texts { TextExamples }
{}
