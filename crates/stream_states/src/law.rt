ghost use Rattle.stream_states.specs.VectorLaws.{VectorsPassNothing, VectorsAreIgnored};

/// A vector that comes to a stream of a kind that keeps something counts for nothing: nothing is passed on, and the
/// state is that of the longer history too.
pub fn vectors_are_ignored()
    ensures emissions { VectorsPassNothing }
    ensures states { VectorsAreIgnored }
{}
