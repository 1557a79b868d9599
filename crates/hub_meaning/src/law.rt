ghost use Rattle.hub_meaning.specs.Laws.{
  StepsComeInOrder,
  LegalInOrder,
  MessagesComeWhole,
  NewFramesAreOfTheRest,
  PrefixesAreSent,
  NumbersRise,
};

/// The later steps of a run go on from the state after its first ones. The run is legal where both parts are.
pub fn steps_come_in_order()
    ensures order { StepsComeInOrder }
    ensures legal { LegalInOrder }
{}

/// A piece that is read from a link adds frames after the earlier ones: those of the bytes after the last whole frame,
/// together with the piece.
pub fn messages_come_whole()
    ensures whole { MessagesComeWhole }
    ensures rest { NewFramesAreOfTheRest }
{}

/// In a legal run, what was taken of a link is a prefix of its replies.
pub fn prefixes_are_sent()
    ensures { PrefixesAreSent }
{}

/// Links are in rising order of number.
pub fn numbers_rise()
    ensures { NumbersRise }
{}
