ghost use Rattle.hub_meaning.specs.Examples.{
  ClockExample,
  LateRoomExample,
  AllTakenExample,
  ClosedEarlyExample,
  ConnectedExample,
};

/// What small runs come to, as the definitions compute it.
pub fn examples_are_computed()
    ensures clock { ClockExample }
    ensures late_room { LateRoomExample }
    ensures all_taken { AllTakenExample }
    ensures closed_early { ClosedEarlyExample }
    ensures connected { ConnectedExample }
{}
