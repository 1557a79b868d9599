ghost use Rattle.stream_meaning.specs.Examples.{
  NoticeExample,
  TagExample,
  ChangedExample,
  ChangedFromExample,
  RunsExample,
  ThrottleExample,
  RollupExample,
  RollupOfOneExample,
  BatchExample,
  StableExample,
  DeliveryExample,
  TickFirstExample,
  BothComeExample,
  FixedEventExample,
  FixedTimeExample,
  MovingTimeExample,
  CoalesceExample,
  ForksExample,
  SumExample,
  LeastExample,
  GreatestExample,
  CountExample,
  GreatSumExample,
  NoSumExample,
  SortedOutExample,
  VectorExample,
  DueExample,
  NotDueExample,
  GivenExample,
  DeadlineExample,
};
ghost use Rattle.stream_meaning.specs.IndexExamples.{
  ReapExample,
  LiveBeforeReapExample,
  LiveAfterReapExample,
  ReapedOnceExample,
  RevivedExample,
  DefaultedExample,
};
ghost use Rattle.stream_meaning.specs.WindowExamples.{
  ExpiredOnArrivalExample,
  ExpiredAtTheStartExample,
  CoalesceOrderExample,
  MovingTimeEndExample,
  StableEndExample,
  StableChangeExample,
  StableTooShortExample,
  NegativeStretchExample,
  StretchNumbers,
};
ghost use Rattle.stream_meaning.specs.ForkExamples.{
  ForkOrderExample,
  TwoFieldsExample,
  ApartFieldsExample,
  NestedDueExample,
  NestedOneDueExample,
  NestedGivenExample,
  NestedDeadlineExample,
};

/// What small plans say over small histories, as the definitions compute it.
pub fn examples_are_computed()
    ensures notice { NoticeExample }
    ensures tag { TagExample }
    ensures changed { ChangedExample }
    ensures changed_from { ChangedFromExample }
    ensures runs { RunsExample }
    ensures throttle { ThrottleExample }
    ensures rollup { RollupExample }
    ensures rollup_of_one { RollupOfOneExample }
    ensures batch { BatchExample }
    ensures stable { StableExample }
    ensures delivery { DeliveryExample }
    ensures tick_first { TickFirstExample }
    ensures both_come { BothComeExample }
    ensures fixed_event { FixedEventExample }
    ensures fixed_time { FixedTimeExample }
    ensures moving_time { MovingTimeExample }
    ensures coalesce { CoalesceExample }
    ensures forks { ForksExample }
    ensures sum { SumExample }
    ensures least { LeastExample }
    ensures greatest { GreatestExample }
    ensures count { CountExample }
    ensures great_sum { GreatSumExample }
    ensures no_sum { NoSumExample }
    ensures routed { SortedOutExample }
    ensures vector { VectorExample }
    ensures due { DueExample }
    ensures not_due { NotDueExample }
    ensures given { GivenExample }
    ensures deadline { DeadlineExample }
{}

/// What becomes of expired events in small plans with an index, as the definitions compute it.
pub fn index_examples_are_computed()
    ensures reap { ReapExample }
    ensures live_before_reap { LiveBeforeReapExample }
    ensures live_after_reap { LiveAfterReapExample }
    ensures reaped_once { ReapedOnceExample }
    ensures revived { RevivedExample }
    ensures defaulted { DefaultedExample }
{}

/// What small plans say at the moments and times where a window, a run or a stretch ends, as the definitions compute
/// it.
pub fn window_examples_are_computed()
    ensures expired_on_arrival { ExpiredOnArrivalExample }
    ensures expired_at_the_start { ExpiredAtTheStartExample }
    ensures coalesce_order { CoalesceOrderExample }
    ensures moving_time_end { MovingTimeEndExample }
    ensures stable_end { StableEndExample }
    ensures stable_change { StableChangeExample }
    ensures stable_too_short { StableTooShortExample }
    ensures negative_stretch { NegativeStretchExample }
    ensures stretch_numbers { StretchNumbers }
{}

/// What small plans with forks by two fields, and with forks in forks, say and are due, as the definitions compute it.
pub fn fork_examples_are_computed()
    ensures fork_order { ForkOrderExample }
    ensures two_fields { TwoFieldsExample }
    ensures apart_fields { ApartFieldsExample }
    ensures nested_due { NestedDueExample }
    ensures nested_one_due { NestedOneDueExample }
    ensures nested_given { NestedGivenExample }
    ensures nested_deadline { NestedDeadlineExample }
{}
