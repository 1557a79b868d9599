ghost use Rattle.stream_meaning.specs.ArrivalLaws.{ArrivalsComeInOrder, ArrivalsAreMoments};
ghost use Rattle.stream_meaning.specs.CoalesceLaws.{CoalescedAreTheNewest, CoalescedRise};
ghost use Rattle.stream_meaning.specs.DeadlineLaws.{DeadlinesLieAhead, DeadlinesAreMet, DeadlinesStay, DeadlinesAreFirst};
ghost use Rattle.stream_meaning.specs.DueLaws.{
  TicksActByEmissions,
  PlanDeadlinesAreEarliest,
  PlanDeadlinesLieAhead,
  PlanDeadlinesAreMet,
  PlanDeadlinesStay,
  PlanDeadlinesAreFirst,
  FaultlessPlansHaveRanges,
  FaultlessPlansMeetDeadlines,
};
ghost use Rattle.stream_meaning.specs.FoldLaws.{
  MinimumIsTheFirstLeast,
  MaximumIsTheFirstGreatest,
  SumIsHeldToTheRange,
  SumsAdd,
};
ghost use Rattle.stream_meaning.specs.GreatestLaws.{
  GreatestIsReached,
  MovingTimeGoesByTheGreatest,
  FixedTimeGoesByTheGreatest,
  EventsLieInTheirStretch,
};
ghost use Rattle.stream_meaning.specs.KeyOrderLaws.{KeysAreThoseThatCame, KeysStayInOrder};
ghost use Rattle.stream_meaning.specs.KeyLaws.{KeysActByForks, KeysHaveTheirOutputs, OutputsHaveOneKey};
ghost use Rattle.stream_meaning.specs.RunLaws.{RunsAreLongest, RunsBeginWithTheirFirst};
ghost use Rattle.stream_meaning.specs.Laws.{
  TicksEmitNothing,
  TicksReachBranches,
  TicksMakeNoFork,
  TicksAreQuiet,
  OutputsAreInOrder,
  OutputsGrow,
  ForkKeysAreApart,
  ForksHaveTheirEvents,
  UnseenForksHaveTicks,
  MomentsAreCounted,
  WindowsAreMultiples,
  BranchesKeepMoments,
  VectorsAreNotEmpty,
};

/// Where nothing has come but ticks, no stream passes anything on, so what is below it has the same ticks, and there is
/// no fork.
pub fn ticks_alone_are_quiet()
    ensures emissions { TicksEmitNothing }
    ensures histories { TicksReachBranches }
    ensures forks { TicksMakeNoFork }
    ensures plans { TicksAreQuiet }
{}

/// What a stream says at the last entry of its history: what it says by itself; then, at a tick, what is below it says
/// at the tick, branch by branch; then what is below it says at each emission, in order.
pub fn outputs_are_in_order()
    ensures entry { OutputsAreInOrder }
    ensures history { OutputsGrow }
{}

/// A fork's history has all ticks and the events that go to it, so ticks alone before the first of these. No key is
/// twice among those that came.
pub fn forks_have_their_events()
    ensures apart { ForkKeysAreApart }
    ensures events { ForksHaveTheirEvents }
    ensures unseen { UnseenForksHaveTicks }
{}

/// The moment of an entry is the first moment plus the number of ticks, in every branch alike. A window begins where
/// the seconds passed are a multiple of its length.
pub fn windows_follow_moments()
    ensures moments { MomentsAreCounted }
    ensures branches { BranchesKeepMoments }
    ensures windows { WindowsAreMultiples }
{}

/// No stream passes on a vector of no events, but for what passes a vector on as it came.
pub fn vectors_are_not_empty()
    ensures { VectorsAreNotEmpty }
{}

/// Where only ticks follow, a stream passes something on next at its deadline, and never where it has none. This is so
/// where the stream's numbers are in their ranges.
pub fn deadlines_are_first()
    ensures ahead { DeadlinesLieAhead }
    ensures met { DeadlinesAreMet }
    ensures stay { DeadlinesStay }
    ensures first { DeadlinesAreFirst }
{}

/// Where only ticks follow, some stream of a plan passes something on next at the plan's deadline, the least of those
/// of its streams in all forks. This is so where the streams' numbers are in their ranges. A fork is due exactly where
/// some stream in it passes something on.
pub fn deadlines_of_plans_are_first()
    ensures due { TicksActByEmissions }
    ensures earliest { PlanDeadlinesAreEarliest }
    ensures ahead { PlanDeadlinesLieAhead }
    ensures met { PlanDeadlinesAreMet }
    ensures stay { PlanDeadlinesStay }
    ensures first { PlanDeadlinesAreFirst }
{}

/// A plan without faults, as each `CheckedPlan` is, has the numbers of its streams in their ranges. So where only ticks
/// follow, some stream of it passes something on next at its deadline, and never where it has none.
pub fn checked_plans_meet_deadlines()
    ensures ranges { FaultlessPlansHaveRanges }
    ensures deadlines { FaultlessPlansMeetDeadlines }
{}

/// Arrivals come one after another. The moment is the first moment plus the number of seconds that have passed,
/// whatever is posted or comes again.
pub fn arrivals_come_in_order()
    ensures order { ArrivalsComeInOrder }
    ensures moments { ArrivalsAreMoments }
{}

/// A run of a field is the longest suffix of the events in which the field holds one value. It began at the moment at
/// which the first of them came.
pub fn runs_are_longest()
    ensures longest { RunsAreLongest }
    ensures began { RunsBeginWithTheirFirst }
{}

/// What coalesce passes on is exactly the last event of each host and service that still passes, in strictly rising key
/// order.
pub fn coalesced_are_the_newest()
    ensures kept { CoalescedAreTheNewest }
    ensures order { CoalescedRise }
{}

/// A moving window by time goes by the greatest time of the events up to the last one, a fixed one by the greatest
/// number of a stretch among the events before it. The greatest of some numbers is one of them, and none is greater.
/// The time of each event lies in the stretch that its number says.
pub fn windows_go_by_the_greatest()
    ensures greatest { GreatestIsReached }
    ensures moving { MovingTimeGoesByTheGreatest }
    ensures fixed { FixedTimeGoesByTheGreatest }
    ensures stretch { EventsLieInTheirStretch }
{}

/// The keys that came are those of the events, each once. They stand in the order in which they first came: those of a
/// longer history begin with those of the shorter one. If no fork ends, each of them has a fork
/// (`nothing_ends_without_idle`).
pub fn keys_come_in_order()
    ensures came { KeysAreThoseThatCame }
    ensures apart { ForkKeysAreApart }
    ensures order { KeysStayInOrder }
{}

/// The event with the least metric of a vector is one of those that have a metric: none has a lesser one, and none
/// before it has the same. So with the greatest. The sum is that of all metrics, or the end of the range of 64 signed
/// bits that is nearer.
pub fn folds_are_of_all_metrics()
    ensures minimum { MinimumIsTheFirstLeast }
    ensures maximum { MaximumIsTheFirstGreatest }
    ensures sum { SumIsHeldToTheRange }
    ensures sums { SumsAdd }
{}

/// Under one `by` on host and service, or on one of them, whose streams set none of its fields, each output is of one
/// key. What a key has at an entry is what its fork has there, and an event of another key does nothing to either. So
/// the outputs of a key are those of the ticks and the events of the key alone.
pub fn keys_have_their_outputs()
    ensures entry { KeysActByForks }
    ensures history { KeysHaveTheirOutputs }
    ensures one { OutputsHaveOneKey }
{}
