ghost use Rattle.stream_meaning.specs.EndExamples.{
  EndOfKeyExample,
  EndOfForkExample,
  PutOffExample,
  SecondEndExample,
  TwoKeysExample,
  LiveOrderExample,
  NewForkExample,
  NewForkWindowExample,
  LastTickExample,
  LastDeadlineExample,
  NestedEndExample,
};
ghost use Rattle.stream_meaning.specs.EndLaws.{
  LastMomentsAreLast,
  EndsFollowSilence,
  EndsAreApart,
  ForksComeByNumber,
  EndedForksGetNoItems,
  NothingEndsWithoutIdle,
  LiveKeysAreApart,
  LiveForksAreTheLatest,
  LiveKeysAreRecent,
};
ghost use Rattle.stream_meaning.specs.EndSteps.{
  LiveForksFollowEntries,
  LiveKeysFollowEntries,
  TimedKeysFollowEntries,
  FreshKeysGoByMoments,
};

/// Which forks end in small histories, and what small plans above them say, as the definitions compute it.
pub fn end_examples_are_computed()
    ensures end_of_key { EndOfKeyExample }
    ensures end_of_fork { EndOfForkExample }
    ensures put_off { PutOffExample }
    ensures second_end { SecondEndExample }
    ensures two_keys { TwoKeysExample }
    ensures live_order { LiveOrderExample }
    ensures new_fork { NewForkExample }
    ensures new_fork_window { NewForkWindowExample }
    ensures last_tick { LastTickExample }
    ensures last_deadline { LastDeadlineExample }
    ensures nested_end { NestedEndExample }
{}

/// A key ends at a tick exactly if its last event came `idle` seconds before, so an event of it comes between two of
/// its ends.
pub fn keys_end_after_silence()
    ensures last { LastMomentsAreLast }
    ensures ends { EndsFollowSilence }
    ensures apart { EndsAreApart }
{}

/// Once its key has ended, a fork gets no more items. The forks of a key come by their numbers.
pub fn forks_end_with_their_keys()
    ensures numbers { ForksComeByNumber }
    ensures ended { EndedForksGetNoItems }
{}

/// Without `idle` no key ends: each key that came has one fork, with all its events, and all forks are live.
pub fn nothing_ends_without_idle()
    ensures { NothingEndsWithoutIdle }
{}

/// No key has two live forks, and the number of a live fork is how often its key ended. If `idle` is there and not 0,
/// exactly the keys have a live fork whose last event came less than `idle` seconds ago.
pub fn live_forks_are_recent()
    ensures apart { LiveKeysAreApart }
    ensures latest { LiveForksAreTheLatest }
    ensures recent { LiveKeysAreRecent }
{}

/// What each entry does to the live forks: a tick removes those whose key ends at it, and an event adds the fork of its
/// key if that is not there. So with their keys, and with the moments at which the last events of these came. A key
/// ends by a moment if its last event came `idle` seconds before it or earlier.
pub fn live_forks_follow_entries()
    ensures forks { LiveForksFollowEntries }
    ensures keys { LiveKeysFollowEntries }
    ensures timed { TimedKeysFollowEntries }
    ensures moments { FreshKeysGoByMoments }
{}
