//! What an index holds after a log of writes and reaps.
#![tactic(auto)]

ghost use Rattle.index_log.specs.Live.{LiveEventsAreKept, LiveEventsRise, ReapsAreLive, ReapsEndExpired, WritesAreLive};
ghost use Rattle.index_log.specs.OfKey.{KeysHaveTheirLogs};

/// One more write changes what is live of its key alone. One more reap removes the live events that are late at its
/// moment, which are those that have expired by then.
pub fn logs_are_live()
    ensures writes { WritesAreLive }
    ensures reaps { ReapsAreLive }
    ensures expired { ReapsEndExpired }
{}

/// After every log the live events are in strictly rising key order: by host and then by service, absent before
/// present, and at most one of each key.
pub fn live_events_rise()
    ensures { LiveEventsRise }
{}

/// The live events of a log are exactly the events that were written and that nothing later ended, each as often.
pub fn live_events_are_kept()
    ensures { LiveEventsAreKept }
{}

/// The live events that hold some values in host and service, or in one of them, are the live events of a log without
/// the writes of other events.
pub fn keys_have_their_logs()
    ensures { KeysHaveTheirLogs }
{}
