//! The states of the kinds that keep something, at the ends of the ranges of their numbers.

use ev_types::{Emissions, Event, Field, Memory};
use std::alloc::Global;
use stream_plan::Kind;
use stream_states::KeptState;

/// A kind of stream that keeps something.
enum Keeps {
    Changed,
    Runs,
    Throttle,
    Rollup,
    Batch,
    Stable,
    FixedEvent,
    MovingEvent,
    FixedTime,
    MovingTime,
    Coalesce,
}

const ALL: &[Keeps] = &[
    Keeps::Changed,
    Keeps::Runs,
    Keeps::Throttle,
    Keeps::Rollup,
    Keeps::Batch,
    Keeps::Stable,
    Keeps::FixedEvent,
    Keeps::MovingEvent,
    Keeps::FixedTime,
    Keeps::MovingTime,
    Keeps::Coalesce,
];

/// The kind with this count and these seconds, as far as it has them. It compares states.
fn kind_of(keeps: &Keeps, count: u32, secs: u32) -> Kind {
    match keeps {
        Keeps::Changed => Kind::Changed {
            field: Field::State,
            init: None,
        },
        Keeps::Runs => Kind::Runs {
            count,
            field: Field::State,
        },
        Keeps::Throttle => Kind::Throttle { count, secs },
        Keeps::Rollup => Kind::Rollup { count, secs },
        Keeps::Batch => Kind::Batch { count, secs },
        Keeps::Stable => Kind::Stable {
            secs,
            field: Field::State,
        },
        Keeps::FixedEvent => Kind::FixedEvent { count },
        Keeps::MovingEvent => Kind::MovingEvent { count },
        Keeps::FixedTime => Kind::FixedTime { secs },
        Keeps::MovingTime => Kind::MovingTime { secs },
        Keeps::Coalesce => Kind::Coalesce { secs },
    }
}

/// How many items pass as an event of the moment 0 comes.
fn pass(alloc: Global, state: &mut KeptState) -> Result<usize, Memory> {
    let mut out = Emissions::fresh(alloc);
    match state.item(alloc, Event::at(alloc, 0), 0, &mut out) {
        Ok(()) => Ok(out.len()),
        Err(Memory) => Err(Memory),
    }
}

/// How many items pass as this many events of the moment 0 come.
fn pass_all(alloc: Global, state: &mut KeptState, events: u32) -> Result<usize, Memory> {
    let mut passed: usize = 0;
    for _ in 0..events {
        passed = passed.wrapping_add(pass(alloc, state)?);
    }
    Ok(passed)
}

/// How many items a stream of the kind passes on of this many events, all of the moment 0, where its numbers are in
/// their ranges, and memory is not out.
fn passed_by(alloc: Global, kind: &Kind, events: u32) -> Option<usize> {
    match KeptState::fresh(alloc, kind, 0) {
        Ok(Some(mut state)) => pass_all(alloc, &mut state, events).ok(),
        Ok(None) | Err(Memory) => None,
    }
}

/// The same, with the kind that has this count and these seconds.
fn passed(alloc: Global, keeps: &Keeps, count: u32, secs: u32, events: u32) -> Option<usize> {
    passed_by(alloc, &kind_of(keeps, count, secs), events)
}

/// How many of the eleven kinds have a state where they have these numbers.
fn made(alloc: Global, count: u32, secs: u32) -> u32 {
    let mut made: u32 = 0;
    for keeps in ALL {
        if passed(alloc, keeps, count, secs, 0).is_some() {
            made = made.saturating_add(1);
        }
    }
    made
}

/// Counts and seconds, and how many kinds have a state with them. Six kinds have a count, seven have seconds, and three
/// of these have both.
const MADE: &[(u32, u32, u32)] = &[
    (1, 1, 11),
    (1_000_000, 604_800, 11),
    (0, 1, 5),
    (1_000_001, 1, 5),
    (1, 0, 4),
    (1, 604_801, 4),
    (u32::MAX, u32::MAX, 1),
];

/// Kinds, numbers of events, and how many items pass.
const PASSED: &[(Keeps, u32, usize)] = &[
    (Keeps::Throttle, 1_000_001, 1_000_000),
    (Keeps::Rollup, 1_000_001, 1_000_000),
    (Keeps::Runs, 999_999, 0),
    (Keeps::Runs, 1_000_001, 2),
    (Keeps::Batch, 999_999, 0),
    (Keeps::Batch, 1_000_000, 1),
    (Keeps::FixedEvent, 999_999, 0),
    (Keeps::FixedEvent, 1_000_000, 1),
];

#[test]
fn a_state_has_numbers_in_their_ranges_and_counts_a_million_events(rt: HostRuntime) {
    for (count, secs, wanted) in MADE {
        let made = made(rt.alloc(), *count, *secs);
        assert!(rt; made == *wanted, "{count} {secs}");
    }
    for (keeps, events, wanted) in PASSED {
        let passed = passed(rt.alloc(), keeps, 1_000_000, 1, *events);
        assert!(rt; passed == Some(*wanted), "{events}");
    }
}
