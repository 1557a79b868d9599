//! Calls that no command makes: an event of the index by its key, and an event that is posted to a core.

use crate::build::{event, event_of, plan, text};
use ev_types::{Event, Memory, Notices, Text};
use event_core::Core;
use live_index::LiveIndex;
use std::alloc::Global;
use step_count::{NoLedger, Steps};
use stream_plan::ReadyPlan;

/// An event of this host, service and state, each absent where it is `-`, with this ttl.
fn state_event(alloc: Global, row: &(&str, &str, &str, u32)) -> Event {
    let (host, service) = (text(alloc, row.0), text(alloc, row.1));
    event_of(alloc, host, service, text(alloc, row.2), row.3)
}

/// Writes events of these hosts, services, states and ttls. It answers whether memory is left.
fn write_all(alloc: Global, index: &mut LiveIndex, rows: &[(&str, &str, &str, u32)]) -> bool {
    for row in rows {
        if index.write(alloc, state_event(alloc, row)).is_err() {
            return false;
        }
    }
    true
}

/// The ttl of the live event of this host and service, or 0 where there is none.
fn ttl_of(index: &mut LiveIndex, host: Option<&Text>, service: Option<&Text>) -> u32 {
    match index.get(host, service, &mut Steps::fresh(NoLedger)) {
        Some(event) => event.ttl.unwrap_or(0),
        None => 0,
    }
}

/// Whether the live event of the host and the service has the ttl.
fn has_ttl(alloc: Global, index: &mut LiveIndex, host: &str, service: &str, wanted: u32) -> bool {
    let (host, service) = (text(alloc, host), text(alloc, service));
    ttl_of(index, host.as_ref(), service.as_ref()) == wanted
}

/// Whether the live events of these hosts and services have these ttls.
fn have_ttls(alloc: Global, index: &mut LiveIndex, rows: &[(&str, &str, u32)]) -> bool {
    for row in rows {
        if !has_ttl(alloc, index, row.0, row.1, row.2) {
            return false;
        }
    }
    true
}

/// The hosts, services, states and ttls of the events that are written.
const WRITTEN: &[(&str, &str, &str, u32)] = &[
    ("b", "cpu", "ok", 1),
    ("-", "-", "ok", 2),
    ("", "-", "ok", 3),
    ("-", "cpu", "ok", 4),
    ("a", "cpu", "ok", 5),
    ("c", "cpu", "ok", 6),
    ("a", "cpu", "warning", 7),
    ("c", "cpu", "expired", 8),
];

/// Hosts, services, and the ttls of the events that are got by them.
const GOT: &[(&str, &str, u32)] = &[
    ("b", "cpu", 1),
    ("-", "-", 2),
    ("", "-", 3),
    ("-", "cpu", 4),
    ("a", "cpu", 7),
    ("c", "cpu", 0),
    ("cpu", "a", 0),
    ("b", "-", 0),
    ("-", "", 0),
    ("z", "cpu", 0),
];

/// Whether each event is got by its host and service once all are written, of which five are live.
fn are_got_of(alloc: Global, index: &mut LiveIndex) -> bool {
    write_all(alloc, index, WRITTEN) && have_ttls(alloc, index, GOT) && index.len() == 5
}

/// Whether each event of an index is got by its host and service.
fn are_got(alloc: Global) -> bool {
    let mut index = LiveIndex::fresh(alloc);
    are_got_of(alloc, &mut index)
}

/// Whether an event that is posted gives one notice and is live.
fn is_noticed(alloc: Global, core: &mut Core) -> bool {
    let mut notices = Notices::fresh(alloc);
    let event = event(alloc, "a", "-", 60);
    let is_posted = core
        .post(alloc, event, &mut notices, &mut Steps::fresh(NoLedger))
        .is_ok();
    is_posted && notices.as_slice().len() == 1 && core.live() == 1
}

/// Whether an event that is posted gives one notice and is live.
fn is_posted(alloc: Global, plan: ReadyPlan) -> bool {
    match Core::fresh(alloc, plan, None, 100) {
        Ok(mut core) => is_noticed(alloc, &mut core),
        Err(Memory) => false,
    }
}

/// Whether an event that is posted to streams of this configuration gives one notice and is live.
fn is_posted_to(alloc: Global, config: &str) -> bool {
    match plan(alloc, config) {
        Ok(plan) => is_posted(alloc, plan),
        Err(Memory) => false,
    }
}

#[test]
fn an_event_is_got_by_its_host_and_service_and_is_posted(rt: HostRuntime) {
    let alloc = rt.alloc();
    assert!(rt; are_got(alloc));
    assert!(rt; is_posted_to(alloc, "(streams index (notice \"n\"))"));
}
