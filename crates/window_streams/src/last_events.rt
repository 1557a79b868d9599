ghost use Rattle.std.specs.Prelude.{◌≡◌, ◌==◌, ◌^◌, ◌≤◌, [], filter, length, not, IfOk, OnErr, OnOk, Some, option_copied, refl};
ghost use Rattle.std.specs.Cmp.{eq_by_cmp_equiv, partial_equiv_from_equiv, po};
ghost use Rattle.ev_types.specs.Expiry.{is_expired};
ghost use Rattle.index_log.specs.IndexKey.{index_key_cmp, same_index_key, text_cmp};
ghost use Rattle.index_log.specs.Live.{elsewhere, placed};
ghost use Rattle.index_log.proofs.IndexKeys.{index_key_total};

use ev_types::{Event, Events, Memory, Text};
use std::alloc::Global;
use std::cmp::Ordering;
use std::collections::BTreeSet;
use std::marker::Model;

/// One event for each host and service, in rising key order: by host and then by service, absent before present.
#[derive(Drop)]
pub(crate) struct LastEvents {
    events: BTreeSet<KeyedEvent>,
}

impl Model for LastEvents {
    ghost use Rattle.std.specs.Prelude.{List};
    ghost use Rattle.std.specs.List.Sorted.{IsStrictlySortedBy};
    ghost use Rattle.ev_types.specs.declared.event.Event.{Event};
    ghost use Rattle.index_log.specs.IndexKey.{index_key_cmp};

    ghost Value = { List Event };

    ghost view = { λ last. last.events.keys };

    ghost invariant = { λ last. IsStrictlySortedBy index_key_cmp last.events.keys };
}

impl LastEvents {
    pub(crate) fn fresh(alloc: Global) -> LastEvents
        ensures { result ≡ [] }
    {
        LastEvents {
            events: BTreeSet::new(alloc),
        }
    }

    pub(crate) fn is_empty(&self) -> bool
        ensures { result ≡ (length self.now == 0) }
    {
        self.events.len() == 0
    }

    /// Puts an event in place of the one of its host and service.
    pub(crate) fn put(&mut self, event: Event) -> Result<(), Memory>
        ensures ok { OnOk result (self.new ≡ placed event (elsewhere event self.old)) }
        ensures err { OnErr result (self.new ≡ self.old) }
    {
        self.events.replace(KeyedEvent { event })?;
        Ok(())
    }

    /// Hands out copies of the events in order, and keeps those events that have not expired at the moment `now`, which
    /// is at most 2^40. If memory runs out, all events are kept.
    pub(crate) fn pass(&mut self, alloc: Global, now: u64) -> Result<Events, Memory>
        requires { now ≤ 2 ^ 40 }
        ensures passed { IfOk result (λ passed. passed ≡ self.old) }
        ensures kept { OnOk result (self.new
            ≡ filter (λ event. not (is_expired now event)) self.old) }
        ensures err { OnErr result (self.new ≡ self.old) }
    {
        let passed = copy_events(alloc, &self.events)?;
        self.events.retain(|keyed| !keyed.event.is_expired(now));
        Ok(passed)
    }
}

/// Copies of the events, in order.
fn copy_events(alloc: Global, events: &BTreeSet<KeyedEvent>) -> Result<Events, Memory>
    ensures { IfOk result (λ copied. copied ≡ events.now.keys) }
{
    let mut copied = Vec::with_capacity(alloc, events.len())?;
    for keyed in events {
        copied.push(keyed.event.copy(alloc)?)?;
    }
    Ok(Events::from_vec(copied))
}

/// An event that is compared by its host and then by its service, and by nothing else of it.
#[derive(Drop)]
struct KeyedEvent {
    event: Event,
}

impl Model for KeyedEvent {
    ghost use Rattle.ev_types.specs.declared.event.Event.{Event};

    ghost Value = { Event };

    ghost view = { λ keyed. keyed.event };
}

impl PartialEq for KeyedEvent {
    ghost eq = { same_index_key };

    ghost laws = { partial_equiv_from_equiv (eq_by_cmp_equiv index_key_total) };

    fn eq(&self, other: &KeyedEvent) -> bool {
        self.cmp(other) == Ordering::Equal
    }
}

impl Eq for KeyedEvent {
    ghost laws = { eq_by_cmp_equiv index_key_total };
}

impl PartialOrd for KeyedEvent {
    ghost partial_cmp = { λ a b. Some (index_key_cmp a b) };

    ghost laws = { po index_key_total (λ a b. refl) };

    fn partial_cmp(&self, other: &KeyedEvent) -> Option<Ordering> {
        Some(self.cmp(other))
    }
}

impl Ord for KeyedEvent {
    ghost cmp = { index_key_cmp };

    ghost total = { index_key_total };

    ghost matches_partial_cmp = { λ a b. refl };

    ghost matches_eq = { λ a b. refl };

    fn cmp(&self, other: &KeyedEvent) -> Ordering {
        key_cmp(&self.event, &other.event)
    }
}

// The order of two events: by host, then by service.
#[tactic(auto, unfolding(index_log::specs::IndexKey::index_key_cmp))]
fn key_cmp(a: &Event, b: &Event) -> Ordering
    ensures { result ≡ index_key_cmp a.now b.now }
{
    match text_cmp(a.host.as_ref(), b.host.as_ref()) {
        Ordering::Equal => text_cmp(a.service.as_ref(), b.service.as_ref()),
        apart => apart,
    }
}

// An absent text comes before one that is present.
fn text_cmp(a: Option<&Text>, b: Option<&Text>) -> Ordering
    ensures { result ≡ text_cmp (option_copied a.entry) (option_copied b.entry) }
{
    match (a, b) {
        (None, None) => Ordering::Equal,
        (None, Some(_)) => Ordering::Less,
        (Some(_), None) => Ordering::Greater,
        (Some(a), Some(b)) => a.as_bytes().cmp(b.as_bytes()),
    }
}
