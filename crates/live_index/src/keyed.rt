ghost use Rattle.std.specs.Prelude.{◌≡◌, option_copied, Some, refl};
ghost use Rattle.std.specs.Cmp.{eq_by_cmp_equiv, partial_equiv_from_equiv, po};
ghost use Rattle.index_log.specs.IndexKey.{index_key_cmp, same_index_key, text_cmp};
ghost use Rattle.index_log.proofs.IndexKeys.{index_key_total};

use ev_types::{Event, Text};
use std::cmp::Ordering;
use std::marker::Model;

/// An event that is compared by its host and then by its service, and by nothing else of it.
#[derive(Drop)]
pub(crate) struct KeyedEvent {
    pub(crate) event: Event,
}

impl Model for KeyedEvent {
    ghost use Rattle.ev_types.specs.declared.event.Event.{Event};

    ghost Value = { Event };

    ghost view = { λ keyed. keyed.event };
}

impl PartialEq for KeyedEvent {
    ghost eq = { same_index_key };

    ghost laws = { partial_equiv_from_equiv (eq_by_cmp_equiv index_key_total) };

    fn eq(&self, other: &KeyedEvent) -> bool {
        self.cmp(other) == Ordering::Equal
    }
}

impl Eq for KeyedEvent {
    ghost laws = { eq_by_cmp_equiv index_key_total };
}

impl PartialOrd for KeyedEvent {
    ghost partial_cmp = { λ a b. Some (index_key_cmp a b) };

    ghost laws = { po index_key_total (λ a b. refl) };

    fn partial_cmp(&self, other: &KeyedEvent) -> Option<Ordering> {
        Some(self.cmp(other))
    }
}

impl Ord for KeyedEvent {
    ghost cmp = { index_key_cmp };

    ghost total = { index_key_total };

    ghost matches_partial_cmp = { λ a b. refl };

    ghost matches_eq = { λ a b. refl };

    fn cmp(&self, other: &KeyedEvent) -> Ordering {
        key_cmp(&self.event, &other.event)
    }
}

// The order of two events: by host, then by service.
#[tactic(auto, unfolding(index_log::specs::IndexKey::index_key_cmp))]
fn key_cmp(a: &Event, b: &Event) -> Ordering
    ensures { result ≡ index_key_cmp a.now b.now }
{
    match text_cmp(a.host.as_ref(), b.host.as_ref()) {
        Ordering::Equal => text_cmp(a.service.as_ref(), b.service.as_ref()),
        apart => apart,
    }
}

// An absent text comes before one that is present.
fn text_cmp(a: Option<&Text>, b: Option<&Text>) -> Ordering
    ensures { result ≡ text_cmp (option_copied a.entry) (option_copied b.entry) }
{
    match (a, b) {
        (None, None) => Ordering::Equal,
        (None, Some(_)) => Ordering::Less,
        (Some(_), None) => Ordering::Greater,
        (Some(a), Some(b)) => a.as_bytes().cmp(b.as_bytes()),
    }
}
