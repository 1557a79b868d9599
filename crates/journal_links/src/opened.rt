//! The links that the turns of a journal open.

ghost use Rattle.std.specs.Prelude.{◌≡◌, max, true, [], slice_get, OnOk, OnErr};
ghost use Rattle.std.specs.List.{list_all};
ghost use Rattle.recorded_links.specs.Numbers.{first_after};
ghost use Rattle.journal_links.specs.Opened.{closed_after, first_free, is_before, number_after, opened_after};

use ev_types::Memory;
use journal_format::{TurnEvent, TurnRecord};
use ports::What;
use std::alloc::Global;
use std::collections::BTreeSet;

/// The links that are open, by rising number.
#[derive(Drop)]
pub struct OpenLinks {
    pub numbers: BTreeSet<u64>,
}

impl OpenLinks {
    pub fn fresh(alloc: Global) -> OpenLinks
        ensures { result.numbers.keys ≡ [] }
    {
        OpenLinks {
            numbers: BTreeSet::new(alloc),
        }
    }

    /// Notes a turn.
    pub fn turned(&mut self, what: What) -> Result<(), Memory>
        ensures ok { OnOk result
            (self.new.numbers.keys ≡ opened_after what self.old.numbers.keys) }
        ensures err { OnErr result (self.new.numbers.keys ≡ self.old.numbers.keys) }
    {
        if let What::Opened { link } = what {
            self.numbers.insert(link)?;
        }
        Ok(())
    }

    /// Notes a close.
    pub fn closed(&mut self, link: u64)
        ensures { self.new.numbers.keys ≡ closed_after link self.old.numbers.keys }
    {
        let _ = self.numbers.remove(&link);
    }

    /// The first link, if there is one.
    pub fn first(&self) -> Option<u64>
        ensures { result ≡ slice_get self.now.numbers.keys 0 }
    {
        match self.numbers.first() {
            Some(link) => Some(*link),
            None => None,
        }
    }
}

/// The greatest number of a link that the records open, if they open one.
pub fn last_opened(records: &[TurnRecord]) -> Option<u64>
    ensures first { first_after result ≡ first_free records.now }
    ensures before { list_all (is_before (first_after result)) records.now ≡ true }
{
    let mut last = None;
    for entry in records {
        last = later_of(last, &entry.event);
    }
    last
}

/// The greater one of a number and that of a link that an event opens.
fn later_of(last: Option<u64>, event: &TurnEvent) -> Option<u64>
    ensures { first_after result ≡ max (first_after last) (number_after event.now) }
{
    match event {
        TurnEvent::Opened { link } => match last {
            Some(last) => Some(last.max(*link)),
            None => Some(*link),
        },
        _ => last,
    }
}
