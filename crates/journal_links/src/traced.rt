ghost use Rattle.std.specs.Prelude.{◌≡◌, ◌≤◌, ◌||◌, [], false, true};
ghost use Rattle.std.proofs.Props.{props};
ghost use Rattle.list_laws.specs.Counts.{Rose};
ghost use Rattle.recorded_links.specs.Numbers.{first_after};
ghost use Rattle.recorded_links.specs.Lending.{traced_report};
ghost use Rattle.journal_links.specs.Opened.{first_free};
ghost use Rattle.journal_links.specs.Making.{Made, state_of};
ghost use Rattle.journal_links.specs.Replaying.{summaries_next};

use crate::JournalLinks;
use crate::loan::JournalLoan;
use disk_port::Disk;
use ev_types::Text;
use ports::{Links, ListenAnswer, SendAnswer, Turn, Wants};
use std::alloc::Global;
use std::marker::PhantomData;

/// Links that resume a run, whose type says which calls led from the links and the disk that were lent to them (`K`) to
/// what these are now. So a caller knows it of what a generic function gives back, too.
#[derive(Drop)]
pub struct ResumedLinks<'a, L: Links, D: Disk, K: JournalLoan> {
    pub links: JournalLinks<'a, L, D>,
    /// Whether a call of the disk has failed since the loan.
    pub disk_failed: bool,
    pub loan: PhantomData<K>,
    pub ghost links_name: { links.recorded.inner.ghost_name ≡ K.lent.lent.links_name },
    pub ghost disk_name: { links.recorded.recorder.journal.disk.ghost_name
        ≡ K.lent.lent.disk_name },
    pub ghost links_faults: { K.lent.lent.links.faults
        ≤ (L.report links.recorded.inner.now).faults },
    pub ghost quiet: { disk_failed ≡ false →
        (D.report links.recorded.recorder.journal.disk.now).faults ≡ K.lent.lent.disk.faults },
    pub ghost broke: { disk_failed ≡ true → Rose K.lent.lent.disk.faults
        (D.report links.recorded.recorder.journal.disk.now).faults },
    pub ghost disk_faults: { K.lent.lent.disk.faults
        ≤ (D.report links.recorded.recorder.journal.disk.now).faults },
    pub ghost opened: { (D.report links.recorded.recorder.journal.disk.now).opened
        ≡ K.lent.lent.disk.opened } by { Prim.hlevel props },
    pub ghost made: { ∥ Made K.lent.lent.found K.lent.records K.lent.lent.links
        K.lent.lent.disk links.log (state_of links) ∥₁ },
}

impl<'a, L: Links, D: Disk, K: JournalLoan> ResumedLinks<'a, L, D, K> {
    /// These links, which were not called yet.
    pub fn over(links: JournalLinks<'a, L, D>) -> ResumedLinks<'a, L, D, K>
        requires links_name { links.recorded.inner.ghost_name ≡ K.lent.lent.links_name }
        requires disk_name { links.recorded.recorder.journal.disk.ghost_name
            ≡ K.lent.lent.disk_name }
        requires links_report { L.report links.recorded.inner.now ≡ K.lent.lent.links }
        requires disk_report { D.report links.recorded.recorder.journal.disk.now
            ≡ K.lent.lent.disk }
        requires end { record {
          gate = links.recorded.recorder.journal.gate;
          has_record = links.recorded.recorder.journal.has_record;
        } ≡ K.lent.lent.found }
        requires records { links.replay.now.records ≡ K.lent.records }
        requires given { links.replay.now.given ≡ 0 }
        requires left { links.replay.now.left.items ≡ summaries_next K.lent.records }
        requires unopened { links.opened.now.numbers.keys ≡ [] }
        requires fresh { links.log ≡ [] }
        requires unsent { links.recorded.recorder.sends.now.summaries.items ≡ [] }
        requires unspent { links.recorded.spent ≡ false }
        requires first { first_after links.recorded.last ≡ first_free K.lent.records }
        ensures links { result.links ≡ links.entry }
        ensures unfailed { result.disk_failed ≡ false }
    {
        ResumedLinks {
            links,
            disk_failed: false,
            loan: PhantomData,
        }
    }
}

impl<'a, L: Links, D: Disk, K: JournalLoan> Links for ResumedLinks<'a, L, D, K> {
    ghost report = { λ resumed. traced_report resumed.links.log
        (L.report resumed.links.recorded.inner.now) resumed.disk_failed };

    fn listen(&mut self, alloc: Global, address: &Text) -> ListenAnswer {
        let answer = self.links.listen(alloc, address);
        self.disk_failed = either(self.disk_failed, self.links.recorded.disk_failed);
        answer
    }

    fn next(&mut self, alloc: Global, wants: &Wants, buf: &mut [u8]) -> Turn {
        let turn = self.links.next(alloc, wants, buf);
        self.disk_failed = either(self.disk_failed, self.links.recorded.disk_failed);
        turn
    }

    fn send(&mut self, alloc: Global, link: u64, bytes: &[u8]) -> SendAnswer {
        self.links.send(alloc, link, bytes)
    }

    fn close(&mut self, link: u64) {
        self.links.close(link);
    }
}

fn either(one: bool, other: bool) -> bool
    ensures { result ≡ (one || other) }
{
    one || other
}
