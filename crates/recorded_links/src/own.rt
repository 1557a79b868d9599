//! What links that resume a run ask of the links that record.

use crate::links::{RecordedLinks, has_room, is_lost};
use disk_port::Disk;
use ev_types::Text;
use ports::{Links, ListenAnswer, Turn, What};
use std::alloc::Global;

impl<'a, L: Links, D: Disk> RecordedLinks<'a, L, D> {
    ghost use Rattle.std.specs.Prelude.{◌≡◌, [], true};
    ghost use Rattle.ports.specs.Calls.{AddsCalls};
    ghost use Rattle.ports.specs.Links.{HasListenCause, listen_entries};
    ghost use Rattle.recorded_links.specs.Keeping.{FailedIf, HasPiece, is_lost, is_recorded};
    ghost use Rattle.recorded_links.specs.Seeing.{disk_of, seen_of};
    ghost use Rattle.recorded_links.specs.Steps.{OwnStep};

    /// Asks the inner links to listen, and records nothing. It is for a journal that has the record of a `listen`.
    pub fn listen_again(&mut self, alloc: Global, address: &Text) -> ListenAnswer
        ensures asks { AddsCalls (L.report self.old.inner.now) (L.report self.new.inner.now)
            (listen_entries address.now result) }
        ensures cause { HasListenCause (L.report self.old.inner.now).faults
            (L.report self.new.inner.now).faults result }
        ensures recorder { self.new.recorder ≡ self.old.recorder }
        ensures spent { self.new.spent ≡ self.old.spent }
        ensures disk_failed { self.new.disk_failed ≡ self.old.disk_failed }
        ensures log { self.new.log ≡ self.old.log }
        ensures last { self.new.last ≡ self.old.last }
        ensures inner_same { self.new.inner.ghost_name ≡ self.old.inner.ghost_name }
    {
        self.inner.listen(alloc, address)
    }

    /// Records a turn that is not one of the inner links, and gives what is handed out. It is no read.
    pub fn hand_out(&mut self, alloc: Global, turn: Turn) -> Turn
        requires piece { HasPiece turn.what [] }
        requires recorded { is_recorded turn.what ≡ true }
        ensures step { OwnStep (seen_of self.old) (seen_of self.new) turn result }
        ensures disk_failed { FailedIf self.new.disk_failed (disk_of self.old).faults
            (disk_of self.new).faults }
        ensures lost { self.new.disk_failed ≡ is_lost turn.what result.what }
        ensures memory { result.what ≡ What.Memory → self.new.spent ≡ true }
        ensures fault { self.new.disk_failed ≡ true → self.new.spent ≡ true }
        ensures opened { (disk_of self.new).opened ≡ (disk_of self.old).opened }
        ensures log { self.new.log ≡ self.old.log }
        ensures last { self.new.last ≡ self.old.last }
        ensures inner { self.new.inner.now ≡ self.old.inner.now }
        ensures inner_same { self.new.inner.ghost_name ≡ self.old.inner.ghost_name }
        ensures disk_same { self.new.recorder.journal.disk.ghost_name
            ≡ self.old.recorder.journal.disk.ghost_name }
    {
        self.disk_failed = false;
        if self.spent || !self.recorder.journal.has_record {
            self.spent = true;
            return Turn {
                secs: 0,
                what: What::Memory,
            };
        }
        if !has_room(self.recorder.journal.gate) {
            return Turn {
                secs: 0,
                what: What::Stopped,
            };
        }
        self.spent = true;
        let handed = self.recorder.keep_turn(alloc, turn, &[]);
        self.disk_failed = is_lost(turn.what, handed.what);
        let ended = self.disk_failed || handed.what == What::Memory;
        self.spent = ended || self.recorder.journal.failed;
        handed
    }
}
