//! How links with a journal begin one, and how they resume one.

use crate::links::JournalLinks;
use crate::room::JournalRoom;
use crate::{OpenLinks, Replay, last_opened, read_journal};
use disk_port::Disk;
use ev_types::Blob;
use ports::Links;
use recorded_links::RecordedLinks;
use std::alloc::Global;
use turn_journal::{JournalFault, JournalFile, begin_on, load_on};

impl<'a, L: Links, D: Disk> JournalLinks<'a, L, D> {
    ghost use Rattle.std.specs.Prelude.{◌≡◌, ◌≤◌, [], false, length, IfErr, IfOk, OnOk};
    ghost use Rattle.std.specs.Option.{ForSome, option_map};
    ghost use Rattle.disk_port.specs.Past.{synced, text_of};
    ghost use Rattle.journal_format.specs.Limits.{config_limit};
    ghost use Rattle.journal_links.specs.Resuming.{Resumes};
    ghost use Rattle.journal_links.specs.Seeing.{end_of};
    ghost use Rattle.recorded_links.specs.Seeing.{disk_of, seen_of};
    ghost use Rattle.journal_links.specs.Opened.{first_free};
    ghost use Rattle.turn_journal.specs.Beginning.{HoldsBlankOrFree, IsFree, IsWhyTaken, LeavesAfterSync, StandsBlank};
    ghost use Rattle.turn_journal.specs.Loading.{IsWhyRefused};
    ghost use Rattle.journal_links.specs.Replaying.{summaries_next};

    /// Begins a journal of this configuration in the disk's file, and records all turns in it. What is known of the
    /// disk after an error [`turn_journal::begin_on`] says.
    pub fn record(
        alloc: Global,
        inner: &'a mut L,
        disk: &'a mut D,
        room: &'a mut JournalRoom,
        config: &[u8],
    ) -> Result<JournalLinks<'a, L, D>, JournalFault>
        requires { length config.now ≤ config_limit }
        // Once it has answered Ok, every crash leaves the journal.
        ensures begun { IfOk result (λ links. ForSome (D.report disk.entry.now).past (λ _.
            StandsBlank config.now (end_of links) (disk_of links.recorded).past)) }
        ensures any_moment { IfOk result (λ links. ForSome (D.report disk.entry.now).past (λ past.
            LeavesAfterSync past (disk_of links.recorded).past (HoldsBlankOrFree config.now))) }
        ensures inner { IfOk result (λ links. links.recorded.inner.now ≡ inner.entry.now) }
        ensures inner_same { IfOk result (λ links.
            links.recorded.inner.ghost_name ≡ inner.entry.ghost_name) }
        ensures disk_same { IfOk result (λ links.
            links.recorded.recorder.journal.disk.ghost_name ≡ disk.entry.ghost_name) }
        ensures no_fault { IfOk result (λ links.
            (disk_of links.recorded).faults ≡ (D.report disk.entry.now).faults) }
        ensures opened { IfOk result (λ links.
            (disk_of links.recorded).opened ≡ (D.report disk.entry.now).opened) }
        ensures unbegun { IfOk result (λ links.
            links.recorded.recorder.journal.has_record ≡ false) }
        ensures sends { IfOk result (λ links. (seen_of links.recorded).sends ≡ []) }
        ensures first { IfOk result (λ links. (seen_of links.recorded).first ≡ 0) }
        ensures ready { IfOk result (λ links. links.recorded.spent ≡ false) }
        ensures quiet { IfOk result (λ links. links.recorded.disk_failed ≡ false) }
        ensures log { IfOk result (λ links. links.log ≡ []) }
        ensures config { IfOk result (λ links. links.config.now ≡ config.now) }
        ensures records { IfOk result (λ links. links.replay.now.records ≡ []) }
        ensures given { IfOk result (λ links. links.replay.now.given ≡ 0) }
        ensures opened_links { IfOk result (λ links. links.opened.now.numbers.keys ≡ []) }
        // A file that may hold a journal is refused at 0, and no other is.
        ensures free { OnOk result (ForSome (D.report disk.entry.now).past (λ past.
            IsFree (text_of past))) }
        ensures refused { IfErr result (λ fault. ForSome (D.report disk.entry.now).past (λ past.
            IsWhyTaken (text_of past) fault)) }
    {
        room.config = Blob::from_slice(alloc, config)?;
        room.replay = Replay::fresh(alloc);
        room.opened = OpenLinks::fresh(alloc);
        let found = match begin_on(alloc, disk, config) {
            Ok(found) => found,
            Err(fault) => return Err(fault),
        };
        let journal = JournalFile::over(disk, &mut room.written, found.gate, found.has_record);
        let recorded = RecordedLinks::over(inner, journal, None, &mut room.turns);
        let links = JournalLinks::over(recorded, &mut room.replay, &mut room.opened, &room.config);
        Ok(links)
    }

    /// Loads the journal in the disk's file, gives its turns again, and records the turns after them in it. What is
    /// known of the disk after an error [`turn_journal::load_on`] says.
    pub fn resume(
        alloc: Global,
        inner: &'a mut L,
        disk: &'a mut D,
        room: &'a mut JournalRoom,
    ) -> Result<JournalLinks<'a, L, D>, JournalFault>
        // Once it has answered Ok, every crash leaves the journal.
        ensures resumed { IfOk result (λ links. ForSome (D.report disk.entry.now).past (λ past.
            Resumes past (end_of links) links.config.now links.replay.now.records)) }
        ensures synced { IfOk result (λ links.
            (disk_of links.recorded).past ≡ option_map synced (D.report disk.entry.now).past) }
        ensures inner { IfOk result (λ links. links.recorded.inner.now ≡ inner.entry.now) }
        ensures inner_same { IfOk result (λ links.
            links.recorded.inner.ghost_name ≡ inner.entry.ghost_name) }
        ensures disk_same { IfOk result (λ links.
            links.recorded.recorder.journal.disk.ghost_name ≡ disk.entry.ghost_name) }
        ensures no_fault { IfOk result (λ links.
            (disk_of links.recorded).faults ≡ (D.report disk.entry.now).faults) }
        ensures opened { IfOk result (λ links.
            (disk_of links.recorded).opened ≡ (D.report disk.entry.now).opened) }
        ensures sends { IfOk result (λ links. (seen_of links.recorded).sends ≡ []) }
        ensures first { IfOk result (λ links.
            (seen_of links.recorded).first ≡ first_free links.replay.now.records) }
        ensures ready { IfOk result (λ links. links.recorded.spent ≡ false) }
        ensures quiet { IfOk result (λ links. links.recorded.disk_failed ≡ false) }
        ensures log { IfOk result (λ links. links.log ≡ []) }
        ensures given { IfOk result (λ links. links.replay.now.given ≡ 0) }
        ensures left { IfOk result (λ links.
            links.replay.now.left.items ≡ summaries_next links.replay.now.records) }
        ensures opened_links { IfOk result (λ links. links.opened.now.numbers.keys ≡ []) }
        // A file that holds no journal is refused at the first place that does not fit.
        ensures refused { IfErr result (λ fault. ForSome (D.report disk.entry.now).past (λ past.
            IsWhyRefused (text_of past) fault)) }
    {
        let (found, bytes) = match load_on(alloc, disk) {
            Ok(loaded) => loaded,
            Err(fault) => return Err(fault),
        };
        let (config, records) = match read_journal(alloc, bytes.as_slice()) {
            Ok(read) => read,
            Err(fault) => return Err(fault),
        };
        let last = last_opened(records.as_slice());
        room.config = config;
        room.replay = Replay::over(alloc, records)?;
        room.opened = OpenLinks::fresh(alloc);
        let journal = JournalFile::over(disk, &mut room.written, found.gate, found.has_record);
        let recorded = RecordedLinks::over(inner, journal, last, &mut room.turns);
        let links = JournalLinks::over(recorded, &mut room.replay, &mut room.opened, &room.config);
        Ok(links)
    }
}
