ghost use Rattle.std.specs.Prelude.{◌≡◌, ◌+◌, ◌<◌, ◌∷◌, ◌++◌, ◌≤◌, [], false, true, length, IfOk, OnErr, OnOk};
ghost use Rattle.std.specs.Option.{ForSome, option_map};
ghost use Rattle.disk_port.specs.Calls.{HasCause};
ghost use Rattle.disk_port.specs.Past.{StaysPossible, synced, text_of};
ghost use Rattle.journal_format.specs.Limits.{config_limit, journal_limit};
ghost use Rattle.turn_journal.specs.Beginning.{HoldsBlankOrFree, IsFree, LeavesAfterSync, StandsBlank};
ghost use Rattle.turn_journal.specs.Loading.{IsLoaded};
ghost use Rattle.turn_journal.specs.Standing.{Adds, IsNext, IsReady, IsWithin, LeavesOneOrBoth, StandsWith};

use crate::append::append_on;
use crate::begin::begin_on;
use crate::fault::JournalFault;
use crate::load::load_on;
use disk_port::{Disk, DiskError};
use ev_types::{Blob, Memory};
use std::alloc::Global;

/// A journal on a disk that is lent, with room for the bytes that it writes. Contracts see the disk, the place of the
/// closed gate, whether a record is before it, and whether the value may still be used.
#[derive(Drop)]
pub struct JournalFile<'a, D: Disk> {
    pub disk: &'a mut D,
    /// The place of the closed gate, to which the next record goes.
    pub gate: u64,
    pub has_record: bool,
    /// Whether a call answered an error. The value is then not used again, and the journal is loaded anew.
    pub failed: bool,
    // The record that is written, and a closed gate.
    bytes: &'a mut Vec<u8>,
    ghost within: { failed ≡ false → IsWithin (D.report disk.now).past gate },
}

impl<'a, D: Disk> JournalFile<'a, D> {
    /// The journal whose closed gate is at that place of the disk's file. `bytes` is room for what is written.
    pub fn over(
        disk: &'a mut D,
        bytes: &'a mut Vec<u8>,
        gate: u64,
        has_record: bool,
    ) -> JournalFile<'a, D>
        requires { IsWithin (D.report disk.old).past gate }
        ensures disk { result.disk.now ≡ disk.entry.now }
        ensures same { result.disk.ghost_name ≡ disk.entry.ghost_name }
        ensures gate { result.gate ≡ gate }
        ensures has_record { result.has_record ≡ has_record }
        ensures sound { result.failed ≡ false }
    {
        JournalFile {
            disk,
            gate,
            has_record,
            failed: false,
            bytes,
        }
    }

    /// Syncs, and begins a journal of this configuration without a record in the disk's file. What is known after an
    /// error [`begin_on`] says.
    pub fn begin(
        alloc: Global,
        disk: &'a mut D,
        bytes: &'a mut Vec<u8>,
        config: &[u8],
    ) -> Result<JournalFile<'a, D>, JournalFault>
        requires { length config.now ≤ config_limit }
        // Once it has answered Ok, every crash leaves the journal.
        ensures ok { IfOk result (λ file. ForSome (D.report disk.entry.now).past (λ _.
            StandsBlank config.now
            (record { gate = file.gate; has_record = file.has_record })
            (D.report file.disk.now).past)) }
        ensures ready { IfOk result (λ file. IsReady (D.report file.disk.now).past
            file.gate file.has_record) }
        ensures gate { IfOk result (λ file. file.gate ≡ length config.now + 5) }
        ensures has_record { IfOk result (λ file. file.has_record ≡ false) }
        ensures free { OnOk result (ForSome (D.report disk.entry.now).past (λ past.
            IsFree (text_of past))) }
        ensures any_moment { IfOk result (λ file. ForSome (D.report disk.entry.now).past (λ past.
            LeavesAfterSync past (D.report file.disk.now).past (HoldsBlankOrFree config.now))) }
        ensures opened { IfOk result (λ file. (D.report file.disk.now).opened
            ≡ (D.report disk.entry.now).opened) }
        ensures no_fault { IfOk result (λ file. (D.report file.disk.now).faults
            ≡ (D.report disk.entry.now).faults) }
        ensures sound { IfOk result (λ file. file.failed ≡ false) }
        ensures same { IfOk result (λ file. file.disk.ghost_name ≡ disk.entry.ghost_name) }
    {
        match begin_on(alloc, disk, config) {
            Ok(found) => {
                let file = JournalFile::over(disk, bytes, found.gate, found.has_record);
                Ok(file)
            }
            Err(fault) => Err(fault),
        }
    }

    /// Syncs, and finds the journal in the disk's file. It gives its bytes too, and writes nothing. What is known after
    /// an error [`load_on`] says.
    pub fn load(
        alloc: Global,
        disk: &'a mut D,
        bytes: &'a mut Vec<u8>,
    ) -> Result<(JournalFile<'a, D>, Blob), JournalFault>
        ensures ok { IfOk result (λ loaded. ForSome (D.report disk.entry.now).past (λ past.
            IsLoaded past (record { gate = loaded.0.gate; has_record = loaded.0.has_record })
            loaded.1)) }
        ensures ready { IfOk result (λ loaded. IsReady (D.report loaded.0.disk.now).past
            loaded.0.gate loaded.0.has_record) }
        ensures blank { IfOk result (λ loaded. loaded.0.has_record ≡ false →
            loaded.0.gate ≤ config_limit + 5) }
        // Nothing was done but the sync, so every crash leaves that journal.
        ensures synced { IfOk result (λ loaded. (D.report loaded.0.disk.now).past
            ≡ option_map synced (D.report disk.entry.now).past) }
        ensures opened { IfOk result (λ loaded. (D.report loaded.0.disk.now).opened
            ≡ (D.report disk.entry.now).opened) }
        ensures no_fault { IfOk result (λ loaded. (D.report loaded.0.disk.now).faults
            ≡ (D.report disk.entry.now).faults) }
        ensures sound { IfOk result (λ loaded. loaded.0.failed ≡ false) }
        ensures same { IfOk result (λ loaded.
            loaded.0.disk.ghost_name ≡ disk.entry.ghost_name) }
    {
        match load_on(alloc, disk) {
            Ok((found, text)) => {
                let file = JournalFile::over(disk, bytes, found.gate, found.has_record);
                Ok((file, text))
            }
            Err(fault) => Err(fault),
        }
    }

    /// Adds the record that the bytes spell. It is the first one of a journal exactly where it is that of a `listen`.
    /// After an error this value is not used again, and a crash leaves the journal of before, or that journal with the
    /// record.
    pub fn append(&mut self, alloc: Global, bytes: &[u8]) -> Result<(), DiskError>
        requires next { IsNext self.old.has_record bytes.now }
        requires room { self.old.gate + length bytes.now + 1 < journal_limit }
        requires sound { self.old.failed ≡ false }
        // Once it has answered Ok, every crash leaves the journal with the record.
        ensures ok { OnOk result ((adds : Adds (D.report self.old.disk.now).past self.old.gate
            self.old.has_record bytes.now) →
            StandsWith adds (D.report self.new.disk.now).past self.new.gate self.new.has_record) }
        ensures ready { OnOk result (IsReady (D.report self.old.disk.now).past self.old.gate
            self.old.has_record →
            IsReady (D.report self.new.disk.now).past self.new.gate self.new.has_record) }
        // A crash at any moment leaves the journal of before, or that journal with the record whole.
        ensures any_moment { (adds : Adds (D.report self.old.disk.now).past self.old.gate
            self.old.has_record bytes.now) →
            LeavesOneOrBoth adds (D.report self.new.disk.now).past }
        // After an error too, a read gives bytes that a crash may leave.
        ensures possible { StaysPossible (D.report self.old.disk.now).past
            (D.report self.new.disk.now).past }
        ensures place { OnOk result (self.new.gate ≡ self.old.gate + length bytes.now + 1) }
        ensures has_record { OnOk result (self.new.has_record ≡ true) }
        ensures sound { OnOk result (self.new.failed ≡ false) }
        ensures failed { OnErr result (self.new.failed ≡ true) }
        ensures err { OnErr result ((self.new.gate ≡ self.old.gate) ×
            (self.new.has_record ≡ self.old.has_record)) }
        ensures opened { (D.report self.new.disk.now).opened
            ≡ (D.report self.old.disk.now).opened }
        ensures cause { HasCause (D.report self.old.disk.now).faults
            (D.report self.new.disk.now).faults result }
        ensures same { self.new.disk.ghost_name ≡ self.old.disk.ghost_name }
    {
        self.failed = true;
        if self.fill(bytes).is_err() {
            return Err(DiskError::Memory);
        }
        append_on(alloc, self.disk, self.gate, self.bytes.as_slice())?;
        self.gate += self.bytes.len() as u64;
        self.has_record = true;
        self.failed = false;
        Ok(())
    }

    /// Makes the record and a closed gate ready to be written.
    fn fill(&mut self, bytes: &[u8]) -> Result<(), Memory>
        ensures bytes { OnOk result (self.new.bytes.now.items ≡ bytes.now ++ 0 ∷ []) }
        ensures disk { self.new.disk.now ≡ self.old.disk.now }
        ensures same { self.new.disk.ghost_name ≡ self.old.disk.ghost_name }
        ensures gate { self.new.gate ≡ self.old.gate }
        ensures has_record { self.new.has_record ≡ self.old.has_record }
        ensures failed { self.new.failed ≡ self.old.failed }
    {
        self.bytes.clear();
        self.bytes.extend_from_slice(bytes)?;
        self.bytes.push(0)?;
        Ok(())
    }
}
