ghost use Rattle.std.specs.Prelude.{◌≡◌, ◌≤◌, ◌++◌, [], length, drop, IfOk, OnErr, OnOk, IsErrOf};
ghost use Rattle.std.specs.Option.{ForSome, option_map};
ghost use Rattle.disk_port.specs.Past.{IsUndoneOrBegun, put, synced, text_of, written};
ghost use Rattle.disk_port.specs.Calls.{Fails, HasCause, IsReadAt, opened_by};
ghost use Rattle.disk_port.specs.Failing.{CountsCall, calls_made, count_after, is_chosen};
ghost use Rattle.disk_port.specs.Replay.{past_after};

use crate::disk::{Disk, DiskError};
use crate::disk_call::{DiskCall, DiskCalls};
use ev_types::{Blob, Memory, Text, Texts};
use std::alloc::Global;

/// A disk in memory. A write that fails is done all the same, and a sync that fails is not. No count rises above
/// 2^64 - 1.
#[derive(Drop)]
pub struct MemDisk {
    /// What a read gives.
    pub file: Blob,
    /// What was on the disk before the first call of `log`.
    pub synced: Blob,
    /// The name of each call of [`Disk::open`] and [`Disk::create`] that did not answer out of memory, in order.
    pub opened: Texts,
    /// The writes, also those that failed, and the syncs that succeeded, in order.
    pub log: DiskCalls,
    /// The numbers, from 0, of the calls that fail.
    pub failing: Vec<u64>,
    /// The number of the first call of those that all fail, as after a power cut.
    pub stop: Option<u64>,
    /// The number of calls, not counting those that answered out of memory.
    pub calls: u64,
    /// How many calls failed.
    pub faults: u64,
    ghost replayed: { file ≡ text_of (past_after synced log) },
}

impl MemDisk {
    ghost use Rattle.disk_port.specs.MemDisk.{counted};

    /// A disk that has these bytes. The calls with the numbers in `failing`, from 0, fail, and so does each from `stop`
    /// on.
    pub fn fresh(
        alloc: Global,
        file: Blob,
        failing: Vec<u64>,
        stop: Option<u64>,
    ) -> Result<MemDisk, Memory>
        ensures file { IfOk result (λ disk. disk.file ≡ file) }
        ensures synced { IfOk result (λ disk. disk.synced ≡ file) }
        ensures nothing { IfOk result (λ disk. (disk.opened ≡ []) × (disk.log ≡ [])) }
        ensures failing { IfOk result (λ disk. disk.failing ≡ failing) }
        ensures stop { IfOk result (λ disk. disk.stop ≡ stop) }
        ensures counts { IfOk result (λ disk. (disk.calls ≡ 0) × (disk.faults ≡ 0)) }
    {
        let synced = Blob::from_slice(alloc, file.as_slice())?;
        Ok(MemDisk {
            file,
            synced,
            opened: Texts::fresh(alloc),
            log: DiskCalls::fresh(alloc),
            failing,
            stop,
            calls: 0,
            faults: 0,
        })
    }

    /// Whether the next call fails.
    fn fails(&self) -> bool
        ensures { result ≡ is_chosen self.now.failing.items self.now.stop self.now.calls }
    {
        let stopped = match self.stop {
            Some(stop) => stop <= self.calls,
            None => false,
        };
        stopped || self.failing.contains(&self.calls)
    }

    /// Counts a call, and answers by its number.
    fn count_call(&mut self) -> Result<(), DiskError>
        ensures file { self.new.file ≡ self.old.file }
        ensures synced { self.new.synced ≡ self.old.synced }
        ensures opened { self.new.opened ≡ self.old.opened }
        ensures log { self.new.log ≡ self.old.log }
        ensures cause { HasCause self.old.faults self.new.faults result }
        ensures answered { IsErrOf result DiskError.Memory → ⊥ }
        ensures counts { CountsCall (counted self.old) (counted self.new) result }
    {
        if self.fails() {
            return Err(self.count_failure());
        }
        self.calls = self.calls.saturating_add(1);
        Ok(())
    }

    /// Counts a call that fails.
    fn count_failure(&mut self) -> DiskError
        ensures answer { result ≡ DiskError.Failed }
        ensures file { self.new.file ≡ self.old.file }
        ensures synced { self.new.synced ≡ self.old.synced }
        ensures opened { self.new.opened ≡ self.old.opened }
        ensures log { self.new.log ≡ self.old.log }
        ensures failing { self.new.failing ≡ self.old.failing }
        ensures stop { self.new.stop ≡ self.old.stop }
        ensures calls { self.new.calls ≡ count_after self.old.calls }
        ensures cause { Fails self.old.faults self.new.faults }
    {
        self.calls = self.calls.saturating_add(1);
        self.faults = self.faults.saturating_add(1);
        DiskError::Failed
    }
}

impl Disk for MemDisk {
    ghost use Rattle.disk_port.specs.MemDisk.{counted, mem_report};
    ghost use Rattle.disk_port.specs.declared.disk_call.DiskCall.TheVariants.{Write};

    ghost report = { λ disk. mem_report disk };

    fn open(&mut self, alloc: Global, name: &Text) -> Result<(), DiskError>
        ensures past { (mem_report self.new).past ≡ (mem_report self.old).past }
        ensures opened { (mem_report self.new).opened ≡ option_map (λ names.
            names ++ opened_by name.now result) (mem_report self.old).opened }
        ensures cause { HasCause self.old.faults self.new.faults result }
        ensures memory { IsErrOf result DiskError.Memory → self.new ≡ self.old }

        // More than a disk must report: which calls fail.
        ensures counts { CountsCall (counted self.old) (counted self.new) result }
    {
        let name = name.copy(alloc)?;
        self.opened.push(alloc, name)?;
        self.count_call()
    }

    fn create(&mut self, alloc: Global, name: &Text) -> Result<(), DiskError>
        ensures past { (mem_report self.new).past ≡ (mem_report self.old).past }
        ensures opened { (mem_report self.new).opened ≡ option_map (λ names.
            names ++ opened_by name.now result) (mem_report self.old).opened }
        ensures cause { HasCause self.old.faults self.new.faults result }
        ensures memory { IsErrOf result DiskError.Memory → self.new ≡ self.old }

        // More than a disk must report: which calls fail.
        ensures counts { CountsCall (counted self.old) (counted self.new) result }
    {
        self.open(alloc, name)
    }

    fn length(&mut self, _alloc: Global) -> Result<u64, DiskError>
        ensures length { IfOk result (λ count. ForSome (mem_report self.old).past (λ past.
            count ≡ length (text_of past))) }
        ensures past { (mem_report self.new).past ≡ (mem_report self.old).past }
        ensures opened { (mem_report self.new).opened ≡ (mem_report self.old).opened }
        ensures cause { HasCause self.old.faults self.new.faults result }
        ensures memory { IsErrOf result DiskError.Memory → self.new ≡ self.old }

        // More than a disk must report: which calls fail, and that memory does not run out.
        ensures counts { CountsCall (counted self.old) (counted self.new) result }
        ensures answered { IsErrOf result DiskError.Memory → ⊥ }
    {
        self.count_call()?;
        Ok(self.file.len() as u64)
    }

    fn read(&mut self, _alloc: Global, place: u64, buf: &mut [u8]) -> Result<usize, DiskError>
        ensures within { IfOk result (λ count. count ≤ length buf.new) }
        ensures bytes { IfOk result (λ count. ForSome (mem_report self.old).past (λ past.
            IsReadAt place (text_of past) count buf.new)) }
        ensures rest { IfOk result (λ count. drop count buf.new ≡ drop count buf.old) }
        ensures past { (mem_report self.new).past ≡ (mem_report self.old).past }
        ensures opened { (mem_report self.new).opened ≡ (mem_report self.old).opened }
        ensures cause { HasCause self.old.faults self.new.faults result }
        ensures memory { IsErrOf result DiskError.Memory → self.new ≡ self.old }

        // More than a disk must report: which calls fail, and that memory does not run out.
        ensures counts { CountsCall (counted self.old) (counted self.new) result }
        ensures answered { IsErrOf result DiskError.Memory → ⊥ }
    {
        self.count_call()?;
        Ok(read_from(self.file.as_slice(), place, buf))
    }

    fn write_at(&mut self, alloc: Global, place: u64, bytes: &[u8]) -> Result<(), DiskError>
        requires { ForSome (mem_report self.old).past (λ past. place ≤ length (text_of past)) }
        ensures done { OnOk result ((mem_report self.new).past
            ≡ option_map (written place bytes.now) (mem_report self.old).past) }
        ensures failed { OnErr result (IsUndoneOrBegun place (length bytes.now)
            (mem_report self.old).past (mem_report self.new).past) }
        ensures opened { (mem_report self.new).opened ≡ (mem_report self.old).opened }
        ensures cause { HasCause self.old.faults self.new.faults result }
        ensures memory { IsErrOf result DiskError.Memory → self.new ≡ self.old }

        // More than a disk must report: which calls fail, and that a write that fails is done all the same.
        ensures counts { CountsCall (counted self.old) (counted self.new) result }
        ensures log { self.new.log ≡ self.old.log ++ calls_made (Write place bytes.now) result }
    {
        let file = put_over(alloc, self.file.as_slice(), place, bytes)?;
        let bytes = Blob::from_slice(alloc, bytes)?;
        self.log.push(alloc, DiskCall::Write { place, bytes })?;
        self.file = file;
        self.count_call()
    }

    fn sync(&mut self, alloc: Global) -> Result<(), DiskError>
        ensures done { OnOk result ((mem_report self.new).past
            ≡ option_map synced (mem_report self.old).past) }
        ensures failed { OnErr result ((mem_report self.new).past ≡ (mem_report self.old).past) }
        ensures opened { (mem_report self.new).opened ≡ (mem_report self.old).opened }
        ensures cause { HasCause self.old.faults self.new.faults result }
        ensures memory { IsErrOf result DiskError.Memory → self.new ≡ self.old }

        // More than a disk must report: which calls fail.
        ensures counts { CountsCall (counted self.old) (counted self.new) result }
    {
        if self.fails() {
            return Err(self.count_failure());
        }
        self.log.push(alloc, DiskCall::Sync)?;
        self.calls = self.calls.saturating_add(1);
        Ok(())
    }
}

/// Copies the bytes from `place` on to the start of `buf`, as many as there are and fit, and gives their number.
fn read_from(file: &[u8], place: u64, buf: &mut [u8]) -> usize
    ensures within { result ≤ length buf.new }
    ensures bytes { IsReadAt place file.now result buf.new }
    ensures rest { drop result buf.new ≡ drop result buf.old }
{
    let start = (place as usize).min(file.len());
    let rest = &file[start..];
    let count = rest.len().min(buf.len());
    buf[..count].copy_from_slice(&rest[..count]);
    count
}

/// The bytes of the file with others over them from `place` on.
fn put_over(alloc: Global, file: &[u8], place: u64, bytes: &[u8]) -> Result<Blob, Memory>
    requires { place ≤ length file.now }
    ensures { IfOk result (λ blob. blob ≡ put place bytes.now file.now) }
{
    let (before, rest) = file.split_at(place as usize);
    let (_, after) = rest.split_at(bytes.len().min(rest.len()));
    let mut blob = Blob::from_slice(alloc, before)?;
    blob.append(alloc, bytes)?;
    blob.append(alloc, after)?;
    Ok(blob)
}
