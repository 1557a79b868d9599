ghost use Rattle.std.specs.Prelude.{◌≡◌, ◌≤◌, ◌++◌, length, drop, IfOk, OnOk, OnErr, IsErrOf};
ghost use Rattle.std.specs.Option.{ForSome, option_map};
ghost use Rattle.disk_port.specs.Past.{IsUndoneOrBegun, synced, text_of, written};
ghost use Rattle.disk_port.specs.Calls.{HasCause, IsReadAt, opened_by};
ghost use Rattle.disk_port.specs.declared.disk.DiskError.TheVariants.{Memory as out_of_memory};

use ev_types::{Memory, Text};
use std::alloc::Global;
use thiserror::Error;

/// A disk with one file, which is read and written by places: byte offsets from 0.
pub trait Disk {
    ghost use Rattle.disk_port.specs.Calls.{DiskReport};

    /// What was done to the file, which names were opened, and how many calls failed.
    ghost report: { Self → DiskReport };

    /// Opens the file of that name, which is there. Other calls are of this file.
    fn open(&mut self, alloc: Global, name: &Text) -> Result<(), DiskError>
        ensures past { (report self.new).past ≡ (report self.old).past }
        ensures opened { (report self.new).opened ≡ option_map (λ names.
            names ++ opened_by name.now result) (report self.old).opened }
        ensures cause { HasCause (report self.old).faults (report self.new).faults result }
        ensures memory { IsErrOf result DiskError.Memory → self.new ≡ self.old };

    /// Opens the file of that name, and makes an empty one if there is none. Other calls are of this file.
    fn create(&mut self, alloc: Global, name: &Text) -> Result<(), DiskError>
        ensures past { (report self.new).past ≡ (report self.old).past }
        ensures opened { (report self.new).opened ≡ option_map (λ names.
            names ++ opened_by name.now result) (report self.old).opened }
        ensures cause { HasCause (report self.old).faults (report self.new).faults result }
        ensures memory { IsErrOf result DiskError.Memory → self.new ≡ self.old };

    /// The number of bytes in the file.
    fn length(&mut self, alloc: Global) -> Result<u64, DiskError>
        ensures length { IfOk result (λ count. ForSome (report self.old).past (λ past.
            count ≡ length (text_of past))) }
        ensures past { (report self.new).past ≡ (report self.old).past }
        ensures opened { (report self.new).opened ≡ (report self.old).opened }
        ensures cause { HasCause (report self.old).faults (report self.new).faults result }
        ensures memory { IsErrOf result DiskError.Memory → self.new ≡ self.old };

    /// Reads the bytes from `place` on into the start of `buf`, as many as there are and fit, and gives their number.
    /// After `Failed` the bytes of `buf` are not known.
    fn read(&mut self, alloc: Global, place: u64, buf: &mut [u8]) -> Result<usize, DiskError>
        ensures within { IfOk result (λ count. count ≤ length buf.new) }
        ensures bytes { IfOk result (λ count. ForSome (report self.old).past (λ past.
            IsReadAt place (text_of past) count buf.new)) }
        ensures rest { IfOk result (λ count. drop count buf.new ≡ drop count buf.old) }
        ensures past { (report self.new).past ≡ (report self.old).past }
        ensures opened { (report self.new).opened ≡ (report self.old).opened }
        ensures cause { HasCause (report self.old).faults (report self.new).faults result }
        ensures memory { IsErrOf result DiskError.Memory → self.new ≡ self.old };

    /// Writes the bytes over those from `place` on, and past the end. `place` is at most the length. Until a sync
    /// succeeds, a crash may leave any bytes in this range. A write that failed may have been begun.
    fn write_at(&mut self, alloc: Global, place: u64, bytes: &[u8]) -> Result<(), DiskError>
        requires { ForSome (report self.old).past (λ past. place ≤ length (text_of past)) }
        ensures done { OnOk result ((report self.new).past
            ≡ option_map (written place bytes.now) (report self.old).past) }
        ensures failed { OnErr result (IsUndoneOrBegun place (length bytes.now)
            (report self.old).past (report self.new).past) }
        ensures opened { (report self.new).opened ≡ (report self.old).opened }
        ensures cause { HasCause (report self.old).faults (report self.new).faults result }
        ensures memory { IsErrOf result DiskError.Memory → self.new ≡ self.old };

    /// Puts on the disk all that was written. After it, a crash leaves what a read gives.
    fn sync(&mut self, alloc: Global) -> Result<(), DiskError>
        ensures done { OnOk result ((report self.new).past
            ≡ option_map synced (report self.old).past) }
        ensures failed { OnErr result ((report self.new).past ≡ (report self.old).past) }
        ensures opened { (report self.new).opened ≡ (report self.old).opened }
        ensures cause { HasCause (report self.old).faults (report self.new).faults result }
        ensures memory { IsErrOf result DiskError.Memory → self.new ≡ self.old };
}

/// Why a call of a disk did not succeed.
#[derive(Clone, Copy, Debug, PartialEq, Eq, Error)]
pub enum DiskError {
    /// The call failed.
    #[error("the disk failed")]
    Failed,
    /// Out of memory. The disk is as before.
    #[error("out of memory")]
    Memory,
}

impl From<Memory> for DiskError {
    ghost from_gives = { λ _ error. error ≡ out_of_memory };

    fn from(_memory: Memory) -> DiskError {
        DiskError::Memory
    }
}
