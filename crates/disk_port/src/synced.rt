ghost use Rattle.std.specs.Prelude.{◌≡◌, ◌≤◌, length, OnOk};
ghost use Rattle.std.specs.Option.{ForSome, option_map};
ghost use Rattle.disk_port.specs.Past.{StaysPossible, TearsOnly, synced, text_of, written};
ghost use Rattle.disk_port.specs.Calls.{HasCause};

use crate::disk::{Disk, DiskError};
use std::alloc::Global;

/// Writes the bytes over those from `place` on, and past the end, and puts them on the disk. `place` is at most the
/// length. A crash in it, or after it failed, leaves any bytes in this range, and the others as they were.
pub fn write_synced<D: Disk>(
    alloc: Global,
    disk: &mut D,
    place: u64,
    bytes: &[u8],
) -> Result<(), DiskError>
    requires { ForSome (D.report disk.old).past (λ past. place ≤ length (text_of past)) }
    ensures done { OnOk result ((D.report disk.new).past
        ≡ option_map (λ past. synced (written place bytes.now past)) (D.report disk.old).past) }
    ensures any_moment { ForSome (D.report disk.old).past (λ past.
        TearsOnly place (length bytes.now) past (D.report disk.new).past) }
    // After an error too, a read gives bytes that a crash may leave.
    ensures possible { StaysPossible (D.report disk.old).past (D.report disk.new).past }
    ensures opened { (D.report disk.new).opened ≡ (D.report disk.old).opened }
    ensures cause { HasCause (D.report disk.old).faults (D.report disk.new).faults result }
{
    match disk.write_at(alloc, place, bytes) {
        Ok(()) => disk.sync(alloc),
        Err(error) => Err(error),
    }
}
