ghost use Rattle.std.specs.Prelude.{◌≡◌, ◌+◌, ◌<◌, ◌≤◌, ◌∷◌, ◌++◌, [], List, ℕ, Bool, true, length, OnOk};
ghost use Rattle.std.specs.Option.{ForSome, option_map};
ghost use Rattle.disk_port.specs.Past.{StaysPossible, TearsOnly, text_of};
ghost use Rattle.disk_port.specs.Calls.{HasCause};
ghost use Rattle.journal_format.specs.Limits.{journal_limit};
ghost use Rattle.turn_journal.specs.Standing.{Adds, IsNext, IsReady, IsWithin, LeavesOneOrBoth, StandsWith, opened_past, put_past};

use disk_port::{Disk, DiskError, write_synced};
use std::alloc::Global;

/// Adds a record to the journal whose closed gate is at `gate`. `bytes` is the record and a closed gate. First these
/// are put on the disk after the gate, and only then the gate is opened.
pub(crate) fn append_on<D: Disk>(
    alloc: Global,
    disk: &mut D,
    gate: u64,
    bytes: &[u8],
) -> Result<(), DiskError>
    requires room { gate + length bytes.now < journal_limit }
    requires within { IsWithin (D.report disk.old).past gate }
    ensures ok { OnOk result ((has_record : Bool) (text : List ℕ) → bytes.now ≡ text ++ 0 ∷ [] →
        (adds : Adds (D.report disk.old).past gate has_record text) →
        StandsWith adds (D.report disk.new).past (gate + length bytes.now) true) }
    ensures ready { OnOk result ((has_record : Bool) (text : List ℕ) →
        bytes.now ≡ text ++ 0 ∷ [] → IsReady (D.report disk.old).past gate has_record →
        IsNext has_record text →
        IsReady (D.report disk.new).past (gate + length bytes.now) true) }
    ensures within { OnOk result (IsWithin (D.report disk.new).past (gate + length bytes.now)) }
    ensures any_moment { (has_record : Bool) (text : List ℕ) → bytes.now ≡ text ++ 0 ∷ [] →
        (adds : Adds (D.report disk.old).past gate has_record text) →
        LeavesOneOrBoth adds (D.report disk.new).past }
    ensures possible { StaysPossible (D.report disk.old).past (D.report disk.new).past }
    ensures opened { (D.report disk.new).opened ≡ (D.report disk.old).opened }
    ensures cause { HasCause (D.report disk.old).faults (D.report disk.new).faults result }
{
    match put_after(alloc, disk, gate, bytes) {
        Ok(()) => open_gate(alloc, disk, gate),
        Err(error) => Err(error),
    }
}

/// Puts the bytes on the disk after the gate.
fn put_after<D: Disk>(alloc: Global, disk: &mut D, gate: u64, bytes: &[u8]) -> Result<(), DiskError>
    requires room { gate + length bytes.now < journal_limit }
    requires within { IsWithin (D.report disk.old).past gate }
    ensures done { OnOk result ((D.report disk.new).past
        ≡ option_map (put_past gate bytes.now) (D.report disk.old).past) }
    ensures any_moment { ForSome (D.report disk.old).past (λ past.
        TearsOnly (gate + 1) (length bytes.now) past (D.report disk.new).past) }
    ensures possible { StaysPossible (D.report disk.old).past (D.report disk.new).past }
    ensures opened { (D.report disk.new).opened ≡ (D.report disk.old).opened }
    ensures cause { HasCause (D.report disk.old).faults (D.report disk.new).faults result }
{
    write_synced(alloc, disk, gate + 1, bytes)
}

/// Opens the gate on the disk.
fn open_gate<D: Disk>(alloc: Global, disk: &mut D, gate: u64) -> Result<(), DiskError>
    requires { ForSome (D.report disk.old).past (λ past. gate ≤ length (text_of past)) }
    ensures done { OnOk result ((D.report disk.new).past
        ≡ option_map (opened_past gate) (D.report disk.old).past) }
    ensures any_moment { ForSome (D.report disk.old).past (λ past.
        TearsOnly gate 1 past (D.report disk.new).past) }
    ensures possible { StaysPossible (D.report disk.old).past (D.report disk.new).past }
    ensures opened { (D.report disk.new).opened ≡ (D.report disk.old).opened }
    ensures cause { HasCause (D.report disk.old).faults (D.report disk.new).faults result }
{
    write_synced(alloc, disk, gate, &[1])
}
