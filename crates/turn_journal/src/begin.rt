ghost use Rattle.std.specs.Prelude.{◌≡◌, ◌≤◌, true, length, IfOk, IfErr, OnOk};
ghost use Rattle.std.specs.Option.{ForSome, option_map};
ghost use Rattle.disk_port.specs.Past.{StaysPossible, TearsOnly, synced, text_of};
ghost use Rattle.disk_port.specs.Calls.{HasCause};
ghost use Rattle.journal_format.specs.Limits.{config_limit};
ghost use Rattle.turn_journal.specs.Beginning.{BeginsOnly, HoldsBlankOrFree, IsClosed, IsFirst, IsFree, IsOfDisk, IsShort, IsWhyTaken, LeavesAfterSync, StandsBlank, begun_past, blank_bytes, blank_end, blank_past, closed_past, headed_past, is_taken};
ghost use Rattle.turn_journal.specs.Loading.{HasFaultCause, IsSyncedOrNot};
ghost use Rattle.turn_journal.specs.Standing.{IsReady};

use crate::fault::JournalFault;
use disk_port::{Disk, DiskError, write_synced};
use ev_types::Memory;
use journal_format::{Found, push_head};
use std::alloc::Global;

/// The first bytes of a file.
#[derive(Clone, Copy)]
pub(crate) enum First {
    /// There is one byte at most.
    Short,
    /// The first gate is closed.
    Closed,
    /// There are two bytes or more, and the first gate is open. The file may hold a journal.
    Taken,
}

/// Syncs, and begins a journal of this configuration without a record in the disk's file. It gives the end of the
/// journal. A file that may hold a journal is refused at 0, and nothing is written to it.
pub fn begin_on<D: Disk>(alloc: Global, disk: &mut D, config: &[u8]) -> Result<Found, JournalFault>
    requires { length config.now ≤ config_limit }
    // Once it has answered Ok, every crash leaves the journal.
    ensures ok { IfOk result (λ found. ForSome (D.report disk.old).past (λ _.
        StandsBlank config.now found (D.report disk.new).past)) }
    ensures ready { IfOk result (λ found. IsReady (D.report disk.new).past
        found.gate found.has_record) }
    ensures end { IfOk result (λ found. found ≡ blank_end config.now) }
    ensures free { OnOk result (ForSome (D.report disk.old).past (λ past.
        IsFree (text_of past))) }
    ensures refused { IfErr result (λ fault. ForSome (D.report disk.old).past (λ past.
        IsWhyTaken (text_of past) fault)) }
    ensures unwritten { ForSome (D.report disk.old).past (λ past.
        is_taken (text_of past) ≡ true →
        IsSyncedOrNot (D.report disk.old).past (D.report disk.new).past) }
    // In a file that is not refused, a crash at any moment after the first sync leaves the journal, or a file that is
    // not refused.
    ensures any_moment { ForSome (D.report disk.old).past (λ past.
        IsFree (text_of past) →
        LeavesAfterSync past (D.report disk.new).past (HoldsBlankOrFree config.now)) }
    // After an error too, a read gives bytes that a crash may leave.
    ensures possible { StaysPossible (D.report disk.old).past (D.report disk.new).past }
    ensures opened { (D.report disk.new).opened ≡ (D.report disk.old).opened }
    ensures cause { HasFaultCause (D.report disk.old).faults (D.report disk.new).faults result }
{
    match look_at(alloc, disk) {
        Ok(first) => begin_in(alloc, disk, config, first),
        Err(error) => Err(JournalFault::from(error)),
    }
}

/// Begins a journal in a file with these first bytes, or refuses it.
fn begin_in<D: Disk>(
    alloc: Global,
    disk: &mut D,
    config: &[u8],
    first: First,
) -> Result<Found, JournalFault>
    requires small { length config.now ≤ config_limit }
    requires first { ForSome (D.report disk.old).past (λ past. IsFirst (text_of past) first) }
    ensures ok { IfOk result (λ found. ForSome (D.report disk.old).past (λ _.
        StandsBlank config.now found (D.report disk.new).past)) }
    ensures ready { IfOk result (λ found. IsReady (D.report disk.new).past
        found.gate found.has_record) }
    ensures end { IfOk result (λ found. found ≡ blank_end config.now) }
    ensures free { OnOk result (ForSome (D.report disk.old).past (λ past.
        IsFree (text_of past))) }
    ensures refused { IfErr result (λ fault. ForSome (D.report disk.old).past (λ past.
        IsWhyTaken (text_of past) fault)) }
    ensures unwritten { ForSome (D.report disk.old).past (λ past.
        is_taken (text_of past) ≡ true → (D.report disk.new).past ≡ (D.report disk.old).past) }
    ensures any_moment { BeginsOnly IsFree config.now
        (D.report disk.old).past (D.report disk.new).past }
    ensures possible { StaysPossible (D.report disk.old).past (D.report disk.new).past }
    ensures opened { (D.report disk.new).opened ≡ (D.report disk.old).opened }
    ensures cause { HasFaultCause (D.report disk.old).faults (D.report disk.new).faults result }
{
    match first {
        First::Short => begin_short(alloc, disk, config),
        First::Closed => begin_closed(alloc, disk, config),
        First::Taken => Err(JournalFault::Refused { place: 0 }),
    }
}

/// Syncs, and looks at the first bytes of the file.
#[tactic(auto, using(disk_port::proofs::PastLaws::same_possible, disk_port::proofs::PastLaws::synced_possible))]
fn look_at<D: Disk>(alloc: Global, disk: &mut D) -> Result<First, DiskError>
    ensures first { IfOk result (λ first. ForSome (D.report disk.old).past (λ past.
        IsFirst (text_of past) first)) }
    ensures synced { OnOk result ((D.report disk.new).past
        ≡ option_map synced (D.report disk.old).past) }
    ensures any_moment { IsSyncedOrNot (D.report disk.old).past (D.report disk.new).past }
    ensures possible { StaysPossible (D.report disk.old).past (D.report disk.new).past }
    ensures opened { (D.report disk.new).opened ≡ (D.report disk.old).opened }
    ensures cause { HasCause (D.report disk.old).faults (D.report disk.new).faults result }
{
    match disk.sync(alloc) {
        Ok(()) => first_of(alloc, disk),
        Err(error) => Err(error),
    }
}

/// Reads the first two bytes of the file.
#[tactic(auto, using(disk_port::proofs::PastLaws::same_possible))]
fn first_of<D: Disk>(alloc: Global, disk: &mut D) -> Result<First, DiskError>
    ensures first { IfOk result (λ first. ForSome (D.report disk.old).past (λ past.
        IsFirst (text_of past) first)) }
    ensures past { (D.report disk.new).past ≡ (D.report disk.old).past }
    ensures possible { StaysPossible (D.report disk.old).past (D.report disk.new).past }
    ensures opened { (D.report disk.new).opened ≡ (D.report disk.old).opened }
    ensures cause { HasCause (D.report disk.old).faults (D.report disk.new).faults result }
{
    let mut buf = [0; 2];
    match disk.read(alloc, 0, &mut buf) {
        Ok(count) => Ok(first_in(&buf[..count])),
        Err(error) => Err(error),
    }
}

/// What the first two bytes of a file are, or all where it has fewer.
fn first_in(bytes: &[u8]) -> First
    ensures { IsFirst bytes.now result }
{
    match bytes {
        [0, _, ..] => First::Closed,
        [_, _, ..] => First::Taken,
        _ => First::Short,
    }
}

/// Begins a journal in a file of one byte at most: closes its first gate, and goes on as if it had been closed.
fn begin_short<D: Disk>(alloc: Global, disk: &mut D, config: &[u8]) -> Result<Found, JournalFault>
    requires { length config.now ≤ config_limit }
    ensures done { OnOk result ((D.report disk.new).past
        ≡ option_map (λ past. blank_past config.now (closed_past past)) (D.report disk.old).past) }
    ensures end { IfOk result (λ found. found ≡ blank_end config.now) }
    ensures unrefused { IfErr result IsOfDisk }
    ensures any_moment { BeginsOnly IsShort config.now
        (D.report disk.old).past (D.report disk.new).past }
    ensures possible { StaysPossible (D.report disk.old).past (D.report disk.new).past }
    ensures opened { (D.report disk.new).opened ≡ (D.report disk.old).opened }
    ensures cause { HasFaultCause (D.report disk.old).faults (D.report disk.new).faults result }
{
    match close_first(alloc, disk) {
        Ok(()) => begin_closed(alloc, disk, config),
        Err(error) => Err(JournalFault::from(error)),
    }
}

/// Begins a journal in a file whose first gate is closed.
fn begin_closed<D: Disk>(alloc: Global, disk: &mut D, config: &[u8]) -> Result<Found, JournalFault>
    requires small { length config.now ≤ config_limit }
    requires within { ForSome (D.report disk.old).past (λ past. 1 ≤ length (text_of past)) }
    ensures done { OnOk result ((D.report disk.new).past
        ≡ option_map (blank_past config.now) (D.report disk.old).past) }
    ensures end { IfOk result (λ found. found ≡ blank_end config.now) }
    ensures unrefused { IfErr result IsOfDisk }
    ensures any_moment { BeginsOnly IsClosed config.now
        (D.report disk.old).past (D.report disk.new).past }
    ensures possible { StaysPossible (D.report disk.old).past (D.report disk.new).past }
    ensures opened { (D.report disk.new).opened ≡ (D.report disk.old).opened }
    ensures cause { HasFaultCause (D.report disk.old).faults (D.report disk.new).faults result }
{
    match write_blank(alloc, disk, config) {
        Ok(()) => Ok(Found {
            gate: config.len() as u64 + 5,
            has_record: false,
        }),
        Err(error) => Err(JournalFault::from(error)),
    }
}

/// Puts a journal without a record on the disk, over a file whose first gate is closed. The gate is opened last.
fn write_blank<D: Disk>(alloc: Global, disk: &mut D, config: &[u8]) -> Result<(), DiskError>
    requires small { length config.now ≤ config_limit }
    requires within { ForSome (D.report disk.old).past (λ past. 1 ≤ length (text_of past)) }
    ensures done { OnOk result ((D.report disk.new).past
        ≡ option_map (blank_past config.now) (D.report disk.old).past) }
    ensures any_moment { BeginsOnly IsClosed config.now
        (D.report disk.old).past (D.report disk.new).past }
    ensures possible { StaysPossible (D.report disk.old).past (D.report disk.new).past }
    ensures opened { (D.report disk.new).opened ≡ (D.report disk.old).opened }
    ensures cause { HasCause (D.report disk.old).faults (D.report disk.new).faults result }
{
    match write_head(alloc, disk, config) {
        Ok(()) => open_first(alloc, disk),
        Err(error) => Err(error),
    }
}

/// Closes the first gate on the disk.
fn close_first<D: Disk>(alloc: Global, disk: &mut D) -> Result<(), DiskError>
    ensures done { OnOk result ((D.report disk.new).past
        ≡ option_map closed_past (D.report disk.old).past) }
    ensures any_moment { ForSome (D.report disk.old).past (λ past.
        TearsOnly 0 1 past (D.report disk.new).past) }
    ensures possible { StaysPossible (D.report disk.old).past (D.report disk.new).past }
    ensures opened { (D.report disk.new).opened ≡ (D.report disk.old).opened }
    ensures cause { HasCause (D.report disk.old).faults (D.report disk.new).faults result }
{
    write_synced(alloc, disk, 0, &[0])
}

/// Puts the head and a closed gate on the disk after the first gate.
fn write_head<D: Disk>(alloc: Global, disk: &mut D, config: &[u8]) -> Result<(), DiskError>
    requires small { length config.now ≤ config_limit }
    requires within { ForSome (D.report disk.old).past (λ past. 1 ≤ length (text_of past)) }
    ensures done { OnOk result ((D.report disk.new).past
        ≡ option_map (headed_past config.now) (D.report disk.old).past) }
    ensures any_moment { ForSome (D.report disk.old).past (λ past.
        TearsOnly 1 (length (blank_bytes config.now)) past (D.report disk.new).past) }
    ensures possible { StaysPossible (D.report disk.old).past (D.report disk.new).past }
    ensures opened { (D.report disk.new).opened ≡ (D.report disk.old).opened }
    ensures cause { HasCause (D.report disk.old).faults (D.report disk.new).faults result }
{
    match head_of(alloc, config) {
        Ok(bytes) => write_synced(alloc, disk, 1, bytes.as_slice()),
        Err(_) => Err(DiskError::Memory),
    }
}

/// The head of a journal after its first gate, and a closed gate.
fn head_of(alloc: Global, config: &[u8]) -> Result<Vec<u8>, Memory>
    requires { length config.now ≤ config_limit }
    ensures { IfOk result (λ bytes. bytes.items ≡ blank_bytes config.now) }
{
    let mut bytes = Vec::new(alloc);
    push_head(alloc, &mut bytes, config)?;
    bytes.push(0)?;
    Ok(bytes)
}

/// Opens the first gate on the disk.
fn open_first<D: Disk>(alloc: Global, disk: &mut D) -> Result<(), DiskError>
    ensures done { OnOk result ((D.report disk.new).past
        ≡ option_map begun_past (D.report disk.old).past) }
    ensures any_moment { ForSome (D.report disk.old).past (λ past.
        TearsOnly 0 1 past (D.report disk.new).past) }
    ensures possible { StaysPossible (D.report disk.old).past (D.report disk.new).past }
    ensures opened { (D.report disk.new).opened ≡ (D.report disk.old).opened }
    ensures cause { HasCause (D.report disk.old).faults (D.report disk.new).faults result }
{
    write_synced(alloc, disk, 0, &[1])
}
