use disk_port::{Disk, DiskError, FileDisk, MemDisk};
use ev_types::{Blob, Memory, Text};
use std::alloc::Global;
use std::rt::Files;
use std::{fs, process};

/// Writes the bytes from `place` on, if the file has that many.
fn put<D: Disk>(alloc: Global, disk: &mut D, place: u64, bytes: &[u8]) -> Result<(), DiskError> {
    if disk.length(alloc)? < place {
        return Err(DiskError::Failed);
    }
    disk.write_at(alloc, place, bytes)
}

/// Whether these bytes are read from `place` on.
fn is_read<D: Disk>(
    alloc: Global,
    disk: &mut D,
    place: u64,
    wanted: &[u8],
) -> Result<bool, DiskError> {
    let mut buf = [0; 9];
    let count = disk.read(alloc, place, &mut buf)?;
    Ok(&buf[..count] == wanted)
}

/// What is written, with its place: bytes in the empty file, and others over them and past the end.
const WRITTEN: &[(u64, &[u8])] = &[(0, b"abcd"), (2, b"xyz")];

/// What is read then, with its place: some bytes, none past the end, and all.
const READ: &[(u64, &[u8])] = &[(1, b"bxyz"), (6, b""), (0, b"abxyz")];

fn put_all<D: Disk>(alloc: Global, disk: &mut D) -> Result<(), DiskError> {
    for (place, bytes) in WRITTEN {
        put(alloc, disk, *place, bytes)?;
    }
    Ok(())
}

fn are_read<D: Disk>(alloc: Global, disk: &mut D) -> Result<bool, DiskError> {
    for (place, wanted) in READ {
        if !is_read(alloc, disk, *place, wanted)? {
            return Ok(false);
        }
    }
    Ok(true)
}

/// Whether bytes are written over others and past the end, and read from places. It makes nine calls.
fn is_kept<D: Disk>(alloc: Global, disk: &mut D) -> Result<bool, DiskError> {
    put_all(alloc, disk)?;
    disk.sync(alloc)?;
    let length = disk.length(alloc)?;
    Ok(are_read(alloc, disk)? && length == 5)
}

/// A disk in memory that has these bytes, and of which no call fails before the one of the number `stop`, if it is one.
pub(crate) fn disk_of(alloc: Global, bytes: &[u8], stop: Option<u64>) -> Result<MemDisk, Memory> {
    MemDisk::fresh(
        alloc,
        Blob::from_slice(alloc, bytes)?,
        Vec::new(alloc),
        stop,
    )
}

/// Whether the disk fails at one of its nine calls where it stops there, so that none follows. Where it stops later,
/// the file is kept by nine calls, of which two write and one syncs.
fn stops(alloc: Global, disk: &mut MemDisk, stop: u64) -> bool {
    let kept = is_kept(alloc, disk);
    if stop < 9 {
        matches!(kept, Err(DiskError::Failed)) && disk.faults == 1
    } else {
        matches!(kept, Ok(true)) && disk.calls == 9 && disk.log.len() == 3
    }
}

/// Whether that is so for an empty disk that stops at the call of this number.
fn stops_at(alloc: Global, stop: u64) -> bool {
    match disk_of(alloc, b"", Some(stop)) {
        Ok(mut disk) => stops(alloc, &mut disk, stop),
        Err(Memory) => false,
    }
}

/// Whether that is so for each of its nine calls, and for the one after them.
fn stops_at_each(alloc: Global) -> bool {
    for stop in 0..10u64 {
        if !stops_at(alloc, stop) {
            return false;
        }
    }
    true
}

/// Whether the disk refuses to make a file at first, and then opens it.
fn opens_again(alloc: Global, disk: &mut MemDisk, name: &Text) -> bool {
    let refused = matches!(disk.create(alloc, name), Err(DiskError::Failed));
    let opened = disk.open(alloc, name).is_ok();
    refused && opened && disk.opened.len() == 2
}

/// Whether that is so for the file "j".
fn opens_file_again(alloc: Global, disk: &mut MemDisk) -> bool {
    match Text::from_str(alloc, "j") {
        Ok(name) => opens_again(alloc, disk, &name),
        Err(Memory) => false,
    }
}

/// Whether the first call fails that is chosen to.
fn fails_at_first(alloc: Global) -> bool {
    let Ok(failing) = vec![in alloc; 0] else {
        return false;
    };
    match MemDisk::fresh(alloc, Blob::fresh(alloc), failing, Some(9)) {
        Ok(mut disk) => opens_file_again(alloc, &mut disk),
        Err(Memory) => false,
    }
}

/// Whether no file is opened of the path before one is made of it, and it is kept.
fn is_filed<D: Disk>(alloc: Global, disk: &mut D, path: &str) -> Result<bool, DiskError> {
    let name = Text::from_str(alloc, path)?;
    let absent = matches!(disk.open(alloc, &name), Err(DiskError::Failed));
    disk.create(alloc, &name)?;
    Ok(absent && is_kept(alloc, disk)?)
}

/// Whether a call of a disk fails before a file is open, and this comes of the file of the path, after so many faults.
fn is_file<R: Files>(
    rt: &R,
    alloc: Global,
    path: &str,
    wanted: Result<bool, DiskError>,
    faults: u64,
) -> bool {
    let mut disk = FileDisk::fresh(rt);
    let closed = matches!(disk.length(alloc), Err(DiskError::Failed));
    let filed = is_filed(alloc, &mut disk, path) == wanted;
    closed && filed && disk.faults == faults
}

/// Whether the file of the path has these bytes.
fn has_bytes(rt: &HostRuntime, path: &str, wanted: &[u8]) -> bool {
    match fs::read(rt, path) {
        Ok(bytes) => bytes.as_slice() == wanted,
        Err(_) => false,
    }
}

/// Whether a file is made of the path and kept. It is then removed.
fn is_made(rt: &HostRuntime, path: &str) -> bool {
    let kept = is_file(rt, rt.alloc(), path, Ok(true), 2);
    let written = has_bytes(rt, path, b"abxyz");
    let removed = fs::remove_file(rt, path).is_ok();
    kept && written && removed
}

/// Whether that is so for a path that no other process has.
fn is_own_made(rt: &HostRuntime) -> bool {
    match format!(in rt.alloc(); "/tmp/disk_port_{}", process::id(rt.process())) {
        Ok(path) => is_made(rt, path.as_str()),
        Err(_) => false,
    }
}

/// Whether no file is made of the path.
fn is_refused(rt: &HostRuntime, path: &str) -> bool {
    is_file(rt, rt.alloc(), path, Err(DiskError::Failed), 3)
}

#[test]
fn disks_keep_bytes_and_fail_at_a_call(rt: HostRuntime) {
    let stops = stops_at_each(rt.alloc());
    assert!(rt; stops);
    let failed = fails_at_first(rt.alloc());
    assert!(rt; failed);
    let made = is_own_made(&rt);
    assert!(rt; made);
    let refused = is_refused(&rt, "/tmp/no_such/j");
    assert!(rt; refused);
}
