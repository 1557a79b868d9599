ghost use Rattle.std.specs.Prelude.{◌≡◌, ◌≤◌, ◌++◌, [], None, Some, length, drop, IfOk, IsErrOf};
ghost use Rattle.disk_port.specs.Calls.{HasCause, opened_by};

use crate::disk::{Disk, DiskError};
use ev_types::Text;
use ghost_logs::TextLog;
use std::alloc::Global;
use std::fs::{File, OpenFile, OpenOptions};
use std::io;
use std::io::{ErrorKind, Read, Seek, SeekFrom, Write};
use std::path::Path;
use std::rt::Files;

/// How many bytes of a file are written back at a time.
const PIECE: usize = 65_536;

/// A file of the machine, by its path. It reports the names that were opened, and not what the file holds. Before
/// a file is open, each call but [`Disk::open`] and [`Disk::create`] fails.
///
/// Where a write of the system to the disk failed, as in another process, a later sync may succeed without it. So the
/// first sync of a file, and each after one that failed, first writes back what the file has.
#[derive(Drop)]
pub struct FileDisk<'a, R: Files> {
    rt: &'a R,
    file: Option<R::File>,
    /// Whether the last sync since the file was opened succeeded.
    is_synced: bool,
    /// How many calls failed.
    pub faults: u64,
    // The names that were opened, which only proofs see.
    opened: TextLog,
}

impl<'a, R: Files> FileDisk<'a, R> {
    /// A disk with no file open, of the files that the runtime reaches.
    pub fn fresh(rt: &'a R) -> FileDisk<'a, R>
        ensures { ⟦<FileDisk<'a, R> as Disk>⟧.report result
            ≡ record { past = None; opened = Some []; faults = 0 } }
    {
        FileDisk {
            rt,
            file: None,
            is_synced: false,
            faults: 0,
            opened: TextLog::fresh(),
        }
    }

    /// Takes the outcome of opening the file of the name.
    fn take(&mut self, name: &Text, opened: io::Result<R::File>) -> Result<(), DiskError>
        ensures opened { self.new.opened ≡ self.old.opened ++ opened_by name.now result }
        ensures cause { HasCause self.old.faults self.new.faults result }
        ensures answered { IsErrOf result DiskError.Memory → ⊥ }
    {
        self.opened.add(name);
        self.file = Some(answer(&mut self.faults, opened)?);
        self.is_synced = false;
        Ok(())
    }
}

impl<'a, R: Files> Disk for FileDisk<'a, R> {
    ghost report = { λ disk. record { past = None; opened = Some disk.opened; faults = disk.faults } };

    fn open(&mut self, _alloc: Global, name: &Text) -> Result<(), DiskError> {
        let opened = open_file(self.rt, name.as_str(), false);
        self.take(name, opened)
    }

    fn create(&mut self, _alloc: Global, name: &Text) -> Result<(), DiskError> {
        let created = create_file(self.rt, name.as_str());
        self.take(name, created)
    }

    fn length(&mut self, _alloc: Global) -> Result<u64, DiskError> {
        let outcome = match &self.file {
            Some(file) => length_of(file),
            None => Err(not_open()),
        };
        answer(&mut self.faults, outcome)
    }

    fn read(&mut self, _alloc: Global, place: u64, buf: &mut [u8]) -> Result<usize, DiskError> {
        let outcome = match &mut self.file {
            Some(file) => read_from(file, place, buf),
            None => Err(not_open()),
        };
        answer(&mut self.faults, outcome)
    }

    fn write_at(&mut self, _alloc: Global, place: u64, bytes: &[u8]) -> Result<(), DiskError> {
        let outcome = match &mut self.file {
            Some(file) => write_to(file, place, bytes),
            None => Err(not_open()),
        };
        answer(&mut self.faults, outcome)
    }

    fn sync(&mut self, _alloc: Global) -> Result<(), DiskError> {
        let outcome = match &mut self.file {
            Some(file) => sync_file(file, self.is_synced),
            None => Err(not_open()),
        };
        self.is_synced = outcome.is_ok();
        answer(&mut self.faults, outcome)
    }
}

/// Opens the file of the path for reading and writing. With `create` it makes an empty one if there is none.
fn open_file<R: Files>(rt: &R, path: &str, create: bool) -> io::Result<R::File> {
    let mut options = OpenOptions::new();
    options.read(true).write(true).create(create);
    options.open(rt, path)
}

/// Opens the file of the path for reading and writing, and makes an empty one if there is none. Its name is then on the
/// disk too.
fn create_file<R: Files>(rt: &R, path: &str) -> io::Result<R::File> {
    let file = open_file(rt, path, true)?;
    // One that was there may have been made by a process that ended before it synced the directory.
    File::open(rt, directory_of(path))?.sync_all()?;
    Ok(file)
}

/// The directory that holds the file of the path.
fn directory_of(path: &str) -> Path<'_> {
    match Path::new(path).parent() {
        Some(parent) if !parent.as_str().is_empty() => parent,
        _ => Path::new("."),
    }
}

/// Puts on the disk all that was written. What the file has is first written back, unless the last sync succeeded.
fn sync_file<F: Read + Write + Seek + OpenFile>(file: &mut F, is_synced: bool) -> io::Result<()> {
    if !is_synced {
        write_back(file)?;
    }
    file.sync_all()
}

/// Writes the bytes of the file over themselves, so that the system has to write them to the disk.
#[cold]
fn write_back<F: Read + Write + Seek + OpenFile>(file: &mut F) -> io::Result<()> {
    let mut piece = [0; PIECE];
    let length = length_of(file)?;
    for place in (0..length).step_by(PIECE) {
        let count = read_from(file, place, &mut piece)?;
        write_to(file, place, &piece[..count])?;
    }
    Ok(())
}

fn length_of<F: OpenFile>(file: &F) -> io::Result<u64> {
    Ok(file.metadata()?.len())
}

/// Reads the bytes from `place` on into the start of `buf`, as many as there are and fit, and gives their number.
fn read_from<F: Read + Seek + OpenFile>(
    file: &mut F,
    place: u64,
    buf: &mut [u8],
) -> io::Result<usize>
    ensures within { IfOk result (λ count. count ≤ length buf.new) }
    ensures rest { IfOk result (λ count. drop count buf.new ≡ drop count buf.old) }
{
    let left = length_of(file)?.saturating_sub(place);
    let count = left.min(buf.len() as u64) as usize;
    file.seek(SeekFrom::Start(place))?;
    file.read_exact(&mut buf[..count])?;
    Ok(count)
}

/// Writes the bytes over those from `place` on, and past the end.
fn write_to<F: Write + Seek>(file: &mut F, place: u64, bytes: &[u8]) -> io::Result<()> {
    file.seek(SeekFrom::Start(place))?;
    file.write_all(bytes)?;
    Ok(())
}

fn not_open() -> io::Error {
    io::Error::from(ErrorKind::NotFound)
}

/// The outcome of a call as its answer. A failure is counted.
fn answer<T>(faults: &mut u64, outcome: io::Result<T>) -> Result<T, DiskError>
    ensures value { IfOk result (λ value. outcome ≡ Ok value) }
    ensures cause { HasCause faults.old faults.new result }
    ensures answered { IsErrOf result DiskError.Memory → ⊥ }
{
    match outcome {
        Ok(value) => Ok(value),
        Err(_) => {
            *faults = faults.saturating_add(1);
            Err(DiskError::Failed)
        }
    }
}
