use ev_types::{Blob, Memory, Text};
use ports::{FileStore, MemSink, MemStore, ReadAnswer, Sink, Store, StoreRead, StreamSink};
use std::alloc::{AllocError, Global};
use std::io::ErrorKind;
use std::rt::Files;
use std::test::Fail;
use std::{fs, io, process};

/// How a read has to answer.
#[derive(Clone, Copy)]
enum Wanted<'a> {
    Bytes(&'a [u8]),
    Failed,
    TooLong,
}

/// A name, a limit, the answer, and how many bytes were taken and how many reads failed until then.
type Row<'a> = (&'a str, u32, Wanted<'a>, u64, u64);

/// Whether the read gave these bytes.
fn has_bytes(answer: &ReadAnswer, wanted: &[u8]) -> bool {
    match answer {
        ReadAnswer::Bytes(bytes) => bytes.as_slice() == wanted,
        _ => false,
    }
}

fn is_wanted(answer: &ReadAnswer, wanted: Wanted) -> bool {
    match wanted {
        Wanted::Bytes(wanted) => has_bytes(answer, wanted),
        Wanted::Failed => matches!(answer, ReadAnswer::Failed),
        Wanted::TooLong => matches!(answer, ReadAnswer::TooLong),
    }
}

/// Whether a read answers so.
fn is_read<S: Store>(alloc: Global, store: &mut S, row: &Row) -> bool {
    match Text::from_str(alloc, row.0) {
        Ok(name) => is_wanted(&store.read(alloc, &name, u64::from(row.1)), row.2),
        Err(Memory) => false,
    }
}

fn file(alloc: Global, name: &str, bytes: &str) -> Result<(Text, Blob), Memory> {
    let bytes = Blob::from_slice(alloc, bytes.as_bytes())?;
    let name = Text::from_str(alloc, name)?;
    Ok((name, bytes))
}

/// The files of these names and contents.
fn files(alloc: Global, rows: &[(&str, &str)]) -> Result<Vec<(Text, Blob)>, Memory> {
    let mut files = Vec::new(alloc);
    for row in rows {
        files.push(file(alloc, row.0, row.1)?)?;
    }
    Ok(files)
}

/// A store in memory of these files, of whose reads the one with the number 2 fails.
fn store(alloc: Global, rows: &[(&str, &str)]) -> Result<MemStore, Memory> {
    let failing = vec![in alloc; 2]?;
    Ok(MemStore::fresh(alloc, files(alloc, rows)?, failing))
}

/// Whether the reads of the rows are answered so.
fn are_held(alloc: Global, store: &mut MemStore, rows: &[Row]) -> bool {
    for row in rows {
        if !is_read(alloc, store, row) || store.taken != row.3 || store.faults != row.4 {
            return false;
        }
    }
    true
}

/// Whether these names were read, and these reads failed.
fn were_read(reads: &[StoreRead], wanted: &[(&str, bool)]) -> bool {
    let mut reads = reads.iter();
    for row in wanted {
        match reads.next() {
            Some(read) if read.name.as_str() == row.0 && read.failed == row.1 => {}
            _ => return false,
        }
    }
    reads.next().is_none()
}

const FILES: &[(&str, &str)] = &[("a", "first"), ("b", ""), ("a", "second")];

const READS: &[Row<'static>] = &[
    ("a", 5, Wanted::Bytes(b"first"), 5, 0),
    ("a", 4, Wanted::TooLong, 10, 0),
    ("a", 5, Wanted::Failed, 10, 1),
    ("c", 5, Wanted::Failed, 10, 2),
    ("b", 0, Wanted::Bytes(b""), 10, 2),
];

const NAMES_READ: &[(&str, bool)] = &[
    ("a", false),
    ("a", false),
    ("a", true),
    ("c", true),
    ("b", false),
];

/// Whether the store answers by name, limit and number.
fn is_answered(alloc: Global, store: &mut MemStore) -> bool {
    are_held(alloc, store, READS)
        && store.calls == 5
        && were_read(store.reads.as_slice(), NAMES_READ)
}

#[test]
fn a_store_in_memory_answers_by_name_limit_and_number(rt: HostRuntime) -> Result<(), Fail> {
    let mut store = store(rt.alloc(), FILES)?;
    assert!(rt; is_answered(rt.alloc(), &mut store));
    Ok(())
}

/// Whether all the bytes are taken or not, as given.
fn takes<S: Sink>(sink: &mut S, bytes: &str, taken: bool) -> bool {
    !bytes.is_empty() && sink.put(bytes.as_bytes()).is_ok() == taken
}

/// Whether all the bytes are taken or not, as given, and the sink then holds this text.
fn is_put(sink: &mut MemSink, bytes: &str, taken: bool, text: &str) -> bool {
    takes(sink, bytes, taken) && sink.text.as_slice() == text.as_bytes()
}

/// Whether the sink takes what it has room for, and no put that fails.
fn is_filled(sink: &mut MemSink) -> bool {
    is_put(sink, "abc", true, "abc")
        && is_put(sink, "de", false, "abc")
        && is_put(sink, "defg", true, "abcdefg")
        && is_put(sink, "hij", false, "abcdefgh")
        && is_put(sink, "k", false, "abcdefgh")
        && sink.calls == 5
        && sink.puts == 2
        && sink.faults == 3
}

#[test]
fn a_sink_in_memory_takes_what_it_has_room_for(rt: HostRuntime) -> Result<(), Fail> {
    let failing = vec![in rt.alloc(); 1]?;
    let mut sink = MemSink::fresh(rt.alloc(), 8, failing)?;
    assert!(rt; is_filled(&mut sink));
    Ok(())
}

/// Enough bytes to come in more than one piece.
fn content(alloc: Global) -> Result<Vec<u8>, AllocError> {
    let mut bytes = Vec::new(alloc);
    for i in 0..200_000u32 {
        bytes.push((i % 251) as u8)?;
    }
    Ok(bytes)
}

/// Whether the reads of the rows are answered so.
fn are_filed<R: Files>(alloc: Global, store: &mut FileStore<'_, R>, rows: &[Row]) -> bool {
    for row in rows {
        if !is_read(alloc, store, row) || store.taken != row.3 || store.faults != row.4 {
            return false;
        }
    }
    true
}

/// Whether the file of the path, which has these 200,000 bytes, is read within the limit.
fn is_limited<R: Files>(
    alloc: Global,
    store: &mut FileStore<'_, R>,
    path: &str,
    bytes: &[u8],
) -> bool {
    let rows = [
        (path, 200_000, Wanted::Bytes(bytes), 200_000, 0),
        (path, 199_999, Wanted::TooLong, 400_000, 0),
        (path, 0, Wanted::TooLong, 400_001, 0),
        ("/tmp/ports_no_such_file", 9, Wanted::Failed, 400_001, 1),
        ("/tmp", 9, Wanted::Failed, 400_001, 2),
        ("a\0b", 9, Wanted::Failed, 400_001, 3),
    ];
    are_filed(alloc, store, &rows)
}

/// Whether these 200,000 bytes, which are written to the path and removed again, are read within the limit.
fn are_limited<R: Files>(rt: &R, alloc: Global, path: &str, bytes: &[u8]) -> bool {
    let written = fs::write(rt, path, bytes).is_ok();
    let limited = is_limited(alloc, &mut FileStore::fresh(rt), path, bytes);
    let removed = fs::remove_file(rt, path).is_ok();
    written && limited && removed
}

/// Whether a file of this path with 200,000 bytes is read within the limit.
fn is_file_limited<R: Files>(rt: &R, alloc: Global, path: &str) -> bool {
    match content(alloc) {
        Ok(bytes) => are_limited(rt, alloc, path, bytes.as_slice()),
        Err(_) => false,
    }
}

#[test]
fn files_are_read_within_the_limit(rt: HostRuntime) -> Result<(), Fail> {
    let path = format!(in rt.alloc(); "/tmp/ports_file_store_{}", process::id(rt.process()))?;
    assert!(rt; is_file_limited(&rt, rt.alloc(), path.as_str()));
    Ok(())
}

/// A writer that takes at most two bytes a call and `room` bytes in all, and is interrupted once before.
#[derive(Drop)]
struct Narrow {
    bytes: Vec<u8>,
    room: usize,
    was_interrupted: bool,
    flushes: usize,
}

impl io::Write for Narrow {
    fn write(&mut self, buf: &[u8]) -> io::Result<usize> {
        if !self.was_interrupted {
            self.was_interrupted = true;
            return Err(io::Error::from(ErrorKind::Interrupted));
        }
        let count = buf.len().min(self.room).min(2);
        self.bytes.extend_from_slice(&buf[..count])?;
        self.room -= count;
        Ok(count)
    }

    fn flush(&mut self) -> io::Result<()> {
        self.flushes = self.flushes.saturating_add(1);
        Ok(())
    }
}

/// Whether all the bytes are written or not, as given, and the writer then has got this text.
fn is_streamed(sink: &mut StreamSink<Narrow>, bytes: &str, written: bool, text: &str) -> bool {
    takes(sink, bytes, written) && sink.writer.bytes.as_slice() == text.as_bytes()
}

/// Whether the writer gets what it has room for, and one put fails.
fn is_narrow(sink: &mut StreamSink<Narrow>) -> bool {
    is_streamed(sink, "abcde", true, "abcde")
        && is_streamed(sink, "fghi", false, "abcdefgh")
        && sink.writer.flushes == 1
        && sink.faults == 1
}

#[test]
fn a_stream_is_written_on_after_a_short_write(rt: HostRuntime) {
    let mut sink = StreamSink::fresh(Narrow {
        bytes: Vec::new(rt.alloc()),
        room: 8,
        was_interrupted: false,
        flushes: 0,
    });
    assert!(rt; is_narrow(&mut sink));
}
