ghost use Rattle.std.specs.Prelude.{◌≡◌, ℕ, ◌<◌, ◌≤◌, [], ◌++◌, length, take, IfOk, OnOk, OnErr};
ghost use Rattle.std.specs.Io.KnownBytes.{Appends, Keeps};
ghost use Rattle.ports.specs.Counts.{Rose};
ghost use Rattle.ports.specs.Streams.{TookAll, TookFirst, stream_report};
ghost use Rattle.ports.specs.Writing.{FailsToPut, Puts};

use crate::sink::{Failed, Sink};
use ghost_logs::ByteLog;
use std::io;
use std::io::{ErrorKind, Write};

/// A stream that is written to, as standard output. It reports the bytes that calls of the writer took, also those of a
/// put that failed. No count rises above 2^64 - 1.
#[derive(Drop)]
pub struct StreamSink<W: Write> {
    pub writer: W,
    /// How many puts failed.
    pub faults: u64,
    /// How many puts succeeded.
    pub puts: u64,
    // The bytes that the writer took, which only proofs see.
    text: ByteLog,
}

impl<W: Write> StreamSink<W> {
    /// A sink that writes to the writer. Nothing was put yet.
    pub fn fresh(writer: W) -> StreamSink<W>
        ensures writer { result.writer ≡ writer }
        ensures report { ⟦<StreamSink<W> as Sink>⟧.report result ≡ stream_report [] 0 0 }
    {
        StreamSink {
            writer,
            faults: 0,
            puts: 0,
            text: ByteLog::fresh(),
        }
    }
}

impl<W: Write> Sink for StreamSink<W> {
    ghost report = { λ sink. stream_report sink.text sink.puts sink.faults };

    #[tactic(auto, using(crate::proofs::StreamLemmas::failed_put))]
    fn put(&mut self, bytes: &[u8]) -> Result<(), Failed>
        requires { 0 < length bytes.now }
        ensures puts { OnOk result (Puts (stream_report self.old.text self.old.puts self.old.faults)
            bytes.now (stream_report self.new.text self.new.puts self.new.faults)) }
        ensures fails { OnErr result (FailsToPut
            (stream_report self.old.text self.old.puts self.old.faults)
            bytes.now (stream_report self.new.text self.new.puts self.new.faults)) }

        // More than a sink must report: the bytes that are reported are those that the writer got.
        ensures writes { OnOk result (Appends (W.contents self.old.writer)
            (W.contents self.new.writer) bytes.now) }
        ensures took { TookFirst bytes.now (W.contents self.old.writer) self.old.text
            (W.contents self.new.writer) self.new.text }
    {
        match write_whole(&mut self.writer, bytes, &mut self.text) {
            Ok(()) => {
                self.puts = self.puts.saturating_add(1);
                Ok(())
            }
            Err(_) => {
                self.faults = self.faults.saturating_add(1);
                Err(Failed)
            }
        }
    }
}

/// Writes all the bytes, going on after a short write, and flushes them. The bytes that the writer took are added to
/// `text`, also where it fails.
#[tactic(auto, using(crate::proofs::StreamLemmas::first_kept, crate::proofs::StreamLemmas::all_kept))]
fn write_whole<W: Write>(writer: &mut W, bytes: &[u8], text: &mut ByteLog) -> io::Result<()>
    ensures ok { OnOk result (TookAll bytes.now (W.contents writer.old) text.old
        (W.contents writer.new) text.new) }
    ensures took { TookFirst bytes.now (W.contents writer.old) text.old
        (W.contents writer.new) text.new }
{
    write_each(writer, bytes, text)?;
    writer.flush()?;
    Ok(())
}

/// The same without a flush.
#[tactic(auto, using(crate::proofs::StreamLemmas::took_more, crate::proofs::StreamLemmas::text_more, crate::proofs::StreamLemmas::first_of, crate::proofs::StreamLemmas::all_of, crate::proofs::StreamLemmas::took_kept))]
fn write_each<W: Write>(writer: &mut W, bytes: &[u8], text: &mut ByteLog) -> io::Result<()>
    ensures ok { OnOk result (TookAll bytes.now (W.contents writer.old) text.old
        (W.contents writer.new) text.new) }
    ensures took { TookFirst bytes.now (W.contents writer.old) text.old
        (W.contents writer.new) text.new }
{
    let mut at = 0;
    for _ in 0..u64::MAX {
        if at == bytes.len() {
            return Ok(());
        }
        at += write_some(writer, &bytes[at..], text)?;
    }
    Err(io::Error::from(ErrorKind::TimedOut))
}

/// Writes some of the bytes, adds them to `text`, and gives their number. It is 0 where the call was interrupted.
#[tactic(auto, using(crate::proofs::StreamLemmas::kept_nothing, crate::proofs::StreamLemmas::took_nothing))]
fn write_some<W: Write>(writer: &mut W, bytes: &[u8], text: &mut ByteLog) -> io::Result<usize>
    ensures within { IfOk result (λ count. count ≤ length bytes.now) }
    ensures text { IfOk result (λ count. text.new ≡ text.old ++ take count bytes.now) }
    ensures took { IfOk result (λ count.
        Appends (W.contents writer.old) (W.contents writer.new) (take count bytes.now)) }
    ensures same { OnErr result (text.new ≡ text.old) }
    ensures kept { OnErr result (Keeps (W.contents writer.old) (W.contents writer.new)) }
{
    match writer.write(bytes) {
        Ok(0) => Err(io::Error::from(ErrorKind::WriteZero)),
        Ok(count) => {
            text.add(&bytes[..count]);
            Ok(count)
        }
        Err(error) => match error.kind() {
            ErrorKind::Interrupted => Ok(0),
            _ => Err(error),
        },
    }
}
