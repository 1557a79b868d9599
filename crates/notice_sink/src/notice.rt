ghost use Rattle.std.specs.Prelude.{◌≡◌, ◌<◌, [], ◌++◌, length, OnOk, OnErr};
ghost use Rattle.ports.specs.Writing.{FailsToPut, Puts};
ghost use Rattle.notice_sink.specs.Lines.{notice_line};
ghost use Rattle.list_laws.specs.Prefix.{IsPrefix};
ghost use Rattle.notice_sink.specs.declared.notice.LineFault.TheVariants.{Memory as out_of_memory};

use crate::item::put_item;
use crate::quoting::put_quoted;
use ev_types::{Blob, Memory, Notice};
use itoa::Buffer;
use ports::Sink;
use std::alloc::Global;
use std::mem;
use thiserror::Error;

/// Why the line of a notice was not written.
#[derive(Clone, Copy, Debug, PartialEq, Eq, Error)]
pub enum LineFault {
    /// The sink failed. It may have got a prefix of the line.
    #[error("a notice line could not be written")]
    SinkFault,
    /// Out of memory. The sink is as before.
    #[error("out of memory")]
    Memory,
}

impl From<Memory> for LineFault {
    ghost from_gives = { λ _ fault. fault ≡ out_of_memory };

    fn from(_memory: Memory) -> LineFault {
        LineFault::Memory
    }
}

/// Writes notices as lines, one put each. Its buffer is used again for each line.
#[derive(Drop)]
pub struct NoticeWriter {
    line: Blob,
}

impl NoticeWriter {
    /// A writer with an empty buffer. It takes no memory.
    pub fn fresh(alloc: Global) -> NoticeWriter {
        NoticeWriter {
            line: Blob::fresh(alloc),
        }
    }

    /// Writes the line of the notice to the sink, in one put.
    #[tactic(auto, using(crate::proofs::JoiningLemmas::line_is_some))]
    pub fn write<O: Sink>(
        &mut self,
        alloc: Global,
        notice: &Notice,
        sink: &mut O,
    ) -> Result<(), LineFault>
        ensures puts { OnOk result
            (Puts (O.report sink.old) (notice_line notice.now) (O.report sink.new)) }
        ensures fails { result ≡ Err LineFault.SinkFault →
            FailsToPut (O.report sink.old) (notice_line notice.now) (O.report sink.new) }
        ensures memory { result ≡ Err LineFault.Memory → sink.new ≡ sink.old }
    {
        self.clear(alloc);
        put_line(alloc, notice, &mut self.line)?;
        put_whole(self.line.as_slice(), sink)
    }

    /// Removes the line that was written last. Its memory is used again.
    fn clear(&mut self, alloc: Global)
        ensures { self.new.line ≡ [] }
    {
        let mut line = mem::replace(&mut self.line, Blob::fresh(alloc)).into_vec();
        line.clear();
        self.line = Blob::from_vec(line);
    }
}

/// Appends the line of the notice.
#[tactic(auto, using(crate::proofs::JoiningLemmas::line_written))]
fn put_line(alloc: Global, notice: &Notice, out: &mut Blob) -> Result<(), Memory>
    ensures ok { OnOk result (out.new ≡ out.old ++ notice_line notice.now) }
    ensures err { OnErr result (IsPrefix out.old out.new) }
{
    let mut digits = Buffer::new();
    out.append(alloc, digits.format(notice.moment).as_bytes())?;
    out.push(alloc, b' ')?;
    put_quoted(alloc, &notice.name, out)?;
    out.push(alloc, b' ')?;
    put_item(alloc, &notice.item, out)?;
    out.push(alloc, b'\n')
}

/// Puts a line once.
fn put_whole<O: Sink>(line: &[u8], sink: &mut O) -> Result<(), LineFault>
    requires { 0 < length line.now }
    ensures puts { OnOk result (Puts (O.report sink.old) line.now (O.report sink.new)) }
    ensures fails { OnErr result
        (FailsToPut (O.report sink.old) line.now (O.report sink.new)) }
    ensures no_memory { result ≡ Err LineFault.Memory → ⊥ }
{
    match sink.put(line) {
        Ok(()) => Ok(()),
        Err(_) => Err(LineFault::SinkFault),
    }
}

/// Writes the line of the notice to the sink, in one put. [`NoticeWriter`] does the same with a buffer that is used
/// again.
pub fn write_notice<O: Sink>(alloc: Global, notice: &Notice, sink: &mut O) -> Result<(), LineFault>
    ensures puts { OnOk result
        (Puts (O.report sink.old) (notice_line notice.now) (O.report sink.new)) }
    ensures fails { result ≡ Err LineFault.SinkFault →
        FailsToPut (O.report sink.old) (notice_line notice.now) (O.report sink.new) }
    ensures memory { result ≡ Err LineFault.Memory → sink.new ≡ sink.old }
{
    let mut writer = NoticeWriter::fresh(alloc);
    writer.write(alloc, notice, sink)
}
