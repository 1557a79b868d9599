ghost use Rattle.std.specs.Prelude.{◌≡◌, ◌≢◌, ◌<◌, ◌++◌, length, Err, OnOk, OnErr};
ghost use Rattle.ports.specs.Counts.{Rose};
ghost use Rattle.ports.specs.Writing.{FailsToPut, Got, GotPrefix, Puts};
ghost use Rattle.std.specs.List.{flat_map};
ghost use Rattle.script_text.specs.LinkLines.{line_after, link_line, link_lines, taken_text};
ghost use Rattle.script_text.specs.declared.write.LineFault.TheVariants.{Memory as out_of_memory};

use crate::numbers::opened_numbers;
use ev_types::Memory;
use itoa::Buffer;
use ports::{ScriptLinks, Sink};
use std::alloc::Global;
use thiserror::Error;

/// Why not all lines were written.
#[derive(Clone, Copy, Debug, PartialEq, Eq, Error)]
pub enum LineFault {
    /// The sink failed. It may have got a prefix of the line.
    #[error("a line could not be written")]
    Sink,
    #[error("out of memory")]
    Memory,
}

impl From<Memory> for LineFault {
    ghost from_gives = { λ _ fault. fault ≡ out_of_memory };

    fn from(_memory: Memory) -> LineFault {
        LineFault::Memory
    }
}

/// Writes what each link of the script was sent, by rising number, a line in each put. The line of link L is
/// `link L HEX`, with the bytes in lower case, or `link L` where none were taken. Every link has a line that a turn of
/// the script opens, played or not.
pub fn write_link_lines<O: Sink>(
    alloc: Global,
    links: &ScriptLinks,
    out: &mut O,
) -> Result<(), LineFault>
    ensures all { OnOk result (Got (O.report out.old).text
        (link_lines links.now.script links.now.log) (O.report out.new).text) }
    ensures front { OnErr result
        (GotPrefix (O.report out.old).text (link_lines links.now.script links.now.log)
        (O.report out.new).text) }
    ensures fault { result ≡ Err LineFault.Sink →
        Rose (O.report out.old).faults (O.report out.new).faults }
    ensures quiet { result ≢ Err LineFault.Sink → (O.report out.new).faults ≡
        (O.report out.old).faults }
{
    let numbers = opened_numbers(alloc, links.script().steps.as_slice())?;
    write_lines(alloc, numbers.as_slice(), links, out)
}

/// Writes the lines of these links.
fn write_lines<O: Sink>(
    alloc: Global,
    numbers: &[u64],
    links: &ScriptLinks,
    out: &mut O,
) -> Result<(), LineFault>
    ensures all { OnOk result (Got (O.report out.old).text
        (flat_map (line_after links.now.log) numbers.now) (O.report out.new).text) }
    ensures front { OnErr result
        (GotPrefix (O.report out.old).text (flat_map (line_after links.now.log) numbers.now)
        (O.report out.new).text) }
    ensures fault { result ≡ Err LineFault.Sink →
        Rose (O.report out.old).faults (O.report out.new).faults }
    ensures quiet { result ≢ Err LineFault.Sink → (O.report out.new).faults ≡
        (O.report out.old).faults }
{
    let mut line = Vec::new(alloc);
    for number in numbers {
        write_line(alloc, *number, links, &mut line, out)?;
    }
    Ok(())
}

/// Writes the line of one link. The line that was in the buffer is removed first.
fn write_line<O: Sink>(
    alloc: Global,
    number: u64,
    links: &ScriptLinks,
    line: &mut Vec<u8>,
    out: &mut O,
) -> Result<(), LineFault>
    ensures all { OnOk result (Got (O.report out.old).text (line_after links.now.log number)
        (O.report out.new).text) }
    ensures front { OnErr result
        (GotPrefix (O.report out.old).text (line_after links.now.log number)
        (O.report out.new).text) }
    ensures fault { result ≡ Err LineFault.Sink →
        Rose (O.report out.old).faults (O.report out.new).faults }
    ensures quiet { result ≢ Err LineFault.Sink → (O.report out.new).faults ≡
        (O.report out.old).faults }
{
    line.clear();
    push_line(alloc, number, links.taken(number).as_slice(), line)?;
    put_line(line.as_slice(), out)
}

/// Appends the line of the link.
fn push_line(alloc: Global, number: u64, taken: &[u8], line: &mut Vec<u8>) -> Result<(), Memory>
    ensures { OnOk result (line.new.items ≡ line.old.items ++ link_line number taken.now) }
{
    line.extend_from_slice(b"link ")?;
    let mut digits = Buffer::new();
    line.extend_from_slice(digits.format(number).as_bytes())?;
    push_taken(alloc, taken, line)?;
    line.push(b'\n')?;
    Ok(())
}

/// Appends the bytes as hexadecimal digits after a space, where there are any.
fn push_taken(alloc: Global, taken: &[u8], line: &mut Vec<u8>) -> Result<(), Memory>
    ensures { OnOk result (line.new.items ≡ line.old.items ++ taken_text taken.now) }
{
    if taken.is_empty() {
        return Ok(());
    }
    let digits = hex::encode(alloc, taken)?;
    line.push(b' ')?;
    line.extend_from_slice(digits.as_bytes())?;
    Ok(())
}

/// Puts a line once.
fn put_line<O: Sink>(line: &[u8], out: &mut O) -> Result<(), LineFault>
    requires { 0 < length line.now }
    ensures puts { OnOk result (Puts (O.report out.old) line.now (O.report out.new)) }
    ensures fails { OnErr result (FailsToPut (O.report out.old) line.now (O.report out.new)) }
    ensures no_memory { result ≢ Err LineFault.Memory }
{
    match out.put(line) {
        Ok(()) => Ok(()),
        Err(_) => Err(LineFault::Sink),
    }
}
