ghost use Rattle.std.specs.Prelude.{◌≡◌, ◌≢◌, ◌≤◌, [], Err, OnErr, OnOk};
ghost use Rattle.conn_core.specs.Turning.{GotFirstLines, GotLines};
ghost use Rattle.notice_sink.specs.Lines.{lines_of, notice_line};
ghost use Rattle.ports.specs.Counts.{Rose};
ghost use Rattle.ports.specs.Writing.{GotPrefix, Puts};

use crate::stop::Stop;
use ev_types::Notice;
use notice_sink::{LineFault, NoticeWriter};
use ports::Sink;
use std::alloc::Global;

/// Writes the notices as lines, in order, each in one put.
pub(crate) fn write_lines<O: Sink>(
    alloc: Global,
    notices: &[Notice],
    sink: &mut O,
) -> Result<(), Stop>
    ensures all { OnOk result (GotLines (O.report sink.old) notices.now (O.report sink.new)) }
    ensures prefix { OnErr result (GotPrefix (O.report sink.old).text (lines_of notices.now)
        (O.report sink.new).text) }
    ensures first_lines { OnErr result
        (GotFirstLines (O.report sink.old) notices.now (O.report sink.new)) }
    ensures some { result ≡ Err Stop.SinkFault → notices.now ≢ [] }
    ensures fault { result ≡ Err Stop.SinkFault →
        Rose (O.report sink.old).faults (O.report sink.new).faults }
    ensures memory { result ≡ Err Stop.Memory → (O.report sink.new).faults ≡
        (O.report sink.old).faults }
    ensures no_fault { OnOk result ((O.report sink.new).faults ≡ (O.report sink.old).faults) }
    ensures faults { (O.report sink.old).faults ≤ (O.report sink.new).faults }
{
    let mut writer = NoticeWriter::fresh(alloc);
    for notice in notices {
        write_line(alloc, &mut writer, notice, sink)?;
    }
    Ok(())
}

/// Writes one notice as a line.
fn write_line<O: Sink>(
    alloc: Global,
    writer: &mut NoticeWriter,
    notice: &Notice,
    sink: &mut O,
) -> Result<(), Stop>
    ensures puts { OnOk result
        (Puts (O.report sink.old) (notice_line notice.now) (O.report sink.new)) }
    ensures prefix { OnErr result (GotPrefix (O.report sink.old).text (notice_line notice.now)
        (O.report sink.new).text) }
    ensures uncounted { OnErr result ((O.report sink.new).puts ≡ (O.report sink.old).puts) }
    ensures fault { result ≡ Err Stop.SinkFault →
        Rose (O.report sink.old).faults (O.report sink.new).faults }
    ensures memory { result ≡ Err Stop.Memory → (O.report sink.new).faults ≡
        (O.report sink.old).faults }
    ensures faults { (O.report sink.old).faults ≤ (O.report sink.new).faults }
{
    match writer.write(alloc, notice, sink) {
        Ok(()) => Ok(()),
        Err(LineFault::SinkFault) => Err(Stop::SinkFault),
        Err(LineFault::Memory) => Err(Stop::Memory),
    }
}
