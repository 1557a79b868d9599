use ev_types::{Blob, Event, Events, Item, Memory, Notice, Text};
use notice_sink::{NoticeWriter, put_item, write_notice};
use ports::{CountSink, MemSink};
use std::alloc::Global;

/// Whether a vector without events is written as two brackets.
fn is_two_brackets(alloc: Global) -> bool {
    let mut out = Blob::fresh(alloc);
    let put = put_item(alloc, &Item::Many(Events::fresh(alloc)), &mut out).is_ok();
    put && out.as_slice() == b"[]".as_slice()
}

#[test]
fn an_empty_vector_is_two_brackets(rt: HostRuntime) {
    assert!(rt; is_two_brackets(rt.alloc()));
}

/// A notice of one event.
fn notice(alloc: Global) -> Result<Notice, Memory> {
    let name = Text::from_str(alloc, "r")?;
    let item = Item::One(Event::at(alloc, 7));
    Ok(Notice {
        name,
        moment: 120,
        item,
    })
}

/// Whether the second of three writes fails, and it alone.
fn is_put_but_once(alloc: Global, notice: &Notice, sink: &mut MemSink) -> bool {
    let mut writer = NoticeWriter::fresh(alloc);
    for is_put in [true, false, true] {
        if writer.write(alloc, notice, sink).is_ok() != is_put {
            return false;
        }
    }
    true
}

/// Whether the sink got two lines in two puts, and failed once.
fn has_two_lines(sink: &MemSink) -> bool {
    let lines = b"120 \"r\" {time=7}\n120 \"r\" {time=7}\n".as_slice();
    sink.text.as_slice() == lines && sink.puts == 2 && sink.faults == 1
}

/// A sink in memory whose second put fails.
fn failing_sink(alloc: Global) -> Result<MemSink, Memory> {
    let failing = vec![in alloc; 1]?;
    MemSink::fresh(alloc, 60, failing)
}

/// Whether the notice is a line in each of the two puts that succeed.
fn is_one_line(alloc: Global, notice: &Notice) -> Result<bool, Memory> {
    let mut sink = failing_sink(alloc)?;
    Ok(is_put_but_once(alloc, notice, &mut sink) && has_two_lines(&sink))
}

/// Whether the notice is written in one put.
fn is_one_put(alloc: Global, notice: &Notice) -> bool {
    let mut counts = CountSink { puts: 0 };
    write_notice(alloc, notice, &mut counts).is_ok() && counts.puts == 1
}

/// Whether a notice is one line and one put.
fn is_written(alloc: Global) -> bool {
    match notice(alloc) {
        Ok(notice) => {
            matches!(is_one_line(alloc, &notice), Ok(true)) && is_one_put(alloc, &notice)
        }
        Err(Memory) => false,
    }
}

#[test]
fn a_notice_is_one_line_and_one_put(rt: HostRuntime) {
    assert!(rt; is_written(rt.alloc()));
}
