//! Writing the parts of a journal. If memory runs out, the output still begins with what it had.

ghost use Rattle.std.specs.Prelude.{◌≡◌, ◌++◌, ◌≤◌, ◌<◌, ◌^◌, ◌∷◌, length, OnErr, OnOk};
ghost use Rattle.std.specs.List.{flat_map};
ghost use Rattle.std.specs.Int.{to_be_bytes, w32, w64};
ghost use Rattle.list_laws.specs.Prefix.{IsPrefix};
ghost use Rattle.journal_format.specs.Limits.{config_limit, summary_limit};
ghost use Rattle.journal_format.specs.Journals.{head_bytes};
ghost use Rattle.journal_format.specs.Spelling.{IsEvent, IsPiece, IsRecord, end_byte, event_bytes, front_bytes, record_bytes, summary_bytes};
ghost use Rattle.journal_format.specs.declared.turn_record.TurnEvent.TheVariants.{Read};

use crate::turn_record::{SendEnd, Summary, TurnEvent, TurnRecord};
use ev_types::Memory;
use std::alloc::Global;

/// Adds the bytes of the record at the end.
pub fn push_record(alloc: Global, out: &mut Vec<u8>, entry: &TurnRecord) -> Result<(), Memory>
    requires { IsRecord entry.now }
    ensures ok { OnOk result (out.new.items ≡ out.old.items ++ record_bytes entry.now) }
    ensures err { OnErr result (IsPrefix out.old.items out.new.items) }
{
    push_turn(
        alloc,
        out,
        entry.summaries.as_slice(),
        entry.secs,
        &entry.event,
    )
}

/// Adds the bytes of a record that has these parts at the end.
pub fn push_turn(
    alloc: Global,
    out: &mut Vec<u8>,
    summaries: &[Summary],
    secs: u64,
    event: &TurnEvent,
) -> Result<(), Memory>
    requires few { length summaries.now ≤ summary_limit }
    requires event { IsEvent event.now }
    ensures ok { OnOk result (out.new.items ≡ out.old.items ++ record_bytes
        (record { summaries = summaries.now; secs = secs; event = event.now })) }
    ensures err { OnErr result (IsPrefix out.old.items out.new.items) }
{
    push_front(alloc, out, summaries, secs)?;
    push_event(out, event)
}

/// Adds the bytes of the record of a read at the end, with the bytes that were read where they are.
pub fn push_read_turn(
    alloc: Global,
    out: &mut Vec<u8>,
    summaries: &[Summary],
    secs: u64,
    link: u64,
    bytes: &[u8],
) -> Result<(), Memory>
    requires few { length summaries.now ≤ summary_limit }
    requires piece { IsPiece bytes.now }
    ensures ok { OnOk result (out.new.items ≡ out.old.items ++ record_bytes
        (record { summaries = summaries.now; secs = secs; event = Read link bytes.now })) }
    ensures err { OnErr result (IsPrefix out.old.items out.new.items) }
{
    push_front(alloc, out, summaries, secs)?;
    push_read(out, link, bytes)
}

/// Adds what is before the event in a record.
fn push_front(
    _alloc: Global,
    out: &mut Vec<u8>,
    summaries: &[Summary],
    secs: u64,
) -> Result<(), Memory>
    requires { length summaries.now ≤ summary_limit }
    ensures ok { OnOk result (out.new.items ≡ out.old.items ++ front_bytes summaries.now secs) }
    ensures err { OnErr result (IsPrefix out.old.items out.new.items) }
{
    let count = summaries.len() as u16;
    push_bytes(out, &count.to_be_bytes())?;
    push_summaries(out, summaries)?;
    push_bytes(out, &secs.to_be_bytes())
}

fn push_summaries(out: &mut Vec<u8>, summaries: &[Summary]) -> Result<(), Memory>
    ensures ok { OnOk result (out.new.items
        ≡ out.old.items ++ flat_map summary_bytes summaries.now) }
    ensures err { OnErr result (IsPrefix out.old.items out.new.items) }
{
    for summary in summaries {
        push_summary(out, summary)?;
    }
    Ok(())
}

fn push_summary(out: &mut Vec<u8>, summary: &Summary) -> Result<(), Memory>
    ensures ok { OnOk result (out.new.items ≡ out.old.items ++ summary_bytes summary.now) }
    ensures err { OnErr result (IsPrefix out.old.items out.new.items) }
{
    push_bytes(out, &summary.link.to_be_bytes())?;
    push_bytes(out, &summary.taken.to_be_bytes())?;
    push_bytes(out, &[end_byte(summary.end)])
}

fn end_byte(end: SendEnd) -> u8
    ensures { result ≡ end_byte end }
{
    match end {
        SendEnd::Took => 0,
        SendEnd::Later => 1,
        SendEnd::Failed => 2,
    }
}

fn push_event(out: &mut Vec<u8>, event: &TurnEvent) -> Result<(), Memory>
    requires { IsEvent event.now }
    ensures ok { OnOk result (out.new.items ≡ out.old.items ++ event_bytes event.now) }
    ensures err { OnErr result (IsPrefix out.old.items out.new.items) }
{
    match event {
        TurnEvent::Listen => push_bytes(out, &[0]),
        TurnEvent::Idle => push_bytes(out, &[1]),
        TurnEvent::Opened { link } => push_of_link(out, 2, *link),
        TurnEvent::Read { link, bytes } => push_read(out, *link, bytes.as_slice()),
        TurnEvent::Ended { link } => push_of_link(out, 4, *link),
        TurnEvent::Broken { link } => push_of_link(out, 5, *link),
        TurnEvent::Room { link } => push_of_link(out, 6, *link),
    }
}

/// Adds a read of the link.
fn push_read(out: &mut Vec<u8>, link: u64, bytes: &[u8]) -> Result<(), Memory>
    requires { IsPiece bytes.now }
    ensures ok { OnOk result (out.new.items
        ≡ out.old.items ++ event_bytes (Read link bytes.now)) }
    ensures err { OnErr result (IsPrefix out.old.items out.new.items) }
{
    push_of_link(out, 3, link)?;
    push_counted(out, bytes)
}

/// Adds how many bytes there are, and the bytes.
fn push_counted(out: &mut Vec<u8>, bytes: &[u8]) -> Result<(), Memory>
    requires { length bytes.now < 2 ^ 32 }
    ensures ok { OnOk result (out.new.items
        ≡ out.old.items ++ (to_be_bytes w32 (length bytes.now) ++ bytes.now)) }
    ensures err { OnErr result (IsPrefix out.old.items out.new.items) }
{
    let count = bytes.len() as u32;
    push_bytes(out, &count.to_be_bytes())?;
    push_bytes(out, bytes)
}

/// Adds a kind and a link.
fn push_of_link(out: &mut Vec<u8>, kind: u8, link: u64) -> Result<(), Memory>
    ensures ok { OnOk result (out.new.items
        ≡ out.old.items ++ kind ∷ to_be_bytes w64 link) }
    ensures err { OnErr result (IsPrefix out.old.items out.new.items) }
{
    push_bytes(out, &[kind])?;
    push_bytes(out, &link.to_be_bytes())
}

/// Adds the bytes.
fn push_bytes(out: &mut Vec<u8>, bytes: &[u8]) -> Result<(), Memory>
    ensures ok { OnOk result (out.new.items ≡ out.old.items ++ bytes.now) }
    ensures err { OnErr result (IsPrefix out.old.items out.new.items) }
{
    out.extend_from_slice(bytes)?;
    Ok(())
}

/// Adds what follows the first gate of a journal, up to its records.
pub fn push_head(_alloc: Global, out: &mut Vec<u8>, config: &[u8]) -> Result<(), Memory>
    requires { length config.now ≤ config_limit }
    ensures ok { OnOk result (out.new.items ≡ out.old.items ++ head_bytes config.now) }
    ensures err { OnErr result (IsPrefix out.old.items out.new.items) }
{
    push_counted(out, config)
}
