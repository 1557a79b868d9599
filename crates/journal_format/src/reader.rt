//! Reading a record.

ghost use Rattle.std.specs.Prelude.{◌≡◌, List, ℕ, ◌++◌, IfOk};
ghost use Rattle.journal_format.specs.Spelling.{IsRecord, are_distinct, has_link, record_bytes};
ghost use Rattle.journal_format.specs.declared.turn_record.TurnRecord.{TurnRecord};
ghost use Rattle.journal_format.specs.Reading.{Gives, counted_at, end_at, end_of, event_at, link_event, link_event_at, piece_at, read_as, record_at, summaries_at, summary_at};

use crate::limits::{PIECE_LIMIT, SUMMARY_LIMIT};
use crate::numbers::{u16_at, u32_at, u64_at};
use crate::turn_record::{SendEnd, Summaries, Summary, TurnEvent, TurnRecord};
use crate::unread::Unread;
use ev_types::Blob;
use std::alloc::Global;

/// The record at the start of the bytes, and the bytes after it.
pub fn read_record(alloc: Global, bytes: &[u8]) -> Result<(TurnRecord, &[u8]), Unread>
    // What is read is spelled so.
    ensures found { IfOk result (λ read. IsRecord read.0 ×
        (bytes.now ≡ record_bytes read.0 ++ read.1.now)) }
    // What is spelled so is read, unless memory runs out.
    ensures only { (entry : TurnRecord) (rest : List ℕ) → IsRecord entry →
        bytes.now ≡ record_bytes entry ++ rest →
        Gives (λ read. (read.0, read.1.now)) result (read_as entry rest) }
    ensures exact { Gives (λ read. (read.0, read.1.now)) result (record_at bytes.now) }
{
    record_at(alloc, bytes)
}

#[tactic(auto, unfolding(crate::specs::Reading::record_at))]
fn record_at(alloc: Global, bytes: &[u8]) -> Result<(TurnRecord, &[u8]), Unread>
    ensures { Gives (λ read. (read.0, read.1.now)) result (record_at bytes.now) }
{
    let (count, rest) = u16_at(bytes)?;
    let (summaries, rest) = counted_at(alloc, count, rest)?;
    let (secs, rest) = u64_at(rest)?;
    let (event, rest) = event_at(alloc, rest)?;
    let entry = TurnRecord {
        summaries,
        secs,
        event,
    };
    Ok((entry, rest))
}

/// As many summaries, if that is within the limit and each link has one at most.
#[tactic(auto, unfolding(crate::specs::Reading::counted_at))]
fn counted_at(alloc: Global, count: u16, bytes: &[u8]) -> Result<(Summaries, &[u8]), Unread>
    ensures { Gives (λ read. (read.0, read.1.now)) result (counted_at count bytes.now) }
{
    if usize::from(count) > SUMMARY_LIMIT {
        return Err(Unread::Refused);
    }
    let (summaries, rest) = summaries_at(alloc, count, bytes)?;
    if !are_distinct(summaries.as_slice()) {
        return Err(Unread::Refused);
    }
    Ok((summaries, rest))
}

fn summaries_at(alloc: Global, count: u16, bytes: &[u8]) -> Result<(Summaries, &[u8]), Unread>
    ensures { Gives (λ read. (read.0, read.1.now)) result (summaries_at count bytes.now) }
{
    let mut summaries = Summaries::fresh(alloc);
    let mut rest = bytes;
    for _ in 0..count {
        let (summary, after) = summary_at(rest)?;
        summaries.push(alloc, summary)?;
        rest = after;
    }
    Ok((summaries, rest))
}

#[tactic(auto, unfolding(crate::specs::Reading::summary_at))]
fn summary_at(bytes: &[u8]) -> Result<(Summary, &[u8]), Unread>
    ensures { Gives (λ read. (read.0, read.1.now)) result (summary_at bytes.now) }
{
    let (link, rest) = u64_at(bytes)?;
    let (taken, rest) = u64_at(rest)?;
    let (end, rest) = end_at(rest)?;
    Ok((Summary { link, taken, end }, rest))
}

#[tactic(auto, unfolding(crate::specs::Reading::end_at))]
fn end_at(bytes: &[u8]) -> Result<(SendEnd, &[u8]), Unread>
    ensures { Gives (λ read. (read.0, read.1.now)) result (end_at bytes.now) }
{
    let [byte, rest @ ..] = bytes else {
        return Err(Unread::Refused);
    };
    let end = end_of(*byte)?;
    Ok((end, rest))
}

#[tactic(auto, unfolding(crate::specs::Reading::end_of))]
fn end_of(byte: u8) -> Result<SendEnd, Unread>
    ensures { Gives (λ end. end) result (end_of byte) }
{
    match byte {
        0 => Ok(SendEnd::Took),
        1 => Ok(SendEnd::Later),
        2 => Ok(SendEnd::Failed),
        _ => Err(Unread::Refused),
    }
}

/// Whether each link has one summary at most.
fn are_distinct(summaries: &[Summary]) -> bool
    ensures { result ≡ are_distinct summaries.now }
{
    let mut rest = summaries;
    'each: while let [summary, after @ ..] = rest {
        if has_link(summary.link, after) {
            return false;
        }
        rest = after;
    }
    true
}

/// Whether one of the summaries is of the link.
fn has_link(link: u64, summaries: &[Summary]) -> bool
    ensures { result ≡ has_link link summaries.now }
{
    summaries.iter().any(|summary| summary.link == link)
}

#[tactic(auto, unfolding(crate::specs::Reading::event_at))]
fn event_at(alloc: Global, bytes: &[u8]) -> Result<(TurnEvent, &[u8]), Unread>
    ensures { Gives (λ read. (read.0, read.1.now)) result (event_at bytes.now) }
{
    let [kind, rest @ ..] = bytes else {
        return Err(Unread::Refused);
    };
    match *kind {
        0 => Ok((TurnEvent::Listen, rest)),
        1 => Ok((TurnEvent::Idle, rest)),
        kind => link_event_at(alloc, kind, rest),
    }
}

#[tactic(auto, unfolding(crate::specs::Reading::link_event_at))]
fn link_event_at(alloc: Global, kind: u8, bytes: &[u8]) -> Result<(TurnEvent, &[u8]), Unread>
    ensures { Gives (λ read. (read.0, read.1.now)) result (link_event_at kind bytes.now) }
{
    let (link, rest) = u64_at(bytes)?;
    if kind == 3 {
        return piece_at(alloc, link, rest);
    }
    let event = link_event(kind, link)?;
    Ok((event, rest))
}

/// An event of the link that has no other field.
#[tactic(auto, unfolding(crate::specs::Reading::link_event))]
fn link_event(kind: u8, link: u64) -> Result<TurnEvent, Unread>
    ensures { Gives (λ event. event) result (link_event kind link) }
{
    match kind {
        2 => Ok(TurnEvent::Opened { link }),
        4 => Ok(TurnEvent::Ended { link }),
        5 => Ok(TurnEvent::Broken { link }),
        6 => Ok(TurnEvent::Room { link }),
        _ => Err(Unread::Refused),
    }
}

#[tactic(auto, unfolding(crate::specs::Reading::piece_at))]
fn piece_at(alloc: Global, link: u64, bytes: &[u8]) -> Result<(TurnEvent, &[u8]), Unread>
    ensures { Gives (λ read. (read.0, read.1.now)) result (piece_at link bytes.now) }
{
    let (count, rest) = u32_at(bytes)?;
    let count = count as usize;
    if count == 0 || count > PIECE_LIMIT || count > rest.len() {
        return Err(Unread::Refused);
    }
    let (piece, rest) = rest.split_at(count);
    let bytes = Blob::from_slice(alloc, piece)?;
    Ok((TurnEvent::Read { link, bytes }, rest))
}
