//! What a line of a script says.

ghost use Rattle.std.specs.Prelude.{◌≡◌, ◌==◌, IfOk};
ghost use Rattle.std.specs.List.{slice_split};
ghost use Rattle.script_text.specs.Lines.{event_of, four_words, is_skipped, line_of, line_of_words, take_of, three_words, turn_at, two_words};

use crate::cut::cut;
use crate::word::{is, read_number, read_piece};
use ev_types::Memory;
use ports::{LinkEvent, Step};
use std::alloc::Global;

const COMMENT: u8 = b'#';

const SPACE: u8 = b' ';

/// What a line says.
#[derive(Drop)]
pub(crate) enum Line {
    /// Nothing: the line is empty or a comment.
    Skipped,
    /// The first reading of the clock, in seconds.
    Start { secs: u64 },
    Step(Step),
}

/// What the line says, where it is valid.
#[tactic(auto, unfolding(crate::specs::Lines::line_of))]
pub(crate) fn read_line(alloc: Global, line: &[u8]) -> Result<Option<Line>, Memory>
    ensures { IfOk result (λ said. said ≡ line_of line.now) }
{
    if is_skipped(line) {
        return Ok(Some(Line::Skipped));
    }
    read_words(alloc, line)
}

fn is_skipped(line: &[u8]) -> bool
    ensures { result ≡ is_skipped line.now }
{
    match line.split_first() {
        Some((byte, _)) => *byte == COMMENT,
        None => true,
    }
}

/// What a line of words says, where it is valid.
fn read_words(alloc: Global, line: &[u8]) -> Result<Option<Line>, Memory>
    ensures { IfOk result (λ said. said
        ≡ line_of_words (slice_split (λ byte. byte == SPACE) line.now)) }
{
    let (first, rest) = cut(line, SPACE);
    let Some(rest) = rest else { return Ok(None) };
    let (second, rest) = cut(rest, SPACE);
    let Some(rest) = rest else {
        return Ok(two_words(first, second));
    };
    let (third, rest) = cut(rest, SPACE);
    let Some(rest) = rest else {
        return Ok(three_words(first, second, third));
    };
    let (fourth, rest) = cut(rest, SPACE);
    match rest {
        Some(_) => Ok(None),
        None => four_words(alloc, first, second, third, fourth),
    }
}

#[tactic(auto, unfolding(crate::specs::Lines::two_words))]
fn two_words(first: &[u8], second: &[u8]) -> Option<Line>
    ensures { result ≡ two_words first.now second.now }
{
    if is(first, b"start") {
        let secs = read_number(second)?;
        Some(Line::Start { secs })
    } else if is(first, b"fail") {
        let link = read_number(second)?;
        Some(Line::Step(Step::Fail { link }))
    } else if is(second, b"idle") {
        turn_at(first, LinkEvent::Idle)
    } else {
        None
    }
}

#[tactic(auto, unfolding(crate::specs::Lines::three_words))]
fn three_words(first: &[u8], second: &[u8], third: &[u8]) -> Option<Line>
    ensures { result ≡ three_words first.now second.now third.now }
{
    if is(first, b"take") {
        return take_of(second, third);
    }
    let link = read_number(third)?;
    let event = event_of(second, link)?;
    turn_at(first, event)
}

fn take_of(link: &[u8], count: &[u8]) -> Option<Line>
    ensures { result ≡ take_of link.now count.now }
{
    let link = read_number(link)?;
    let count = read_number(count)?;
    Some(Line::Step(Step::Take { link, count }))
}

/// What happens on the link, where the word is a kind of turn.
fn event_of(kind: &[u8], link: u64) -> Option<LinkEvent>
    ensures { result ≡ event_of kind.now link }
{
    if is(kind, b"open") {
        Some(LinkEvent::Opened { link })
    } else if is(kind, b"end") {
        Some(LinkEvent::Ended { link })
    } else if is(kind, b"broken") {
        Some(LinkEvent::Broken { link })
    } else if is(kind, b"room") {
        Some(LinkEvent::Room { link })
    } else {
        None
    }
}

#[tactic(auto, unfolding(crate::specs::Lines::four_words))]
fn four_words(
    alloc: Global,
    first: &[u8],
    second: &[u8],
    third: &[u8],
    fourth: &[u8],
) -> Result<Option<Line>, Memory>
    ensures { IfOk result (λ said. said
        ≡ four_words first.now second.now third.now fourth.now) }
{
    if !is(second, b"read") {
        return Ok(None);
    }
    let Some(link) = read_number(third) else {
        return Ok(None);
    };
    let Some(piece) = read_piece(alloc, fourth)? else {
        return Ok(None);
    };
    Ok(turn_at(first, LinkEvent::Read { link, piece }))
}

/// A turn at the second that the word says.
fn turn_at(secs: &[u8], event: LinkEvent) -> Option<Line>
    ensures { result ≡ turn_at secs.now event }
{
    let secs = read_number(secs)?;
    Some(Line::Step(Step::Turn { secs, event }))
}
