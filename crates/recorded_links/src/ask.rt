//! What the inner links are asked, with their own numbers.

ghost use Rattle.std.specs.Prelude.{◌≡◌, ◌++◌, length, OnOk};
ghost use Rattle.ports.specs.Links.{IsPieceWithin};
ghost use Rattle.recorded_links.specs.Numbers.{first_after, inner_number, inner_want, inner_wants, own_number, own_turn, own_what};
ghost use Rattle.recorded_links.specs.Steps.{Asks};

use ev_types::Memory;
use ports::{Links, PIECE_LIMIT, Turn, Want, Wants, What};
use std::alloc::Global;

/// Asks the inner links for a turn, and gives it with the numbers here. `kept` is room for what is wanted of them.
pub(crate) fn ask<L: Links>(
    alloc: Global,
    inner: &mut L,
    last: Option<u64>,
    kept: &mut Wants,
    wants: &Wants,
    buf: &mut [u8],
) -> Turn
    requires { length buf.old ≡ PIECE_LIMIT }
    ensures within { IsPieceWithin PIECE_LIMIT result.what }
    ensures asks { Asks (first_after last) (L.report inner.old) (L.report inner.new)
        wants.now buf.new result }
{
    if fill_wants(alloc, last, kept, wants.as_slice()).is_err() {
        return Turn {
            secs: 0,
            what: What::Memory,
        };
    }
    let turn = inner.next(alloc, kept, buf);
    own_turn(last, turn)
}

/// Puts what is wanted of the inner links in `kept`.
fn fill_wants(
    alloc: Global,
    last: Option<u64>,
    kept: &mut Wants,
    wants: &[Want],
) -> Result<(), Memory>
    ensures { OnOk result (kept.new ≡ inner_wants (first_after last) wants.now) }
{
    kept.clear(alloc);
    push_wants(alloc, last, kept, wants)
}

fn push_wants(
    alloc: Global,
    last: Option<u64>,
    kept: &mut Wants,
    wants: &[Want],
) -> Result<(), Memory>
    ensures { OnOk result (kept.new ≡ kept.old ++ inner_wants (first_after last) wants.now) }
{
    for want in wants {
        push_want(alloc, last, kept, *want)?;
    }
    Ok(())
}

/// Adds what is wanted of the link, if it is an inner one.
fn push_want(alloc: Global, last: Option<u64>, kept: &mut Wants, want: Want) -> Result<(), Memory>
    ensures { OnOk result (kept.new ≡ kept.old ++ inner_want (first_after last) want) }
{
    let Some(link) = inner_number(last, want.link) else {
        return Ok(());
    };
    kept.push(
        alloc,
        Want {
            link,
            read: want.read,
            room: want.room,
        },
    )
}

/// The number that the inner links know the link by, if it is one of theirs.
pub(crate) fn inner_number(last: Option<u64>, link: u64) -> Option<u64>
    ensures { result ≡ inner_number (first_after last) link }
{
    match last {
        Some(last) if last < link => Some(link - last - 1),
        Some(_) => None,
        None => Some(link),
    }
}

/// The number here of an inner link, if it has 64 bits.
fn own_number(last: Option<u64>, link: u64) -> Option<u64>
    ensures { result ≡ own_number (first_after last) link }
{
    match last {
        Some(last) => last.checked_add(1)?.checked_add(link),
        None => Some(link),
    }
}

fn own_turn(last: Option<u64>, turn: Turn) -> Turn
    ensures turn { result ≡ own_turn (first_after last) turn }
    ensures within { IsPieceWithin PIECE_LIMIT turn.what → IsPieceWithin PIECE_LIMIT result.what }
{
    Turn {
        secs: turn.secs,
        what: own_what(last, turn.what),
    }
}

fn own_what(last: Option<u64>, what: What) -> What
    ensures what { result ≡ own_what (first_after last) what }
    ensures within { IsPieceWithin PIECE_LIMIT what → IsPieceWithin PIECE_LIMIT result }
{
    match what {
        What::Opened { link } => match own_number(last, link) {
            Some(link) => What::Opened { link },
            None => What::Idle,
        },
        What::Read { link, count } => match own_number(last, link) {
            Some(link) => What::Read { link, count },
            None => What::Idle,
        },
        What::Ended { link } => match own_number(last, link) {
            Some(link) => What::Ended { link },
            None => What::Idle,
        },
        What::Broken { link } => match own_number(last, link) {
            Some(link) => What::Broken { link },
            None => What::Idle,
        },
        What::Room { link } => match own_number(last, link) {
            Some(link) => What::Room { link },
            None => What::Idle,
        },
        What::Idle | What::Stopped | What::Failed | What::Memory => what,
    }
}
