ghost use Rattle.std.specs.Prelude.{◌≡◌, ◌∷◌, ◌++◌, [], map, OnOk, IfOk, false};
ghost use Rattle.ports.specs.Pieces.{feed_script, pieces_of, read_step};

use crate::links::PIECE_LIMIT;
use crate::script::{LinkEvent, Piece, Script, ScriptSteps, Step};
use crate::script_links::ScriptLinks;
use bytes::Bytes;
use ev_types::{Blob, Memory};
use std::alloc::Global;

/// Links on which link 0 opens, reads the bytes in pieces of [`PIECE_LIMIT`], the last with what is left, and ends, all
/// at second 0. Every send is taken whole. The pieces are parts of the one buffer, and no byte is copied.
pub fn feed_links(alloc: Global, bytes: Blob) -> Result<ScriptLinks, Memory>
    ensures script { IfOk result (λ links. links.script ≡ feed_script PIECE_LIMIT bytes) }
    ensures log { IfOk result (λ links. links.log ≡ []) }
    ensures poisoned { IfOk result (λ links. links.poisoned ≡ false) }
{
    let mut steps = ScriptSteps::fresh(alloc);
    push_turn(alloc, LinkEvent::Opened { link: 0 }, &mut steps)?;
    push_reads(alloc, Bytes::from_vec(bytes.into_vec())?, &mut steps)?;
    push_turn(alloc, LinkEvent::Ended { link: 0 }, &mut steps)?;
    Ok(ScriptLinks::fresh(alloc, Script { start: 0, steps }))
}

/// Adds a turn at second 0.
fn push_turn(alloc: Global, event: LinkEvent, steps: &mut ScriptSteps) -> Result<(), Memory>
    ensures { OnOk result (steps.new ≡ steps.old ++ Step.Turn 0 event ∷ []) }
{
    steps.push(alloc, Step::Turn { secs: 0, event })?;
    Ok(())
}

/// Adds a read of link 0 for each piece of the bytes.
#[tactic(auto, using(crate::proofs::PieceLemmas::piece_more, crate::proofs::PieceLemmas::pieces_done))]
fn push_reads(alloc: Global, bytes: Bytes, steps: &mut ScriptSteps) -> Result<(), Memory>
    ensures { OnOk result (steps.new ≡ steps.old
        ++ map read_step (pieces_of PIECE_LIMIT bytes)) }
{
    let mut rest = bytes;
    'pieces: while rest.len() > 0 {
        let first = rest.split_to(PIECE_LIMIT.min(rest.len()))?;
        let piece = Piece::from_bytes(first);
        push_turn(alloc, LinkEvent::Read { link: 0, piece }, steps)?;
    }
    Ok(())
}
