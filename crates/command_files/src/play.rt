ghost use Rattle.std.specs.Prelude.{◌≡◌, [], Ok, IfErr, IfOk, OnOk};
ghost use Rattle.command_setup.specs.command_io.Endings.{IsComplete};
ghost use Rattle.ports.specs.Calls.{LinksReport};
ghost use Rattle.ports.specs.Writing.{SinkReport};
ghost use Rattle.ports.specs.Reading.{StoreReport};
ghost use Rattle.command_setup.specs.command_io.Reports.{reports};
ghost use Rattle.command_files.specs.Files.{IsAfterRun, ReadsOther};
ghost use Rattle.script_text.specs.LinkLines.{link_lines};
ghost use Rattle.command_files.specs.Playing.{WritesLines};
ghost use Rattle.command_files.specs.Replays.{PlayEnds};
ghost use Rattle.command_files.specs.Scripts.{IsScript, RefusesScript, RefusesText};
ghost use Rattle.ev_types.specs.Interval.{IsInterval};
ghost use Rattle.script_text.specs.Scripts.{script_of};

use crate::read::read_other;
use crate::run::run_script;
use command_setup::command_io::Ending;
use command_setup::ending_of_fault;
use command_setup::hub_run::Setup;
use ev_types::Text;
use ports::{ScriptLinks, Sink, Store};
use pred_eval::Patterns;
use script_text::{LineFault, ScriptFault, read_script, write_link_lines};
use std::alloc::Global;
use step_count::{Ledger, Steps};

/// Reads the script in the file of the name, and gives links that play it.
pub(crate) fn fetch_script<'a, S: Store>(
    alloc: Global,
    name: &'a Text,
    store: &mut S,
) -> Result<ScriptLinks, Ending<'a>>
    ensures script { IfOk result
        (λ links. IsScript name.now (S.report store.old) (S.report store.new) links.script) }
    ensures begins { IfOk result (λ links. links.log ≡ []) }
    ensures refused { IfErr result
        (RefusesScript name.now (S.report store.old) (S.report store.new)) }
    ensures reads { ReadsOther name.now (S.report store.old).reads (S.report store.new).reads
        result }
    ensures quiet { OnOk result ((S.report store.new).faults ≡ (S.report store.old).faults) }
{
    match read_other(alloc, name, store) {
        Ok(text) => read_text(alloc, text.as_slice()),
        Err(ending) => Err(ending),
    }
}

/// Links that play the script that the text is.
fn read_text<'a>(alloc: Global, text: &[u8]) -> Result<ScriptLinks, Ending<'a>>
    ensures script { IfOk result (λ links. script_of text.now ≡ Ok links.script) }
    ensures begins { IfOk result (λ links. links.log ≡ []) }
    ensures refused { IfErr result (RefusesText text.now) }
{
    match read_script(alloc, text) {
        Ok(links) => Ok(links),
        Err(ScriptFault::Refused { line }) => Err(Ending::ScriptRefused { line }),
        Err(ScriptFault::Memory) => Err(Ending::OutOfMemory),
    }
}

/// Plays the script of the links to a server, and writes what each link was sent.
pub(crate) fn play<'a, O: Sink, P: Patterns, G: Ledger>(
    alloc: Global,
    setup: Setup,
    mut links: ScriptLinks,
    out: &mut O,
    patterns: &mut P,
    steps: &mut Steps<G>,
) -> Ending<'a>
    requires interval { IsInterval setup.expiry }
    requires begins { links.log ≡ [] }
    ensures ends { (store store' : StoreReport) (given : LinksReport) (err err' : SinkReport) →
        PlayEnds setup links.script
        (reports store given (O.report out.old) err (P.report patterns.old) steps.old.forks)
        (reports store' given (O.report out.new) err' (P.report patterns.new) steps.new.forks)
        result }
    ensures quiet { IsComplete result → (O.report out.new).faults ≡ (O.report out.old).faults }
    ensures after { IsAfterRun result }
{
    match run_script(alloc, setup, &mut links, out, patterns, steps) {
        Ok(()) => write_links(alloc, &links, out),
        Err(fault) => ending_of_fault(fault),
    }
}

/// Writes what each link was sent.
fn write_links<'a, O: Sink>(alloc: Global, links: &ScriptLinks, out: &mut O) -> Ending<'a>
    ensures after { IsAfterRun result }
    ensures writes { WritesLines (link_lines links.now.script links.now.log) (O.report out.old)
        (O.report out.new) result }
{
    match write_link_lines(alloc, links, out) {
        Ok(()) => Ending::Finished,
        Err(LineFault::Sink) => Ending::WriteFailed,
        Err(LineFault::Memory) => Ending::OutOfMemory,
    }
}
