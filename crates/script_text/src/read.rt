//! Reading a script.

ghost use Rattle.std.specs.Prelude.{◌≡◌, ℕ, ◌+◌, [], Err, Ok, IfOk, false};
ghost use Rattle.script_text.specs.Scripts.{GivesStart, GivesSteps, script_of, steps_from};
ghost use Rattle.script_text.specs.declared.read.ScriptFault.TheVariants.{Memory as fault_memory};

use crate::line::{Line, read_line};
use crate::lines::LinesLeft;
use ev_types::Memory;
use ports::{Script, ScriptLinks, ScriptSteps};
use std::alloc::Global;
use thiserror::Error;

/// Why a text gives no links.
#[derive(Clone, Copy, Debug, PartialEq, Eq, Error)]
pub enum ScriptFault {
    /// The text is not a script: `line` is the number of its first line that is not valid, from 1. Where all
    /// lines are skipped, that is the number of the lines plus one.
    #[error("script refused at line {line}")]
    Refused { line: u64 },
    #[error("out of memory")]
    Memory,
}

impl From<Memory> for ScriptFault {
    ghost from_gives = { λ _ fault. fault ≡ fault_memory };

    fn from(_memory: Memory) -> ScriptFault {
        ScriptFault::Memory
    }
}

/// Links that play the script that the text is.
pub fn read_script(alloc: Global, text: &[u8]) -> Result<ScriptLinks, ScriptFault>
    ensures script { IfOk result (λ links. script_of text.now ≡ Ok links.script) }
    ensures log { IfOk result (λ links. links.log ≡ []) }
    ensures poisoned { IfOk result (λ links. links.poisoned ≡ false) }
    ensures refused { (line : ℕ) → result ≡ Err (ScriptFault.Refused line)
        → script_of text.now ≡ Err line }
{
    let mut lines = LinesLeft::over(text);
    let start = read_start(alloc, &mut lines)?;
    let steps = read_steps(alloc, &mut lines)?;
    Ok(ScriptLinks::fresh(alloc, Script { start, steps }))
}

/// The first reading of the clock. The lines up to the start line are read.
fn read_start(alloc: Global, lines: &mut LinesLeft) -> Result<u64, ScriptFault>
    ensures { GivesStart result lines.old lines.new }
{
    'lines: while let Some(line) = lines.next() {
        match read_line(alloc, line)? {
            Some(Line::Skipped) => {}
            Some(Line::Start { secs }) => return Ok(secs),
            Some(Line::Step(_)) | None => {
                return Err(ScriptFault::Refused {
                    line: lines.passed(),
                });
            }
        }
    }
    Err(ScriptFault::Refused {
        line: lines.passed() + 1,
    })
}

/// What the lines after the start line say. All lines are read.
#[tactic(auto, using(crate::proofs::StepLemmas::onto_nothing, crate::proofs::StepLemmas::onto_more))]
fn read_steps(alloc: Global, lines: &mut LinesLeft) -> Result<ScriptSteps, ScriptFault>
    ensures { GivesSteps result (steps_from (lines.old.passed + 1) lines.old.lines) }
{
    let mut steps = ScriptSteps::fresh(alloc);
    'lines: while let Some(line) = lines.next() {
        match read_line(alloc, line)? {
            Some(Line::Skipped) => {}
            Some(Line::Step(step)) => steps.push(alloc, step)?,
            Some(Line::Start { .. }) | None => {
                return Err(ScriptFault::Refused {
                    line: lines.passed(),
                });
            }
        }
    }
    Ok(steps)
}
