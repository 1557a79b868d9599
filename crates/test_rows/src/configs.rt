//! Rows of configurations, which the command `check` answers, and of the patterns of their plans.

use crate::call::{Given, call_with};
use crate::line::{RowFault, said};
use command_io::Status;
use ev_types::{Blob, Texts};
use pred_eval::ListPatterns;
use sexp_config::read_config;
use std::alloc::Global;
use std::fmt::Write;
use stream_plan::build_plan;

/// `ok` for a configuration, or why the text is not one.
pub fn config_answer(alloc: Global, text: &[u8]) -> Result<Blob, RowFault> {
    let (given, status) = call_with(alloc, "check f", text)?;
    match status {
        Status::Done => Ok(Blob::from_slice(alloc, b"ok")?),
        _ => refusal(alloc, &given),
    }
}

/// The canonical text of the configuration, or why the text is not one.
fn written(alloc: Global, text: &[u8]) -> Result<Blob, RowFault> {
    let (given, status) = call_with(alloc, "check f", text)?;
    match status {
        Status::Done => Ok(Blob::from_slice(alloc, given.out.text.as_slice())?),
        _ => refusal(alloc, &given),
    }
}

/// The line on the error stream, without the name of the program.
fn refusal(alloc: Global, given: &Given) -> Result<Blob, RowFault> {
    let line = given.err.text.as_slice();
    let line = line.strip_prefix(b"riemann: ").unwrap_or(line);
    Ok(Blob::from_slice(alloc, line.strip_suffix(b"\n").unwrap_or(line))?)
}

/// The canonical text of the configuration, and the canonical text of that where it is the one wanted.
pub fn written_again(alloc: Global, text: &[u8], wanted: &[u8]) -> Result<Blob, RowFault> {
    let out = written(alloc, text)?;
    if out.as_slice() == wanted {
        written(alloc, wanted)
    } else {
        Ok(out)
    }
}

/// How many patterns the plan of a configuration has, or the one that is refused, with the texts that were, or why the
/// text is not a configuration.
pub fn patterns_answer(alloc: Global, text: &[u8]) -> Result<Blob, RowFault> {
    let config = match read_config(alloc, text) {
        Ok(config) => config,
        Err(fault) => return Ok(said(format!(in alloc; "{fault}")?)),
    };
    let mut patterns = ListPatterns {
        refusals: 0,
        refused: Texts::fresh(alloc),
    };
    match build_plan(alloc, config.plan, &mut patterns) {
        Ok(ready) => Ok(said(format!(in alloc; "{} built", ready.patterns().len())?)),
        Err(fault) => {
            let mut printed = format!(in alloc; "{fault}")?;
            put_refused(&mut printed, &patterns)?;
            Ok(said(printed))
        }
    }
}

/// Appends the number of refusals, and the texts that were refused.
pub fn put_refused(line: &mut String, patterns: &ListPatterns) -> Result<(), RowFault> {
    write!(line, ", {} of", patterns.refusals)?;
    for text in patterns.refused.as_slice() {
        write!(line, " {}", text.as_str())?;
    }
    Ok(())
}
