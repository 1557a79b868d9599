ghost use Rattle.std.specs.Prelude.{◌≡◌, ◌≢◌, ◌<◌, ◌≤◌, ◌^◌, [], ◌++◌, length, Some, IfOk};
ghost use Rattle.std.specs.Option.{option_map};
ghost use Rattle.pred_eval.specs.Building.{IsAnswerTo, IsCounted, IsSmall, refused_by, texts_of, HasCause, refused_of};
ghost use Rattle.pred_eval.specs.Search.{AreReadFrom};
ghost use Rattle.pred_eval.specs.declared.patterns.BuildFault.TheVariants.{Memory as out_of_memory};

use crate::Finder;
use ev_types::{Memory, Text, Texts};
use ghost_logs::TextLog;
use regex::{Error, Regex, RegexBuilder};
use std::alloc::{AllocFailed, Global};
use thiserror::Error;

/// About how many bytes the program of a regular expression may take. One of a larger program is refused. At worst a
/// search takes time in proportion to the program: at this size a tenth of a millisecond for each byte of a text.
pub const PROGRAM_BYTES: usize = 65_536;

/// What a pattern's text was built into.
#[derive(Drop)]
pub enum PatternAnswer {
    /// The regular expression of this text.
    Built(Regex),
    /// The text is not a regular expression, or its program is too big.
    Refused,
    Memory,
}

/// Where regular expressions are built.
pub trait Patterns {
    ghost use Rattle.pred_eval.specs.Building.{PatternsReport};

    /// How many texts were refused, and which, where they are known.
    ghost report: { Self → PatternsReport };

    /// Builds the regular expression of the text. What is built is small (`PROGRAM_BYTES`). Only a refusal is counted and
    /// recorded, and one has a cause that is not memory.
    fn build(&mut self, alloc: Global, pattern: &Text) -> PatternAnswer
        ensures built { IsAnswerTo pattern.now result }
        ensures small { IsSmall result }
        ensures counted { IsCounted (report self.old).refusals (report self.new).refusals result }
        ensures reported { (report self.new).refused ≡ option_map
            (λ texts. texts ++ refused_by pattern.now result) (report self.old).refused }
        ensures refusals { (report self.old).refusals ≤ (report self.new).refusals };
}

/// Builds by the crate `regex`. It counts refusals, up to the greatest number, and keeps no text. Contracts see the
/// texts that were refused.
#[derive(Drop)]
pub struct RegexPatterns {
    pub refusals: u64,
    // The texts that were refused, which only proofs see.
    refused: TextLog,
}

impl RegexPatterns {
    /// Patterns of which none was refused yet.
    pub fn fresh() -> RegexPatterns
        ensures { ⟦<RegexPatterns as Patterns>⟧.report result
            ≡ record { refusals = 0; refused = Some [] } }
    {
        RegexPatterns {
            refusals: 0,
            refused: TextLog::fresh(),
        }
    }
}

impl Patterns for RegexPatterns {
    ghost report = { λ patterns. record {
      refusals = patterns.refusals;
      refused = Some patterns.refused;
    } };

    #[tactic(auto, using(crate::proofs::BuildLaws::no_text_more))]
    fn build(&mut self, alloc: Global, pattern: &Text) -> PatternAnswer {
        let answer = read_regex(alloc, pattern);
        if let PatternAnswer::Refused = answer {
            self.refusals = self.refusals.saturating_add(1);
            self.refused.add(pattern);
        }
        answer
    }
}

/// Builds by the crate `regex`. It counts refusals, up to the greatest number, and keeps the texts that were refused.
#[derive(Drop)]
pub struct ListPatterns {
    pub refusals: u64,
    pub refused: Texts,
}

impl Patterns for ListPatterns {
    ghost report = { λ patterns. record {
      refusals = patterns.refusals;
      refused = Some patterns.refused;
    } };

    fn build(&mut self, alloc: Global, pattern: &Text) -> PatternAnswer {
        let answer = read_regex(alloc, pattern);
        if let PatternAnswer::Refused = answer {
            let Ok(text) = pattern.copy(alloc) else {
                return PatternAnswer::Memory;
            };
            let Ok(()) = self.refused.push(alloc, text) else {
                return PatternAnswer::Memory;
            };
            self.refusals = self.refusals.saturating_add(1);
        }
        answer
    }
}

/// What the crate `regex` answers. Only an error that is not out of memory refuses the text.
#[tactic(auto, using(crate::proofs::BuildLaws::cause_is))]
fn read_regex(alloc: Global, pattern: &Text) -> PatternAnswer
    ensures answer { IsAnswerTo pattern.now result }
    ensures small { IsSmall result }
{
    match RegexBuilder::new(pattern.as_str())
        .size_limit(PROGRAM_BYTES)
        .build(alloc)
    {
        Ok(regex) => PatternAnswer::Built(regex),
        Err(error) => answer_error(error),
    }
}

/// What an error of the crate `regex` is answered with.
fn answer_error(error: Error) -> PatternAnswer
    ensures memory { error ≡ Error.OutOfMemory → result ≡ PatternAnswer.Memory }
    ensures refused { error ≢ Error.OutOfMemory → result ≡ PatternAnswer.Refused }
{
    match error {
        Error::OutOfMemory => PatternAnswer::Memory,
        Error::Syntax(_) | Error::CompiledTooBig | Error::Internal => PatternAnswer::Refused,
    }
}

/// Why patterns were not all built.
#[derive(Debug, Drop, Error)]
pub enum BuildFault {
    /// The pattern of this number was refused. They are numbered from 0, in the order of the text.
    #[error("pattern {number} was refused")]
    Pattern { number: u32 },
    #[error("out of memory")]
    Memory,
}

impl From<Memory> for BuildFault {
    ghost from_gives = { λ _ fault. fault ≡ out_of_memory };

    fn from(_memory: Memory) -> BuildFault {
        BuildFault::Memory
    }
}

impl<T: Drop> From<AllocFailed<T>> for BuildFault {
    ghost from_gives = { λ _ fault. fault ≡ out_of_memory };

    fn from(_error: AllocFailed<T>) -> BuildFault {
        BuildFault::Memory
    }
}

/// Builds the regular expressions of the texts, in their order, up to the first that is refused.
pub fn build_all<P: Patterns>(
    alloc: Global,
    texts: &[&Text],
    patterns: &mut P,
) -> Result<Vec<Finder>, BuildFault>
    requires { length texts.now < 2 ^ 32 }
    ensures built { IfOk result (λ regexes. AreReadFrom (texts_of texts.now) regexes.items) }
    ensures cause { HasCause (texts_of texts.now) (P.report patterns.old).refusals
        (P.report patterns.new).refusals result }
    ensures reported { (P.report patterns.new).refused ≡
        option_map (λ refused. refused ++ refused_of (texts_of texts.now) result)
        (P.report patterns.old).refused }
    ensures refusals { (P.report patterns.old).refusals ≤ (P.report patterns.new).refusals }
{
    let mut built = Vec::new(alloc);
    let mut number: u32 = 0;
    for text in texts {
        match patterns.build(alloc, text) {
            PatternAnswer::Built(regex) => {
                let finder = Finder::new(alloc, regex)?;
                built.push(finder)?;
            }
            PatternAnswer::Refused => return Err(BuildFault::Pattern { number }),
            PatternAnswer::Memory => return Err(BuildFault::Memory),
        }
        number += 1;
    }
    Ok(built)
}
