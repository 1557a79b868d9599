//! The lines of a text, one after the other.

ghost use Rattle.std.specs.Prelude.{◌≡◌, ◌+◌, ◌^◌, ◌<◌, ◌∷◌, [], length, MatchOption};
ghost use Rattle.script_text.specs.Lines.{lines_of};

use crate::cut::cut;
use std::marker::Model;

const LINE_FEED: u8 = b'\n';

/// The lines of a text that are not read yet. Contracts see them, and the number of lines that were read.
#[derive(Drop)]
pub(crate) struct LinesLeft<'a> {
    rest: &'a [u8],
    passed: u64,
}

impl<'a> Model for LinesLeft<'a> {
    ghost use Rattle.std.specs.Prelude.{◌+◌, ◌^◌, ◌<◌, length};
    ghost use Rattle.script_text.specs.Lines.{LinesAt, lines_of};

    ghost Value = { LinesAt };

    ghost view = { λ left. record { lines = lines_of left.rest.now; passed = left.passed } };

    ghost invariant = { λ left. left.passed + length left.rest.now < 2 ^ 63 };
}

impl<'a> LinesLeft<'a> {
    /// All lines of the text.
    pub(crate) fn over(text: &'a [u8]) -> LinesLeft<'a>
        ensures { result ≡ record { lines = lines_of text.now; passed = 0 } }
    {
        LinesLeft {
            rest: text,
            passed: 0,
        }
    }

    /// The next line.
    #[tactic(auto, using(crate::proofs::CutLemmas::lines_none))]
    pub(crate) fn next(&mut self) -> Option<&'a [u8]>
        ensures { MatchOption result
            ((self.old.lines ≡ []) × (self.new ≡ self.old))
            (λ line. (self.old.lines ≡ line.now ∷ self.new.lines)
            × (self.new.passed ≡ self.old.passed + 1)) }
    {
        if self.rest.is_empty() {
            return None;
        }
        let (line, rest) = cut_line(self.rest);
        self.rest = rest;
        self.passed += 1;
        Some(line)
    }

    /// The number of lines that were read.
    pub(crate) fn passed(&self) -> u64
        ensures passed { result ≡ self.now.passed }
        ensures small { result < 2 ^ 63 }
    {
        self.passed
    }
}

/// The first line of a text, and the bytes after it.
#[tactic(auto, using(crate::proofs::CutLemmas::lines_more, crate::proofs::CutLemmas::last_line))]
fn cut_line(text: &[u8]) -> (&[u8], &[u8])
    requires { 0 < length text.now }
    ensures lines { lines_of text.now ≡ result.0.now ∷ lines_of result.1.now }
    ensures shorter { length result.1.now < length text.now }
{
    let (line, rest) = cut(text, LINE_FEED);
    match rest {
        Some(rest) => (line, rest),
        None => (line, &[]),
    }
}
