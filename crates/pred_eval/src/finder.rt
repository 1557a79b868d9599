ghost use Rattle.std.specs.Prelude.{◌≡◌, ℕ, List, if◌then◌else◌, IfOk, IfSome};
ghost use Rattle.pred_eval.specs.Search.{finds, IsReadFrom, HasMatchesOf};

use crate::patterns::PROGRAM_BYTES;
use ev_types::Memory;
use regex::Regex;
use regex_compile::{Error, compile};
use regex_extract::is_anchored_start;
use regex_nfa::Nfa;
use regex_syntax::{Config, ErrorKind, parse};
use regex_vm::Backtracker;
use std::alloc::Global;
use std::marker::Model;

// The product of the states and of the bytes of a text that is searched by them is at most this.
const MOST_PAIRS: usize = 16_384;

/// What finds a regular expression, as which contracts see it. The crate `regex` searches with a matcher, which is made
/// for each search and has 22 KB that are cleared first. So a short text is searched by the states of the expression.
pub struct Finder {
    regex: Regex,
    states: Option<States>,
}

impl Drop for Finder {
    fn drop(self) {
        let Finder {
            regex: _regex,
            states: _states,
        } = self;
    }
}

// The states of a regular expression. If `at_start` is set, each match begins where the text does.
#[derive(Drop)]
struct States {
    nfa: Nfa,
    at_start: bool,
}

impl Model for Finder {
    ghost use Rattle.std.specs.Prelude.{IfSome};
    ghost use Rattle.pred_eval.specs.Search.{HasMatchesOf};
    ghost use Rattle.regex.specs.Strings.{regex_source};
    ghost use Rattle.regex.specs.declared.string.regex.Regex.{Regex};
    ghost use Rattle.regex.specs.contracts.string.regex.Regex as regex_contract;

    ghost Value = { Regex };

    ghost coded = { regex_contract.the_row.coded };

    ghost view = { λ finder. finder.regex };

    ghost invariant = { λ finder. IfSome finder.states (HasMatchesOf (regex_source finder.regex)) };
}

impl Finder {
    /// What finds the regular expression.
    pub fn new(alloc: Global, regex: Regex) -> Result<Finder, Memory>
        ensures { IfOk result (λ finder. finder ≡ regex) }
    {
        let states = states_of(alloc, regex.as_str())?;
        Ok(Finder { regex, states })
    }

    /// Whether the regular expression is found in the text.
    pub fn is_found(&self, alloc: Global, text: &str) -> Result<bool, Memory>
        ensures { IfOk result (λ found. (pattern : List ℕ) → IsReadFrom pattern self.now →
            found ≡ finds pattern text.now) }
    {
        if let Some(states) = &self.states
            && let Some(found) = found_by_states(alloc, states, text)
        {
            return Ok(found);
        }
        found_by_matcher(alloc, &self.regex, text)
    }
}

// The states of the regular expression with this text. There are none where they take too much room.
fn states_of(alloc: Global, pattern: &str) -> Result<Option<States>, Memory>
    ensures { IfOk result (λ states. IfSome states (HasMatchesOf pattern.now)) }
{
    let parsed = match parse(alloc, pattern, &Config::default()) {
        Ok(parsed) => parsed,
        Err(error) if error.kind == ErrorKind::OutOfMemory => return Err(Memory),
        Err(_) => return Ok(None),
    };
    let Ok(groups) = u32::try_from(parsed.names.len()) else {
        return Ok(None);
    };
    match compile(alloc, &parsed.hir, groups, PROGRAM_BYTES) {
        Ok(nfa) => {
            let at_start = is_anchored_start(&parsed.hir);
            Ok(Some(States { nfa, at_start }))
        }
        Err(Error::OutOfMemory) => Err(Memory),
        Err(Error::TooBig | Error::Malformed) => Ok(None),
    }
}

// Whether the states have a match in the text. There is no answer where the text is too long for them, or memory runs
// out, or the match that is found begins inside a character.
fn found_by_states(alloc: Global, states: &States, text: &str) -> Option<bool>
    ensures { IfSome result (λ found. (pattern : List ℕ) → HasMatchesOf pattern states.now →
        found ≡ finds pattern text.now) }
{
    let end = text.len();
    if end.saturating_mul(states.nfa.states.len()) > MOST_PAIRS {
        return None;
    }
    let last = last_start(states, end);
    match Backtracker::new(alloc).find(&states.nfa, text.as_bytes(), 0, last, end, &mut []) {
        Ok(None) => Some(false),
        Ok(Some((start, _))) if text.is_char_boundary(start) => Some(true),
        _ => None,
    }
}

// The last place in a text with this end at which a match may begin.
fn last_start(states: &States, end: usize) -> usize
    ensures { result ≡ (if states.now.at_start then 0 else end) }
{
    if states.at_start { 0 } else { end }
}

fn found_by_matcher(alloc: Global, regex: &Regex, text: &str) -> Result<bool, Memory>
    ensures { IfOk result (λ found. (pattern : List ℕ) → IsReadFrom pattern regex.now →
        found ≡ finds pattern text.now) }
{
    let mut matcher = regex.matcher(alloc)?;
    Ok(matcher.is_match(text))
}
