//! Reading a text as a query.

ghost use Rattle.std.specs.Prelude.{◌≢◌, ◌≤◌, length, Result, Ok, Err, IfOk, IfErr};
ghost use Rattle.pred_eval.specs.Tree.{Tree, tree_of};
ghost use Rattle.query_lang.specs.Parsing.{state_of};
ghost use Rattle.query_lang.specs.Queries.{IsAnswer, Agrees};
ghost use Rattle.query_lang.specs.Reading.{taken, Takes, Parses};
ghost use Rattle.query_lang.specs.Tokens.{token_at};
ghost use Rattle.query_lang.specs.declared.parser.TheConstants.{MAX_OPENINGS};
ghost use Rattle.query_lang.specs.declared.fault.QueryFault.{QueryFault};

use crate::fault::QueryFault;
use crate::parser::Parser;
use crate::scan::{ScanFault, past_blanks, token_at};
use pred_eval::Rule;
use std::alloc::Global;

/// The most bytes of a query.
pub const MAX_BYTES: usize = 4096;

/// The rule that the text states as a query, or the first place at which it is not valid. A query has at most 4,096
/// bytes, and at most 64 tokens that are `(` or `not`.
pub fn read_query(alloc: Global, text: &[u8]) -> Result<Rule, QueryFault>
    ensures query { IfOk result (λ rule. IsAnswer text.now (Ok (tree_of rule))) }
    ensures fault { IfErr result (λ fault. fault ≢ QueryFault.Memory →
        IsAnswer text.now (Err fault)) }
    ensures only { (answer : Result Tree QueryFault) → IsAnswer text.now answer →
        Agrees result answer }
{
    if text.len() > MAX_BYTES {
        return Err(QueryFault::TooLong { length: text.len() });
    }
    read_short(alloc, text)
}

/// The same of a text that is not too long.
fn read_short(alloc: Global, text: &[u8]) -> Result<Rule, QueryFault>
    ensures { Parses text.now result }
{
    let mut parser = Parser::fresh(alloc);
    let mut rest = past_blanks(text);
    'tokens: while !rest.is_empty() {
        let place = text.len() - rest.len();
        rest = take_next(alloc, rest, place, &mut parser)?;
    }
    parser.finish(alloc, text.len())
}

/// Gives the first token to the parser, and returns the bytes from the next one on.
fn take_next<'a>(
    alloc: Global,
    rest: &'a [u8],
    place: usize,
    parser: &mut Parser,
) -> Result<&'a [u8], QueryFault>
    requires few { parser.old.openings ≤ MAX_OPENINGS }
    requires nots { parser.old.group.nots ≤ parser.old.openings }
    ensures { Takes result (state_of parser.new)
        (taken place (state_of parser.old) (token_at rest.now)) }
{
    match token_at(alloc, rest) {
        Ok((token, after)) => {
            parser.take(alloc, token, place)?;
            Ok(past_blanks(after))
        }
        Err(ScanFault::Unreadable) => Err(QueryFault::Refused { place }),
        Err(ScanFault::Memory) => Err(QueryFault::Memory),
    }
}
