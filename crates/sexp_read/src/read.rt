//! Reading the forms of a text.

ghost use Rattle.std.specs.Prelude.{◌≡◌, ◌<◌, [], IfOk, OnOk, IfErr, Ok, None};
ghost use Rattle.std.specs.Str.{IsUtf8};
ghost use Rattle.sexp_read.specs.Tokens.{lexed};
ghost use Rattle.sexp_read.specs.Tree.{FormTrees, none, form_tree, form_trees};
ghost use Rattle.sexp_read.specs.Grammar.{IsForms, IsReadAs, AreRead, text_fault, forms_fault, unclosed};
ghost use Rattle.sexp_read.specs.Reading.{with_form, with_piece, opened, closed, brackets_of, reading_of};
ghost use Rattle.sexp_read.specs.Gives.{Fails, IsFault};

use crate::fault::{SexpFault, SexpWhy};
use crate::form::{Form, Forms};
use crate::lex::piece_at;
use crate::made::{atom_form, group_form};
use crate::piece::{Bracket, Piece};
use simdutf8::compat::from_utf8;
use std::alloc::Global;
use std::mem;

/// The most brackets that are open at once.
pub const DEEPEST: usize = 64;

/// The most bytes of a text.
pub const LONGEST: usize = 1_048_576;

/// The forms of the text, in order, each with its place. It reads the text once, from its start on.
///
/// A text is refused for the first of these that it has:
/// - Long: it has more than 1,048,576 bytes; the place is 1,048,576.
/// - Utf8: it is not UTF-8; the place is the length of its longest prefix that is.
/// - At the first place in the text: a closing bracket where no bracket is open, or the innermost open one is of
///   another kind (Close), a run that begins as a number and is not one (Number), another run that is neither a
///   keyword nor a symbol (Token), a backslash in a string before another byte than `"` `\\` `n` `r` `t` (Escape), or
///   the 65th bracket that is open at once (Deep).
/// - Open: at its end a string or pattern is unclosed, at its place, or a bracket, at that of the innermost.
///
/// `Memory`: out of memory.
pub fn read_forms(alloc: Global, text: &[u8]) -> Result<Forms, SexpFault>
    ensures forms { IfOk result (λ forms. IsForms text.now (form_trees forms.items)) }
    ensures only { (trees : FormTrees) → IsForms text.now trees → IsReadAs trees result }
    ensures faultless { IfOk result (λ forms. text_fault text.now ≡ None) }
    ensures refused { IfErr result (λ fault. IsFault fault (text_fault text.now)) }
{
    if text.len() > LONGEST {
        return Err(SexpFault::Refused {
            place: LONGEST,
            why: SexpWhy::Long,
        });
    }
    if let Err(error) = from_utf8(text) {
        return Err(SexpFault::Refused {
            place: error.valid_up_to(),
            why: SexpWhy::Utf8,
        });
    }
    read_pieces(alloc, text)
}

/// The forms of a text that is within the limit and UTF-8.
fn read_pieces(alloc: Global, text: &[u8]) -> Result<Forms, SexpFault>
    requires { IsUtf8 text.now }
    ensures forms { IfOk result (λ forms. AreRead (lexed text.now) (form_trees forms.items) ×
        (forms_fault text.now ≡ None)) }
    ensures refused { IfErr result (λ fault. IsFault fault (forms_fault text.now)) }
{
    let mut reader = Reader::fresh(alloc);
    let mut place = 0;
    'pieces: while place < text.len() {
        let (piece, end) = piece_at(alloc, text, place)?;
        reader.put(alloc, piece, place, end)?;
        place = end;
    }
    reader.finish()
}

/// A bracket that is open.
#[derive(Drop)]
pub(crate) struct Open {
    bracket: Bracket,
    place: usize,
    /// The forms before it, between the same brackets.
    before: Forms,
}

/// What was read of a text so far.
#[derive(Drop)]
pub(crate) struct Reader {
    /// The open brackets, the innermost last.
    open: Vec<Open>,
    /// The forms after the innermost of them.
    forms: Forms,
}

impl Reader {
    /// Nothing is read yet. It takes no memory.
    fn fresh(alloc: Global) -> Reader
        ensures { reading_of result ≡ record { stack = []; forms = none } }
    {
        Reader {
            open: Vec::new(alloc),
            forms: Vec::new(alloc),
        }
    }

    /// Reads one more piece, from `start` to just before `end`.
    fn put(
        &mut self,
        alloc: Global,
        piece: Piece,
        start: usize,
        end: usize,
    ) -> Result<(), SexpFault>
        requires { start < end }
        ensures ok { OnOk result (with_piece (reading_of self.old) start piece end
            ≡ Ok (reading_of self.new)) }
        ensures refused { IfErr result (λ fault.
            Fails fault (with_piece (reading_of self.old) start piece end)) }
    {
        match piece {
            Piece::Blank => {}
            Piece::Opening(bracket) => self.open(alloc, bracket, start)?,
            Piece::Closing(bracket) => self.close(bracket, end)?,
            Piece::Whole(atom) => self.put_form(atom_form(atom, start, end))?,
        }
        Ok(())
    }

    #[tactic(auto, using(crate::proofs::Forms::form_pushed))]
    fn put_form(&mut self, form: Form) -> Result<(), SexpFault>
        ensures ok { OnOk result (reading_of self.new
            ≡ record {
              stack = (reading_of self.old).stack;
              forms = with_form
                  (reading_of self.old).forms (form_tree form);
            }) }
        ensures err { IfErr result (λ fault. fault ≡ SexpFault.Memory) }
    {
        self.forms.push(form)?;
        Ok(())
    }

    fn open(&mut self, alloc: Global, bracket: Bracket, place: usize) -> Result<(), SexpFault>
        ensures ok { OnOk result (opened (reading_of self.old) bracket place
            ≡ Ok (reading_of self.new)) }
        ensures refused { IfErr result (λ fault.
            Fails fault (opened (reading_of self.old) bracket place)) }
    {
        if self.open.len() >= DEEPEST {
            return Err(SexpFault::Refused {
                place,
                why: SexpWhy::Deep,
            });
        }
        let before = mem::replace(&mut self.forms, Vec::new(alloc));
        self.open.push(Open {
            bracket,
            place,
            before,
        })?;
        Ok(())
    }

    fn close(&mut self, bracket: Bracket, end: usize) -> Result<(), SexpFault>
        requires { 0 < end }
        ensures ok { OnOk result (closed (reading_of self.old).stack
            (reading_of self.old).forms bracket end ≡ Ok (reading_of self.new)) }
        ensures refused { IfErr result (λ fault.
            Fails fault (closed (reading_of self.old).stack
            (reading_of self.old).forms bracket end)) }
    {
        let refused = SexpFault::Refused {
            place: end - 1,
            why: SexpWhy::Close,
        };
        let Some(open) = self.open.pop() else {
            return Err(refused);
        };
        if open.bracket != bracket {
            return Err(refused);
        }
        let forms = mem::replace(&mut self.forms, open.before);
        self.put_form(group_form(bracket, forms, open.place, end))?;
        Ok(())
    }

    /// The forms, where no bracket is open.
    fn finish(mut self) -> Result<Forms, SexpFault>
        ensures ok { IfOk result (λ forms. ((reading_of self).stack ≡ []) ×
            (form_trees forms.items ≡ (reading_of self).forms)) }
        ensures refused { IfErr result (λ fault.
            IsFault fault (unclosed (brackets_of (reading_of self).stack))) }
    {
        match self.open.pop() {
            None => Ok(self.forms),
            Some(open) => Err(SexpFault::Refused {
                place: open.place,
                why: SexpWhy::Open,
            }),
        }
    }
}
