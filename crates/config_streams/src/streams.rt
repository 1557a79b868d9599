//! Streams, and the streams below them.

ghost use Rattle.std.specs.Prelude.{◌≡◌, ◌||◌, false, Some, OnOk, IfErr, Ok};
ghost use Rattle.stream_plan.specs.Tree.{kind_tree, stream_tree};
ghost use Rattle.stream_plan.specs.Kinds.{may_have_children as may_have_children_of};
ghost use Rattle.sexp_read.specs.Tree.{form_tree, form_trees};
ghost use Rattle.config_terms.specs.Steps.{GivesAs};
ghost use Rattle.config_terms.specs.Words.{stream_word as stream_word_of};
ghost use Rattle.config_terms.specs.Arguments.{bound_value};
ghost use Rattle.config_streams.specs.Streams.{nothing, nowhere, stream_of as stream_made, with_part, all_read, is_where_in, is_by_in, with_one, symbol_by, followed as followed_by, worded, rest_of, part_at as part_from, parts_in as readings_of};
ghost use Rattle.config_streams.specs.Made.{located_in, below_in, part_in, source_tree};

use crate::given::Given;
use crate::kinds::kind_of;
use crate::source::{Source, Sources};
use config_terms::{
    Binding, Bound, ConfigFault, ConfigWhy, StreamWord, View, at_most, first, is, later,
    next_start, refused, stream_word, value_of, view_of,
};
use ev_types::{Memory, Text};
use sexp_read::Form;
use std::alloc::Global;
use stream_plan::{Kind, Stream, Streams};

/// Streams, and the places of their forms.
#[derive(Drop)]
pub struct Located {
    pub streams: Streams,
    pub places: Sources,
}

/// The streams of a stream.
#[derive(Drop)]
pub struct Below {
    pub children: Located,
    /// Those that get the rest.
    pub otherwise: Located,
}

/// What a form is in the place of a stream.
#[derive(Drop)]
pub(crate) enum Part {
    /// A stream with its place.
    One(Stream, Source),
    /// The streams that get the rest.
    Rest(Located),
}

/// Where the form of a stream is.
#[derive(Clone, Copy)]
struct Position {
    /// An `else` may be there.
    may_else: bool,
    /// It is below a `by`.
    in_fork: bool,
}

impl Position {
    /// Where the forms of the streams are that follow a stream of the word.
    fn below(self, word: StreamWord) -> Position
        ensures may_else { result.may_else ≡ is_where_in (Some word) }
        ensures in_fork { result.in_fork ≡ (is_by_in (Some word) || self.in_fork) }
    {
        Position {
            may_else: matches!(word, StreamWord::Where),
            in_fork: matches!(word, StreamWord::By) || self.in_fork,
        }
    }
}

impl Located {
    fn fresh(alloc: Global) -> Located
        ensures { located_in result ≡ nowhere }
    {
        Located {
            streams: Vec::new(alloc),
            places: Vec::new(alloc),
        }
    }

    #[tactic(auto, using(crate::proofs::StreamLaws::stream_pushed, crate::proofs::StreamLaws::source_pushed))]
    fn push(&mut self, stream: Stream, source: Source) -> Result<(), ConfigFault>
        ensures ok { OnOk result (located_in self.new
            ≡ with_one (located_in self.old) (stream_tree stream) (source_tree source)) }
        ensures err { IfErr result (λ fault. fault ≡ ConfigFault.Memory) }
    {
        self.streams.push(stream)?;
        self.places.push(source)?;
        Ok(())
    }
}

impl Below {
    /// No streams.
    pub fn fresh(alloc: Global) -> Below
        ensures { below_in result ≡ nothing }
    {
        Below {
            children: Located::fresh(alloc),
            otherwise: Located::fresh(alloc),
        }
    }
}

/// The streams with one more part; the next form after it starts at `next`.
fn put(mut below: Below, part: Part, next: Option<usize>) -> Result<Below, ConfigFault>
    ensures { GivesAs below_in result (with_part (below_in below) (part_in part) next) }
{
    match part {
        Part::One(stream, source) => {
            below.children.push(stream, source)?;
            Ok(below)
        }
        Part::Rest(located) => match next {
            Some(place) => Err(refused(place, ConfigWhy::Arguments)),
            None => Ok(Below {
                children: below.children,
                otherwise: located,
            }),
        },
    }
}

fn stream_of(kind: Kind, start: usize, below: Below) -> Part
    ensures { part_in result ≡ stream_made (kind_tree kind) start (below_in below) }
{
    let children = below.children;
    let otherwise = below.otherwise;
    let stream = Stream {
        kind,
        children: children.streams,
        otherwise: otherwise.streams,
    };
    let source = Source {
        place: start,
        children: children.places,
        otherwise: otherwise.places,
    };
    Part::One(stream, source)
}

fn may_have_children(kind: &Kind) -> bool
    ensures { result ≡ may_have_children_of (kind_tree kind.now) }
{
    !matches!(kind, Kind::Index | Kind::Notice(_))
}

/// The stream that a symbol is.
fn symbol_part(
    alloc: Global,
    env: &[Binding],
    name: &Text,
    start: usize,
) -> Result<Part, ConfigFault>
    ensures { GivesAs part_in result (symbol_by (bound_value name.now env.now) name.now start) }
{
    match value_of(env, name) {
        Some(Bound::Index) => Ok(stream_of(Kind::Index, start, Below::fresh(alloc))),
        Some(_) => Err(refused(start, ConfigWhy::Form)),
        None if is(name.as_bytes(), b"index") => {
            Ok(stream_of(Kind::Index, start, Below::fresh(alloc)))
        }
        None => Err(refused(start, ConfigWhy::Name)),
    }
}

/// What the form is in the place of a stream.
#[cycle(parts)]
fn part_at(
    alloc: Global,
    env: &[Binding],
    form: &Form,
    position: Position,
) -> Result<Part, ConfigFault>
    ensures { GivesAs part_in result
        (part_from position.may_else position.in_fork env.now (form_tree form.now)) }
{
    match view_of(form) {
        View::Symbol(name) => symbol_part(alloc, env, name, form.start),
        View::Call(name, forms) => call_part(alloc, env, name, position, form.start, forms),
        View::Lookup(_, _) => Err(refused(form.start, ConfigWhy::Form)),
        View::Other => Err(refused(form.start, ConfigWhy::Form)),
    }
}

/// What a list gives. The first form of the list is the symbol `name`, and `forms` are the rest.
#[cycle(parts)]
#[tactic(auto, unfolding(crate::specs::Streams::worded))]
fn call_part(
    alloc: Global,
    env: &[Binding],
    name: &Text,
    position: Position,
    start: usize,
    forms: &[Form],
) -> Result<Part, ConfigFault>
    ensures { GivesAs part_in result (worded position.may_else position.in_fork env.now name.now
        (stream_word_of name.now) start (form_trees forms.now)
        (readings_of (is_where_in (stream_word_of name.now))
        (is_by_in (stream_word_of name.now) || position.in_fork) env.now (form_trees forms.now))) }
{
    let Some(word) = stream_word(name) else {
        if position.may_else && is(name.as_bytes(), b"else") {
            return rest_part(alloc, env, position.in_fork, forms);
        }
        return Err(refused(start, ConfigWhy::Form));
    };
    let given = Given { env, start, forms };
    let (kind, own) = kind_of(alloc, word, position.in_fork, given)?;
    followed(alloc, env, kind, position.below(word), start, own, forms)
}

/// The streams that get the rest, of these forms.
#[cycle(parts)]
fn rest_part(
    alloc: Global,
    env: &[Binding],
    in_fork: bool,
    forms: &[Form],
) -> Result<Part, ConfigFault>
    ensures { GivesAs part_in result
        (rest_of (readings_of false in_fork env.now (form_trees forms.now))) }
{
    let position = Position {
        may_else: false,
        in_fork,
    };
    let below = parts_onto(alloc, env, forms, position, Below::fresh(alloc))?;
    Ok(Part::Rest(below.children))
}

/// The stream of the kind, with the streams after its own arguments, whose forms are at `position`.
#[cycle(parts)]
#[tactic(auto, using(crate::proofs::StreamLaws::parts_later))]
fn followed(
    alloc: Global,
    env: &[Binding],
    kind: Kind,
    position: Position,
    start: usize,
    own: usize,
    forms: &[Form],
) -> Result<Part, ConfigFault>
    ensures { GivesAs part_in result (followed_by (kind_tree kind) start own (form_trees forms.now)
        (readings_of position.may_else position.in_fork env.now (form_trees forms.now))) }
{
    if !may_have_children(&kind) {
        at_most(own, forms)?;
        return Ok(stream_of(kind, start, Below::fresh(alloc)));
    }
    let below = parts_onto(alloc, env, later(forms, own), position, Below::fresh(alloc))?;
    Ok(stream_of(kind, start, below))
}

/// The streams that there were, and those that the forms at the top give.
pub fn tops_onto(
    alloc: Global,
    env: &[Binding],
    forms: &[Form],
    before: Below,
) -> Result<Below, ConfigFault>
    ensures { GivesAs below_in result (all_read (below_in before)
        (readings_of false false env.now (form_trees forms.now))) }
{
    let top = Position {
        may_else: false,
        in_fork: false,
    };
    parts_onto(alloc, env, forms, top, before)
}

/// The streams that there were, and those that the forms give.
#[cycle(parts)]
#[tactic(auto, unfolding(crate::specs::Streams::part_at, crate::specs::Streams::all_read))]
fn parts_onto(
    alloc: Global,
    env: &[Binding],
    forms: &[Form],
    position: Position,
    before: Below,
) -> Result<Below, ConfigFault>
    ensures { GivesAs below_in result (all_read (below_in before)
        (readings_of position.may_else position.in_fork env.now (form_trees forms.now))) }
{
    let mut below = before;
    let mut left = forms;
    'parts: while let Some((form, rest)) = first(left) {
        let part = part_at(alloc, env, form, position)?;
        below = put(below, part, next_start(rest))?;
        left = rest;
    }
    Ok(below)
}
