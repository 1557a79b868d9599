//! The forms after the word of a stream, as its arguments.

ghost use Rattle.std.specs.Prelude.{◌≡◌, [], Ok};
ghost use Rattle.pred_eval.specs.Tree.{tree_of};
ghost use Rattle.sexp_read.specs.Tree.{form_tree};
ghost use Rattle.config_terms.specs.Steps.{Gives, GivesAs};
ghost use Rattle.config_terms.specs.Arguments.{some_of};
ghost use Rattle.config_terms.specs.Code.{argument_in};
ghost use Rattle.config_streams.specs.Sorts as sort;
ghost use Rattle.config_streams.specs.Sorts.{fold_at as fold_from, fold_named as fold_named_by};
ghost use Rattle.config_streams.specs.Table.{AMap, ANumber, is_map, is_number as is_number_of};
ghost use Rattle.config_streams.specs.Given.{value_in, ahead_in};

use config_terms::{
    Argument, Binding, ConfigFault, ConfigWhy, argument, argument_of, field_at, fields_at,
    fold_word, idle_from, init_from, map_at, nth, number_at, ranged_at, refused, rule_at, set_at,
    sets_from, text_at, texts_at, unfit,
};
use ev_types::{Field, Fields, Fold, Set, Sets, Text, Texts, Value};
use pred_eval::Rule;
use sexp_read::{Form, Shape};
use std::alloc::Global;
use stream_plan::{MAX_COUNT, MAX_SECS};

/// The forms after a word, in a list that starts at `start`. Each of the functions below reads argument `n`, from 0, as
/// what it is named for. It refuses an argument that is missing or is something else.
#[derive(Clone, Copy)]
pub(crate) struct Given<'a> {
    pub(crate) env: &'a [Binding],
    pub(crate) start: usize,
    pub(crate) forms: &'a [Form],
}

#[tactic(auto, using(config_terms::proofs::FormLaws::start_of_form), unfolding(crate::specs::Table::read_argument, crate::specs::Sorts::map_as, crate::specs::Sorts::some_texts_at))]
impl Given<'_> {
    pub(crate) fn count(self, n: usize) -> Result<u32, ConfigFault>
        ensures { Gives result (value_in self.entry n sort.Count) }
    {
        ranged_at(self.env, argument(self.start, n, self.forms)?, 1, MAX_COUNT)
    }

    pub(crate) fn secs(self, n: usize) -> Result<u32, ConfigFault>
        ensures { Gives result (value_in self.entry n sort.Secs) }
    {
        ranged_at(self.env, argument(self.start, n, self.forms)?, 1, MAX_SECS)
    }

    pub(crate) fn number(self, n: usize) -> Result<i64, ConfigFault>
        ensures { Gives result (value_in self.entry n sort.Number) }
    {
        number_at(self.env, argument(self.start, n, self.forms)?)
    }

    pub(crate) fn text(self, alloc: Global, n: usize) -> Result<Text, ConfigFault>
        ensures { Gives result (value_in self.entry n sort.Text) }
    {
        text_at(alloc, self.env, argument(self.start, n, self.forms)?)
    }

    pub(crate) fn texts(self, alloc: Global, n: usize) -> Result<Texts, ConfigFault>
        ensures { Gives result (value_in self.entry n sort.Texts) }
    {
        texts_at(alloc, self.env, argument(self.start, n, self.forms)?)
    }

    pub(crate) fn some_texts(self, alloc: Global, n: usize) -> Result<Texts, ConfigFault>
        ensures { Gives result (value_in self.entry n sort.SomeTexts) }
    {
        let form = argument(self.start, n, self.forms)?;
        some_texts(form.start, texts_at(alloc, self.env, form)?)
    }

    pub(crate) fn field(self, alloc: Global, n: usize) -> Result<Field, ConfigFault>
        ensures { Gives result (value_in self.entry n sort.OneField) }
    {
        field_at(alloc, self.env, argument(self.start, n, self.forms)?)
    }

    pub(crate) fn fields(self, alloc: Global, n: usize) -> Result<Fields, ConfigFault>
        ensures { Gives result (value_in self.entry n sort.Fields) }
    {
        fields_at(alloc, self.env, argument(self.start, n, self.forms)?)
    }

    pub(crate) fn rule(self, alloc: Global, n: usize) -> Result<Rule, ConfigFault>
        ensures { GivesAs tree_of result (value_in self.entry n sort.Rule) }
    {
        rule_at(alloc, self.env, argument(self.start, n, self.forms)?)
    }

    pub(crate) fn set(self, alloc: Global, field: Field, n: usize) -> Result<Set, ConfigFault>
        ensures { Gives result (value_in self.entry n (sort.SetTo field)) }
    {
        set_at(alloc, self.env, field, argument(self.start, n, self.forms)?)
    }

    pub(crate) fn sets(self, alloc: Global, n: usize) -> Result<Sets, ConfigFault>
        ensures { Gives result (value_in self.entry n sort.Sets) }
    {
        let form = argument(self.start, n, self.forms)?;
        sets_from(alloc, form.start, self.env, map_at(self.env, form)?)
    }

    pub(crate) fn init(self, alloc: Global, n: usize) -> Result<Value, ConfigFault>
        ensures { Gives result (value_in self.entry n sort.Init) }
    {
        let form = argument(self.start, n, self.forms)?;
        init_from(alloc, form.start, self.env, map_at(self.env, form)?)
    }

    pub(crate) fn idle(self, most: u32, n: usize) -> Result<u32, ConfigFault>
        ensures { Gives result (value_in self.entry n (sort.Idle most)) }
    {
        let form = argument(self.start, n, self.forms)?;
        idle_from(form.start, self.env, map_at(self.env, form)?, most)
    }

    pub(crate) fn fold(self, n: usize) -> Result<Fold, ConfigFault>
        ensures { Gives result (value_in self.entry n sort.FoldWord) }
    {
        fold_at(self.env, argument(self.start, n, self.forms)?)
    }

    /// Whether the argument is there and is a map.
    pub(crate) fn is_map_at(self, n: usize) -> bool
        ensures { result ≡ ahead_in self.entry n AMap }
    {
        match nth(self.forms, n) {
            Some(form) => is_map(form),
            None => false,
        }
    }

    /// Whether the argument is there and is a number.
    pub(crate) fn is_number_at(self, n: usize) -> bool
        ensures { result ≡ ahead_in self.entry n ANumber }
    {
        match nth(self.forms, n) {
            Some(form) => is_number(argument_of(self.env, form)),
            None => false,
        }
    }
}

#[tactic(auto, using(config_terms::proofs::FormLaws::map_tree))]
fn is_map(form: &Form) -> bool
    ensures { result ≡ is_map (form_tree form.now) }
{
    matches!(form.shape, Shape::Map(_))
}

fn is_number(argument: Argument<'_>) -> bool
    ensures { result ≡ is_number_of (argument_in argument.entry) }
{
    matches!(argument, Argument::Number(_))
}

fn some_texts(place: usize, texts: Texts) -> Result<Texts, ConfigFault>
    ensures { Gives result (some_of place texts) }
{
    if texts.len() == 0 {
        return Err(refused(place, ConfigWhy::Arguments));
    }
    Ok(texts)
}

/// The fold that the form names.
#[tactic(auto, unfolding(crate::specs::Sorts::fold_at))]
fn fold_at(env: &[Binding], form: &Form) -> Result<Fold, ConfigFault>
    ensures { Gives result (fold_from env.now (form_tree form.now)) }
{
    match fold_named(form) {
        Some(fold) => Ok(fold),
        None => Err(unfit(form, argument_of(env, form))),
    }
}

#[tactic(auto, using(config_terms::proofs::FormLaws::list_tree, config_terms::proofs::FormLaws::vector_tree, config_terms::proofs::FormLaws::map_tree))]
fn fold_named(form: &Form) -> Option<Fold>
    ensures { result ≡ fold_named_by (form_tree form.now) }
{
    match &form.shape {
        Shape::Symbol(name) => fold_word(name),
        _ => None,
    }
}
