//! Whole tests.

ghost use Rattle.std.specs.Prelude.{[], Ok};
ghost use Rattle.sexp_read.specs.Tree.{form_tree, form_trees};
ghost use Rattle.config_terms.specs.Steps.{Gives, each, onto};
ghost use Rattle.config_tests.specs.Tests.{test_in as test_of_forms, test_by, test_at as test_from};

use crate::draft::entries_in;
use crate::entry::{Test, Tests};
use config_terms::{
    ConfigFault, ConfigWhy, View, argument, first, is, later, refused, text_at, view_of,
};
use ev_types::Text;
use sexp_read::Form;
use std::alloc::Global;

/// The test of what follows `test`, in a list that starts at `start`.
#[tactic(auto, unfolding(crate::specs::Tests::test_in))]
fn test_in(alloc: Global, start: usize, forms: &[Form]) -> Result<Test, ConfigFault>
    ensures { Gives result (test_of_forms start (form_trees forms.now)) }
{
    let name = text_at(alloc, &[], argument(start, 0, forms)?)?;
    let draft = entries_in(alloc, later(forms, 1))?;
    Ok(draft.into_test(name))
}

fn test_call(alloc: Global, name: &Text, start: usize, forms: &[Form]) -> Result<Test, ConfigFault>
    ensures { Gives result (test_by name.now start (form_trees forms.now)) }
{
    if !is(name.as_bytes(), b"test") {
        return Err(refused(start, ConfigWhy::Form));
    }
    test_in(alloc, start, forms)
}

/// The test that the form is.
#[tactic(auto, using(config_terms::proofs::FormLaws::start_of_form))]
fn test_at(alloc: Global, form: &Form) -> Result<Test, ConfigFault>
    ensures { Gives result (test_from (form_tree form.now)) }
{
    match view_of(form) {
        View::Call(name, forms) => test_call(alloc, name, form.start, forms),
        _ => Err(refused(form.start, ConfigWhy::Form)),
    }
}

/// The tests that the forms are.
#[tactic(auto, unfolding(config_terms::specs::Steps::each))]
pub(crate) fn tests_in(alloc: Global, forms: &[Form]) -> Result<Tests, ConfigFault>
    ensures { Gives result (each (onto test_from) [] (form_trees forms.now)) }
{
    let mut tests = Tests::fresh(alloc);
    let mut left = forms;
    'tests: while let Some((form, rest)) = first(left) {
        let test = test_at(alloc, form)?;
        tests.push(alloc, test)?;
        left = rest;
    }
    Ok(tests)
}
