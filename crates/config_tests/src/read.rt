//! Reading tests.

ghost use Rattle.std.specs.Prelude.{◌≡◌, ℕ, List, IfOk, IfErr};
ghost use Rattle.std.specs.List.{AllByRecursion};
ghost use Rattle.sexp_read.specs.Tree.{form_trees};
ghost use Rattle.config_tests.specs.declared.entry.Test.{Test as ReadTest};
ghost use Rattle.config_tests.specs.Events.{IsShort};
ghost use Rattle.config_tests.specs.Tests.{AreTestsOf, AreReadAs, IsTestsFault, IsRefusedFor, IsRefusedAs, TestsGive, tests_of, without_names, fault_by, fault_in, why_of as why_of_forms};

use crate::entry::Tests;
use crate::fault::TestFault;
use crate::suite::tests_in;
use config_terms::{ConfigFault, ConfigWhy};
use sexp_read::{Form, SexpFault, SexpWhy, read_forms};
use std::alloc::Global;

/// The tests that the text is. It reads the text once, from its start on.
///
/// A text is refused for the first of these that it has:
/// - what [`read_forms`] refuses texts for, at its place;
/// - in reading order, in each list the head first and then its arguments: a list that is not of a word of its place,
///   or a form that is not a list where one has to be, at its start (Form); an argument that does not fit, at that
///   argument, or one that is missing, at the bracket of the form that lacks it (Arguments); a number outside its
///   range, or the number of a tick with which more than [`MAX_SECONDS`](crate::MAX_SECONDS) seconds pass in a test, at
///   the number (Range); a key or field that its map has already, at the key, or a name under which the test expects
///   something already, at the bracket of its `expect` (Twice).
///
/// `Memory`: out of memory.
pub fn read_tests(alloc: Global, text: &[u8]) -> Result<Tests, TestFault>
    ensures tests { IfOk result (λ tests. AreTestsOf text.now tests) }
    ensures short { IfOk result (λ tests. AllByRecursion IsShort tests) }
    ensures only { (tests : List ReadTest) → AreTestsOf text.now tests → AreReadAs tests result }
    ensures refused { IfErr result (λ fault. IsRefusedFor text.now fault) }
    ensures only_refused { (place : ℕ) (why : ConfigWhy) → IsTestsFault text.now place why →
        IsRefusedAs place why result }
{
    match read_forms(alloc, text) {
        Ok(forms) => tests_of(alloc, forms.as_slice()),
        Err(fault) => Err(forms_fault(fault)),
    }
}

/// The tests that the forms are.
#[tactic(auto, unfolding(crate::specs::Tests::tests_of))]
fn tests_of(alloc: Global, forms: &[Form]) -> Result<Tests, TestFault>
    ensures { TestsGive result (tests_of (form_trees forms.now)) }
{
    match tests_in(alloc, forms) {
        Ok(tests) => Ok(tests),
        Err(fault) => Err(tests_fault(fault)),
    }
}

/// The refusal of forms that are not tests.
fn tests_fault(fault: ConfigFault) -> TestFault
    ensures { result ≡ fault_by fault }
{
    match fault {
        ConfigFault::Refused { place, why } => TestFault::Refused {
            place,
            why: without_names(why),
        },
        ConfigFault::Memory => TestFault::Memory,
    }
}

fn without_names(why: ConfigWhy) -> ConfigWhy
    ensures { result ≡ without_names why }
{
    match why {
        ConfigWhy::Name => ConfigWhy::Arguments,
        other => other,
    }
}

/// The refusal of a text that is not forms.
fn forms_fault(fault: SexpFault) -> TestFault
    ensures { result ≡ fault_in fault }
{
    match fault {
        SexpFault::Refused { place, why } => TestFault::Refused {
            place,
            why: why_of(why),
        },
        SexpFault::Memory => TestFault::Memory,
    }
}

fn why_of(why: SexpWhy) -> ConfigWhy
    ensures { result ≡ why_of_forms why }
{
    match why {
        SexpWhy::Long => ConfigWhy::Long,
        SexpWhy::Utf8 => ConfigWhy::Utf8,
        SexpWhy::Open => ConfigWhy::Open,
        SexpWhy::Close => ConfigWhy::Close,
        SexpWhy::Token => ConfigWhy::Token,
        SexpWhy::Number => ConfigWhy::Number,
        SexpWhy::Escape => ConfigWhy::Escape,
        SexpWhy::Deep => ConfigWhy::Deep,
    }
}
