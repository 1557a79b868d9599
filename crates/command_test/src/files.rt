//! The two files of the command.

ghost use Rattle.std.specs.Prelude.{◌≡◌, ◌≤◌, [], ◌∷◌, Err, IfErr, IfOk, OnOk};
ghost use Rattle.std.specs.List.{AllByRecursion};
ghost use Rattle.config_tests.specs.Events.{IsShort};
ghost use Rattle.command_io.specs.Fetches.{IsFetchFault, IsTextFault, fetch_reads};
ghost use Rattle.command_io.specs.Files.{ReadMore, good_read};
ghost use Rattle.command_test.specs.Given.{HasTests, HoldsConfig, IsReadConfig, ReadsAsTests, RefusesTests, RefusesTestsText};
ghost use Rattle.command_test.specs.Reading.{ReadsOnce};

use crate::ending::TestsEnding;
use command_io::sexp_config::read_config;
use command_io::{CONFIG_LIMIT, Ending, FetchFault, read_file};
use ev_types::{Blob, Text};
use ports::Store;
use std::alloc::Global;
use stream_tests::{TestFault, Tests, read_tests};

/// The text in the file of the name, which is a configuration.
pub(crate) fn fetch_config<S: Store>(
    alloc: Global,
    name: &Text,
    store: &mut S,
) -> Result<Blob, FetchFault>
    ensures config { IfOk result
        (HoldsConfig name.now (S.report store.old) (S.report store.new)) }
    ensures fault { IfErr result
        (IsFetchFault name.now (S.report store.old) (S.report store.new)) }
    ensures read { OnOk result (ReadMore (good_read name.now ∷ []) (S.report store.old).reads
        (S.report store.new).reads) }
    ensures reads { IfErr result (λ fault. ReadMore (fetch_reads name.now (Err fault))
        (S.report store.old).reads (S.report store.new).reads) }
    ensures quiet { OnOk result ((S.report store.new).faults ≡ (S.report store.old).faults) }
    ensures held { (S.report store.new).held ≡ (S.report store.old).held }
    ensures taken { (S.report store.old).taken ≤ (S.report store.new).taken }
{
    match read_file(alloc, name, CONFIG_LIMIT, store) {
        Ok(text) => config_text(alloc, text),
        Err(fault) => Err(FetchFault::File(fault)),
    }
}

/// The text, once it was read as a configuration.
fn config_text(alloc: Global, text: Blob) -> Result<Blob, FetchFault>
    ensures config { IfOk result (λ same. (same ≡ text) × IsReadConfig text) }
    ensures fault { IfErr result (IsTextFault text) }
{
    match check_config(alloc, text.as_slice()) {
        Ok(()) => Ok(text),
        Err(fault) => Err(fault),
    }
}

/// Reads the text as a configuration.
fn check_config(alloc: Global, text: &[u8]) -> Result<(), FetchFault>
    ensures config { OnOk result (IsReadConfig text.now) }
    ensures fault { IfErr result (IsTextFault text.now) }
{
    match read_config(alloc, text) {
        Ok(_read) => Ok(()),
        Err(fault) => Err(FetchFault::Config(fault)),
    }
}

/// The tests in the file of the name.
pub(crate) fn fetch_tests<'a, S: Store>(
    alloc: Global,
    name: &'a Text,
    store: &mut S,
) -> Result<Tests, TestsEnding<'a>>
    ensures tests { IfOk result (HasTests name.now (S.report store.old) (S.report store.new)) }
    ensures short { IfOk result (AllByRecursion IsShort) }
    ensures refused { IfErr result
        (RefusesTests name.now (S.report store.old) (S.report store.new)) }
    ensures read { OnOk result (ReadMore (good_read name.now ∷ []) (S.report store.old).reads
        (S.report store.new).reads) }
    ensures reads { IfErr result (ReadsOnce [] name.now (S.report store.old).reads
        (S.report store.new).reads) }
    ensures quiet { OnOk result ((S.report store.new).faults ≡ (S.report store.old).faults) }
{
    match read_file(alloc, name, CONFIG_LIMIT, store) {
        Ok(text) => read_text(alloc, text.as_slice()),
        Err(fault) => Err(TestsEnding::Shared(fault.ending(name.as_str(), CONFIG_LIMIT))),
    }
}

/// Reads the text as tests.
fn read_text<'a>(alloc: Global, text: &[u8]) -> Result<Tests, TestsEnding<'a>>
    ensures tests { IfOk result (ReadsAsTests text.now) }
    ensures short { IfOk result (AllByRecursion IsShort) }
    ensures refused { IfErr result (RefusesTestsText text.now) }
{
    match read_tests(alloc, text) {
        Ok(tests) => Ok(tests),
        Err(TestFault::Refused { place, why }) => Err(TestsEnding::TestsRefused { place, why }),
        Err(TestFault::Memory) => Err(TestsEnding::Shared(Ending::OutOfMemory)),
    }
}
