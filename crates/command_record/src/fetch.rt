ghost use Rattle.std.specs.Prelude.{◌≡◌, ◌≤◌, [], ◌∷◌, length, IfErr, IfOk, OnOk};
ghost use Rattle.command_record.specs.Reading.{HasText};
ghost use Rattle.command_setup.specs.Setups.{RefusesText, SetsUpText};
ghost use Rattle.command_setup.specs.command_io.Accepting.{RefusesSetup};
ghost use Rattle.command_setup.specs.command_io.Endings.{HasNoConfig, IsReadOnce, ReadsFiles};
ghost use Rattle.command_setup.specs.command_io.Files.{ReadMore, good_read};
ghost use Rattle.ev_types.specs.Interval.{IsInterval};

use command_setup::command_io::{CONFIG_LIMIT, Ending, read_file};
use command_setup::hub_run::Setup;
use command_setup::read_setup;
use ev_types::{Blob, Text};
use ports::Store;
use pred_eval::Patterns;
use std::alloc::Global;

/// The text of the configuration in the file of the name, and what its server is run with. An error is how the command
/// ends.
pub(crate) fn fetch_text<'a, S: Store, P: Patterns>(
    alloc: Global,
    name: &'a Text,
    store: &mut S,
    patterns: &mut P,
) -> Result<(Blob, Setup), Ending<'a>>
    ensures text { IfOk result (λ fetched. HasText name.now (S.report store.old)
        (S.report store.new) fetched.0) }
    ensures within { IfOk result (λ fetched. length fetched.0 ≤ CONFIG_LIMIT) }
    ensures setup { IfOk result (λ fetched. SetsUpText fetched.0 fetched.1) }
    ensures interval { IfOk result (λ fetched. IsInterval fetched.1.expiry) }
    ensures fault { IfErr result (RefusesSetup name.now (S.report store.old) (S.report store.new)
        (P.report patterns.old) (P.report patterns.new)) }
    ensures read { OnOk result (ReadMore (good_read name.now ∷ []) (S.report store.old).reads
        (S.report store.new).reads) }
    ensures reads { IfErr result (λ ending. ReadsFiles (name.now ∷ []) (IsReadOnce ending)
        (S.report store.old).reads (S.report store.new).reads ending) }
    ensures quiet { OnOk result ((S.report store.new).faults ≡ (S.report store.old).faults) }
    ensures same { OnOk result (P.report patterns.new ≡ P.report patterns.old) }
    ensures unasked { IfErr result (λ ending. HasNoConfig ending →
        patterns.new ≡ patterns.old) }
    ensures held { (S.report store.new).held ≡ (S.report store.old).held }
{
    match read_file(alloc, name, CONFIG_LIMIT, store) {
        Ok(text) => with_setup(alloc, text, patterns),
        Err(fault) => Err(fault.ending(name.as_str(), CONFIG_LIMIT)),
    }
}

/// The text, and what the server of the configuration that it is is run with.
fn with_setup<'a, P: Patterns>(
    alloc: Global,
    text: Blob,
    patterns: &mut P,
) -> Result<(Blob, Setup), Ending<'a>>
    ensures text { IfOk result (λ fetched. fetched.0 ≡ text) }
    ensures setup { IfOk result (λ fetched. SetsUpText text fetched.1) }
    ensures interval { IfOk result (λ fetched. IsInterval fetched.1.expiry) }
    ensures refused { IfErr result
        (RefusesText text (P.report patterns.old) (P.report patterns.new)) }
    ensures same { OnOk result (P.report patterns.new ≡ P.report patterns.old) }
    ensures unasked { IfErr result (λ ending. HasNoConfig ending →
        patterns.new ≡ patterns.old) }
{
    match read_setup(alloc, text.as_slice(), patterns) {
        Ok(setup) => Ok((text, setup)),
        Err(ending) => Err(ending),
    }
}
