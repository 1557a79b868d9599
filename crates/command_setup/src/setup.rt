ghost use Rattle.std.specs.Prelude.{◌≡◌, ◌≤◌, [], ◌∷◌, length, IfErr, IfOk, OnOk};
ghost use Rattle.ev_types.specs.Interval.{IsInterval};
ghost use Rattle.stream_plan.specs.Ready.{plan_patterns};
ghost use Rattle.command_io.specs.Endings.{HasNoConfig, IsReadOnce, ReadsFiles};
ghost use Rattle.command_io.specs.Files.{ReadMore, good_read};
ghost use Rattle.command_io.specs.Accepting.{RefusesSetup};
ghost use Rattle.command_setup.specs.Setups.{MakesSetup, RefusesText, SetsUp, SetsUpText, address_text};

use command_io::sexp_config::{Config, read_config};
use command_io::{
    CONFIG_LIMIT, ConfigRefusal, Ending, build_ready, ending_of_config, fetch_config,
};
use ev_types::{Memory, Text};
use hub_run::Setup;
use ports::Store;
use pred_eval::{BuildFault, Patterns};
use std::alloc::Global;

/// Reads the configuration in the file of the name, builds its patterns, and gives what a server is run with. An error
/// is how the command ends.
pub fn fetch_setup<'a, S: Store, P: Patterns>(
    alloc: Global,
    name: &'a Text,
    store: &mut S,
    patterns: &mut P,
) -> Result<Setup, Ending<'a>>
    ensures setup { IfOk result
        (SetsUp name.now (S.report store.old) (S.report store.new)) }
    ensures interval { IfOk result (λ setup. IsInterval setup.expiry) }
    ensures fault { IfErr result (RefusesSetup name.now (S.report store.old) (S.report store.new)
        (P.report patterns.old) (P.report patterns.new)) }
    ensures read { OnOk result (ReadMore (good_read name.now ∷ []) (S.report store.old).reads
        (S.report store.new).reads) }
    ensures reads { IfErr result (λ ending. ReadsFiles (name.now ∷ []) (IsReadOnce ending)
        (S.report store.old).reads (S.report store.new).reads ending) }
    ensures quiet { OnOk result ((S.report store.new).faults ≡ (S.report store.old).faults) }
    ensures same { OnOk result (P.report patterns.new ≡ P.report patterns.old) }
    ensures unasked { IfErr result (λ ending. HasNoConfig ending →
        patterns.new ≡ patterns.old) }
    ensures held { (S.report store.new).held ≡ (S.report store.old).held }
    ensures taken { (S.report store.old).taken ≤ (S.report store.new).taken }
{
    match fetch_config(alloc, name, store) {
        Ok(config) => setup_of(alloc, config, patterns),
        Err(fault) => Err(fault.ending(name.as_str())),
    }
}

/// Reads the text as a configuration, builds its patterns, and gives what a server is run with. An error is how the
/// command ends.
pub fn read_setup<'a, P: Patterns>(
    alloc: Global,
    text: &[u8],
    patterns: &mut P,
) -> Result<Setup, Ending<'a>>
    ensures setup { IfOk result (SetsUpText text.now) }
    ensures interval { IfOk result (λ setup. IsInterval setup.expiry) }
    ensures refused { IfErr result
        (RefusesText text.now (P.report patterns.old) (P.report patterns.new)) }
    ensures same { OnOk result (P.report patterns.new ≡ P.report patterns.old) }
    ensures unasked { IfErr result (λ ending. HasNoConfig ending →
        patterns.new ≡ patterns.old) }
{
    match read_config(alloc, text) {
        Ok(config) => setup_of(alloc, config, patterns),
        Err(fault) => Err(ending_of_config(fault)),
    }
}

/// Builds the patterns of the configuration, and gives what a server is run with.
fn setup_of<'a, P: Patterns>(
    alloc: Global,
    config: Config,
    patterns: &mut P,
) -> Result<Setup, Ending<'a>>
    requires few { length (plan_patterns config.plan) ≤ CONFIG_LIMIT }
    ensures makes { MakesSetup config (P.report patterns.old) (P.report patterns.new) result }
    ensures asked { IfErr result (λ ending. HasNoConfig ending → ⊥) }
{
    let Ok(address) = address_text(alloc, &config.host, config.port) else {
        return Err(Ending::OutOfMemory);
    };
    match build_ready(alloc, config.plan, patterns) {
        Ok(plan) => Ok(Setup {
            address,
            plan,
            expiry: config.expiry,
        }),
        Err(BuildFault::Pattern { number }) => {
            Err(Ending::ConfigRefused(ConfigRefusal::Pattern { number }))
        }
        Err(BuildFault::Memory) => Err(Ending::OutOfMemory),
    }
}

/// The text `HOST:PORT`.
fn address_text(alloc: Global, host: &Text, port: u16) -> Result<Text, Memory>
    ensures { IfOk result (λ text. text ≡ address_text host.now port) }
{
    let host = host.as_str();
    Ok(Text::from_string(format!(in alloc; "{host}:{port}")?))
}
