ghost use Rattle.std.specs.Prelude.{◌≡◌, ◌≢◌, ◌≤◌, ℕ, [], ◌∷◌, length};
ghost use Rattle.ports.specs.Counts.{Rose};
ghost use Rattle.stream_plan.specs.Ready.{plan_patterns};
ghost use Rattle.command_texts.specs.Building.{BuildsText, EndsCheck};
ghost use Rattle.command_texts.specs.Checks.{CheckCause, CheckWrites, Checks};
ghost use Rattle.command_io.specs.Endings.{HasNoConfig, HasNoLine, IsComplete, IsReadOnce, IsRefusalOrMemory, ReadsFiles, TookMore, status_of};
ghost use Rattle.ports.specs.Calls.{LinksReport};
ghost use Rattle.command_io.specs.Reports.{reports};

use command_io::sexp_config::{Config, write_config};
use command_io::{
    CONFIG_LIMIT, ConfigRefusal, Ending, Status, build_ready, fetch_config, put_all, report,
};
use ev_types::{Blob, Text};
use ports::{Sink, Store};
use pred_eval::{BuildFault, Patterns};
use std::alloc::Global;

/// Carries out `check CONFIG`: it reads the configuration, builds its patterns, and writes its canonical text to `out`.
///
/// The line of the ending goes to `err`. A write of it that fails cuts it, and does not change the status.
///
/// | Status | When | Line on `err` |
/// |---|---|---|
/// | `Done` | the text is written | no |
/// | `SinkFault` | the text could not be written; `out` got a prefix of it | no |
/// | `Config` | the configuration is not valid, or a pattern of it is refused | yes |
/// | `ReadFault` | the file could not be read | yes |
/// | `TooLong` | the file has over [`CONFIG_LIMIT`] bytes | yes |
/// | `Memory` | out of memory | yes |
///
/// After the last four `out` gets nothing.
pub fn check<S: Store, O: Sink, E: Sink, P: Patterns>(
    alloc: Global,
    config: &Text,
    store: &mut S,
    out: &mut O,
    err: &mut E,
    patterns: &mut P,
) -> Status
    ensures promise { (links : LinksReport) (forks : ℕ) →
        Checks config.now (reports (S.report store.old) links (O.report out.old) (E.report err.old)
        (P.report patterns.old) forks)
        (reports (S.report store.new) links (O.report out.new) (E.report err.new)
        (P.report patterns.new) forks) (patterns.new ≡ patterns.old) result }
    ensures read_fault { result ≡ Status.ReadFault →
        Rose (S.report store.old).faults (S.report store.new).faults }
    ensures sink_fault { result ≡ Status.SinkFault →
        Rose (O.report out.old).faults (O.report out.new).faults }
    ensures links_work { result ≢ Status.LinkFault }
    ensures untouched { IsRefusalOrMemory result → out.new ≡ out.old }
    ensures no_line { HasNoLine result → err.new ≡ err.old }
{
    let ending = check_file(alloc, config, store, out, patterns);
    report(ending, err)
}

/// Reads the configuration, builds its patterns, and writes its canonical text.
fn check_file<'a, S: Store, O: Sink, P: Patterns>(
    alloc: Global,
    name: &'a Text,
    store: &mut S,
    out: &mut O,
    patterns: &mut P,
) -> Ending<'a>
    ensures cause { CheckCause name.now (S.report store.old) (S.report store.new) result }
    ensures reads { ReadsFiles (name.now ∷ []) (IsReadOnce result) (S.report store.old).reads
        (S.report store.new).reads result }
    ensures taken { TookMore result (S.report store.old).taken (S.report store.new).taken }
    ensures writes { CheckWrites name.now (S.report store.old) (S.report store.new)
        (P.report patterns.old) (P.report patterns.new) (O.report out.old) (O.report out.new)
        result }
    ensures quiet { IsComplete result → ((S.report store.new).faults ≡ (S.report store.old).faults)
        × ((O.report out.new).faults ≡ (O.report out.old).faults) }
    ensures read_fault { status_of result ≡ Status.ReadFault →
        Rose (S.report store.old).faults (S.report store.new).faults }
    ensures sink_fault { status_of result ≡ Status.SinkFault →
        Rose (O.report out.old).faults (O.report out.new).faults }
    ensures untouched { IsRefusalOrMemory (status_of result) → out.new ≡ out.old }
    ensures unasked { HasNoConfig result → patterns.new ≡ patterns.old }
{
    match fetch_config(alloc, name, store) {
        Ok(config) => check_config(alloc, config, out, patterns),
        Err(fault) => fault.ending(name.as_str()),
    }
}

/// Builds the patterns of the configuration, and writes its canonical text.
fn check_config<'a, O: Sink, P: Patterns>(
    alloc: Global,
    config: Config,
    out: &mut O,
    patterns: &mut P,
) -> Ending<'a>
    requires few { length (plan_patterns config.plan) ≤ CONFIG_LIMIT }
    ensures ends { EndsCheck config (P.report patterns.old) (P.report patterns.new)
        (O.report out.old) (O.report out.new) result }
    ensures untouched { IsRefusalOrMemory (status_of result) → out.new ≡ out.old }
    ensures asked { HasNoConfig result → ⊥ }
{
    match build_text(alloc, config, patterns) {
        Ok(text) => match put_all(out, text.as_slice()) {
            Ok(()) => Ending::Finished,
            Err(_) => Ending::WriteFailed,
        },
        Err(BuildFault::Pattern { number }) => {
            Ending::ConfigRefused(ConfigRefusal::Pattern { number })
        }
        Err(BuildFault::Memory) => Ending::OutOfMemory,
    }
}

/// Builds the patterns of the configuration, and gives its canonical text.
fn build_text<P: Patterns>(
    alloc: Global,
    config: Config,
    patterns: &mut P,
) -> Result<Blob, BuildFault>
    requires few { length (plan_patterns config.plan) ≤ CONFIG_LIMIT }
    ensures { BuildsText config (P.report patterns.old) (P.report patterns.new) result }
{
    let mut text = Blob::fresh(alloc);
    write_config(alloc, &config, &mut text)?;
    build_ready(alloc, config.plan, patterns)?;
    Ok(text)
}
