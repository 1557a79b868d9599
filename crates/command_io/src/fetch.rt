ghost use Rattle.std.specs.Prelude.{◌≡◌, ◌≤◌, IfErr, IfOk, OnOk, length};
ghost use Rattle.ev_types.specs.Interval.{IsInterval};
ghost use Rattle.stream_plan.specs.Ready.{plan_patterns};
ghost use Rattle.command_io.specs.Configs.{ReadsAs};
ghost use Rattle.command_io.specs.Fetches.{IsFetchFault, IsTextFault, ending_of_config, ending_of_fetch, fetch_reads};
ghost use Rattle.command_io.specs.Files.{ForGiven, ReadMore};

use crate::ending::{ConfigRefusal, Ending};
use crate::limits::CONFIG_LIMIT;
use crate::read::{FileFault, read_file};
use ev_types::Text;
use ports::Store;
use sexp_config::{Config, ConfigFault, read_config};
use std::alloc::Global;

/// Why there is no configuration.
#[derive(Clone, Copy)]
pub enum FetchFault {
    /// The file was not read.
    File(FileFault),
    /// It was read, and its text was not read as a configuration.
    Config(ConfigFault),
}

impl FetchFault {
    /// How the command ends whose configuration is in the file of the name.
    pub fn ending<'a>(self, name: &'a str) -> Ending<'a>
        ensures { result ≡ ending_of_fetch name.entry self }
    {
        match self {
            FetchFault::File(fault) => fault.ending(name, CONFIG_LIMIT),
            FetchFault::Config(fault) => ending_of_config(fault),
        }
    }
}

/// How a command ends whose text was not read as a configuration.
pub fn ending_of_config<'a>(fault: ConfigFault) -> Ending<'a>
    ensures { result ≡ ending_of_config fault }
{
    match fault {
        ConfigFault::Refused { place, why } => {
            Ending::ConfigRefused(ConfigRefusal::Refused { place, why })
        }
        ConfigFault::Memory => Ending::OutOfMemory,
    }
}

/// Reads the configuration in the file of the name.
pub fn fetch_config<S: Store>(
    alloc: Global,
    name: &Text,
    store: &mut S,
) -> Result<Config, FetchFault>
    ensures config { IfOk result
        (λ config. ForGiven name.now (S.report store.old) (S.report store.new)
        (λ text. (length text ≤ CONFIG_LIMIT) × ReadsAs text config)) }
    ensures few { IfOk result (λ config. length (plan_patterns config.plan) ≤ CONFIG_LIMIT) }
    ensures interval { IfOk result (λ config. IsInterval config.expiry) }
    ensures fault { IfErr result
        (IsFetchFault name.now (S.report store.old) (S.report store.new)) }
    ensures reads { ReadMore (fetch_reads name.now result) (S.report store.old).reads
        (S.report store.new).reads }
    ensures quiet { OnOk result ((S.report store.new).faults ≡ (S.report store.old).faults) }
    ensures held { (S.report store.new).held ≡ (S.report store.old).held }
    ensures taken { (S.report store.old).taken ≤ (S.report store.new).taken }
{
    match read_file(alloc, name, CONFIG_LIMIT, store) {
        Ok(text) => read_text(alloc, text.as_slice()),
        Err(fault) => Err(FetchFault::File(fault)),
    }
}

fn read_text(alloc: Global, text: &[u8]) -> Result<Config, FetchFault>
    ensures config { IfOk result (λ config. ReadsAs text.now config) }
    ensures few { IfOk result (λ config. length (plan_patterns config.plan) ≤ CONFIG_LIMIT) }
    ensures interval { IfOk result (λ config. IsInterval config.expiry) }
    ensures fault { IfErr result (λ fault. IsTextFault text.now fault) }
{
    match read_config(alloc, text) {
        Ok(config) => Ok(config),
        Err(fault) => Err(FetchFault::Config(fault)),
    }
}
