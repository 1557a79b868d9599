//! Reading a configuration.

ghost use Rattle.std.specs.Prelude.{◌≡◌, ◌≤◌, ℕ, length, IfOk, IfErr};
ghost use Rattle.sexp_read.specs.Grammar.{longest};
ghost use Rattle.stream_plan.specs.Ready.{plan_patterns};
ghost use Rattle.ev_types.specs.Interval.{IsInterval};
ghost use Rattle.sexp_config.specs.Config.{IsConfigOf, IsConfigFault, IsRefusedFor, IsReadAs, IsRefusedAs, fault_in, why_of as why_of_forms};

use crate::Config;
use crate::finish::config_of;
use config_terms::{ConfigFault, ConfigWhy};
use sexp_read::{SexpFault, SexpWhy, read_forms};
use std::alloc::Global;

/// The configuration that the text is. It reads the text once, from its start on. Its streams have no more regular
/// expressions than a text has bytes at most.
///
/// A text is refused for the first of these that it has:
/// - what [`read_forms`] refuses texts for, at its place;
/// - in reading order, in each list the head first and then its arguments: a form of a kind that is not allowed there,
///   at its start (Form); a symbol that is bound to nothing and is not a word of its place, at the symbol (Name); an
///   argument that does not fit, at that argument, or one that is missing, at the bracket of the form that lacks it
///   (Arguments);
///   a number outside its range, at the number (Range); a `tcp-server` or `periodically-expire` that comes again, at
///   its bracket, or a key or field of a map that the map has already, at the key (Twice);
/// - stream number 4,097, at its form, a stream before those below it (Many);
/// - the first stream that does not take what its parent passes on, at its form (Kind).
///
/// `Memory`: out of memory.
pub fn read_config(alloc: Global, text: &[u8]) -> Result<Config, ConfigFault>
    ensures config { IfOk result (λ config. IsConfigOf text.now config) }
    ensures few { IfOk result (λ config. length (plan_patterns config.plan) ≤ longest) }
    ensures interval { IfOk result (λ config. IsInterval config.expiry) }
    ensures only { (config : Config) → IsConfigOf text.now config → IsReadAs config result }
    ensures refused { IfErr result (λ fault. IsRefusedFor text.now fault) }
    ensures only_refused { (place : ℕ) (why : ConfigWhy) → IsConfigFault text.now place why →
        IsRefusedAs place why result }
{
    match read_forms(alloc, text) {
        Ok(forms) => config_of(alloc, forms.as_slice()),
        Err(fault) => Err(forms_fault(fault)),
    }
}

/// The refusal of a text that is not forms.
fn forms_fault(fault: SexpFault) -> ConfigFault
    ensures { result ≡ fault_in fault }
{
    match fault {
        SexpFault::Refused { place, why } => ConfigFault::Refused {
            place,
            why: why_of(why),
        },
        SexpFault::Memory => ConfigFault::Memory,
    }
}

fn why_of(why: SexpWhy) -> ConfigWhy
    ensures { result ≡ why_of_forms why }
{
    match why {
        SexpWhy::Long => ConfigWhy::Long,
        SexpWhy::Utf8 => ConfigWhy::Utf8,
        SexpWhy::Open => ConfigWhy::Open,
        SexpWhy::Close => ConfigWhy::Close,
        SexpWhy::Token => ConfigWhy::Token,
        SexpWhy::Number => ConfigWhy::Number,
        SexpWhy::Escape => ConfigWhy::Escape,
        SexpWhy::Deep => ConfigWhy::Deep,
    }
}
