//! Writing a configuration.

ghost use Rattle.std.specs.Prelude.{◌≡◌, ◌++◌, OnOk, OnErr};
ghost use Rattle.list_laws.specs.Prefix.{IsPrefix};
ghost use Rattle.sexp_config.specs.Canonical.{canonical_text};

use crate::Config;
use crate::canonical::config_forms;
use ev_types::{Blob, Memory};
use sexp_read::write_forms;
use std::alloc::Global;

/// Appends the canonical text of the configuration: a line for the server, one for the expiry where it is set, and one
/// for the streams. After `Memory` the old bytes of `out` are a prefix of it.
#[tactic(auto, using(crate::proofs::CanonicalLaws::bare_listed), unfolding(crate::specs::Canonical::canonical_text))]
pub fn write_config(alloc: Global, config: &Config, out: &mut Blob) -> Result<(), Memory>
    ensures text { OnOk result (out.new ≡ out.old ++ canonical_text config.now) }
    ensures prefix { OnErr result (IsPrefix out.old out.new) }
{
    let forms = config_forms(alloc, config)?;
    write_forms(alloc, forms.as_slice(), out)?;
    Ok(())
}
