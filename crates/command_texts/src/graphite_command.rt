ghost use Rattle.std.specs.Prelude.{◌≡◌, ◌≢◌, ◌≤◌, ◌⊎◌, ℕ};
ghost use Rattle.std.specs.Option.{ForSome};
ghost use Rattle.command_io.specs.Endings.{IsRefusalOrMemory};
ghost use Rattle.command_io.specs.Reports.{reports};
ghost use Rattle.command_io.specs.hub_meaning.Verdicts.{PatternsReport};
ghost use Rattle.command_texts.specs.Converts.{Converts};
ghost use Rattle.ports.specs.Calls.{LinksReport};
ghost use Rattle.ports.specs.Counts.{Rose};

use crate::text::convert_text;
use command_io::{FILE_LIMIT, Status, read_file, report};
use ev_types::Text;
use ports::{Sink, Store};
use std::alloc::Global;

/// Carries out `graphite FILE`, and with a `host_part`, from 1 to 64, `graphite FILE --host K`: it reads lines after
/// Graphite's plain text, and writes one frame of one event for each line that is accepted to `out`. Then a line for
/// each that is refused goes to `err`.
///
/// | Status | When | Line on `err` |
/// |---|---|---|
/// | `Done` | all is written, and no line is refused | no |
/// | `Lines` | all is written, and lines are refused | one for each of these |
/// | `SinkFault` | the frames could not be written, and `out` got only a prefix of them; or `err` got only a prefix of its lines | no |
/// | `ReadFault` | the file could not be read | yes |
/// | `TooLong` | the file has over [`FILE_LIMIT`] bytes | yes |
/// | `Memory` | out of memory | yes |
///
/// After the last three `out` gets nothing. A write of their line that fails cuts it, and does not change the status.
pub fn graphite<S: Store, O: Sink, E: Sink>(
    alloc: Global,
    file: &Text,
    host_part: Option<u32>,
    store: &mut S,
    out: &mut O,
    err: &mut E,
) -> Status
    requires { ForSome host_part (λ part. (1 ≤ part) × (part ≤ 64)) }
    ensures promise { (links : LinksReport) (patterns : PatternsReport) (forks : ℕ) →
        Converts file.now host_part
        (reports (S.report store.old) links (O.report out.old) (E.report err.old) patterns forks)
        (reports (S.report store.new) links (O.report out.new) (E.report err.new) patterns forks)
        result }
    ensures read_fault { result ≡ Status.ReadFault →
        Rose (S.report store.old).faults (S.report store.new).faults }
    ensures sink_fault { result ≡ Status.SinkFault →
        Rose (O.report out.old).faults (O.report out.new).faults ⊎ Rose (E.report err.old).faults
        (E.report err.new).faults }
    ensures links_work { result ≢ Status.LinkFault }
    ensures untouched { IsRefusalOrMemory result → out.new ≡ out.old }
    ensures no_line { result ≡ Status.Done → err.new ≡ err.old }
{
    match read_file(alloc, file, FILE_LIMIT, store) {
        Ok(text) => convert_text(alloc, text.as_slice(), host_part, out, err),
        Err(fault) => report(fault.ending(file.as_str(), FILE_LIMIT), err),
    }
}
