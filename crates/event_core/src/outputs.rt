ghost use Rattle.std.specs.Prelude.{◌≡◌, true, false, [], ◌∷◌, ◌++◌, IfOk, OnErr, OnOk};
ghost use Rattle.list_laws.specs.Prefix.{IsPrefix};
ghost use Rattle.index_log.specs.Live.{IndexLog};
ghost use Rattle.live_index.specs.Index.{Represents};
ghost use Rattle.stream_meaning.specs.Arrivals.{notices_among, writes_among};

use ev_types::{Memory, Notices, Output, Outputs};
use live_index::PackedIndex;
use std::alloc::Global;
use std::mem;

/// Handles the outputs in order: a write enters the index, and a notice is appended to `out`. None is left in the list,
/// which keeps its memory where it had one output at most and that was no notice. After `Memory` `out` begins with what
/// it had.
pub(crate) fn handle(
    alloc: Global,
    outputs: &mut Outputs,
    index: &mut PackedIndex,
    out: &mut Notices,
) -> Result<(), Memory>
    ensures index { OnOk result ((log : IndexLog) → Represents index.old log
        → Represents index.new (log ++ writes_among outputs.old)) }
    ensures notices { OnOk result (out.new ≡ out.old ++ notices_among outputs.old) }
    ensures left { OnOk result (outputs.new ≡ []) }
    ensures prefix { IsPrefix out.old out.new }
{
    if outputs.len() == 0 {
        return Ok(());
    }
    let mut list = mem::replace(outputs, Outputs::fresh(alloc)).into_vec();
    if list.len() == 1 && write_one(alloc, &mut list[0], index)? {
        list.clear();
        *outputs = Outputs::from_vec(list);
        return Ok(());
    }
    handle_each(alloc, list, index, out)
}

/// Handles the outputs one after another.
fn handle_each(
    alloc: Global,
    outputs: Vec<Output>,
    index: &mut PackedIndex,
    out: &mut Notices,
) -> Result<(), Memory>
    ensures index { OnOk result ((log : IndexLog) → Represents index.old log
        → Represents index.new (log ++ writes_among outputs.items)) }
    ensures notices { OnOk result (out.new ≡ out.old ++ notices_among outputs.items) }
    ensures prefix { IsPrefix out.old out.new }
{
    for output in outputs {
        handle_one(alloc, output, index, out)?;
    }
    Ok(())
}

/// Moves the event of a write into the index. The answer is whether the output is a write. A notice stays as it is.
fn write_one(alloc: Global, output: &mut Output, index: &mut PackedIndex) -> Result<bool, Memory>
    ensures written { IfOk result (λ is_write. is_write ≡ true → (log : IndexLog)
        → Represents index.old log
        → Represents index.new (log ++ writes_among (output.old ∷ []))) }
    ensures silent { IfOk result (λ is_write. is_write ≡ true
        → notices_among (output.old ∷ []) ≡ []) }
    ensures index { IfOk result (λ is_write. is_write ≡ false → index.new ≡ index.old) }
    ensures output { IfOk result (λ is_write. is_write ≡ false → output.new ≡ output.old) }
{
    match output {
        Output::Write(event) => {
            index.put(alloc, event)?;
            Ok(true)
        }
        Output::Notice(_) => Ok(false),
    }
}

fn handle_one(
    alloc: Global,
    output: Output,
    index: &mut PackedIndex,
    out: &mut Notices,
) -> Result<(), Memory>
    ensures index { OnOk result ((log : IndexLog) → Represents index.old log
        → Represents index.new (log ++ writes_among (output ∷ []))) }
    ensures notices { OnOk result (out.new ≡ out.old ++ notices_among (output ∷ [])) }
    ensures prefix { OnErr result (out.new ≡ out.old) }
{
    match output {
        Output::Notice(notice) => {
            out.push(alloc, notice)?;
            Ok(())
        }
        Output::Write(event) => {
            index.write(alloc, event)?;
            Ok(())
        }
    }
}
