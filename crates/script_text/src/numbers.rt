ghost use Rattle.std.specs.Prelude.{◌≡◌, fold, IfOk, OnOk};
ghost use Rattle.std.specs.BTreeSet.{insert_key};
ghost use Rattle.std.specs.Ordering.{nat_cmp};
ghost use Rattle.script_text.specs.LinkLines.{number_in, opened_numbers};

use ev_types::{Items, Memory};
use ports::{LinkEvent, Step};
use std::alloc::Global;
use std::collections::BTreeSet;

/// The numbers of links, by rising number.
pub(crate) type Numbers = Items<u64>;

/// The number of each link that a turn of these lines opens, by rising number, each once.
pub(crate) fn opened_numbers(alloc: Global, steps: &[Step]) -> Result<Numbers, Memory>
    ensures { IfOk result (λ numbers. numbers ≡ opened_numbers steps.now) }
{
    let opened = set_opened(alloc, steps)?;
    let mut numbers = Numbers::fresh(alloc);
    for number in &opened {
        numbers.push(alloc, *number)?;
    }
    Ok(numbers)
}

fn set_opened(alloc: Global, steps: &[Step]) -> Result<BTreeSet<u64>, Memory>
    ensures { IfOk result (λ numbers. numbers.keys ≡ opened_numbers steps.now) }
{
    let mut numbers = BTreeSet::new(alloc);
    for step in steps {
        add_opened(step, &mut numbers)?;
    }
    Ok(numbers)
}

/// Adds the number of the link that the line opens, where it opens one.
fn add_opened(step: &Step, numbers: &mut BTreeSet<u64>) -> Result<(), Memory>
    ensures { OnOk result (numbers.new.keys
        ≡ fold (insert_key nat_cmp) numbers.old.keys (number_in step.now)) }
{
    if let Step::Turn { secs: _, event } = step {
        if let LinkEvent::Opened { link } = event {
            numbers.insert(*link)?;
        }
    }
    Ok(())
}
