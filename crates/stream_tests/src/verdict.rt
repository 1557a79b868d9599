//! What a test shows.

ghost use Rattle.std.specs.Prelude.{◌≡◌, ◌↔◌, IfOk, IsTrue, MatchOption, Some, slice_get};
ghost use Rattle.stream_tests.specs.Verdicts.{seen, DifferFirst, IsVerdict, VerdictsAreOne};

use crate::same::same_item;
use config_tests::Expect;
use ev_types::{Item, Memory, Notice, Text};
use std::alloc::Global;

/// What a test shows.
#[derive(Debug, Drop)]
pub enum Verdict {
    /// Just what is expected was noticed.
    Pass,
    /// The items that were noticed under the name are not those that are expected. The number, from 0, is that of the
    /// first item that differs. An absent item differs from every item.
    Differs { name: Text, number: u64 },
}

/// There is no other verdict on the same notices and expectations.
pub fn verdicts_are_one()
    ensures { VerdictsAreOne }
{}

/// The verdict on what was noticed: the first expectation that is not met, and the first item of it that differs.
/// `Memory`: out of memory.
pub(crate) fn verdict_of(
    alloc: Global,
    notices: &[Notice],
    expects: &[Expect],
) -> Result<Verdict, Memory>
    ensures { IfOk result (λ verdict. IsVerdict notices.now expects.now verdict) }
{
    for expect in expects {
        if let Some(number) = first_difference(notices, expect) {
            return Ok(Verdict::Differs {
                name: expect.name.copy(alloc)?,
                number: number as u64,
            });
        }
    }
    Ok(Verdict::Pass)
}

/// The number of the first item that differs from what is expected.
fn first_difference(notices: &[Notice], expect: &Expect) -> Option<usize>
    ensures { MatchOption result (seen expect.now.name notices.now ≡ expect.now.items)
        (λ number. DifferFirst number (seen expect.now.name notices.now) expect.now.items) }
{
    let items = expect.items.as_slice();
    let mut number = 0;
    for notice in notices {
        if notice.name == expect.name {
            if !is_at(&notice.item, number, items) {
                return Some(number);
            }
            number += 1;
        }
    }
    if number < items.len() {
        Some(number)
    } else {
        None
    }
}

/// Whether the item of this number, from 0, is the item.
fn is_at(item: &Item, number: usize, items: &[Item]) -> bool
    ensures { IsTrue result ↔ (slice_get items.now number ≡ Some item.now) }
{
    number < items.len() && same_item(item, &items[number])
}
