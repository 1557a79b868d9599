ghost use Rattle.std.specs.Prelude.{◌≡◌, ◌+◌, ◌<◌, nat_lt, count_by};

use crate::steps::is_counted;
use list_laws::{count_where, keep_where};
use step_count::{CountLedger, Ledger, NoLedger, Steps};

const DIGITS: [u64; 8] = [3, 1, 4, 1, 5, 9, 2, 6];

/// The places of the digits above 3.
const PLACES: [usize; 4] = [2, 4, 5, 7];

fn count_above(items: &[u64], bound: u64) -> usize
    ensures { result ≡ count_by (λ item. nat_lt bound item) items.now }
{
    count_where(items, |item| *item > bound)
}

fn place_above(items: &[u64], bound: u64, nth: usize) -> usize
    requires { nth < count_by (λ item. nat_lt bound item) items.now }
{
    keep_where(items, |item| *item > bound, nth)
}

/// Whether the item above the bound with this number is at this place.
fn is_above(items: &[u64], bound: u64, nth: usize, place: usize) -> bool {
    nth < count_above(items, bound) && place_above(items, bound, nth) == place
}

/// Whether the digits above bounds are counted.
fn are_counted() -> bool {
    count_above(&DIGITS, 3) == 4 && count_above(&DIGITS, 9) == 0 && count_above(&[], 0) == 0
}

fn two_forks_of_one_entry<G: Ledger>(steps: &mut Steps<G>)
    ensures forks { steps.new.forks ≡ steps.old.forks + 2 }
    ensures entries { steps.new.entries ≡ steps.old.entries + 1 }
{
    steps.enter_fork();
    steps.visit_entry();
    steps.enter_fork();
}

/// Whether two forks of one entry are reported to the ledger, which has these counts then.
fn are_reported(ledger: CountLedger, forks: u64, entries: u64) -> bool {
    let mut steps = Steps::fresh(ledger);
    two_forks_of_one_entry(&mut steps);
    is_counted(&steps, forks, entries)
}

/// Whether steps without a ledger take no bytes, and those with a ledger of two counts 16.
fn take_no_bytes() -> bool {
    let mut steps = Steps::fresh(NoLedger);
    two_forks_of_one_entry(&mut steps);
    *steps.ledger() == NoLedger
        && size_of::<Steps<NoLedger>>() == 0
        && size_of::<Steps<CountLedger>>() == 16
}

#[test]
fn items_and_steps_are_counted(rt: HostRuntime) {
    for (nth, place) in PLACES.iter().enumerate() {
        assert!(rt; is_above(&DIGITS, 3, nth, *place));
    }
    assert!(rt; are_counted());
    let few = CountLedger {
        forks: 5,
        entries: 0,
    };
    assert!(rt; are_reported(few, 7, 1));
    // a count stays at its greatest number
    let most = CountLedger {
        forks: u64::MAX - 1,
        entries: u64::MAX,
    };
    assert!(rt; are_reported(most, u64::MAX, u64::MAX));
    assert!(rt; take_no_bytes());
}
