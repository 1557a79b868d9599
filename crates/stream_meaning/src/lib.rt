//! What streams mean: what each kind passes on, what a whole plan does to the outside, and what comes of it in an
//! index, all of a whole history of seconds and items. Nothing here runs; contracts above cite it.
#![tactic(auto)]

mod ends;
mod entry;
mod example;
mod law;

pub use ends::{
    end_examples_are_computed, forks_end_with_their_keys, keys_end_after_silence,
    live_forks_are_recent, live_forks_follow_entries, nothing_ends_without_idle,
};
pub use entry::Entry;
pub use example::{
    examples_are_computed, fork_examples_are_computed, index_examples_are_computed,
    window_examples_are_computed,
};
pub use law::{
    arrivals_come_in_order, checked_plans_meet_deadlines, coalesced_are_the_newest,
    deadlines_are_first, deadlines_of_plans_are_first, folds_are_of_all_metrics,
    forks_have_their_events, keys_come_in_order, keys_have_their_outputs, outputs_are_in_order,
    runs_are_longest, ticks_alone_are_quiet, vectors_are_not_empty, windows_follow_moments,
    windows_go_by_the_greatest,
};
