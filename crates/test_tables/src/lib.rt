//! Tests of calls of the lower crates that no row of `test_rows` makes: tables, lists, due ids, and generic calls. Random
//! events of many forks and random writes to an index are rows there.
#![tactic(auto)]

#[cfg(test)]
mod counts;
#[cfg(test)]
mod forks;
#[cfg(test)]
mod grown_lists;
#[cfg(test)]
mod lists;
#[cfg(test)]
mod queue;
#[cfg(test)]
mod steps;
