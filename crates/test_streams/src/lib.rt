//! Tests of the streams, the index and the core, of what no row of `test_rows` shows: calls that no command makes,
//! values that no configuration can spell, counts of what was visited, as many events as a count allows, and
//! which configurations have keys that are apart.
#![tactic(auto)]

#[cfg(test)]
mod build;
#[cfg(test)]
mod calls;
#[cfg(test)]
mod fields;
#[cfg(test)]
mod kept;
#[cfg(test)]
mod keys;
#[cfg(test)]
mod outputs;
#[cfg(test)]
mod visits;
