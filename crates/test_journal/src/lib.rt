//! Tests of the disk and of journals, by their public calls.
#![tactic(auto)]

#[cfg(test)]
mod disks;
#[cfg(test)]
mod formats;
#[cfg(test)]
mod journals;
#[cfg(test)]
mod recorded;
#[cfg(test)]
mod replayed;
#[cfg(test)]
mod resumed;
