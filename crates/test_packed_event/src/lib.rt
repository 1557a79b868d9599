//! Tests of events that are kept as their bytes, of messages that are nothing but such events, and of an index of them.
#![tactic(auto)]

#[cfg(test)]
mod keys;
#[cfg(test)]
mod lent;
#[cfg(test)]
mod messages;
#[cfg(test)]
mod packed;
#[cfg(test)]
mod replies;
#[cfg(test)]
mod rows;
#[cfg(test)]
mod rules;
