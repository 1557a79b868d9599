//! Tests of the ends to the outside, by their public calls: stores, sinks, links, notice lines, sockets and loads. Links
//! that play a script are called by themselves, and their lines say what they were sent.
#![tactic(auto)]

#[cfg(test)]
mod dial;
#[cfg(test)]
mod links;
#[cfg(test)]
mod load;
#[cfg(test)]
mod notices;
#[cfg(test)]
mod scripts;
#[cfg(test)]
mod shares;
#[cfg(test)]
mod silence;
#[cfg(test)]
mod sockets;
#[cfg(test)]
mod stores;
