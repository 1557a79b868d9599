//! Configurations whose notices of one host, or of one host and service, depend on what comes of it alone.
#![tactic(auto)]

mod apart;
mod example;
mod law;

pub use apart::keys_are_apart;
pub use example::key_examples_are_computed;
pub use law::notices_are_apart;
