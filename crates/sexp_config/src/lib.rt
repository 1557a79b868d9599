//! Configurations, as texts of s-expressions.
#![tactic(auto)]

mod bare;
mod canonical;
mod config;
mod draft;
mod expiry;
mod finish;
mod law;
mod limits;
mod names;
mod read;
mod server;
mod tops;
mod write;

pub use config::Config;
pub use config_terms::{Binding, Bound, ConfigFault, ConfigWhy, RuleWord, StreamWord, TopWord};
pub use law::{configs_are_read, read_plans_have_no_fault, texts_have_one_answer, written_is_read};
pub use limits::defaults_are_numbers;
pub use read::read_config;
pub use write::write_config;
