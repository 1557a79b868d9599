//! Rules about events, and whether an event meets one.
#![tactic(auto)]

mod finder;
mod host;
mod patterns;
mod pred;
mod rule;
mod truth;
mod wild;

pub use finder::Finder;
pub use patterns::{
    BuildFault, ListPatterns, PROGRAM_BYTES, PatternAnswer, Patterns, RegexPatterns, build_all,
};
pub use pred::{Pred, append_texts};
pub use rule::{Ordering, Rule, Rules};
pub use truth::{pattern_count, rule_holds, rule_holds_of};
pub use wild::{is_wild, wild_texts_are_joined};
