//! The terms of configurations: words, arguments with the names that are bound in them, fields, values, lists, sets and
//! predicates, as forms of s-expressions represent them.
#![tactic(auto)]

mod arguments;
mod binding;
mod fault;
mod forms;
mod law;
mod lists;
mod rules;
mod word;

pub use arguments::{
    Argument, argument_of, field_at, keyword_at, map_at, number_at, ranged_at, text_at, unfit,
    value_of, vector_at,
};
pub use binding::{Binding, Bound};
pub use fault::{ConfigFault, ConfigWhy};
pub use forms::{
    View, argument, at_most, first, later, next_start, nth, refused, symbol_of, view_of,
};
pub use law::{groups_are_read, predicates_are_read, terms_are_read};
pub use lists::{fields_at, idle_from, init_from, only_key_at, set_at, sets_from, texts_at};
pub use rules::{no_form, rule_at};
pub use word::{RuleWord, StreamWord, TopWord, field_of, fold_word, is, stream_word, top_word};
