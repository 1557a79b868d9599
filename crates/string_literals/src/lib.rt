//! String literals: a text in double quotes, in which a backslash begins one of five escapes.
#![tactic(auto)]

mod escape;
mod write;

pub use escape::escaped;
pub use write::put_literal;
