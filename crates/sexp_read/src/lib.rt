//! The forms that a text of s-expressions is, each with its place.
#![tactic(auto)]

mod atom;
mod bytes;
mod fault;
mod form;
mod law;
mod lex;
mod limits;
mod made;
mod piece;
mod quoted;
mod read;
mod write;

pub use fault::{SexpFault, SexpWhy};
pub use form::{Form, Forms, Shape};
pub use law::{faults_are_first, written_is_read};
pub use limits::limits_are_numbers;
pub use made::{atom_form, group_form};
pub use piece::{Atom, Bracket};
pub use read::{DEEPEST, LONGEST, read_forms};
pub use write::write_forms;
