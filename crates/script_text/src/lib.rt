//! Reading scripts: texts that say what happens on links. `docs/SCRIPTS.md` has their lines. And what each link was sent,
//! as lines after a replay.
#![tactic(auto)]

mod cut;
mod law;
mod line;
mod lines;
mod link_law;
mod numbers;
mod read;
mod word;
mod write;

pub use law::scripts_are_their_lines;
pub use link_law::lines_are_of_opened_links;
pub use read::{ScriptFault, read_script};
pub use word::read_number;
pub use write::{LineFault, write_link_lines};
