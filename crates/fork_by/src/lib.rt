//! The forks of a stream, by key.
#![tactic(auto)]

mod labels;
mod law;
mod order;
mod register;
mod renew;
mod slots;
mod table;
mod unmade;

pub use law::{
    forks_are_apart, latest_is_of_forks, numbers_reach_forks, written_forks_are_replaced,
};
pub use table::ForkTable;
