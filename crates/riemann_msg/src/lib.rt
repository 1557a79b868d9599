//! Riemann's messages: the Protocol Buffers form of `proto.proto`, read and written.
#![tactic(auto)]

mod by_value;
mod fault;
mod fields;
mod law;
mod len;
mod msg;
mod numbers;
mod read;
mod reply;
mod spent;
mod ttl;
mod write;
mod zigzag;

pub use by_value::read_msg;
pub use fault::{MsgFault, MsgWhy};
pub use law::{small_ttls_are_spellable, written_is_read};
pub use len::msg_len;
pub use msg::{Msg, QueryPart};
pub use numbers::field_numbers_are_given;
pub use read::read_msg_into;
pub use reply::{found_len, write_found};
pub use spent::{SPENT_LIMIT, SpentEvents};
pub use ttl::{bits_of_ttl, ttl_of_bits};
pub use write::write_msg;
