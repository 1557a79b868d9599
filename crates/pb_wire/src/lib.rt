//! The fields of the Protocol Buffers wire format, read and written.
#![tactic(auto)]

mod law;
mod reader;
mod varint;
mod writer;

pub use law::{
    causes_are_one, fields_are_the_longest_prefix, written_is_read, written_is_shortest,
};
pub use reader::{Body, FieldReader, Next, WireWhy};
pub use varint::{put_varint, varint_len};
pub use writer::{PutBody, put_field, put_tag_and_length};
