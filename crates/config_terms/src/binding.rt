//! Names, and what they are bound to.

use ev_types::Text;

/// What a name may be bound to.
#[derive(Debug, Drop)]
pub enum Bound {
    Text(Text),
    Pattern(Text),
    Number(i64),
    Keyword(Text),
    /// The stream that writes the index.
    Index,
}

/// A name and its value.
#[derive(Debug, Drop)]
pub struct Binding {
    pub name: Text,
    pub value: Bound,
}
