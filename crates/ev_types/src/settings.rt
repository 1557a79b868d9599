use crate::{Field, Items, Value};

/// What an event that has expired keeps.
#[derive(Debug)]
pub enum KeepKey {
    Field(Field),
    /// All its tags.
    Tags,
}

impl Drop for KeepKey {
    fn drop(self) {
        match self {
            KeepKey::Field(_field) => {}
            KeepKey::Tags => {}
        }
    }
}

/// A list of what is kept, in the order in which it was named.
pub type KeepKeys = Items<KeepKey>;

/// How an index looks for expired events.
#[derive(Drop)]
pub struct Expiry {
    /// The seconds from one look to the next. In a configuration they are from 1 to 604,800.
    pub interval: u32,
    /// What the events that are found keep.
    pub keep: KeepKeys,
}

/// A value that a field is set to.
#[derive(Debug)]
pub struct Set {
    pub field: Field,
    pub value: Value,
}

impl Drop for Set {
    fn drop(self) {
        let Set {
            field: _field,
            value: _value,
        } = self;
    }
}

/// A list of sets, in the order in which they are made.
pub type Sets = Items<Set>;

/// How one event is made of many.
#[derive(Clone, Copy, Debug, PartialEq, Eq)]
pub enum Fold {
    Sum,
    Minimum,
    Maximum,
    Count,
}
