use ev_types::{Emissions, Key};

/// A branch below a stream.
#[derive(Clone, Copy, Debug, PartialEq, Eq)]
pub enum Branch {
    Children,
    /// What a `where` has after `else`.
    Otherwise,
}

/// What a stream passes on at an entry.
#[derive(Drop)]
pub enum Passed {
    Nothing,
    /// The item that came, as it came.
    Same(Branch),
    /// Items that were made, in their order. Branch 0 is the children, each other one `else`.
    Made(Emissions),
    /// The item that came, as it came, to the fork of this key.
    Keyed(Key),
}
