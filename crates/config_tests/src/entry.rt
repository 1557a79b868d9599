use ev_types::{Event, Item, Items, Text};

/// What comes to the streams of a configuration in a test.
#[derive(Drop)]
pub enum Entry {
    /// As many seconds pass, from 1 to 86,400.
    Tick { count: u32 },
    Event(Event),
}

/// A list of entries, in the order in which they come.
pub type Entries = Items<Entry>;

/// The items that are to be noticed under a name.
#[derive(Drop)]
pub struct Expect {
    pub name: Text,
    pub items: Items<Item>,
}

/// A list of expectations, in the order of the text. No two are of one name.
pub type Expects = Items<Expect>;

/// A test of a configuration.
#[derive(Drop)]
pub struct Test {
    pub name: Text,
    pub entries: Entries,
    pub expects: Expects,
}

/// A list of tests, in the order of the text.
pub type Tests = Items<Test>;
