use ev_types::Item;

/// What comes to a stream.
#[derive(Drop)]
pub enum Entry {
    /// One more second has passed.
    Tick,
    Item(Item),
}
