//! The places of the forms of streams.

/// The place of the form of a stream, and those of the streams that follow it.
#[derive(Drop)]
pub struct Source {
    pub place: usize,
    pub children: Sources,
    pub otherwise: Sources,
}

/// Places of the forms of streams, in the order of the streams.
pub type Sources = Vec<Source>;
