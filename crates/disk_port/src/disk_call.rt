use ev_types::{Blob, Items};

/// A call by which a disk in memory was changed.
#[derive(Drop)]
pub enum DiskCall {
    /// These bytes were written from `place` on.
    Write { place: u64, bytes: Blob },
    Sync,
}

/// Such calls, in order.
pub type DiskCalls = Items<DiskCall>;
