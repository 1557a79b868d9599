use thiserror::Error;

/// Why a run that a journal keeps did not come to its last turn.
#[derive(Clone, Copy, Debug, PartialEq, Eq, Error)]
pub enum JournalRunFault {
    /// The address can't be listened on, or the links failed.
    #[error("links failed")]
    Links,
    /// A call of the disk failed.
    #[error("the disk failed")]
    Disk,
    /// A notice line could not be written.
    #[error("a notice line could not be written")]
    Sink,
    #[error("out of memory")]
    Memory,
}
