use config_terms::ConfigWhy;
use thiserror::Error;

/// Why a text was not read as tests.
#[derive(Clone, Copy, Debug, PartialEq, Eq, Error)]
pub enum TestFault {
    /// The text is refused at `place`, counted in bytes from its start.
    #[error("tests refused at {place}: {why}")]
    Refused { place: usize, why: ConfigWhy },
    /// Out of memory.
    #[error("out of memory")]
    Memory,
}
