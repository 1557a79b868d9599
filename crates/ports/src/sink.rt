ghost use Rattle.std.specs.Prelude.{◌<◌, length, OnOk, OnErr};
ghost use Rattle.ports.specs.Writing.{FailsToPut, Puts};

use thiserror::Error;

/// Where bytes are written to.
pub trait Sink {
    ghost use Rattle.ports.specs.Writing.{SinkReport};

    /// What it got, and the counts of puts that succeeded and failed.
    ghost report: { Self → SinkReport };

    /// Writes all the bytes at the end, or, where that fails, a prefix of them.
    fn put(&mut self, bytes: &[u8]) -> Result<(), Failed>
        requires { 0 < length bytes.now }
        ensures puts { OnOk result (Puts (report self.old) bytes.now (report self.new)) }
        ensures fails { OnErr result (FailsToPut (report self.old) bytes.now (report self.new)) };
}

/// A put that failed.
#[derive(Clone, Copy, Debug, PartialEq, Eq, Error)]
#[error("a write failed")]
pub struct Failed;
