ghost use Rattle.std.specs.Prelude.{◌≡◌, ◌+◌, None, Some, min};
ghost use Rattle.ports.specs.Counts.{greatest};

use crate::sink::{Failed, Sink};

/// A sink that counts the puts, and keeps nothing. It never fails.
#[derive(Clone, Copy)]
pub struct CountSink {
    pub puts: u64,
}

impl Sink for CountSink {
    ghost report = { λ sink. record { text = None; puts = Some sink.puts; faults = 0 } };

    fn put(&mut self, _bytes: &[u8]) -> Result<(), Failed> {
        self.puts = self.puts.saturating_add(1);
        Ok(())
    }
}
