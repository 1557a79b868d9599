//! The log of the reads of files, which only proofs see.

ghost use Rattle.std.specs.Prelude.{◌≡◌, [], ◌∷◌, ◌++◌};
ghost use Rattle.ports.specs.Reads.{read_of};

use ev_types::Text;
use http_server::Log;
use std::marker::Model;

/// Reads that were answered, in order. It takes no memory, and nothing of it is kept when the program runs.
#[derive(Drop)]
pub(crate) struct ReadLog {
    // For each read the name, and whether it failed.
    reads: Log<Text, bool>,
}

impl Model for ReadLog {
    ghost use Rattle.std.specs.Prelude.{List};
    ghost use Rattle.ports.specs.Reads.{reads_in};
    ghost use Rattle.ports.specs.declared.store.StoreRead.{StoreRead};

    ghost Value = { List StoreRead };

    ghost view = { λ log. reads_in log.reads.items };
}

impl ReadLog {
    pub(crate) fn fresh() -> ReadLog
        ensures { result ≡ [] }
    {
        ReadLog { reads: Log::new() }
    }

    #[tactic(auto, using(crate::proofs::ReadLemmas::one_read_more))]
    pub(crate) fn add(&mut self, name: &Text, failed: bool)
        ensures { self.new ≡ self.old ++ read_of name.now failed ∷ [] }
    {
        self.reads = self.reads.and(name, &failed);
    }
}
