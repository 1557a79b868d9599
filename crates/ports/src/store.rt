ghost use Rattle.std.specs.Prelude.{◌≡◌, ◌^◌, ◌<◌, ◌≤◌, ◌++◌};
ghost use Rattle.std.specs.Option.{option_map};
ghost use Rattle.ports.specs.Reading.{HasCause, given_by, reads_made};

use ev_types::{Blob, Items, Text};
use std::alloc::Global;

/// Where files are read from.
pub trait Store {
    ghost use Rattle.ports.specs.Reading.{StoreReport};

    /// What the files hold, the reads so far, and the counts of bytes taken and of reads that failed.
    ghost report: { Self → StoreReport };

    /// Reads the whole file of that name, if it has at most `limit` bytes. The limit is less than 2^63.
    fn read(&mut self, alloc: Global, name: &Text, limit: u64) -> ReadAnswer
        requires { limit < 2 ^ 63 }
        ensures held { (report self.new).held ≡ (report self.old).held }
        ensures cause { HasCause ((report self.old).held name.now) limit
            (report self.old).faults (report self.new).faults
            (report self.old).taken (report self.new).taken result }
        ensures reads { (report self.new).reads
            ≡ option_map (λ made. made ++ reads_made name.now result) (report self.old).reads }
        ensures gave { (report self.new).gave
            ≡ option_map (λ gave. gave ++ given_by name.now result) (report self.old).gave }
        ensures taken { (report self.old).taken ≤ (report self.new).taken }
        ensures faults { (report self.old).faults ≤ (report self.new).faults }
        ensures memory { result ≡ ReadAnswer.Memory → self.new ≡ self.old };
}

/// What a read of a store answers.
#[derive(Drop)]
pub enum ReadAnswer {
    /// All bytes of the file.
    Bytes(Blob),
    /// There is no such file, or reading it failed.
    Failed,
    /// The file has more bytes than the limit.
    TooLong,
    /// Out of memory. The store is as before.
    Memory,
}

/// A read that a store answered: of which name, and whether it failed.
#[derive(Drop)]
pub struct StoreRead {
    pub name: Text,
    pub failed: bool,
}

/// The reads that a store answered, in order.
pub type Reads = Items<StoreRead>;
