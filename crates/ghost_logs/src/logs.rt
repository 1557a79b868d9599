ghost use Rattle.std.specs.Prelude.{◌≡◌, [], ◌∷◌, ◌++◌};
ghost use Rattle.ghost_logs.specs.Logs.{first_of_each};

use ev_types::{Blob, Text};
use http_server::Log;
use std::marker::Model;

/// Bytes, in order.
#[derive(Drop)]
pub struct ByteLog {
    bytes: Log<u8, u8>,
}

/// Texts, in order.
#[derive(Drop)]
pub struct TextLog {
    texts: Log<Text, u8>,
}

/// Names of files, each with the bytes of its file, in order.
#[derive(Drop)]
pub struct FileLog {
    files: Log<Text, Blob>,
}

impl Model for ByteLog {
    ghost use Rattle.std.specs.Prelude.{ℕ, List};
    ghost use Rattle.ghost_logs.specs.Logs.{first_of_each};

    ghost Value = { List ℕ };

    ghost view = { λ log. first_of_each log.bytes.items };
}

impl Model for TextLog {
    ghost use Rattle.std.specs.Prelude.{ℕ, List};
    ghost use Rattle.ghost_logs.specs.Logs.{first_of_each};

    ghost Value = { List (List ℕ) };

    ghost view = { λ log. first_of_each log.texts.items };
}

impl Model for FileLog {
    ghost use Rattle.std.specs.Prelude.{ℕ, List};

    ghost Value = { List (List ℕ × List ℕ) };

    ghost view = { λ log. log.files.items };
}

impl ByteLog {
    pub fn fresh() -> ByteLog
        ensures { result ≡ [] }
    {
        ByteLog { bytes: Log::new() }
    }

    pub fn add(&mut self, bytes: &[u8])
        ensures { self.new ≡ self.old ++ bytes.now }
    {
        add_all(&mut self.bytes, bytes);
    }
}

impl TextLog {
    pub fn fresh() -> TextLog
        ensures { result ≡ [] }
    {
        TextLog { texts: Log::new() }
    }

    #[tactic(auto, using(crate::proofs::LogLemmas::one_more))]
    pub fn add(&mut self, text: &Text)
        ensures { self.new ≡ self.old ++ text.now ∷ [] }
    {
        self.texts = self.texts.and(text, &0);
    }
}

impl FileLog {
    pub fn fresh() -> FileLog
        ensures { result ≡ [] }
    {
        FileLog { files: Log::new() }
    }

    pub fn add(&mut self, name: &Text, bytes: &Blob)
        ensures { self.new ≡ self.old ++ (name.now, bytes.now) ∷ [] }
    {
        self.files = self.files.and(name, bytes);
    }
}

/// Adds each of the bytes.
#[tactic(auto, using(crate::proofs::LogLemmas::byte_more, crate::proofs::LogLemmas::bytes_all, crate::proofs::LogLemmas::bytes_none))]
fn add_all(log: &mut Log<u8, u8>, bytes: &[u8])
    ensures { first_of_each log.new.items ≡ first_of_each log.old.items ++ bytes.now }
{
    for byte in bytes {
        *log = log.and(byte, &0);
    }
}
