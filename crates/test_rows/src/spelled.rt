//! Texts in which bytes are spelled: `@<0a ff>` is the bytes of these hexadecimal digits, and `@(3 ab@)` is `ababab`.

use crate::line::{RowFault, split_word};
use crate::piece::append_copies;
use ev_types::{Blob, Memory};
use hex::FromHexError;
use std::alloc::Global;

/// The bytes of the parts of a text that were read so far.
struct Spelled {
    bytes: Vec<u8>,
    /// The part that comes more than once, while it is read, and how many times it comes.
    part: Vec<u8>,
    times: Option<u32>,
}

impl Drop for Spelled {
    fn drop(self) {
        let Spelled {
            bytes: _bytes,
            part: _part,
            times: _times,
        } = self;
    }
}

/// The bytes that the text spells.
pub fn read_spelled(alloc: Global, text: &str) -> Result<Blob, RowFault> {
    let mut spelled = Spelled {
        bytes: Vec::new(alloc),
        part: Vec::new(alloc),
        times: None,
    };
    spelled.read_parts(alloc, text)?;
    spelled.into_blob()
}

impl Spelled {
    /// The bytes, where no part is being read.
    fn into_blob(self) -> Result<Blob, RowFault> {
        let Spelled {
            bytes,
            part: _part,
            times,
        } = self;
        match times {
            Some(_) => Err(RowFault::Unreadable),
            None => Ok(Blob::from_vec(bytes)),
        }
    }

    /// Reads the text before the first mark, and what is after each mark.
    fn read_parts(&mut self, alloc: Global, text: &str) -> Result<(), RowFault> {
        for (i, part) in text.split('@').enumerate() {
            if i == 0 {
                self.put(part.as_bytes())?;
            } else {
                self.read_part(alloc, part)?;
            }
        }
        Ok(())
    }

    fn put(&mut self, bytes: &[u8]) -> Result<(), RowFault> {
        match self.times {
            Some(_) => self.part.extend_from_slice(bytes)?,
            None => self.bytes.extend_from_slice(bytes)?,
        }
        Ok(())
    }

    /// Reads what is after a mark: digits, how many times a part comes, or its end; and the text after that.
    fn read_part(&mut self, alloc: Global, part: &str) -> Result<(), RowFault> {
        if let Some(digits) = part.strip_prefix('<') {
            let (digits, rest) = digits.split_once('>').ok_or(RowFault::Unreadable)?;
            for word in digits.split(' ') {
                self.put(decode(alloc, word)?.as_slice())?;
            }
            return self.put(rest.as_bytes());
        }
        if let Some(repeated) = part.strip_prefix('(') {
            let (times, rest) = split_word(repeated)?;
            self.times = Some(read_number(times)?);
            return self.put(rest.as_bytes());
        }
        let rest = part.strip_prefix(')').ok_or(RowFault::Unreadable)?;
        let times = self.times.take().ok_or(RowFault::Unreadable)?;
        append_copies(self.part.as_slice(), times, &mut self.bytes)?;
        self.part.clear();
        self.put(rest.as_bytes())
    }
}

/// The bytes of the hexadecimal digits.
pub(crate) fn decode(alloc: Global, digits: &str) -> Result<Vec<u8>, RowFault> {
    match hex::decode(alloc, digits) {
        Ok(bytes) => Ok(bytes),
        Err(FromHexError::OutOfMemory) => Err(RowFault::Memory),
        Err(_) => Err(RowFault::Unreadable),
    }
}

/// The number that the digits of the word spell.
pub fn read_number(word: &str) -> Result<u32, RowFault> {
    word.parse::<u32>().map_err(|_| RowFault::Unreadable)
}

/// Adds the bytes as a text of one line that spells them.
pub(crate) fn put_spelled(out: &mut String, bytes: &[u8]) -> Result<(), Memory> {
    for byte in bytes {
        match *byte {
            b'@' | 0..b' ' | 0x7f..=0xff => write!(out, "@<{byte:02x}>")?,
            _ => out.push(char::from(*byte))?,
        }
    }
    Ok(())
}
