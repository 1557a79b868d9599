ghost use Rattle.std.specs.Prelude.{◌<◌, length, IfSome};

use std::alloc::{AllocError, Global};

/// How many buckets there are at first. The count is doubled from there on, so it is a power of two.
const FIRST_BUCKETS: usize = 4;

/// How many keys there are for each bucket, at most.
const KEYS_A_BUCKET: usize = 2;

/// Numbers of keys, by the hashes of these. A hint may be wrong, so the caller compares the key under that number, and
/// if it is another one, looks the key up as without hints. They take at most 32 bytes for each key, and 128 at least.
pub struct Hints {
    // The low bits of a hash are the index of its bucket.
    buckets: Vec<Bucket>,
}

impl Drop for Hints {
    fn drop(self) {
        let Hints { buckets: _buckets } = self;
    }
}

/// The last hints that were noted for the hashes of a bucket, the latest one first.
#[derive(Clone, Copy)]
struct Bucket {
    hints: [Hint; 4],
}

/// A number, and the high half of the hash for which it was noted. Both are 0 if nothing was noted.
#[derive(Clone, Copy)]
struct Hint {
    tag: u32,
    number: u32,
}

/// A bucket in which nothing was noted.
const EMPTY: Bucket = Bucket {
    hints: [Hint { tag: 0, number: 0 }; 4],
};

impl Hints {
    /// No hints. It takes no memory.
    pub fn fresh(alloc: Global) -> Hints {
        Hints {
            buckets: Vec::new(alloc),
        }
    }

    /// The number that was noted last for the hash, or for another one that is much like it.
    #[inline]
    pub fn number(&self, hash: u64) -> Option<usize> {
        let index = self.bucket(hash)?;
        let tag = tag_of(hash);
        let hint = self.buckets[index]
            .hints
            .iter()
            .find(|hint| hint.tag == tag)?;
        Some(hint.number as usize)
    }

    /// Notes the number for the hash. One of 2^32 or more is left out.
    pub fn note(&mut self, hash: u64, number: usize) {
        let Ok(number) = u32::try_from(number) else {
            return;
        };
        let Some(index) = self.bucket(hash) else {
            return;
        };
        let tag = tag_of(hash);
        let [first, second, third, _] = self.buckets[index].hints;
        self.buckets[index] = Bucket {
            hints: [Hint { tag, number }, first, second, third],
        };
    }

    /// Doubles the buckets if they are too few for `count` keys. A hash's bucket is then its old one, or that plus the
    /// old count, so both halves get a copy of the old buckets. If memory runs out, nothing changes.
    pub fn reserve(&mut self, alloc: Global, count: usize) {
        if count <= self.buckets.len().saturating_mul(KEYS_A_BUCKET) {
            return;
        }
        if let Ok(buckets) = self.doubled(alloc) {
            self.buckets = buckets;
        }
    }

    /// The buckets twice, one copy after the other, or the first buckets.
    fn doubled(&self, alloc: Global) -> Result<Vec<Bucket>, AllocError> {
        if self.buckets.is_empty() {
            return vec![in alloc; EMPTY; FIRST_BUCKETS];
        }
        let mut buckets = Vec::with_capacity(alloc, self.buckets.len().saturating_mul(2))?;
        buckets.extend_from_slice(&self.buckets)?;
        buckets.extend_from_slice(&self.buckets)?;
        Ok(buckets)
    }

    /// The index of the hash's bucket, if there are buckets.
    #[inline]
    fn bucket(&self, hash: u64) -> Option<usize>
        ensures { IfSome result (λ index. index < length self.now.buckets.items) }
    {
        let mask = self.buckets.len().checked_sub(1)?;
        Some(hash as usize & mask)
    }
}

/// The high half of the hash.
#[inline]
fn tag_of(hash: u64) -> u32 {
    (hash >> 32) as u32
}
