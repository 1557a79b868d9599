ghost use Rattle.std.specs.Prelude.{◌≡◌, ◌<◌, [], ◌∷◌, ◌++◌, length, slice_index_or, map, IfOk, OnOk, OnErr, Some, refl};
ghost use Rattle.std.specs.Hash as fed;
ghost use Rattle.std.specs.Hash.{items_Alike};
ghost use Rattle.std.specs.Cmp.{partial_equiv_from_equiv, po};
ghost use Rattle.std.specs.Cmp.Lexicographic.{lists_equiv, lists_total, lists_ties};
ghost use Rattle.ev_types.specs.contracts.value.ValueEq.TheImpl.Laws.{laws-law as same_value_equivalence};
ghost use Rattle.ev_types.specs.contracts.value.ValueOrd.TheImpl.Laws.{total-law as value_total, matches_eq-law as value_ties};
ghost use Rattle.ev_types.specs.contracts.value.ValueHash.TheImpl.Laws.{respects_eq-law as same_values_feed_alike};
ghost use Rattle.ev_types.specs.Value.{value_cmp, value_input};
ghost use Rattle.ev_types.specs.Field.{field_value};
ghost use Rattle.ev_types.specs.Key.{same_key, key_cmp, event_key, SameKeysAreEqual};

use crate::field::lend_field;
use crate::{Event, Fields, Memory, Value};
use std::alloc::Global;
use std::cmp::Ordering;
use std::hash::{Hash, Hasher};
use std::marker::Model;

/// A list of values by which events are told apart. Keys are ordered part by part, and a key comes before a longer one
/// that begins with it.
pub struct Key {
    parts: Vec<Value>,
}

impl Drop for Key {
    fn drop(self) {
        let Key { parts: _parts } = self;
    }
}

impl Model for Key {
    ghost use Rattle.std.specs.Prelude.{List};
    ghost use Rattle.ev_types.specs.declared.value.Value.{Value as Part};

    ghost Value = { List Part };

    ghost view = { λ key. key.parts.items };
}

/// Keys are told apart exactly where they differ.
pub fn same_keys_are_equal()
    ensures { SameKeysAreEqual }
{}

impl Key {
    /// The key of no parts. It takes no memory.
    pub fn fresh(alloc: Global) -> Key
        ensures { result ≡ [] }
    {
        Key {
            parts: Vec::new(alloc),
        }
    }

    /// The key of the vector's values, with no copy.
    pub fn from_vec(parts: Vec<Value>) -> Key
        ensures { result ≡ parts.items }
    {
        Key { parts }
    }

    /// The parts as a vector, with no copy.
    pub fn into_vec(self) -> Vec<Value>
        ensures { result.items ≡ self }
    {
        let Key { parts } = self;
        parts
    }

    pub fn as_slice(&self) -> &[Value]
        ensures { result.now ≡ self.now }
    {
        self.parts.as_slice()
    }

    pub fn len(&self) -> usize
        ensures { result ≡ length self.now }
    {
        self.parts.len()
    }

    pub fn get(&self, i: usize) -> &Value
        requires { i < length self.now }
        ensures { result.now ≡ slice_index_or self.now i result.now }
    {
        &self.parts[i]
    }

    /// Adds the value at the end.
    pub fn push(&mut self, _alloc: Global, part: Value) -> Result<(), Memory>
        ensures ok { OnOk result (self.new ≡ self.old ++ part ∷ []) }
        ensures err { OnErr result (self.new ≡ self.old) }
    {
        self.parts.push(part)?;
        Ok(())
    }

    /// An equal key, in memory of its own.
    pub fn copy(&self, alloc: Global) -> Result<Key, Memory>
        ensures { IfOk result (λ key. key ≡ self.now) }
    {
        let parts = self.parts.as_slice();
        let mut copied = Vec::with_capacity(alloc, parts.len())?;
        for part in parts {
            copied.push(part.copy(alloc)?)?;
        }
        Ok(Key { parts: copied })
    }
}

/// The values that the event holds in the fields, in the order of the fields.
pub fn key_of(alloc: Global, event: &Event, fields: &Fields) -> Result<Key, Memory>
    ensures { IfOk result (λ key. key ≡ event_key event.now fields.now) }
{
    let fields = fields.as_slice();
    let mut parts = Vec::with_capacity(alloc, fields.len())?;
    for field in fields {
        parts.push(lend_field(event, field).copy(alloc)?)?;
    }
    Ok(Key { parts })
}

impl PartialEq for Key {
    ghost eq = { same_key };

    ghost laws = { partial_equiv_from_equiv (lists_equiv same_value_equivalence) };

    fn eq(&self, other: &Key) -> bool {
        self.parts == other.parts
    }
}

impl Eq for Key {
    ghost laws = { lists_equiv same_value_equivalence };
}

impl PartialOrd for Key {
    ghost partial_cmp = { λ a b. Some (key_cmp a b) };

    ghost laws = { po (lists_total value_total) (lists_ties value_cmp value_ties) };

    fn partial_cmp(&self, other: &Key) -> Option<Ordering> {
        Some(self.cmp(other))
    }
}

impl Ord for Key {
    ghost cmp = { key_cmp };

    ghost total = { lists_total value_total };

    ghost matches_partial_cmp = { λ a b. refl };

    ghost matches_eq = { lists_ties value_cmp value_ties };

    fn cmp(&self, other: &Key) -> Ordering {
        self.parts.cmp(&other.parts)
    }
}

impl Hash for Key {
    ghost hash_input = { fed.slice value_input };

    ghost respects_eq = { (items_Alike (record { fed = same_values_feed_alike })).fed };

    fn hash<H: Hasher>(&self, state: &mut H) {
        self.parts.hash(state);
    }
}
