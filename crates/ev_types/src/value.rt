ghost use Rattle.std.specs.Prelude.{◌≡◌, IfOk, Some, refl};
ghost use Rattle.std.specs.Cmp.{partial_equiv_from_equiv, and_equiv, on_equiv, int_eq_equiv, po, then_total, on_total, int_cmp_total, both_tied, total, ties};
ghost use Rattle.std.specs.Cmp.Lexicographic.{options_equiv, options_total, nat_list_eq_equiv, nat_list_cmp_total, texts_ties};
ghost use Rattle.std.specs.Hash.{and-Alike, on_Alike};
ghost use Rattle.std.specs.Option.{option_eq, option_cmp};
ghost use Rattle.std.specs.Ordering.{nat_cmp, int_cmp, int_eq, on};
ghost use Rattle.std.specs.Cmp.Lexicographic.{slice_cmp};
ghost use Rattle.std.specs.Str.{bytes_eq};
ghost use Rattle.std.proofs.Common.{rules};
ghost use Rattle.ev_types.specs.Value.{number_of, text_of, same_value, value_cmp, text_input, number_input, value_input, referred, SameValuesAreEqual, ValuesAreOrdered};

use crate::{Memory, Text};
use std::alloc::Global;
use std::cmp::Ordering;
use std::hash::{Hash, Hasher};

/// What a field of an event holds. Values are ordered: nil, then numbers, then texts by their bytes.
#[derive(Debug)]
pub enum Value {
    /// The field is absent.
    Nil,
    Number(i64),
    Text(Text),
}

impl Drop for Value {
    fn drop(self) {
        match self {
            Value::Nil => {}
            Value::Number(_number) => {}
            Value::Text(_text) => {}
        }
    }
}

/// A value that is lent.
#[derive(Clone, Copy)]
pub(crate) enum ValueRef<'a> {
    Nil,
    Number(i64),
    Text(&'a Text),
}

/// Values are told apart exactly where they differ, and are in the order that is said of [`Value`].
pub fn values_are_ordered()
    ensures same { SameValuesAreEqual }
    ensures ordered { ValuesAreOrdered }
{}

impl Value {
    /// An equal value, in memory of its own.
    pub fn copy(&self, alloc: Global) -> Result<Value, Memory>
        ensures { IfOk result (λ value. value ≡ self.now) }
    {
        self.lend().copy(alloc)
    }

    pub(crate) fn lend(&self) -> ValueRef<'_>
        ensures { referred result ≡ self.now }
    {
        match self {
            Value::Nil => ValueRef::Nil,
            Value::Number(number) => ValueRef::Number(*number),
            Value::Text(text) => ValueRef::Text(text),
        }
    }
}

impl<'a> ValueRef<'a> {
    pub(crate) fn copy(self, alloc: Global) -> Result<Value, Memory>
        ensures { IfOk result (λ value. value ≡ referred self.entry) }
    {
        match self {
            ValueRef::Nil => Ok(Value::Nil),
            ValueRef::Number(number) => Ok(Value::Number(number)),
            ValueRef::Text(text) => Ok(Value::Text(text.copy(alloc)?)),
        }
    }

    pub(crate) fn is(self, other: ValueRef<'_>) -> bool
        ensures { result ≡ same_value (referred self.entry) (referred other.entry) }
    {
        match (self, other) {
            (ValueRef::Nil, ValueRef::Nil) => true,
            (ValueRef::Number(a), ValueRef::Number(b)) => a == b,
            (ValueRef::Text(a), ValueRef::Text(b)) => a == b,
            _ => false,
        }
    }
}

impl PartialEq for Value {
    ghost eq = { same_value };

    ghost laws = { partial_equiv_from_equiv
        (and_equiv (on_equiv text_of (options_equiv nat_list_eq_equiv))
        (on_equiv number_of (options_equiv int_eq_equiv))) };

    fn eq(&self, other: &Value) -> bool {
        self.lend().is(other.lend())
    }
}

impl Eq for Value {
    ghost laws = { and_equiv (on_equiv text_of (options_equiv nat_list_eq_equiv))
        (on_equiv number_of (options_equiv int_eq_equiv)) };
}

impl PartialOrd for Value {
    ghost partial_cmp = { λ a b. Some (value_cmp a b) };

    ghost laws = { po
        (then_total (on_total text_of (options_total nat_list_cmp_total))
        (on_total number_of (options_total int_cmp_total)))
        (λ a b.
        both_tied (on text_of (option_eq bytes_eq) a b) (on number_of (option_eq int_eq) a b)
        (on text_of (option_cmp (slice_cmp nat_cmp)) a b) (on number_of (option_cmp int_cmp) a b)
        (Prim.search (rules, texts_ties)) (Prim.search rules)) };

    fn partial_cmp(&self, other: &Value) -> Option<Ordering> {
        Some(self.cmp(other))
    }
}

impl Ord for Value {
    ghost use Rattle.ev_types.specs.contracts.value.ValuePartialOrd.TheImpl.Laws.{laws-law as value_order};

    ghost cmp = { value_cmp };

    ghost total = { total value_order (λ a b. refl) };

    ghost matches_partial_cmp = { λ a b. refl };

    ghost matches_eq = { ties value_order (λ a b. refl) };

    fn cmp(&self, other: &Value) -> Ordering {
        match (self, other) {
            (Value::Nil, Value::Nil) => Ordering::Equal,
            (Value::Nil, _) | (Value::Number(_), Value::Text(_)) => Ordering::Less,
            (Value::Number(a), Value::Number(b)) => a.cmp(b),
            (Value::Text(a), Value::Text(b)) => a.cmp(b),
            (Value::Number(_), Value::Nil) | (Value::Text(_), _) => Ordering::Greater,
        }
    }
}

impl Hash for Value {
    ghost hash_input = { value_input };

    ghost respects_eq = { (and-Alike
        (on_Alike text_of {E = option_eq bytes_eq} {F = text_input}
        (record { fed = Prim.search rules }))
        (on_Alike number_of {E = option_eq int_eq} {F = number_input}
        (record { fed = Prim.search rules }))).fed };

    fn hash<H: Hasher>(&self, state: &mut H) {
        match self {
            Value::Nil => {}
            Value::Number(number) => number.hash(state),
            Value::Text(text) => text.hash(state),
        }
    }
}
