ghost use Rattle.std.specs.Prelude.{◌≡◌, [], option_copied, None, Some, IfOk, IfSome, OnErr, OnOk};
ghost use Rattle.std.specs.Cow.{cow_slice_items};
ghost use Rattle.std.specs.Map.{values_of};
ghost use Rattle.key_map.specs.Keys.{number_at, IsRising, Sets};
ghost use Rattle.pred_eval.specs.Host.{asked_host, NeedsHost};
ghost use Rattle.live_index.specs.Slots.{numbers_of_value};

use ev_types::{Memory, Text, Value};
use key_map::KeyMap;
use list_laws::Ids;
use pred_eval::Pred;
use std::alloc::Global;
use std::borrow::CowSlice;
use std::marker::Model;

/// A map from keys to numbers that keeps the list of its numbers in key order, once that was asked for.
#[derive(Drop)]
pub(crate) struct OrderedKeys {
    keys: KeyMap,
    // When a key is added or removed, the list is dropped and its memory given back.
    order: Option<Ids>,
}

impl Model for OrderedKeys {
    ghost use Rattle.std.specs.Prelude.{◌≡◌, ℕ, List, Option, IfSome};
    ghost use Rattle.std.specs.Map.{values_of};
    ghost use Rattle.key_map.specs.Keys.{IsRising};

    ghost Value = { List ((Option (List ℕ) × Option (List ℕ)) × ℕ) };

    ghost view = { λ ordered. ordered.keys };

    ghost invariant = { λ ordered. IsRising ordered.keys
        × IfSome ordered.order (λ order. order ≡ values_of ordered.keys) };
}

impl OrderedKeys {
    /// The map without keys. It takes no memory.
    pub(crate) fn fresh(alloc: Global) -> OrderedKeys
        ensures { result ≡ [] }
    {
        OrderedKeys {
            keys: KeyMap::fresh(alloc),
            order: None,
        }
    }

    /// The number of the key. It takes no memory.
    pub(crate) fn get(&self, host: Option<&Text>, service: Option<&Text>) -> Option<usize>
        ensures number { result
            ≡ number_at (option_copied host.entry, option_copied service.entry) self.now }
        ensures rising { IsRising self.now }
    {
        self.keys.get(host, service)
    }

    /// Sets the number of the key, in place of the one that it had.
    pub(crate) fn insert(
        &mut self,
        alloc: Global,
        host: Option<Text>,
        service: Option<Text>,
        number: usize,
    ) -> Result<(), Memory>
        ensures ok { OnOk result (Sets self.old self.new (host, service) (Some number)) }
        ensures err { OnErr result (self.new ≡ self.old) }
        ensures rising { IsRising self.new }
    {
        self.order = None;
        self.keys.insert(alloc, host, service, number)
    }

    /// Removes the key, if it has a number, and gives that. It takes no memory.
    pub(crate) fn remove(&mut self, host: Option<&Text>, service: Option<&Text>) -> Option<usize>
        ensures number { result
            ≡ number_at (option_copied host.entry, option_copied service.entry) self.old }
        ensures removed { Sets self.old self.new
            (option_copied host.entry, option_copied service.entry)
            None }
        ensures rising { IsRising self.new }
    {
        let number = self.keys.remove(host, service)?;
        self.order = None;
        Some(number)
    }

    /// Lists the numbers in key order, unless that is done, or the predicate asks for a host.
    pub(crate) fn list_for(&mut self, alloc: Global, pred: &Pred) -> Result<(), Memory>
        ensures { self.new ≡ self.old }
    {
        if pred.asked_host().is_none() && self.order.is_none() {
            self.order = Some(self.keys.numbers(alloc)?);
        }
        Ok(())
    }

    /// The numbers of the events that may meet the predicate, in order.
    pub(crate) fn numbers_for(
        &self,
        alloc: Global,
        pred: &Pred,
    ) -> Result<CowSlice<'_, usize>, Memory>
        ensures numbers { IfOk result (λ numbers. cow_slice_items numbers
            ≡ values_of (numbers_of_value (asked_host pred.now) self.now)) }
        ensures needs { IfSome (asked_host pred.now) (NeedsHost pred.now) }
    {
        match pred.asked_host() {
            Some(host) => Ok(CowSlice::Owned(self.host_numbers(alloc, host)?.into_vec())),
            None => self.all_numbers(alloc),
        }
    }

    /// All numbers, in key order.
    fn all_numbers(&self, alloc: Global) -> Result<CowSlice<'_, usize>, Memory>
        ensures { IfOk result (λ numbers. cow_slice_items numbers ≡ values_of self.now) }
    {
        match &self.order {
            Some(order) => Ok(CowSlice::Borrowed(order.as_slice())),
            None => Ok(CowSlice::Owned(self.keys.numbers(alloc)?.into_vec())),
        }
    }

    /// The numbers of the events whose host is the value, in order. No host is a number.
    fn host_numbers(&self, alloc: Global, host: &Value) -> Result<Ids, Memory>
        ensures { IfOk result (λ numbers. numbers
            ≡ values_of (numbers_of_value (Some host.now) self.now)) }
    {
        match host {
            Value::Text(host) => self.keys.host_numbers(alloc, Some(host)),
            Value::Nil => self.keys.host_numbers(alloc, None),
            Value::Number(_) => Ok(Ids::fresh(alloc)),
        }
    }
}
