ghost use Rattle.std.specs.Prelude.{◌≡◌, ◌≢◌, [], ◌++◌, option_copied, true, false, None, Some, OnOk, OnErr};
ghost use Rattle.std.specs.Map.{values_of};
ghost use Rattle.key_map.specs.Sections.{service_at, services_of, ServicesRise, SetsService};

use ev_types::{Memory, Text};
use list_laws::Ids;
use std::alloc::Global;
use std::collections::BTreeMap;
use std::marker::Model;

/// The numbers of a host's services. A service may be absent, and an absent one comes first.
pub(crate) struct Services {
    absent: Option<usize>,
    present: BTreeMap<Text, usize>,
}

impl Drop for Services {
    fn drop(self) {
        let Services {
            absent: _absent,
            present: _present,
        } = self;
    }
}

impl Model for Services {
    ghost use Rattle.std.specs.Prelude.{ℕ, List, Option};
    ghost use Rattle.std.specs.List.Sorted.{IsStrictlySortedBy};
    ghost use Rattle.std.specs.Map.{keys_of};
    ghost use Rattle.std.specs.Ordering.{nat_cmp};
    ghost use Rattle.std.specs.Cmp.Lexicographic.{slice_cmp};
    ghost use Rattle.key_map.specs.Sections.{services_of};

    ghost Value = { List (Option (List ℕ) × ℕ) };

    ghost view = { λ services. services_of services.absent services.present.entries };

    ghost invariant = { λ services. IsStrictlySortedBy (slice_cmp nat_cmp)
        (keys_of services.present.entries) };
}

impl Services {
    /// No services. It takes no memory.
    pub(crate) fn fresh(alloc: Global) -> Services
        ensures { result ≡ [] }
    {
        Services {
            absent: None,
            present: BTreeMap::new(alloc),
        }
    }

    /// The number of the service. It takes no memory.
    pub(crate) fn get(&self, service: Option<&Text>) -> Option<usize>
        ensures { result ≡ service_at (option_copied service.entry) self.now }
    {
        match service {
            Some(service) => self.present.get(service).copied(),
            None => self.absent,
        }
    }

    /// Sets the number of the service, in place of the one that it had.
    pub(crate) fn insert(&mut self, service: Option<Text>, number: usize) -> Result<(), Memory>
        ensures ok { OnOk result (SetsService self.old self.new service (Some number)) }
        ensures err { OnErr result (self.new ≡ self.old) }
        ensures rising { ServicesRise self.new }
    {
        let Some(service) = service else {
            self.absent = Some(number);
            return Ok(());
        };
        self.present.insert(service, number)?;
        Ok(())
    }

    /// Removes the service, if it has a number, and gives that. It takes no memory.
    pub(crate) fn remove(&mut self, service: Option<&Text>) -> Option<usize>
        ensures number { result ≡ service_at (option_copied service.entry) self.old }
        ensures removed { SetsService self.old self.new (option_copied service.entry) None }
        ensures rising { ServicesRise self.new }
    {
        match service {
            Some(service) => self.present.remove(service),
            None => self.absent.take(),
        }
    }

    pub(crate) fn is_empty(&self) -> bool
        ensures empty { result ≡ true → self.now ≡ [] }
        ensures full { result ≡ false → self.now ≢ [] }
    {
        match self.absent {
            Some(_) => false,
            None => self.present.is_empty(),
        }
    }

    /// Appends the numbers in the order of their services.
    pub(crate) fn append_numbers(&self, alloc: Global, out: &mut Ids) -> Result<(), Memory>
        ensures ok { OnOk result (out.new ≡ out.old ++ values_of self.now) }
        ensures rising { ServicesRise self.now }
    {
        append_absent(alloc, self.absent, out)?;
        append_values(alloc, &self.present, out)?;
        Ok(())
    }
}

/// Appends the number, if there is one.
fn append_absent(alloc: Global, absent: Option<usize>, out: &mut Ids) -> Result<(), Memory>
    ensures { OnOk result (out.new ≡ out.old ++ values_of (services_of absent [])) }
{
    if let Some(number) = absent {
        out.push(alloc, number)?;
    }
    Ok(())
}

/// Appends the numbers in the order of their texts.
fn append_values(
    alloc: Global,
    present: &BTreeMap<Text, usize>,
    out: &mut Ids,
) -> Result<(), Memory>
    ensures { OnOk result (out.new ≡ out.old ++ values_of present.now.entries) }
{
    for number in present.values() {
        out.push(alloc, *number)?;
    }
    Ok(())
}
