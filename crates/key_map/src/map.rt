ghost use Rattle.std.specs.Prelude.{◌≡◌, ◌≢◌, [], ◌++◌, true, false, option_copied, None, Some, IfOk, OnOk, OnErr};
ghost use Rattle.std.specs.Map.{values_of};
ghost use Rattle.key_map.specs.Keys.{number_at, CountsHosts, IsRising, Sets, of_host};
ghost use Rattle.key_map.specs.Sections.{by_key, host_at, HaveServices, OthersHaveServices, SectionsRise, SetsIn, SameIn, services_at};

use crate::services::Services;
use ev_types::{Memory, Text};
use list_laws::Ids;
use std::alloc::Global;
use std::collections::BTreeMap;
use std::marker::Model;

/// A map from keys to numbers. A key is a host and a service, each of which may be absent. Keys are in order: by host,
/// then by service, absent before present.
#[derive(Drop)]
pub struct KeyMap {
    // The numbers of the keys without a host.
    without_host: Services,
    hosts: BTreeMap<Text, Services>,
}

impl Model for KeyMap {
    ghost use Rattle.std.specs.Prelude.{ℕ, List, Option};
    ghost use Rattle.key_map.specs.Sections.{numbers_of, AreSections};

    ghost Value = { List ((Option (List ℕ) × Option (List ℕ)) × ℕ) };

    ghost view = { λ map. numbers_of map.without_host map.hosts.entries };

    ghost invariant = { λ map. AreSections map.without_host map.hosts.entries };
}

impl KeyMap {
    /// The map without keys. It takes no memory.
    pub fn fresh(alloc: Global) -> KeyMap
        ensures { result ≡ [] }
    {
        KeyMap {
            without_host: Services::fresh(alloc),
            hosts: BTreeMap::new(alloc),
        }
    }

    /// The number of the key. It takes no memory.
    pub fn get(&self, host: Option<&Text>, service: Option<&Text>) -> Option<usize>
        ensures number { result
            ≡ number_at (option_copied host.entry, option_copied service.entry) self.now }
        ensures rising { IsRising self.now }
    {
        match host {
            Some(host) => get_at(&self.hosts, host, service),
            None => self.without_host.get(service),
        }
    }

    /// Sets the number of the key, in place of the one that it had.
    pub fn insert(
        &mut self,
        alloc: Global,
        host: Option<Text>,
        service: Option<Text>,
        number: usize,
    ) -> Result<(), Memory>
        ensures ok { OnOk result (Sets self.old self.new (host, service) (Some number)) }
        ensures err { OnErr result (self.new ≡ self.old) }
        ensures rising { IsRising self.new }
    {
        match host {
            Some(host) => insert_at(alloc, &mut self.hosts, host, service, number)?,
            None => self.without_host.insert(service, number)?,
        }
        Ok(())
    }

    /// Removes the key, if it has a number, and gives that. It takes no memory.
    pub fn remove(&mut self, host: Option<&Text>, service: Option<&Text>) -> Option<usize>
        ensures number { result
            ≡ number_at (option_copied host.entry, option_copied service.entry) self.old }
        ensures removed { Sets self.old self.new
            (option_copied host.entry, option_copied service.entry)
            None }
        ensures rising { IsRising self.new }
    {
        match host {
            Some(host) => remove_at(&mut self.hosts, host, service),
            None => self.without_host.remove(service),
        }
    }

    /// How many hosts the map keeps. A host is kept while it has a key.
    pub fn host_count(&self) -> usize
        ensures { CountsHosts result self.now }
    {
        self.hosts.len()
    }

    /// All numbers, in key order.
    pub fn numbers(&self, alloc: Global) -> Result<Ids, Memory>
        ensures { IfOk result (λ numbers. numbers ≡ values_of self.now) }
    {
        let mut numbers = Ids::fresh(alloc);
        self.without_host.append_numbers(alloc, &mut numbers)?;
        append_all(alloc, &self.hosts, &mut numbers)?;
        Ok(numbers)
    }

    /// The numbers of the keys with this host, in key order.
    pub fn host_numbers(&self, alloc: Global, host: Option<&Text>) -> Result<Ids, Memory>
        ensures { IfOk result (λ numbers. numbers
            ≡ values_of (of_host (option_copied host.entry) self.now)) }
    {
        let mut numbers = Ids::fresh(alloc);
        self.append_host(alloc, host, &mut numbers)?;
        Ok(numbers)
    }

    /// Appends the numbers of the keys with this host, in key order.
    fn append_host(&self, alloc: Global, host: Option<&Text>, out: &mut Ids) -> Result<(), Memory>
        ensures { OnOk result (out.new ≡ out.old
            ++ values_of (of_host (option_copied host.entry) self.now)) }
    {
        match host {
            Some(host) => append_at(alloc, &self.hosts, host, out),
            None => self.without_host.append_numbers(alloc, out),
        }
    }
}

/// The number of the host's service.
fn get_at(hosts: &BTreeMap<Text, Services>, host: &Text, service: Option<&Text>) -> Option<usize>
    ensures { result ≡ host_at host.now (option_copied service.entry) hosts.now.entries }
{
    hosts.get(host)?.get(service)
}

/// Sets the number of the host's service.
fn insert_at(
    alloc: Global,
    hosts: &mut BTreeMap<Text, Services>,
    host: Text,
    service: Option<Text>,
    number: usize,
) -> Result<(), Memory>
    ensures ok { OnOk result
        (SetsIn hosts.old.entries hosts.new.entries host service (Some number)) }
    ensures err { OnErr result (hosts.new.entries ≡ hosts.old.entries) }
    ensures rising { SectionsRise hosts.old.entries → SectionsRise hosts.new.entries }
    ensures full { HaveServices hosts.old.entries → HaveServices hosts.new.entries }
{
    if let Some(services) = hosts.get_mut(&host) {
        return services.insert(service, number);
    }
    let mut services = Services::fresh(alloc);
    services.insert(service, number)?;
    hosts.insert(host, services)?;
    Ok(())
}

/// Removes the host's service, and the host with its last service.
fn remove_at(
    hosts: &mut BTreeMap<Text, Services>,
    host: &Text,
    service: Option<&Text>,
) -> Option<usize>
    ensures number { result ≡ host_at host.now (option_copied service.entry) hosts.old.entries }
    ensures removed { SetsIn hosts.old.entries hosts.new.entries host.now
        (option_copied service.entry)
        None }
    ensures rising { SectionsRise hosts.old.entries → SectionsRise hosts.new.entries }
    ensures full { HaveServices hosts.old.entries → HaveServices hosts.new.entries }
{
    let number = remove_service(hosts, host, service);
    remove_empty(hosts, host);
    number
}

/// Removes the host's service.
fn remove_service(
    hosts: &mut BTreeMap<Text, Services>,
    host: &Text,
    service: Option<&Text>,
) -> Option<usize>
    ensures number { result ≡ host_at host.now (option_copied service.entry) hosts.old.entries }
    ensures removed { SetsIn hosts.old.entries hosts.new.entries host.now
        (option_copied service.entry)
        None }
    ensures rising { SectionsRise hosts.old.entries → SectionsRise hosts.new.entries }
    ensures others { HaveServices hosts.old.entries
        → OthersHaveServices host.now hosts.new.entries }
{
    let Some(services) = hosts.get_mut(host) else {
        return None;
    };
    services.remove(service)
}

/// Removes the host where it has no services.
fn remove_empty(hosts: &mut BTreeMap<Text, Services>, host: &Text)
    ensures same { SameIn hosts.old.entries hosts.new.entries }
    ensures rising { SectionsRise hosts.old.entries → SectionsRise hosts.new.entries }
    ensures full { OthersHaveServices host.now hosts.old.entries
        → HaveServices hosts.new.entries }
{
    if is_empty_at(hosts, host) {
        hosts.remove(host);
    }
}

/// Whether the host is there and has no services.
fn is_empty_at(hosts: &BTreeMap<Text, Services>, host: &Text) -> bool
    ensures empty { result ≡ true → services_at host.now hosts.now.entries ≡ Some [] }
    ensures full { result ≡ false → services_at host.now hosts.now.entries ≢ Some [] }
{
    match hosts.get(host) {
        Some(services) => services.is_empty(),
        None => false,
    }
}

/// Appends the numbers of the host's services.
fn append_at(
    alloc: Global,
    hosts: &BTreeMap<Text, Services>,
    host: &Text,
    out: &mut Ids,
) -> Result<(), Memory>
    ensures { OnOk result (SectionsRise hosts.now.entries →
        out.new ≡ out.old ++ values_of (of_host (Some host.now) (by_key hosts.now.entries))) }
{
    match hosts.get(host) {
        Some(services) => services.append_numbers(alloc, out),
        None => Ok(()),
    }
}

/// Appends the numbers of all hosts, in order.
fn append_all(alloc: Global, hosts: &BTreeMap<Text, Services>, out: &mut Ids) -> Result<(), Memory>
    ensures { OnOk result (out.new ≡ out.old ++ values_of (by_key hosts.now.entries)) }
{
    for services in hosts.values() {
        services.append_numbers(alloc, out)?;
    }
    Ok(())
}
