//! Whether a policy passes over a crate.
//! Called by `judge` of `crate_check`; registries and addresses may be asked in either order.
ghost use Rattle.std.specs.Prelude.{◌≡◌, ◌↔◌, true, map, IsTrue, IfOk, Any};
ghost use Rattle.std.specs.List.{list_all, list_any};
ghost use Rattle.graph_core.specs.source.Matching.{Matches};
ghost use Rattle.graph_core.specs.Krate.{has_text, is_private, record_of, SourceMatches};
ghost use Rattle.policy_parts.specs.spec.Index as index;
ghost use Rattle.policy_core.specs.valid.Policy.{IsPrivate};
ghost use Rattle.policy_core.specs.valid.View.{policy_of};
ghost use Rattle.check_core.specs.evaluate.Private as spec;
ghost use Rattle.check_core.specs.evaluate.Private.{MatchesAt, private_numbers};

use deny_text::Text;
use graph_core::Krate;
use graph_core::source::{Source, matches_address};
use policy_core::valid::CountedPolicy;
use policy_parts::spec::NumberIndex;
use policy_parts::spec::number::{mixed, name_number};
use std::alloc::{AllocError, Global};
use std::marker::Model;
use std::sync::ledger::Ledger;
use url::Url;

/// The registries and the addresses of a policy that make a crate private, found by numbers. It keeps neither:
/// its calls take the policy again. A question takes about log2 n comparisons among n of them.
#[derive(Drop)]
pub struct PrivateIndex {
    registries: NumberIndex,
    addresses: NumberIndex,
}

impl Model for PrivateIndex {
    ghost use Rattle.check_core.specs.evaluate.Private.{PrivateNumbers};

    ghost Value = { PrivateNumbers };

    ghost view = { λ index. record { registries = index.registries; addresses = index.addresses } };
}

/// The number of a host and a path.
fn site_number(host: &str, path: &str) -> u64
    ensures { result ≡ spec.site_number host.now path.now }
{
    mixed(name_number(host), name_number(path))
}

fn address_number(address: &Url) -> u64
    ensures { result ≡ spec.address_number address.now }
{
    match address.host_str() {
        Some(host) => site_number(host, address.path()),
        None => site_number("", address.path()),
    }
}

fn index_of_names(alloc: Global, names: &[Text]) -> Result<NumberIndex, AllocError>
    ensures { IfOk result (λ numbers. numbers ≡ map index.name_number names.now) }
{
    let mut numbers = NumberIndex::new(alloc);
    'names: for name in names {
        numbers = numbers.with(alloc, name_number(name.as_str()))?;
    }
    Ok(numbers)
}

fn index_of_addresses(alloc: Global, addresses: &[Url]) -> Result<NumberIndex, AllocError>
    ensures { IfOk result (λ numbers. numbers ≡ map spec.address_number addresses.now) }
{
    let mut numbers = NumberIndex::new(alloc);
    'addresses: for address in addresses {
        numbers = numbers.with(alloc, address_number(address))?;
    }
    Ok(numbers)
}

/// Whether the name at a place is this one.
fn is_at(names: &[Text], place: usize, name: &str) -> bool
    ensures { result ≡ spec.is_at names.now name.now place }
{
    match names.get(place) {
        Some(other) => other.as_str() == name,
        None => false,
    }
}

/// Whether the name at one of some places is this one.
fn is_at_any(names: &[Text], places: &[usize], name: &str) -> bool
    ensures { result ≡ list_any (spec.is_at names.now name.now) places.now }
{
    places.iter().any(|place| is_at(names, *place, name))
}

/// Whether a source is the address at a place, exactly.
fn is_source_at(addresses: &[Url], place: usize, source: &Source) -> bool
    ensures { IsTrue result ↔ MatchesAt source.now addresses.now place }
{
    match addresses.get(place) {
        Some(address) => matches_address(source, address, true),
        None => false,
    }
}

/// Whether a source is an address at one of some places, exactly.
fn is_source_at_any(addresses: &[Url], places: &[usize], source: &Source) -> bool
    ensures { IsTrue result ↔ Any (MatchesAt source.now addresses.now) places.now }
{
    places
        .iter()
        .any(|place| is_source_at(addresses, *place, source))
}

impl PrivateIndex {
    /// The index of a policy.
    pub fn of<L: Ledger>(
        alloc: Global,
        policy: &CountedPolicy<'_, L>,
    ) -> Result<PrivateIndex, AllocError>
        ensures { IfOk result (λ all. all ≡ private_numbers (policy_of policy.now)) }
    {
        let registries = index_of_names(alloc, policy.registries())?;
        let addresses = index_of_addresses(alloc, policy.ignore_sources())?;
        Ok(PrivateIndex {
            registries,
            addresses,
        })
    }

    /// Whether a name is one of the registries.
    fn has(&self, registries: &[Text], name: &str) -> bool
        requires { map index.name_number registries.now ≡ self.now.registries }
        ensures { result ≡ has_text registries.now name.now }
    {
        is_at_any(registries, self.registries.places(name_number(name)), name)
    }

    /// Whether a list has registries alone.
    fn has_all(&self, registries: &[Text], names: &[Text]) -> bool
        requires { map index.name_number registries.now ≡ self.now.registries }
        ensures { result ≡ list_all (has_text registries.now) names.now }
    {
        names.iter().all(|name| self.has(registries, name.as_str()))
    }

    /// Whether a crate is published at most to the registries.
    fn is_kept(&self, registries: &[Text], krate: &Krate) -> bool
        requires { map index.name_number registries.now ≡ self.now.registries }
        ensures { result ≡ is_private registries.now krate.now.publish }
    {
        match &krate.publish {
            Some(names) => self.has_all(registries, names.items()),
            None => false,
        }
    }

    /// Whether a source is one of the addresses with this number, exactly.
    fn is_numbered(&self, addresses: &[Url], number: u64, source: &Source) -> bool
        ensures { IsTrue result ↔ Any (MatchesAt source.now addresses.now) (index.places_of number self.now.addresses) }
    {
        is_source_at_any(addresses, self.addresses.places(number), source)
    }

    /// Whether a source is one of the addresses, exactly.
    fn has_source(&self, addresses: &[Url], source: &Source) -> bool
        requires { map spec.address_number addresses.now ≡ self.now.addresses }
        ensures { IsTrue result ↔ Any (Matches true source.now) addresses.now }
    {
        match source {
            Source::CratesIo(_) => {
                let github = site_number("github.com", "/rust-lang/crates.io-index");
                let sparse = site_number("index.crates.io", "/");
                self.is_numbered(addresses, github, source)
                    || self.is_numbered(addresses, sparse, source)
            }
            Source::Git { url, .. } => self.is_numbered(addresses, address_number(url), source),
            Source::Registry(url) => self.is_numbered(addresses, address_number(url), source),
            Source::Sparse(url) => self.is_numbered(addresses, address_number(url), source),
        }
    }

    /// Whether a crate comes from one of the addresses, exactly.
    fn is_ignored(&self, addresses: &[Url], krate: &Krate) -> bool
        requires { map spec.address_number addresses.now ≡ self.now.addresses }
        ensures { IsTrue result ↔ Any (SourceMatches true krate.now.source) addresses.now }
    {
        match &krate.source {
            None => false,
            Some(source) => self.has_source(addresses, source),
        }
    }

    /// Whether a crate is passed over: private crates are, and it is published at most to private registries,
    /// or comes from one of the addresses exactly.
    pub fn is_private<L: Ledger>(&self, policy: &CountedPolicy<'_, L>, krate: &Krate) -> bool
        requires { private_numbers (policy_of policy.now) ≡ self.now }
        ensures { IsTrue result ↔ IsPrivate (policy_of policy.now) (record_of krate.now) }
    {
        policy.ignores_private()
            && (self.is_kept(policy.registries(), krate)
                || self.is_ignored(policy.ignore_sources(), krate))
    }
}
