//! A catalogue that is made at run time and owns its lists, behind functions over any catalogue.
ghost use Rattle.std.specs.Prelude.{◌≡◌, [], ◌∷◌, IfOk, Contains, map, codes, true, false};
ghost use Rattle.spdx_terms.specs.catalog.Catalog.{IsCatalog, entry_of};

use deny_text::{ListOf, Text};
use spdx_terms::catalog::{Catalog, Imprecise, LicenseEntry};
use std::alloc::{AllocError, Global};
use std::test::Fail;

/// A licence name with what is known of it.
#[derive(Drop)]
struct NamedEntry {
    name: Text,
    entry: LicenseEntry,
}

/// A catalogue of licences that were listed when it was made.
#[derive(Drop)]
struct Listing {
    licenses: ListOf<NamedEntry>,
    ghost is_catalog: { IsCatalog (record {
      licenses = map (λ listed. (listed.name, listed.entry)) licenses;
      exceptions = [];
      imprecise = [];
    }) },
}

const OWN: LicenseEntry = LicenseEntry {
    family: 7,
    rank: 10,
    later: false,
    deprecated: false,
    gnu: false,
};

impl Listing {
    /// The catalogue of one licence.
    fn of_own(alloc: Global) -> Result<Listing, AllocError> {
        let name = Text::copy(alloc, "Own-1.0")?;
        let mut licenses = ListOf::new(alloc);
        licenses.push(NamedEntry { name, entry: OWN })?;
        Ok(Listing { licenses })
    }
}

fn entry_among(licenses: &[NamedEntry], name: &str) -> Option<LicenseEntry>
    ensures { result ≡ entry_of (map (λ listed. (listed.name, listed.entry)) licenses.now) name.now }
{
    let (first, rest) = licenses.split_first()?;
    if name == first.name.as_str() {
        return Some(first.entry);
    }
    entry_among(rest, name)
}

impl Catalog for Listing {
    ghost lists = { λ c. record {
      licenses = map (λ listed. (listed.name, listed.entry)) c.licenses;
      exceptions = [];
      imprecise = [];
    } };

    ghost lawful = { λ c. c.is_catalog };

    fn license(&self, name: &str) -> Option<LicenseEntry> {
        entry_among(self.licenses.items(), name)
    }

    fn exception(&self, _name: &str) -> bool {
        false
    }

    fn imprecise(&self, _text: &str) -> Option<Imprecise<'_>> {
        None
    }
}

fn known<C: Catalog>(catalog: &C, name: &str) -> Option<LicenseEntry> {
    catalog.license(name)
}

fn is_exception<C: Catalog>(catalog: &C, name: &str) -> bool {
    catalog.exception(name)
}

fn beginning<'c, C: Catalog>(catalog: &'c C, text: &str) -> Option<Imprecise<'c>> {
    catalog.imprecise(text)
}

#[test]
fn owns_its_lists(rt: HostRuntime) -> Result<(), Fail> {
    let listing = Listing::of_own(rt.alloc())?;
    assert_eq!(rt; known(&listing, "Own-1.0"), Some(OWN));
    assert_eq!(rt; known(&listing, "MIT"), None);
    assert!(rt; !is_exception(&listing, "LLVM-exception"));
    assert!(rt; beginning(&listing, "mit").is_none());
    Ok(())
}
