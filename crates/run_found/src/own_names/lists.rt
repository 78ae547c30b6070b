//! The catalogue of a run.
//! Made by `lists_at` of found, handed on by deny_run; a name may be asked for twice, no clause counts.
ghost use Rattle.run_found.specs.own_names.Chosen.{lists_chosen, lists_are_catalog};

use spdx_own_names::FileCatalog;
use spdx_terms::catalog::{Catalog, Imprecise, LicenseEntry};

/// The catalogue that was handed in, or that of a file.
#[derive(Drop)]
pub enum ChosenCatalog<'c, C> {
    Given(&'c C),
    Own(FileCatalog),
}

impl<'c, C: Catalog> Catalog for ChosenCatalog<'c, C> {
    ghost lists = { lists_chosen C.lists };

    ghost lawful = { lists_are_catalog C.lists C.lawful };

    fn license(&self, name: &str) -> Option<LicenseEntry> {
        match self {
            ChosenCatalog::Given(catalog) => catalog.license(name),
            ChosenCatalog::Own(listing) => listing.license(name),
        }
    }

    fn exception(&self, name: &str) -> bool {
        match self {
            ChosenCatalog::Given(catalog) => catalog.exception(name),
            ChosenCatalog::Own(listing) => listing.exception(name),
        }
    }

    fn imprecise(&self, text: &str) -> Option<Imprecise<'_>> {
        match self {
            ChosenCatalog::Given(catalog) => catalog.imprecise(text),
            ChosenCatalog::Own(listing) => listing.imprecise(text),
        }
    }
}
