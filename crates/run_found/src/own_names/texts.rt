//! The licence texts of a run.
//! Made by `texts_at` of found, handed on by deny_run; a text may be scanned twice, no clause counts scans.
ghost use Rattle.run_found.specs.own_names.Chosen.{kept_chosen, texts_chosen, texts_within};

use spdx_terms::catalog::{Identifier, LicenseStore, Match, TextLookup};
use std::alloc::{AllocError, Global};

/// The identifier that was handed in, or the one over the texts of a folder.
#[derive(Drop)]
pub enum ChosenIdentifier<'i, I> {
    Given(&'i I),
    Own(LicenseStore),
}

impl<'i, I: Identifier> Identifier for ChosenIdentifier<'i, I> {
    ghost match_of = { texts_chosen I.match_of };

    ghost within_hundred = { texts_within I.match_of I.within_hundred };

    fn scan(&self, alloc: Global, text: &str) -> Result<Match, AllocError> {
        match self {
            ChosenIdentifier::Given(identifier) => identifier.scan(alloc, text),
            ChosenIdentifier::Own(store) => store.scan(alloc, text),
        }
    }
}

impl<'i, I: TextLookup> TextLookup for ChosenIdentifier<'i, I> {
    ghost text_of = { kept_chosen I.text_of };

    fn text(&self, name: &str) -> Option<&str> {
        match self {
            ChosenIdentifier::Given(identifier) => identifier.text(name),
            ChosenIdentifier::Own(store) => store.text(name),
        }
    }
}
