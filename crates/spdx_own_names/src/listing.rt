//! A catalogue that owns its lists.
ghost use Rattle.spdx_terms.specs.catalog.Catalog.{IsCatalog};
ghost use Rattle.spdx_own_names.specs.ListsView.{lists_from};

use crate::entries::LicenseList;
use crate::names::NameList;
use crate::ordered::OrderedMeanings;
use spdx_terms::catalog::{Catalog, Imprecise, LicenseEntry};

/// The catalogue that a file defines. A name and an imprecise text are found without going through all of them.
#[derive(Drop)]
pub struct FileCatalog {
    pub(crate) licenses: LicenseList,
    pub(crate) exceptions: NameList,
    pub(crate) meanings: OrderedMeanings,
    ghost is_catalog: { IsCatalog (lists_from licenses exceptions meanings) },
}

impl Catalog for FileCatalog {
    ghost lists = { λ c. lists_from c.licenses c.exceptions c.meanings };

    ghost lawful = { λ c. c.is_catalog };

    fn license(&self, name: &str) -> Option<LicenseEntry> {
        self.licenses.get(name)
    }

    fn exception(&self, name: &str) -> bool {
        self.exceptions.has(name)
    }

    fn imprecise(&self, text: &str) -> Option<Imprecise<'_>> {
        self.meanings.longest(text)
    }
}
