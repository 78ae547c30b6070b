//! Licences by their names.
ghost use Rattle.std.specs.Prelude.{◌≡◌, [], ◌∷◌, ◌++◌, IfOk, None};
ghost use Rattle.spdx_terms.specs.catalog.Catalog.{entry_of, names_of};
ghost use Rattle.spdx_own_names.specs.File.{is_among};

use deny_text::{ListOf, Text, TextMap};
use spdx_terms::catalog::LicenseEntry;
use std::alloc::{AllocError, Global};
use std::marker::Model;

/// A licence name with what is known of it.
#[derive(Drop)]
pub(crate) struct NamedEntry {
    pub(crate) name: Text,
    pub(crate) entry: LicenseEntry,
}

/// Licences in order, no two of one name. A look-up and a further licence among n take about log2 n comparisons.
#[derive(Drop)]
pub(crate) struct LicenseList {
    listed: ListOf<NamedEntry>,
    entries: TextMap<LicenseEntry>,
}

impl Model for LicenseList {
    ghost use Rattle.std.specs.Prelude.{ℕ, List};
    ghost use Rattle.spdx_terms.specs.declared.catalog.catalog.LicenseEntry.{LicenseEntry};
    ghost use Rattle.spdx_own_names.specs.IndexView.{entries_listed};
    ghost use Rattle.spdx_own_names.specs.Index.{HasEntries};

    ghost Value = { List (List ℕ × LicenseEntry) };

    ghost view = { λ l. entries_listed l.listed };

    ghost invariant = { λ l. HasEntries l.entries (entries_listed l.listed) };
}

impl LicenseList {
    /// No licence.
    pub(crate) fn new(alloc: Global) -> LicenseList
        ensures { result ≡ [] }
    {
        LicenseList {
            listed: ListOf::new(alloc),
            entries: TextMap::new(alloc),
        }
    }

    /// What is known of a name.
    pub(crate) fn get(&self, name: &str) -> Option<LicenseEntry>
        ensures { result ≡ entry_of self.now name.now }
    {
        self.entries.get(name).copied()
    }

    /// Whether a name is one of theirs.
    pub(crate) fn has(&self, name: &str) -> bool
        ensures { result ≡ is_among name.now (names_of self.now) }
    {
        self.entries.get(name).is_some()
    }

    /// The licences and a further one, whose name none of them has. Where memory ends, nothing is left.
    pub(crate) fn with(
        self,
        alloc: Global,
        name: &str,
        entry: LicenseEntry,
    ) -> Result<LicenseList, AllocError>
        requires new { entry_of self name.now ≡ None }
        ensures { IfOk result (λ list. list ≡ self ++ (name.now, entry) ∷ []) }
    {
        let LicenseList { listed, entries } = self;
        let key = Text::copy(alloc, name)?;
        let named = NamedEntry {
            name: Text::copy(alloc, name)?,
            entry,
        };
        let mut listed = listed;
        listed.push(named)?;
        let mut entries = entries;
        entries.insert(key, entry)?;
        Ok(LicenseList { listed, entries })
    }
}
