//! Names in order, each found without going through all of them.
ghost use Rattle.std.specs.Prelude.{◌≡◌, [], ◌∷◌, ◌++◌, IfOk};
ghost use Rattle.spdx_own_names.specs.File.{is_among};

use deny_text::{ListOf, Text, TextMap, Texts};
use std::alloc::{AllocError, Global};
use std::marker::Model;

/// Names in order. A look-up and a further name among n take about log2 n comparisons.
#[derive(Drop)]
pub(crate) struct NameList {
    listed: Texts,
    known: TextMap<bool>,
}

impl Model for NameList {
    ghost use Rattle.std.specs.Prelude.{ℕ, List};
    ghost use Rattle.spdx_own_names.specs.Index.{HasNames};

    ghost Value = { List (List ℕ) };

    ghost view = { λ l. l.listed };

    ghost invariant = { λ l. HasNames l.known l.listed };
}

impl NameList {
    /// No name.
    pub(crate) fn new(alloc: Global) -> NameList
        ensures { result ≡ [] }
    {
        NameList {
            listed: ListOf::new(alloc),
            known: TextMap::new(alloc),
        }
    }

    /// Whether a name is one of them.
    pub(crate) fn has(&self, name: &str) -> bool
        ensures { result ≡ is_among name.now self.now }
    {
        self.known.get(name).is_some()
    }

    /// The names and a further one. Where memory ends, nothing is left.
    pub(crate) fn with(self, alloc: Global, name: &str) -> Result<NameList, AllocError>
        ensures { IfOk result (λ list. list ≡ self ++ name.now ∷ []) }
    {
        let NameList { listed, known } = self;
        let key = Text::copy(alloc, name)?;
        let name = Text::copy(alloc, name)?;
        let mut listed = listed;
        listed.push(name)?;
        let mut known = known;
        known.insert(key, true)?;
        Ok(NameList { listed, known })
    }
}
