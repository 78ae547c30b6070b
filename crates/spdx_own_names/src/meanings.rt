//! Imprecise texts, each with the licence that it means.
ghost use Rattle.std.specs.Prelude.{◌≡◌, [], ◌∷◌, ◌++◌, IfOk};
ghost use Rattle.std.specs.List.{list_any};
ghost use Rattle.std.specs.Str.{str_eq_ignore_ascii_case, str_to_ascii_lowercase};
ghost use Rattle.spdx_terms.specs.catalog.Catalog.{names_of};
ghost use Rattle.spdx_own_names.specs.IndexView.{meanings_listed};

use deny_text::{ListOf, Text, TextMap};
use std::alloc::{AllocError, Global};
use std::marker::Model;

/// An imprecise text with the name of the licence that it means.
#[derive(Drop)]
pub(crate) struct Meaning {
    pub(crate) text: Text,
    pub(crate) name: Text,
}

/// Imprecise texts in order, as a file is read that lists them.
#[derive(Drop)]
pub(crate) struct MeaningList {
    listed: ListOf<Meaning>,
    lowered: TextMap<bool>,
}

impl Model for MeaningList {
    ghost use Rattle.std.specs.Prelude.{ℕ, List};
    ghost use Rattle.spdx_own_names.specs.IndexView.{meanings_listed, texts_lowered};
    ghost use Rattle.spdx_own_names.specs.Index.{HasNames};

    ghost Value = { List (List ℕ × List ℕ) };

    ghost view = { λ l. meanings_listed l.listed };

    ghost invariant = { λ l. HasNames l.lowered (texts_lowered (meanings_listed l.listed)) };
}

/// A text in lower case.
pub(crate) fn lowered(alloc: Global, text: &str) -> Result<Text, AllocError>
    ensures { IfOk result (λ lower. lower ≡ str_to_ascii_lowercase text.now) }
{
    let mut lower = String::from_str(alloc, text)?;
    lower.make_ascii_lowercase();
    Ok(Text::from(lower))
}

impl MeaningList {
    /// No text.
    pub(crate) fn new(alloc: Global) -> MeaningList
        ensures { result ≡ [] }
    {
        MeaningList {
            listed: ListOf::new(alloc),
            lowered: TextMap::new(alloc),
        }
    }

    /// Whether a text is one of them, in whatever case.
    pub(crate) fn has(&self, alloc: Global, text: &str) -> Result<bool, AllocError>
        ensures { IfOk result (λ known.
            known ≡ list_any (str_eq_ignore_ascii_case text.now) (names_of self.now)) }
    {
        let lower = lowered(alloc, text)?;
        Ok(self.lowered.get(lower.as_str()).is_some())
    }

    /// The texts, in order.
    pub(crate) fn into_listed(self) -> ListOf<Meaning>
        ensures { meanings_listed result ≡ self }
    {
        let MeaningList { listed, .. } = self;
        listed
    }

    /// The texts and a further one. Where memory ends, nothing is left.
    pub(crate) fn with(
        self,
        alloc: Global,
        text: &str,
        name: &str,
    ) -> Result<MeaningList, AllocError>
        ensures { IfOk result (λ list. list ≡ self ++ (text.now, name.now) ∷ []) }
    {
        let MeaningList {
            listed,
            lowered: known,
        } = self;
        let key = lowered(alloc, text)?;
        let text = Text::copy(alloc, text)?;
        let name = Text::copy(alloc, name)?;
        let mut listed = listed;
        listed.push(Meaning { text, name })?;
        let mut known = known;
        known.insert(key, true)?;
        Ok(MeaningList {
            listed,
            lowered: known,
        })
    }
}
