//! Texts, each once.
ghost use Rattle.std.specs.Prelude.{◌≡◌, [], ◌∷◌, ◌++◌, IfOk};
ghost use Rattle.graph_core.specs.Krate.{has_text};
ghost use Rattle.check_why.specs.Lines.{with_text};

use deny_text::{Text, TextMap, Texts};
use std::alloc::{AllocError, Global};
use std::marker::Model;

/// Texts, each once, in the order in which they came. A look-up among n texts takes about log2 n comparisons.
#[derive(Drop)]
pub(crate) struct DistinctTexts {
    texts: Texts,
    /// The place of each text.
    places: TextMap<usize>,
}

impl Model for DistinctTexts {
    ghost use Rattle.std.specs.Prelude.{ℕ, List};
    ghost use Rattle.check_why.specs.Distinct.{KnowsTexts};

    ghost Value = { List (List ℕ) };

    ghost view = { λ d. d.texts };

    ghost invariant = { λ d. KnowsTexts d.places d.texts };
}

impl DistinctTexts {
    /// No texts.
    pub(crate) fn new(alloc: Global) -> DistinctTexts
        ensures { result ≡ [] }
    {
        DistinctTexts {
            texts: Texts::new(alloc),
            places: TextMap::new(alloc),
        }
    }

    /// Whether a text is among them.
    fn has(&self, text: &str) -> bool
        ensures { result ≡ has_text self.now text.now }
    {
        self.places.get(text).is_some()
    }

    /// The texts with a further one.
    fn with_new(self, alloc: Global, text: &str) -> Result<DistinctTexts, AllocError>
        ensures { IfOk result (λ distinct. distinct ≡ self ++ text.now ∷ []) }
    {
        let DistinctTexts {
            mut texts,
            mut places,
        } = self;
        let place = texts.items().len();
        let key = Text::copy(alloc, text)?;
        places.insert(key, place)?;
        let text = Text::copy(alloc, text)?;
        texts.push(text)?;
        Ok(DistinctTexts { texts, places })
    }

    /// The texts with this one, which is kept where it was not there.
    pub(crate) fn with(self, alloc: Global, text: &str) -> Result<DistinctTexts, AllocError>
        ensures { IfOk result (λ distinct. distinct ≡ with_text self text.now) }
    {
        if self.has(text) {
            Ok(self)
        } else {
            self.with_new(alloc, text)
        }
    }

    /// The texts, in order.
    pub(crate) fn into_texts(self) -> Texts
        ensures { result ≡ self }
    {
        self.texts
    }
}
