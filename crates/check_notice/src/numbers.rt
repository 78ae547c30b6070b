//! Texts, each once, with their numbers.
ghost use Rattle.std.specs.Prelude.{◌≡◌, ◌+◌, [], ◌∷◌, ◌++◌, IfOk, None, length, position};
ghost use Rattle.std.specs.Str.{bytes_eq};
ghost use Rattle.check_notice.specs.Numbers.{number_in, with_text};

use deny_text::{Text, TextMap, Texts};
use std::alloc::{AllocError, Global};
use std::marker::Model;

/// Texts, each once, in the order in which they came. A look-up among n texts takes about log2 n comparisons.
#[derive(Drop)]
pub(crate) struct TextNumbers {
    texts: Texts,
    /// The place of each text.
    places: TextMap<usize>,
}

impl Model for TextNumbers {
    ghost use Rattle.std.specs.Prelude.{ℕ, List};
    ghost use Rattle.check_notice.specs.Numbers.{FindsTexts};

    ghost Value = { List (List ℕ) };

    ghost view = { λ n. n.texts };

    ghost invariant = { λ n. FindsTexts n.places n.texts };
}

/// Texts, and the number of one of them.
#[derive(Drop)]
pub(crate) struct Numbered {
    pub(crate) numbers: TextNumbers,
    pub(crate) number: usize,
}

impl TextNumbers {
    /// No texts.
    pub(crate) fn new(alloc: Global) -> TextNumbers
        ensures { result ≡ [] }
    {
        TextNumbers {
            texts: Texts::new(alloc),
            places: TextMap::new(alloc),
        }
    }

    /// The place of a text, where it is there.
    fn place_of(&self, text: &str) -> Option<usize>
        ensures { result ≡ position (λ one. bytes_eq one text.now) self.now }
    {
        match self.places.get(text) {
            Some(place) => Some(*place),
            None => None,
        }
    }

    /// The texts with a further one, which is not there, and its number.
    fn with_new(self, alloc: Global, text: &str) -> Result<Numbered, AllocError>
        requires { position (λ one. bytes_eq one text.now) self ≡ None }
        ensures texts { IfOk result (λ numbered. numbered.numbers ≡ self ++ text.now ∷ []) }
        ensures number { IfOk result (λ numbered. numbered.number ≡ length self + 1) }
    {
        let TextNumbers {
            mut texts,
            mut places,
        } = self;
        let place = texts.items().len();
        let key = Text::copy(alloc, text)?;
        places.insert(key, place)?;
        let text = Text::copy(alloc, text)?;
        texts.push(text)?;
        Ok(Numbered {
            numbers: TextNumbers { texts, places },
            number: place + 1,
        })
    }

    /// The texts with this one, which is kept where it was not there, and its number, from 1.
    pub(crate) fn with(self, alloc: Global, text: &str) -> Result<Numbered, AllocError>
        ensures texts { IfOk result (λ numbered. numbered.numbers ≡ with_text self text.now) }
        ensures number { IfOk result (λ numbered. numbered.number ≡ number_in numbered.numbers text.now) }
    {
        match self.place_of(text) {
            Some(place) => Ok(Numbered {
                numbers: self,
                number: place + 1,
            }),
            None => self.with_new(alloc, text),
        }
    }

    /// The texts, in order.
    pub(crate) fn into_texts(self) -> Texts
        ensures { result ≡ self }
    {
        self.texts
    }
}
