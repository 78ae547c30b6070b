//! Stored licence texts: the identifier over them, and the text of each name.
ghost use Rattle.std.specs.Prelude.{◌≡◌, ℕ, List, [], IfOk, OnOk};
ghost use Rattle.std.specs.Option.{option_copied};
ghost use Rattle.spdx_terms.specs.catalog.BuiltIn.{built_in};
ghost use Rattle.spdx_terms.specs.catalog.Store.{match_of, named_for, score_within, stored_for, text_of_store};
ghost use Rattle.spdx_terms.specs.catalog.StorePlaces.{FindsPlaces, all_named, all_spelled, with_new};
ghost use Rattle.spdx_terms.specs.catalog.TextWords.{words_with_spaces, words_of};

use crate::catalog::built_in::{BUILT_IN, built_in_texts};
use crate::catalog::identifier::{Identifier, Match};
use crate::catalog::lookup::TextLookup;
use crate::catalog::text_words::spelled_words;
use deny_text::{ListOf, Text, TextMap};
use std::alloc::{AllocError, Global};
use std::marker::Model;

/// A licence's name and a text of it.
#[derive(Drop, PartialEq, Eq, Debug)]
pub struct StoreText {
    pub name: Text,
    pub body: Text,
}

/// Licence texts in order.
pub type StoreTexts = ListOf<StoreText>;

/// An identifier over stored texts: a text is the licence of the first of them that has the same words. Words
/// are runs of ASCII letters and digits in whatever case, without those of copyright lines.
#[derive(Drop)]
pub struct LicenseStore {
    texts: StoreTexts,
    /// By the words of texts, with a space after each word, the place of the first with these words.
    places: TextMap<usize>,
    /// By the names of texts, the place of the first of this name.
    names: TextMap<usize>,
}

impl Model for LicenseStore {
    ghost use Rattle.std.specs.Prelude.{List};
    ghost use Rattle.spdx_terms.specs.declared.catalog.store.StoreText.{StoreText};
    ghost use Rattle.spdx_terms.specs.catalog.StorePlaces.{FindsTexts};

    ghost Value = { List StoreText };

    ghost view = { λ s. s.texts };

    ghost invariant = { λ s. FindsTexts s.places s.names s.texts };
}

impl LicenseStore {
    /// The store of these texts. It makes the words of each.
    pub fn new(alloc: Global, texts: StoreTexts) -> Result<LicenseStore, AllocError>
        ensures { IfOk result (λ store. store ≡ texts) }
    {
        let places = places_of(alloc, texts.items())?;
        let names = names_of(alloc, texts.items())?;
        Ok(LicenseStore {
            texts,
            places,
            names,
        })
    }

    /// The store of the built-in texts: MIT with four headings, and ISC with two.
    pub fn from_cache(alloc: Global) -> Result<LicenseStore, AllocError>
        ensures { IfOk result (λ store. store ≡ built_in) }
    {
        let texts = built_in_texts(alloc, &BUILT_IN)?;
        let store = LicenseStore::new(alloc, texts)?;
        Ok(store)
    }

    /// The store of no texts, which finds no licence.
    pub fn default(alloc: Global) -> LicenseStore
        ensures { result ≡ [] }
    {
        LicenseStore {
            texts: StoreTexts::new(alloc),
            places: TextMap::new(alloc),
            names: TextMap::new(alloc),
        }
    }

    /// The first stored text with these words, which have a space after each.
    fn stored_with(&self, words: &str) -> Option<&StoreText>
        ensures { (text : List ℕ) → words.now ≡ words_with_spaces (words_of text)
            → option_copied result ≡ stored_for self.now text }
    {
        if words.is_empty() {
            return None;
        }
        let place = *self.places.get(words)?;
        self.texts.items().get(place)
    }

    /// The first stored text of a name.
    fn named(&self, name: &str) -> Option<&StoreText>
        ensures { option_copied result ≡ named_for self.now name.now }
    {
        let place = *self.names.get(name)?;
        self.texts.items().get(place)
    }
}

/// The words of a text, with a space after each: ASCII letters, digits and spaces.
fn key_of(alloc: Global, text: &str) -> Result<Text, AllocError>
    ensures { IfOk result (λ key. key ≡ words_with_spaces (words_of text.now)) }
{
    let words = spelled_words(alloc, text)?;
    match String::from_utf8(words) {
        Ok(key) => Ok(Text::from(key)),
        Err(_) => unreachable!(),
    }
}

/// Adds the place of a key, unless it has one.
fn add_new(places: &mut TextMap<usize>, key: Text, place: usize) -> Result<(), AllocError>
    ensures { OnOk result (places.new ≡ with_new places.old key place) }
{
    if places.get(key.as_str()).is_none() {
        places.insert(key, place)?;
    }
    Ok(())
}

/// Adds the place of a text, unless one with its words has one.
fn add_place(
    alloc: Global,
    places: &mut TextMap<usize>,
    body: &str,
    place: usize,
) -> Result<(), AllocError>
    ensures { OnOk result (places.new ≡ with_new places.old (words_with_spaces (words_of body.now)) place) }
{
    let key = key_of(alloc, body)?;
    add_new(places, key, place)
}

/// Adds the place of a text, unless one of its name has one.
fn add_name(
    alloc: Global,
    places: &mut TextMap<usize>,
    name: &str,
    place: usize,
) -> Result<(), AllocError>
    ensures { OnOk result (places.new ≡ with_new places.old name.now place) }
{
    let key = Text::copy(alloc, name)?;
    add_new(places, key, place)
}

/// The first place of each text's words.
fn places_of(alloc: Global, texts: &[StoreText]) -> Result<TextMap<usize>, AllocError>
    ensures { IfOk result (λ places. FindsPlaces places (all_spelled texts.now)) }
{
    let mut places = TextMap::new(alloc);
    'texts: for (place, stored) in texts.iter().enumerate() {
        add_place(alloc, &mut places, stored.body.as_str(), place)?;
    }
    Ok(places)
}

/// The first place of each text's name.
fn names_of(alloc: Global, texts: &[StoreText]) -> Result<TextMap<usize>, AllocError>
    ensures { IfOk result (λ places. FindsPlaces places (all_named texts.now)) }
{
    let mut places = TextMap::new(alloc);
    'texts: for (place, stored) in texts.iter().enumerate() {
        add_name(alloc, &mut places, stored.name.as_str(), place)?;
    }
    Ok(places)
}

impl TextLookup for LicenseStore {
    ghost text_of = { text_of_store };

    fn text(&self, name: &str) -> Option<&str> {
        let stored = self.named(name)?;
        Some(stored.body.as_str())
    }
}

impl Identifier for LicenseStore {
    ghost match_of = { match_of };

    ghost within_hundred = { λ texts text. score_within (stored_for texts text) };

    fn scan(&self, alloc: Global, text: &str) -> Result<Match, AllocError> {
        let words = key_of(alloc, text)?;
        match self.stored_with(words.as_str()) {
            Some(stored) => {
                let name = Text::copy(alloc, stored.name.as_str())?;
                Ok(Match {
                    name: Some(name),
                    score: 100,
                })
            }
            None => Ok(Match {
                name: None,
                score: 0,
            }),
        }
    }
}
