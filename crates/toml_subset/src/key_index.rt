//! Keys in the order in which they came, each found by its name without going through all of them.

ghost use Rattle.std.specs.Prelude.{◌≡◌, [], ◌∷◌, ◌++◌, length, None, IfOk};
ghost use Rattle.toml_subset.specs.key_index.KeyPlaces.{first_key_place};

mod parts;
mod places;

use crate::{Key, Keys};
use deny_text::TextMap;
pub use parts::KeyParts;
use places::{FEW, noted, scan};
use std::alloc::{AllocError, Global};
use std::marker::Model;

/// The keys of a table, no two of one name. A look-up and a further key among n keys take about log2 n
/// comparisons, and at most eight among eight keys or fewer, which need no memory but their own.
#[derive(Drop)]
pub struct KeyIndex<'de> {
    keys: Vec<Key<'de>>,
    places: TextMap<usize>,
}

impl<'de> Model for KeyIndex<'de> {
    ghost use Rattle.std.specs.Prelude.{List};
    ghost use Rattle.toml_subset.specs.declared.string.Key.{Key};
    ghost use Rattle.toml_subset.specs.key_index.KeyPlaces.{IsIndex};

    ghost Value = { List Key };

    ghost view = { λ index. index.keys.items };

    ghost invariant = { λ index. IsIndex index.places index.keys.items };
}

impl<'de> KeyIndex<'de> {
    /// No key, which takes no memory.
    pub fn new(alloc: Global) -> KeyIndex<'de>
        ensures { result ≡ [] }
    {
        KeyIndex {
            keys: Vec::new(alloc),
            places: TextMap::new(alloc),
        }
    }

    /// The place of a name among the keys.
    pub fn find(&self, name: &str) -> Option<usize>
        ensures { result ≡ first_key_place name.now self.now }
    {
        if self.keys.len() <= FEW {
            scan(&self.keys, name)
        } else {
            self.places.get(name).copied()
        }
    }

    /// The keys and a further one, whose name none of them has. Where memory ends, nothing is left.
    pub fn with(self, alloc: Global, key: Key<'de>) -> Result<KeyIndex<'de>, AllocError>
        requires new { first_key_place key.name.text self ≡ None }
        ensures { IfOk result (λ index. index ≡ self.entry ++ key.entry ∷ []) }
    {
        let KeyIndex { mut keys, places } = self;
        let places = noted(alloc, &keys, places, &key)?;
        keys.push(key)?;
        Ok(KeyIndex { keys, places })
    }

    /// The keys by value, to be taken in order.
    pub fn into_parts(self) -> KeyParts<'de>
        ensures { result ≡ self.entry }
    {
        KeyParts::new(Keys::from(self.keys))
    }
}
