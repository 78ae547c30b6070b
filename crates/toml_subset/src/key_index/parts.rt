//! Keys that are taken one after another.
ghost use Rattle.std.specs.Prelude.{◌≡◌, [], ◌∷◌, MatchOption};

use crate::{Key, Keys};
use std::marker::Model;
use std::vec::IntoIter;

/// Keys that are still to come, in order: the parts of one, or those of a table.
#[derive(Drop)]
pub struct KeyParts<'de> {
    rest: IntoIter<Key<'de>>,
}

impl<'de> Model for KeyParts<'de> {
    ghost use Rattle.std.specs.Prelude.{List};
    ghost use Rattle.std.specs.Vec.Iter.{into_iter_items};
    ghost use Rattle.toml_subset.specs.declared.string.Key.{Key};

    ghost Value = { List Key };

    ghost view = { λ parts. into_iter_items parts.rest };
}

impl<'de> KeyParts<'de> {
    pub fn new(keys: Keys<'de>) -> KeyParts<'de>
        ensures { result ≡ keys.entry }
    {
        KeyParts {
            rest: keys.into_vec().into_iter(),
        }
    }

    /// Takes the first key that is left.
    pub fn next(&mut self) -> Option<Key<'de>>
        ensures { MatchOption result ((self.old ≡ []) × (self.new ≡ [])) (λ key. self.old ≡ key ∷ self.new) }
    {
        self.rest.next()
    }
}
