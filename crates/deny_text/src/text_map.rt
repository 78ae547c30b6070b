//! Ordered maps from texts.
ghost use Rattle.std.specs.Prelude.{◌≡◌, ◌↔◌, IfOk, OnOk, OnErr, IsTrue, None};
ghost use Rattle.std.specs.Option.{option_copied, option_copied_mut};
ghost use Rattle.std.specs.Borrow.{sem};
ghost use Rattle.std.specs.FinMap as finmap;
ghost use Rattle.std.specs.Iterator.{YieldsFirstBy, item_count};
ghost use Rattle.deny_text.specs.TextMapLends.{LendsValue};

use crate::text::Text;
use std::alloc::{AllocError, Global};
use std::collections::{BTreeMap, btree_map};
use std::marker::Model;

/// Values by texts, in the byte order of the texts. A look-up, an insertion and a removal among n entries
/// take about log2 n comparisons.
#[derive(Drop)]
pub struct TextMap<V> {
    held: BTreeMap<String, V>,
}

impl<V> Model for TextMap<V> {
    ghost use Rattle.std.specs.Prelude.{T};
    ghost use Rattle.std.specs.Ordering.{nat_cmp};
    ghost use Rattle.std.specs.Cmp.Lexicographic.{slice_cmp};
    ghost use Rattle.std.specs.FinMap as finmap;
    ghost use Rattle.std.specs.Coded.{coded_list, coded_ℕ};
    ghost use Rattle.deny_text.specs.TextMap.{TextMapTo, entries_of_held};

    ghost Value = { TextMapTo V };

    ghost coded = { finmap.code (coded_list coded_ℕ) V.code };

    ghost view = { λ m. finmap.from_sorted (entries_of_held m.held.entries) };

    ghost invariant = { λ m. T (finmap.is_sorted (slice_cmp nat_cmp) (entries_of_held m.held.entries)) };
}

impl<V> TextMap<V> {
    /// The empty map, which takes no memory.
    pub fn new(alloc: Global) -> TextMap<V>
        ensures { result ≡ finmap.empty }
    {
        TextMap {
            held: BTreeMap::new(alloc),
        }
    }

    pub fn len(&self) -> usize
        ensures { result ≡ finmap.len self.now }
    {
        self.held.len()
    }

    pub fn is_empty(&self) -> bool
        ensures { IsTrue result ↔ (self.now ≡ finmap.empty) }
    {
        self.held.is_empty()
    }

    /// The value at a text.
    pub fn get(&self, key: &str) -> Option<&V>
        ensures { option_copied result ≡ finmap.get self.now key.now }
    {
        self.held.get(key)
    }

    /// Sets the value at a text, and gives back the one that it had. That takes no memory where it had one.
    pub fn insert(&mut self, key: Text, value: V) -> Result<Option<V>, AllocError>
    where
        V: Drop,
        ensures old { IfOk result (λ old. old ≡ finmap.get self.old key) }
        ensures ok { OnOk result (self.new ≡ finmap.insert self.old key value) }
        ensures err { OnErr result (self.new ≡ self.old) }
        ensures full { OnErr result (finmap.get self.old key ≡ None) }
    {
        let old = self.held.insert(key.into_string(), value)?;
        Ok(old)
    }

    /// The value at a text, to be changed in its place.
    pub fn get_mut(&mut self, key: &str) -> Option<&mut V>
        ensures* writes_back { sem 𝓛 (LendsValue V.row self.entry key.now result) }
        ensures value { option_copied_mut result ≡ finmap.get self.old key.now }
    {
        self.held.get_mut(key)
    }

    /// The entries in order.
    pub fn iter(&self) -> TextMapIter<'_, V>
        ensures { result ≡ finmap.entries self.now }
    {
        TextMapIter {
            held: self.held.iter(),
        }
    }
}

/// The entries of a map that are still to come, in order.
#[derive(Drop)]
pub struct TextMapIter<'a, V> {
    held: btree_map::Iter<'a, String, V>,
}

impl<'a, V> Model for TextMapIter<'a, V> {
    ghost use Rattle.std.specs.Prelude.{ℕ, List};
    ghost use Rattle.deny_text.specs.TextMap.{entries_of_held};

    ghost Value = { List (List ℕ × V) };

    ghost view = { λ entries. entries_of_held entries.held };
}

impl<'a, V> Iterator for TextMapIter<'a, V> {
    type Item = (&'a str, &'a V);

    ghost next_gives = { YieldsFirstBy (λ entry. (entry.0.now, entry.1.now)) (λ entries. entries) };

    ghost remaining = { item_count (λ entries. entries) };

    fn next(&mut self) -> Option<(&'a str, &'a V)> {
        match self.held.next() {
            Some((key, value)) => Some((key.as_str(), value)),
            None => None,
        }
    }
}
