//! Lists that contracts see as lists.
ghost use Rattle.std.specs.Prelude.{◌≡◌, List, [], ◌∷◌, ◌++◌, OnOk, OnErr};
ghost use Rattle.std.specs.Cmp.Lexicographic.{pointwise, lists_equiv, lists_per};

use crate::text::Text;
use std::alloc::{AllocError, Global};
use std::marker::Model;

/// A growing list. It keeps the allocator that it was made with.
#[derive(Drop)]
pub struct ListOf<T> {
    inner: Vec<T>,
}

/// A list of bytes.
pub type Bytes = ListOf<u8>;

/// A list of texts.
pub type Texts = ListOf<Text>;

impl<T> Model for ListOf<T> {
    ghost Value = { List T };

    ghost view = { λ l. l.inner.items };
}

impl<T> ListOf<T> {
    /// The empty list, which takes no memory.
    pub fn new(alloc: Global) -> ListOf<T>
        ensures { result ≡ [] }
    {
        ListOf {
            inner: Vec::new(alloc),
        }
    }

    /// Appends an item. An item that finds no room is dropped.
    pub fn push(&mut self, item: T) -> Result<(), AllocError>
    where
        T: Drop,
        ensures ok { OnOk result (self.new ≡ self.old ++ item ∷ []) }
        ensures err { OnErr result (self.new ≡ self.old) }
    {
        self.inner.push(item)?;
        Ok(())
    }

    /// The items in order.
    pub fn items(&self) -> &[T]
        ensures { result.now ≡ self.now }
    {
        &self.inner
    }

    /// The items by value, in order.
    pub fn into_vec(self) -> Vec<T>
        ensures { result.items ≡ self }
    {
        self.inner
    }
}

impl<T> From<Vec<T>> for ListOf<T> {
    ghost from_gives = { λ items list. list ≡ items.items };

    fn from(inner: Vec<T>) -> ListOf<T> {
        ListOf { inner }
    }
}

impl<T: PartialEq> PartialEq for ListOf<T> {
    ghost eq = { pointwise T.eq };

    ghost laws = { lists_per T.laws };

    fn eq(&self, other: &ListOf<T>) -> bool {
        self.inner == other.inner
    }
}

impl<T: Eq> Eq for ListOf<T> {
    ghost laws = { lists_equiv T.Eq.laws };
}
