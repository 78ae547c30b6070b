//! What a search in breadth has found: each crate once, in the order in which it was found.
ghost use Rattle.std.specs.Prelude.{◌≡◌, ◌<◌, [], length, slice_index_or, All, IfSome, IfOk, OnOk};
ghost use Rattle.graph_walk.specs.Search as spec;
ghost use Rattle.graph_walk.specs.Search.{best_at, walk_behind};

use std::alloc::{AllocError, Global};
use std::marker::Model;

/// A crate that was found, as a root or behind one that was found before it.
#[derive(Clone, Copy)]
pub(crate) struct Found {
    /// Its place among the crates of the metadata.
    pub(crate) place: usize,
    /// Which of those found before needs it; none of a root.
    pub(crate) by: Option<usize>,
}

/// The crates that were found.
#[derive(Drop)]
pub(crate) struct Search {
    found: Vec<Found>,
    /// Of each crate of the metadata, which of those found it is.
    index: Vec<Option<usize>>,
}

impl Model for Search {
    ghost use Rattle.graph_walk.specs.Search.{AreFound, SearchView, search_of};

    ghost Value = { SearchView };

    ghost view = { λ s. search_of s.found.items s.index.items };

    ghost invariant = { λ s. AreFound s.found.items s.index.items };
}

impl Search {
    /// Nothing is found yet of so many crates.
    pub(crate) fn nothing(alloc: Global, count: usize) -> Result<Search, AllocError>
        ensures { IfOk result (λ search. search ≡ spec.nothing_found count) }
    {
        let index = Vec::from_elem(alloc, None, count)?;
        Ok(Search {
            found: Vec::new(alloc),
            index,
        })
    }

    /// How many crates were found.
    pub(crate) fn len(&self) -> usize
        ensures { result ≡ length self.now.order }
    {
        self.found.len()
    }

    /// Among how many crates of the metadata it searches.
    pub(crate) fn count(&self) -> usize
        ensures { result ≡ length self.now.best }
    {
        self.index.len()
    }

    /// One of those that were found; what needs it was found before.
    pub(crate) fn found_at(&self, at: usize) -> Found
        requires { at < length self.now.order }
        ensures value { slice_index_or self.now.order at [] ≡ spec.walk_of self.now.order result }
        ensures earlier { IfSome result.by (λ by. by < at) }
    {
        self.found[at]
    }

    /// Which of those found a crate is.
    pub(crate) fn index_at(&self, place: usize) -> Option<usize>
        requires { place < length self.now.best }
        ensures value { best_at self.now.best place ≡ spec.found_walk self.now.order result }
        ensures within { IfSome result (λ at. at < length self.now.order) }
    {
        self.index[place]
    }

    /// Finds a crate behind one that was found, or as a root, where it was not found before.
    pub(crate) fn put(&mut self, place: usize, by: Option<usize>) -> Result<(), AllocError>
        requires within { place < length self.old.best }
        requires earlier { IfSome by (λ at. at < length self.old.order) }
        ensures { OnOk result (self.new ≡ spec.put place (walk_behind self.old.order by) self.old) }
    {
        if self.index[place].is_none() {
            let at = self.found.len();
            self.found.push(Found { place, by })?;
            self.index[place] = Some(at);
        }
        Ok(())
    }

    /// Finds crates, one after the other.
    pub(crate) fn put_all(&mut self, places: &[usize], by: Option<usize>) -> Result<(), AllocError>
        requires within { All (λ place. place < length self.old.best) places.now }
        requires earlier { IfSome by (λ at. at < length self.old.order) }
        ensures { OnOk result
            (self.new ≡ spec.put_all (walk_behind self.old.order by) places.now self.old) }
    {
        'places: for place in places {
            self.put(*place, by)?;
        }
        Ok(())
    }
}
