//! The shortest walks to crates, by one search in breadth.
ghost use Rattle.std.specs.Prelude.{◌≡◌, ◌<◌, [], length, reverse, is_some, slice_index_or, option_map, IfOk, OnOk};
ghost use Rattle.graph_core.specs.Metadata.{LeadWithin};
ghost use Rattle.graph_core.specs.selection.Choice.{choice_of};
ghost use Rattle.graph_walk.specs.Search as spec;
ghost use Rattle.graph_walk.specs.Search.{AreInOrder, IsFollowed};
ghost use Rattle.graph_walk.specs.Shortest as shortest;
ghost use Rattle.graph_walk.specs.Shortest.{AreShortest, ShortestIsOne, walk_at};

use crate::search::Search;
use graph_core::selection::{
    Include, Selection, Standing, counting_at, other_kinds, passes, standing_at, standings_of,
};
use graph_core::{DepKind, Edge, Kinds, Metadata};
use std::alloc::{AllocError, Global};
use std::marker::Model;

/// The shortest walks to the crates of metadata. No walk to a crate is shorter, and of those that are as short
/// it is the first by the order of ids, crate by crate from the root on.
#[derive(Drop)]
pub struct ShortestWalks {
    search: Search,
}

impl Model for ShortestWalks {
    ghost use Rattle.std.specs.Prelude.{ℕ, List, Option};
    ghost use Rattle.graph_walk.specs.Search.{from_roots};

    ghost Value = { List (Option (List ℕ)) };

    ghost view = { λ w. from_roots w.search.best };
}

/// Appends a place, where it is wanted.
fn put_place(places: &mut Vec<usize>, place: usize, wanted: bool) -> Result<(), AllocError>
    ensures { OnOk result (places.new.items ≡ spec.places_with places.old.items place wanted) }
{
    if wanted {
        places.push(place)?;
    }
    Ok(())
}

/// The places of the roots.
fn root_places(alloc: Global, standings: &[Standing]) -> Result<Vec<usize>, AllocError>
    ensures { IfOk result (λ places. places.items ≡ spec.roots_from 0 standings.now) }
{
    let mut places = Vec::new(alloc);
    'roots: for (place, standing) in standings.iter().enumerate() {
        put_place(&mut places, place, standing.is_root())?;
    }
    Ok(places)
}

/// Whether a walk may take an edge, and it leads to what was not found yet.
fn is_new_end(search: &Search, standings: &[Standing], counting: Kinds, edge: &Edge) -> bool
    requires standings { edge.now.to < length standings.now }
    requires within { edge.now.to < length search.now.best }
    ensures { result ≡ spec.is_new_end search.now standings.now counting edge.now }
{
    passes(standings, counting, edge) && search.index_at(edge.to).is_none()
}

/// What edges lead to that was not found yet.
fn new_ends(
    alloc: Global,
    search: &Search,
    standings: &[Standing],
    counting: Kinds,
    edges: &[Edge],
) -> Result<Vec<usize>, AllocError>
    requires counted { length search.now.best ≡ length standings.now }
    requires within { LeadWithin (length standings.now) edges.now }
    ensures { IfOk result (λ ends. ends.items
        ≡ spec.new_ends search.now standings.now counting edges.now) }
{
    let mut ends = Vec::new(alloc);
    'edges: for edge in edges {
        let wanted = is_new_end(search, standings, counting, edge);
        put_place(&mut ends, edge.to, wanted)?;
    }
    Ok(ends)
}

fn in_order(places: Vec<usize>) -> Vec<usize>
    ensures { AreInOrder places.items result.items }
{
    let mut ordered = places;
    ordered.sort_unstable();
    ordered
}

/// The roots are found.
fn from_roots(alloc: Global, standings: &[Standing]) -> Result<Search, AllocError>
    ensures { IfOk result (λ search. search
        ≡ spec.put_all [] (spec.roots_from 0 standings.now) (spec.nothing_found (length standings.now))) }
{
    let roots = root_places(alloc, standings)?;
    let mut search = Search::nothing(alloc, standings.len())?;
    search.put_all(&roots, None)?;
    Ok(search)
}

/// Follows the edges out of one of those that were found.
fn follow(
    search: &mut Search,
    alloc: Global,
    metadata: &Metadata,
    standings: &[Standing],
    exclude_dev: bool,
    kinds: Kinds,
    at: usize,
) -> Result<(), AllocError>
    requires found { at < length search.old.order }
    requires place { spec.end_of (slice_index_or search.old.order at []) < length metadata.now.nodes }
    requires counted { length search.old.best ≡ length metadata.now.nodes }
    requires standings { length standings.now ≡ length metadata.now.nodes }
    ensures { OnOk result (IsFollowed metadata.now exclude_dev standings.now kinds
        (slice_index_or search.old.order at []) search.old search.new) }
{
    let place = search.found_at(at).place;
    let counting = counting_at(exclude_dev, kinds, standing_at(standings, place));
    let ends = new_ends(alloc, search, standings, counting, metadata.edges_at(place))?;
    search.put_all(&in_order(ends), Some(at))
}

/// The shortest walks to all crates of metadata, over edges that some kind of dependency leaves other than the
/// one named, if one is.
pub fn shortest_walks(
    alloc: Global,
    metadata: &Metadata,
    selection: &Selection,
    named: Option<DepKind>,
) -> Result<ShortestWalks, AllocError>
    ensures { IfOk result (λ walks. AreShortest metadata.now (choice_of selection.now) named walks) }
{
    let standings = standings_of(alloc, metadata, selection)?;
    let kinds = other_kinds(named);
    let mut search = from_roots(alloc, &standings)?;
    let mut next = 0;
    'walks: while next < search.len() {
        let exclude_dev = selection.exclude_dev;
        follow(
            &mut search,
            alloc,
            metadata,
            &standings,
            exclude_dev,
            kinds,
            next,
        )?;
        next += 1;
    }
    Ok(ShortestWalks { search })
}

/// The walk to one of those that were found, from its end back to its root.
fn walk_back(alloc: Global, search: &Search, last: usize) -> Result<Vec<usize>, AllocError>
    requires { last < length search.now.order }
    ensures { IfOk result (λ walk. walk.items ≡ slice_index_or search.now.order last []) }
{
    let mut walk = Vec::new(alloc);
    let mut next = Some(last);
    'back: while let Some(at) = next {
        let found = search.found_at(at);
        walk.push(found.place)?;
        next = found.by;
    }
    Ok(walk)
}

/// The same from the root on.
fn walk_from(alloc: Global, search: &Search, at: usize) -> Result<Vec<usize>, AllocError>
    requires { at < length search.now.order }
    ensures { IfOk result (λ walk. walk.items ≡ reverse (slice_index_or search.now.order at [])) }
{
    let mut walk = walk_back(alloc, search, at)?;
    walk.reverse();
    Ok(walk)
}

impl ShortestWalks {
    /// How many crates there are, those included to which no walk leads.
    pub fn len(&self) -> usize
        ensures { result ≡ length self.now }
    {
        self.search.count()
    }

    /// Whether a walk leads to the crate at a place.
    pub fn leads_to(&self, place: usize) -> bool
        requires { place < length self.now }
        ensures { result ≡ is_some (walk_at self.now place) }
    {
        self.search.index_at(place).is_some()
    }

    /// The crates that the shortest walk to the crate at a place visits, from its root on, by their places;
    /// none where no walk leads to it.
    pub fn walk_to(&self, alloc: Global, place: usize) -> Result<Option<Vec<usize>>, AllocError>
        requires { place < length self.now }
        ensures { IfOk result (λ walk. option_map (λ places. places.items) walk ≡ walk_at self.now place) }
    {
        match self.search.index_at(place) {
            Some(at) => Ok(Some(walk_from(alloc, &self.search, at)?)),
            None => Ok(None),
        }
    }
}

/// The kind that no edge of a walk may have alone, where only some dependencies are included.
pub fn kind_left_out(include: Include) -> Option<DepKind>
    ensures { result ≡ shortest.kind_left_out include }
{
    if !include.dev {
        Some(DepKind::Dev)
    } else if !include.build {
        Some(DepKind::Build)
    } else {
        None
    }
}

/// There is one shortest walk to a crate that is reached, and none to another.
pub fn shortest_is_one()
    ensures { ShortestIsOne }
{}
