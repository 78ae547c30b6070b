//! The places that walks reach, by a worklist of places.
ghost use Rattle.std.specs.Prelude.{◌≡◌, ◌<◌, length, IfOk, OnOk};
ghost use Rattle.graph_core.specs.Metadata.{AreRising, LeadWithin, ids_of};
ghost use Rattle.graph_core.specs.selection.Choice.{choice_of};
ghost use Rattle.graph_core.specs.selection.Places as spec;
ghost use Rattle.graph_core.specs.selection.Places.{AreMarksOf, frontier_of, standings_in};
ghost use Rattle.graph_core.specs.selection.Walks.{Reached};

use crate::selection::selection::Selection;
use crate::selection::standing::Standing;
use crate::{DepKind, Edge, Kinds, Metadata};
use std::alloc::{AllocError, Global};

/// All kinds but the one named.
pub fn other_kinds(named: Option<DepKind>) -> Kinds
    ensures { result ≡ spec.other_kinds named }
{
    match named {
        None => Kinds {
            normal: true,
            dev: true,
            build: true,
        },
        Some(DepKind::Normal) => Kinds {
            normal: false,
            dev: true,
            build: true,
        },
        Some(DepKind::Dev) => Kinds {
            normal: true,
            dev: false,
            build: true,
        },
        Some(DepKind::Build) => Kinds {
            normal: true,
            dev: true,
            build: false,
        },
    }
}

/// The kinds that count at the edges out of a crate: dev at those of members alone, and not where it is
/// excluded.
pub fn counting_at(exclude_dev: bool, kinds: Kinds, standing: Standing) -> Kinds
    ensures { result ≡ spec.counting_at exclude_dev kinds standing }
{
    Kinds {
        normal: kinds.normal,
        dev: kinds.dev && standing.member && !exclude_dev,
        build: kinds.build,
    }
}

fn meet(kinds: Kinds, other: Kinds) -> bool
    ensures { result ≡ spec.meet kinds other }
{
    (kinds.normal && other.normal) || (kinds.dev && other.dev) || (kinds.build && other.build)
}

/// The standing of the crate at a place.
pub fn standing_at(standings: &[Standing], place: usize) -> Standing
    requires { place < length standings.now }
    ensures { result ≡ spec.standing_at standings.now place }
{
    standings[place]
}

/// Whether a walk may take an edge, where these kinds count.
pub fn passes(standings: &[Standing], counting: Kinds, edge: &Edge) -> bool
    requires { edge.now.to < length standings.now }
    ensures { result ≡ spec.passes standings.now counting edge.now }
{
    meet(edge.kinds, counting) && !standing_at(standings, edge.to).excluded
}

/// The places that were found, and those of them whose edges are still to be followed.
#[derive(Drop)]
pub(crate) struct Frontier {
    pub(crate) marks: Vec<bool>,
    pub(crate) waiting: Vec<usize>,
}

impl Frontier {
    fn nothing(alloc: Global, count: usize) -> Result<Frontier, AllocError>
        ensures { IfOk result (λ found. frontier_of found ≡ spec.nothing_seen count) }
    {
        let marks = Vec::from_elem(alloc, false, count)?;
        Ok(Frontier {
            marks,
            waiting: Vec::new(alloc),
        })
    }

    /// Finds a place, where it is wanted and was not found before.
    fn put(&mut self, place: usize, wanted: bool) -> Result<(), AllocError>
        requires { place < length self.old.marks.items }
        ensures { OnOk result (frontier_of self.new ≡ spec.frontier_with place wanted (frontier_of self.old)) }
    {
        if wanted && !self.marks[place] {
            self.waiting.push(place)?;
            self.marks[place] = true;
        }
        Ok(())
    }

    /// Finds the ends of edges.
    fn follow(
        &mut self,
        standings: &[Standing],
        counting: Kinds,
        edges: &[Edge],
    ) -> Result<(), AllocError>
        requires counted { length self.old.marks.items ≡ length standings.now }
        requires within { LeadWithin (length standings.now) edges.now }
        ensures { OnOk result
            (frontier_of self.new ≡ spec.follow standings.now counting (frontier_of self.old) edges.now) }
    {
        'edges: for edge in edges {
            let wanted = passes(standings, counting, edge);
            self.put(edge.to, wanted)?;
        }
        Ok(())
    }
}

/// The roots, of which none was followed yet.
fn roots_in(alloc: Global, standings: &[Standing]) -> Result<Frontier, AllocError>
    ensures { IfOk result (λ found. frontier_of found
        ≡ spec.put_roots 0 standings.now (spec.nothing_seen (length standings.now))) }
{
    let mut found = Frontier::nothing(alloc, standings.len())?;
    'roots: for (place, standing) in standings.iter().enumerate() {
        found.put(place, standing.is_root())?;
    }
    Ok(found)
}

/// Marks of the crates that are reached over edges that another kind than the one named leaves, if one is.
pub(crate) fn marks_of(
    alloc: Global,
    metadata: &Metadata,
    standings: &[Standing],
    selection: &Selection,
    named: Option<DepKind>,
) -> Result<Vec<bool>, AllocError>
    requires told { standings.now ≡ standings_in metadata.now (choice_of selection.now) }
    requires rising { AreRising (ids_of metadata.now) }
    ensures { IfOk result (λ marks. AreMarksOf metadata.now
        (Reached metadata.now (choice_of selection.now) named) marks.items) }
{
    let kinds = other_kinds(named);
    let mut found = roots_in(alloc, standings)?;
    'walk: while let Some(place) = found.waiting.pop() {
        let counting = counting_at(selection.exclude_dev, kinds, standing_at(standings, place));
        found.follow(standings, counting, metadata.edges_at(place))?;
    }
    Ok(found.marks)
}
