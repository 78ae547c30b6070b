//! Crates in the order of their ids, with their edges.
ghost use Rattle.std.specs.Prelude.{◌≡◌, ◌<◌, [], ◌++◌, map, length, option_map, slice_get, slice_set};
ghost use Rattle.std.specs.Prelude.{slice_index_or, Some, None, IfOk, OnOk};
ghost use Rattle.std.specs.List.{AllByRecursion, cons_option, filter_map};
ghost use Rattle.graph_metadata.specs.AllRows.{rows_view};
ghost use Rattle.graph_metadata.specs.NodeRows.{member_of};
ghost use Rattle.graph_metadata.specs.Order as spec;
ghost use Rattle.graph_metadata.specs.Order.{AreRanks, id_of_member, spot_place, rank_at, rank_of_member};
ghost use Rattle.graph_metadata.specs.Ordered.{AreOrdered};
ghost use Rattle.graph_metadata.specs.Order.{ranked_edge, ranked_edges};
ghost use Rattle.graph_metadata.specs.Records as records;
ghost use Rattle.graph_metadata.specs.Records.{graph_of};
ghost use Rattle.graph_metadata.specs.Sound.{AreApart, AreSound};

use crate::nodes::MemberRow;
use crate::rows::AllRows;
use crate::shape::IdPlaces;
use deny_text::{PathBuf, Text, Texts};
use graph_core::{Edge, Edges, Krate, Metadata};
use std::alloc::{AllocError, Global};

/// Where a crate is in the text: the place of its package, and that of its node, where it has one.
#[derive(Clone, Copy)]
pub(crate) struct Spot {
    place: usize,
    node: Option<usize>,
}

fn spot_of(firsts: &IdPlaces, id: &str, place: usize) -> Spot
    ensures { result ≡ records.spot_of firsts.now (id.now, place) }
{
    Spot {
        place,
        node: firsts.get(id).copied(),
    }
}

/// The spots of all crates, in the order of their ids.
fn spots_of(alloc: Global, known: &IdPlaces, firsts: &IdPlaces) -> Result<Vec<Spot>, AllocError>
    ensures { IfOk result (λ spots. spots.items ≡ records.spots_of known.now firsts.now) }
{
    let mut spots = Vec::new(alloc);
    'spots: for (id, place) in known.iter() {
        spots.push(spot_of(firsts, id, *place))?;
    }
    Ok(spots)
}

/// The rank of each package: the place of its crate in the order of the ids.
fn ranks_of(alloc: Global, count: usize, spots: &[Spot]) -> Result<Vec<usize>, AllocError>
    requires { AllByRecursion (λ place. place < count) (map spot_place spots.now) }
    ensures { IfOk result (λ ranks. AreRanks (map spot_place spots.now) (length spots.now) ranks.items) }
{
    let mut ranks = Vec::from_elem(alloc, 0, count)?;
    'ranks: for (rank, spot) in spots.iter().enumerate() {
        set_rank(&mut ranks, spot.place, rank);
    }
    Ok(ranks)
}

fn set_rank(ranks: &mut Vec<usize>, place: usize, rank: usize)
    requires { place < length ranks.old.items }
    ensures { ranks.new.items ≡ slice_set ranks.old.items place rank }
{
    ranks[place] = rank;
}

fn rank_of(ranks: &[usize], place: usize) -> usize
    ensures { result ≡ rank_at ranks.now place }
{
    match ranks.get(place) {
        Some(rank) => *rank,
        None => 0,
    }
}

/// The crates, each of which can be taken out.
fn slots_of(alloc: Global, crates: Vec<Krate>) -> Result<Vec<Option<Krate>>, AllocError>
    ensures { IfOk result (λ slots. slots.items ≡ map Some crates.items) }
{
    let mut slots = Vec::with_capacity(alloc, crates.len())?;
    'crates: for krate in crates {
        slots.push(Some(krate))?;
    }
    Ok(slots)
}

fn taken(slots: &mut Vec<Option<Krate>>, place: usize) -> Option<Krate>
    requires { place < length slots.old.items }
    ensures value { result ≡ slice_index_or slots.old.items place None }
    ensures after { slots.new.items ≡ slice_set slots.old.items place None }
{
    slots[place].take()
}

/// The crates in the order of their ids.
fn crates_in_order(
    alloc: Global,
    spots: &[Spot],
    crates: Vec<Krate>,
) -> Result<Vec<Krate>, AllocError>
    requires apart { AreApart (map spot_place spots.now) }
    requires within { AllByRecursion (λ place. place < length crates.items) (map spot_place spots.now) }
    ensures { IfOk result (λ ordered. ordered.items
        ≡ filter_map (slice_get crates.items) (map spot_place spots.now)) }
{
    let mut slots = slots_of(alloc, crates)?;
    let mut ordered = Vec::with_capacity(alloc, slots.len())?;
    'spots: for spot in spots {
        let krate = taken(&mut slots, spot.place);
        put(&mut ordered, krate)?;
    }
    Ok(ordered)
}

/// Appends the crate, where there is one.
fn put(ordered: &mut Vec<Krate>, krate: Option<Krate>) -> Result<(), AllocError>
    ensures { OnOk result (ordered.new.items ≡ ordered.old.items ++ cons_option krate []) }
{
    if let Some(krate) = krate {
        ordered.push(krate)?;
    }
    Ok(())
}

/// Edges by ranks.
fn ranked(alloc: Global, ranks: &[usize], edges: &[Edge]) -> Result<Edges, AllocError>
    ensures { IfOk result (λ list. list ≡ map (ranked_edge ranks.now) edges.now) }
{
    let mut list = Vec::with_capacity(alloc, edges.len())?;
    'edges: for edge in edges {
        list.push(Edge {
            to: rank_of(ranks, edge.to),
            kinds: edge.kinds,
        })?;
    }
    Ok(Edges::from(list))
}

/// The edges of a node; none without one.
fn edges_at(lists: &[Edges], node: Option<usize>) -> &[Edge]
    ensures { result.now ≡ records.edges_of_node lists.now node }
{
    match node {
        Some(node) => match lists.get(node) {
            Some(edges) => edges.items(),
            None => &[],
        },
        None => &[],
    }
}

/// The edges of each crate, in the order of the ids.
fn edges_in_order(
    alloc: Global,
    spots: &[Spot],
    ranks: &[usize],
    lists: &[Edges],
) -> Result<Vec<Edges>, AllocError>
    ensures { IfOk result (λ all. all.items ≡ map (ranked_edges ranks.now lists.now) spots.now) }
{
    let mut all = Vec::with_capacity(alloc, spots.len())?;
    'spots: for spot in spots {
        let edges = ranked(alloc, ranks, edges_at(lists, spot.node))?;
        all.push(edges)?;
    }
    Ok(all)
}

fn member_ids(alloc: Global, members: &[MemberRow<'_>]) -> Result<Texts, AllocError>
    ensures { IfOk result (λ ids. ids ≡ map id_of_member (map member_of members.now)) }
{
    let mut ids = Texts::new(alloc);
    'members: for member in members {
        let id = Text::copy(alloc, member.id)?;
        ids.push(id)?;
    }
    Ok(ids)
}

fn member_ranks(
    alloc: Global,
    ranks: &[usize],
    members: &[MemberRow<'_>],
) -> Result<Vec<usize>, AllocError>
    ensures { IfOk result (λ found. found.items
        ≡ map (rank_of_member ranks.now) (map member_of members.now)) }
{
    let mut found = Vec::new(alloc);
    'members: for member in members {
        found.push(rank_of(ranks, member.place))?;
    }
    Ok(found)
}

fn root_rank(ranks: &[usize], root: Option<usize>) -> Option<usize>
    ensures { result ≡ option_map (rank_at ranks.now) root }
{
    match root {
        Some(place) => Some(rank_of(ranks, place)),
        None => None,
    }
}

/// What the graph is made of beside its crates, and the places that led to it.
#[derive(Drop)]
pub(crate) struct OrderedParts {
    spots: Vec<Spot>,
    ranks: Vec<usize>,
    edges: Vec<Edges>,
    members: Texts,
    member_places: Vec<usize>,
    workspace_root: PathBuf,
    root: Option<usize>,
}

/// The parts of the graph that are made by looking at the rows.
fn parts_of(alloc: Global, rows: &AllRows<'_>) -> Result<OrderedParts, AllocError>
    requires { let spots = records.spots_of rows.now.root.known rows.now.nodes.firsts in
        AllByRecursion (λ place. place < length rows.now.crates.items) (map spot_place spots) }
    ensures { IfOk result (λ parts. AreOrdered rows.now parts) }
{
    let spots = spots_of(alloc, &rows.root.known, &rows.nodes.firsts)?;
    let ranks = ranks_of(alloc, rows.crates.len(), &spots)?;
    let edges = edges_in_order(alloc, &spots, &ranks, &rows.edges)?;
    let members = member_ids(alloc, &rows.root.members)?;
    let member_places = member_ranks(alloc, &ranks, &rows.root.members)?;
    let root = root_rank(&ranks, rows.resolve.root);
    let workspace_root = PathBuf::copy(alloc, rows.root.workspace_root)?;
    Ok(OrderedParts {
        spots,
        ranks,
        edges,
        members,
        member_places,
        workspace_root,
        root,
    })
}

/// The graph that the rows tell.
pub(crate) fn in_order(alloc: Global, rows: AllRows<'_>) -> Result<Metadata, AllocError>
    requires { AreSound (rows_view rows) }
    ensures { IfOk result (λ metadata. metadata ≡ graph_of (rows_view rows.entry)) }
{
    let parts = parts_of(alloc, &rows)?;
    let crates = crates_in_order(alloc, &parts.spots, rows.crates)?;
    Ok(Metadata::of_parts(
        crates,
        parts.edges,
        parts.members,
        parts.member_places,
        parts.workspace_root,
        parts.root,
    ))
}
