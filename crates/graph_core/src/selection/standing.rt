//! What is said of each crate before any walk: whether it is a member, a root, or left out.
ghost use Rattle.std.specs.Prelude.{◌≡◌, ◌<◌, ◌↔◌, map, length, count_by, IfOk, IsTrue};
ghost use Rattle.std.specs.List.{list_any};
ghost use Rattle.graph_core.specs.Krate.{record_of};
ghost use Rattle.graph_core.specs.Metadata.{ArePlaces, AreRising, ids_of};
ghost use Rattle.graph_core.specs.selection.Choice.{choice_of};
ghost use Rattle.graph_core.specs.selection.ExcludeOrder.{AreInSearchOrder};
ghost use Rattle.graph_core.specs.selection.Places as spec;
ghost use Rattle.graph_core.specs.selection.Places.{standings_in};
ghost use Rattle.graph_core.specs.selection.Roots as roots;
ghost use Rattle.graph_core.specs.selection.Roots.{crates_of, is_member, is_base};

use crate::selection::exclude::{ExcludeSpec, in_order, is_excluded};
use crate::selection::selection::Selection;
use crate::{Krate, Metadata};
use deny_text::Texts;
use std::alloc::{AllocError, Global};

/// What is said of a crate before any walk.
#[derive(Clone, Copy)]
pub struct Standing {
    pub member: bool,
    /// It would be a root, were nothing left out.
    pub base: bool,
    /// A spec leaves it out.
    pub excluded: bool,
    /// It is left out of the roots as a member that is published nowhere.
    pub unpublished: bool,
}

impl Standing {
    /// Whether walks begin at it.
    pub fn is_root(self) -> bool
        ensures { result ≡ spec.is_root_standing self }
    {
        self.base && !self.excluded && !self.unpublished
    }
}

/// Whether the place is marked. Outside of the marks none is.
pub(crate) fn is_marked(marks: &[bool], place: usize) -> bool
    ensures { result ≡ spec.is_marked marks.now place }
{
    match marks.get(place) {
        Some(mark) => *mark,
        None => false,
    }
}

fn mark(marks: &mut Vec<bool>, place: usize)
    requires { place < length marks.old.items }
    ensures { marks.new.items ≡ spec.marked_at marks.old.items place }
{
    marks[place] = true;
}

/// Marks at the places of a list, among so many.
fn marks_at(alloc: Global, count: usize, places: &[usize]) -> Result<Vec<bool>, AllocError>
    requires { ArePlaces count places.now }
    ensures { IfOk result (λ marks. marks.items ≡ spec.marks_at count places.now) }
{
    let mut marks = Vec::from_elem(alloc, false, count)?;
    'places: for place in places {
        mark(&mut marks, *place);
    }
    Ok(marks)
}

/// Marks of the members.
fn member_marks(alloc: Global, metadata: &Metadata) -> Result<Vec<bool>, AllocError>
    requires { AreRising (ids_of metadata.now) }
    ensures { IfOk result (λ marks. marks.items
        ≡ map (λ krate. is_member metadata.now krate.id) (crates_of metadata.now)) }
{
    marks_at(alloc, metadata.len(), metadata.member_places())
}

/// Marks of the crates that would be roots, were nothing left out.
fn base_marks(
    alloc: Global,
    metadata: &Metadata,
    selection: &Selection,
) -> Result<Vec<bool>, AllocError>
    requires { AreRising (ids_of metadata.now) }
    ensures { IfOk result (λ marks. marks.items
        ≡ map (is_base metadata.now (choice_of selection.now)) (crates_of metadata.now)) }
{
    match metadata.root() {
        Some(root) if !selection.workspace => marks_at(alloc, metadata.len(), &[root]),
        _ => marks_at(alloc, metadata.len(), metadata.member_places()),
    }
}

fn is_empty(texts: &Texts) -> bool
    ensures { IsTrue result ↔ (length texts.now ≡ 0) }
{
    texts.items().is_empty()
}

/// Whether its publish list is there and empty.
fn is_published_nowhere(publish: &Option<Texts>) -> bool
    ensures { result ≡ roots.is_published_nowhere publish.now }
{
    match publish {
        Some(names) => is_empty(names),
        None => false,
    }
}

fn standing_of(
    selection: &Selection,
    excluded: &[&ExcludeSpec],
    krate: &Krate,
    member: bool,
    base: bool,
) -> Standing
    requires { AreInSearchOrder selection.now.exclude excluded.now }
    ensures { result ≡ spec.standing_with (choice_of selection.now) (record_of krate.now) member base }
{
    Standing {
        member,
        base,
        excluded: is_excluded(selection.exclude.items(), excluded, krate),
        unpublished: selection.exclude_unpublished
            && member
            && is_published_nowhere(&krate.publish),
    }
}

/// The standing of each crate, in the order of the metadata.
pub fn standings_of(
    alloc: Global,
    metadata: &Metadata,
    selection: &Selection,
) -> Result<Vec<Standing>, AllocError>
    ensures value { IfOk result (λ standings. standings.items
        ≡ standings_in metadata.now (choice_of selection.now)) }
    ensures rising { AreRising (ids_of metadata.now) }
{
    let crates = metadata.crates();
    let members = member_marks(alloc, metadata)?;
    let bases = base_marks(alloc, metadata, selection)?;
    let excluded = in_order(alloc, selection.exclude.items())?;
    let mut standings = Vec::with_capacity(alloc, crates.len())?;
    'crates: for (place, krate) in crates.iter().enumerate() {
        let is_member = is_marked(&members, place);
        let is_base = is_marked(&bases, place);
        let standing = standing_of(selection, &excluded, krate, is_member, is_base);
        standings.push(standing)?;
    }
    Ok(standings)
}

pub(crate) fn has_root(standings: &[Standing]) -> bool
    ensures { result ≡ list_any spec.is_root_standing standings.now }
{
    standings.iter().any(|standing| standing.is_root())
}

/// How many crates would be roots.
pub(crate) fn base_count(standings: &[Standing]) -> usize
    ensures { result ≡ count_by (λ standing. standing.base) standings.now }
{
    standings.iter().filter(|standing| standing.base).count()
}

/// How many of them a spec leaves out.
pub(crate) fn excluded_count(standings: &[Standing]) -> usize
    ensures { result ≡ count_by spec.is_excluded_standing standings.now }
{
    standings
        .iter()
        .filter(|standing| standing.base && standing.excluded)
        .count()
}

/// How many of the others are left out as unpublished.
pub(crate) fn unpublished_count(standings: &[Standing]) -> usize
    ensures { result ≡ count_by spec.is_unpublished_standing standings.now }
{
    standings
        .iter()
        .filter(|standing| standing.base && !standing.excluded && standing.unpublished)
        .count()
}
