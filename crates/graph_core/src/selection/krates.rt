//! The crates that are reached, and those that are selected.
ghost use Rattle.std.specs.Prelude.{◌≡◌, map, filter, IfOk, IfErr, OnOk};
ghost use Rattle.graph_core.specs.Krate.{record_of};
ghost use Rattle.graph_core.specs.Metadata.{AreRising, Graph, ids_of};
ghost use Rattle.graph_core.specs.selection.Choice.{Choice, choice_of};
ghost use Rattle.graph_core.specs.selection.Listed as listed;
ghost use Rattle.graph_core.specs.selection.Listed.{IsChosen, IsListOf, reached_in, reached_without};
ghost use Rattle.graph_core.specs.selection.Listed.{selected_in, record_behind};
ghost use Rattle.graph_core.specs.selection.Places as spec;
ghost use Rattle.graph_core.specs.selection.Places.{standings_in};
ghost use Rattle.graph_core.specs.selection.Roots.{HasRoot, IsRootsCause};
ghost use Rattle.graph_core.specs.selection.Walks.{Selected};

use crate::selection::marks::marks_of;
use crate::selection::selection::{BuildError, Include, Selection};
use crate::selection::standing::{
    Standing, base_count, excluded_count, has_root, is_marked, standings_of, unpublished_count,
};
use crate::{DepKind, Kinds, Krate, Metadata};
use deny_text::{ListOf, PathBuf, Texts};
use std::alloc::{AllocError, Global};
use std::marker::Model;

/// Crates of a selection.
pub type KrateRefs<'k> = ListOf<&'k Krate>;

/// The crates that walks from the roots of a workspace reach, in the order of their ids.
#[derive(Drop)]
pub struct Krates {
    crates: Vec<Krate>,
    /// Of each crate, the kinds without which it is reached too.
    without: Vec<Kinds>,
    members: Texts,
    workspace_root: PathBuf,
}

impl Model for Krates {
    ghost use Rattle.graph_core.specs.selection.Listed.{ReachedCrates, chosen_with};

    ghost Value = { ReachedCrates };

    ghost view = { λ k. chosen_with k.crates.items k.without.items k.members k.workspace_root };
}

/// Marks of the crates that are reached without a kind, for each kind.
#[derive(Drop)]
struct Without {
    normal: Vec<bool>,
    dev: Vec<bool>,
    build: Vec<bool>,
}

/// The kinds without which the crate at a place is reached.
fn kinds_at(without: &Without, place: usize) -> Kinds
    ensures { result
        ≡ spec.kinds_at without.now.normal.items without.now.dev.items without.now.build.items place }
{
    Kinds {
        normal: is_marked(&without.normal, place),
        dev: is_marked(&without.dev, place),
        build: is_marked(&without.build, place),
    }
}

/// Appends an item, where it is wanted.
fn put<T: Drop>(list: &mut Vec<T>, item: T, wanted: bool) -> Result<(), AllocError>
    ensures { OnOk result (list.new.items ≡ spec.items_with list.old.items item wanted) }
{
    if wanted {
        list.push(item)?;
    }
    Ok(())
}

/// The crates that are marked, in order.
fn crates_kept(alloc: Global, crates: Vec<Krate>, marks: &[bool]) -> Result<Vec<Krate>, AllocError>
    ensures { IfOk result (λ left. left.items ≡ spec.marked_items crates.items marks.now) }
{
    let mut left = Vec::with_capacity(alloc, crates.len())?;
    'crates: for (krate, mark) in crates.into_iter().zip(marks.iter()) {
        put(&mut left, krate, *mark)?;
    }
    Ok(left)
}

/// The kinds of the crates that are marked.
fn kinds_kept(alloc: Global, marks: &[bool], without: &Without) -> Result<Vec<Kinds>, AllocError>
    ensures { IfOk result (λ kinds. kinds.items
        ≡ spec.kinds_kept without.now.normal.items without.now.dev.items without.now.build.items 0
        marks.now) }
{
    let mut kinds = Vec::new(alloc);
    'places: for (place, mark) in marks.iter().enumerate() {
        put(&mut kinds, kinds_at(without, place), *mark)?;
    }
    Ok(kinds)
}

/// Refuses where there is no root.
fn need_root(standings: &[Standing]) -> Result<(), BuildError>
    ensures { result ≡ spec.root_needed standings.now }
{
    if has_root(standings) {
        Ok(())
    } else {
        Err(BuildError::NoRoots {
            base: base_count(standings),
            excluded: excluded_count(standings),
            unpublished: unpublished_count(standings),
        })
    }
}

fn without_of(
    alloc: Global,
    metadata: &Metadata,
    standings: &[Standing],
    selection: &Selection,
) -> Result<Without, AllocError>
    requires told { standings.now ≡ standings_in metadata.now (choice_of selection.now) }
    requires rising { AreRising (ids_of metadata.now) }
    ensures { IfOk result (λ without. spec.AreWithout metadata.now (choice_of selection.now)
        without.normal.items without.dev.items without.build.items) }
{
    let normal = marks_of(alloc, metadata, standings, selection, Some(DepKind::Normal))?;
    let dev = marks_of(alloc, metadata, standings, selection, Some(DepKind::Dev))?;
    let build = marks_of(alloc, metadata, standings, selection, Some(DepKind::Build))?;
    Ok(Without { normal, dev, build })
}

/// Whether a crate is reached without each of these kinds.
fn covers(needed: Kinds, without: Kinds) -> bool
    ensures { result ≡ spec.covers needed without }
{
    (!needed.normal || without.normal)
        && (!needed.dev || without.dev)
        && (!needed.build || without.build)
}

fn only_kind(kind: DepKind) -> Kinds
    ensures { result ≡ spec.only_kind kind }
{
    Kinds {
        normal: matches!(kind, DepKind::Normal),
        dev: matches!(kind, DepKind::Dev),
        build: matches!(kind, DepKind::Build),
    }
}

/// The kinds without which a crate has to be reached, where it is to be selected.
fn left_out(include: Include) -> Kinds
    ensures { result ≡ spec.left_out include }
{
    Kinds {
        normal: false,
        dev: !include.dev,
        build: !include.build,
    }
}

/// What is at a place; nothing behind the end.
fn without_at(without: &[Kinds], place: usize) -> Kinds
    ensures { result ≡ spec.without_at without.now place }
{
    match without.get(place) {
        Some(kinds) => *kinds,
        None => Kinds {
            normal: false,
            dev: false,
            build: false,
        },
    }
}

/// The crates that are reached without each of these kinds.
fn refs_covering<'k>(
    alloc: Global,
    crates: &'k [Krate],
    without: &[Kinds],
    needed: Kinds,
) -> Result<KrateRefs<'k>, AllocError>
    ensures { IfOk result (λ refs. map record_behind refs
        ≡ listed.crates_in
        (filter (λ item. spec.covers needed item.without) (listed.listed_crates crates.now without.now))) }
{
    let mut refs = Vec::new(alloc);
    'crates: for (place, krate) in crates.iter().enumerate() {
        let wanted = covers(needed, without_at(without, place));
        put(&mut refs, krate, wanted)?;
    }
    Ok(KrateRefs::from(refs))
}

impl Krates {
    /// The crates that walks from the roots reach. Of edges of the kind dev those of members count, where dev
    /// is not excluded. No walk visits an excluded crate.
    pub fn build(
        alloc: Global,
        metadata: Metadata,
        selection: &Selection,
    ) -> Result<Krates, BuildError>
        ensures chosen { IfOk result (λ krates. IsChosen metadata (choice_of selection.now) krates) }
        ensures rooted { OnOk result (HasRoot metadata (choice_of selection.now)) }
        ensures cause { IfErr result (λ error. IsRootsCause metadata (choice_of selection.now) error) }
    {
        let standings = standings_of(alloc, &metadata, selection)?;
        need_root(&standings)?;
        let marks = marks_of(alloc, &metadata, &standings, selection, None)?;
        let without = without_of(alloc, &metadata, &standings, selection)?;
        let kinds = kinds_kept(alloc, &marks, &without)?;
        let parts = metadata.into_parts();
        let crates = crates_kept(alloc, parts.crates, &marks)?;
        Ok(Krates {
            crates,
            without: kinds,
            members: parts.members,
            workspace_root: parts.workspace_root,
        })
    }

    /// The crates that are reached, in the order of their ids.
    pub fn krates(&self) -> &[Krate]
        ensures { map record_of result.now ≡ reached_in self.now }
    {
        &self.crates
    }

    /// Those that are reached also over edges that have another kind, in the order of their ids.
    pub fn krates_filtered(&self, alloc: Global, kind: DepKind) -> Result<KrateRefs<'_>, AllocError>
        ensures { IfOk result (λ refs. map record_behind refs ≡ reached_without kind self.now) }
    {
        refs_covering(alloc, &self.crates, &self.without, only_kind(kind))
    }

    /// The crates that are checked: those that are reached, where dev is not included also without dev
    /// dependencies, and where build is not also without build dependencies. They are in the order of
    /// their ids.
    pub fn selected(&self, alloc: Global, include: Include) -> Result<KrateRefs<'_>, AllocError>
        ensures value { IfOk result (λ refs. map record_behind refs ≡ selected_in include self.now) }
        // of each graph and choice that the crates were built of
        ensures listed { (graph : Graph) (choice : Choice) → IsChosen graph choice self.now
            → IfOk result (λ refs. IsListOf graph (Selected graph choice include) (map record_behind refs)) }
    {
        refs_covering(alloc, &self.crates, &self.without, left_out(include))
    }

    /// The ids of the members of the workspace, as the metadata lists them.
    pub fn workspace_members(&self) -> &Texts
        ensures { result.now ≡ self.now.members }
    {
        &self.members
    }

    /// The root folder of the workspace.
    pub fn workspace_root(&self) -> &str
        ensures { result.now ≡ self.now.workspace_root }
    {
        self.workspace_root.as_path()
    }
}
