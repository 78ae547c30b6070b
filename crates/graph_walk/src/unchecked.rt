//! Why a crate is not checked.
ghost use Rattle.std.specs.Prelude.{◌≡◌, ◌<◌, length, take, drop, map, slice_get, Some, IfOk};
ghost use Rattle.std.specs.List.{list_any};
ghost use Rattle.graph_core.specs.Krate.{CrateRecord, record_of};
ghost use Rattle.graph_core.specs.selection.Choice.{choice_of, exclude_spec_of, is_excluded};
ghost use Rattle.graph_core.specs.selection.Places.{standings_in, is_unpublished_standing};
ghost use Rattle.graph_core.specs.selection.Roots.{crates_of};
ghost use Rattle.graph_walk.specs.Unchecked as spec;
ghost use Rattle.graph_walk.specs.Unchecked.{AreSelecting, UncheckedIs, unchecked_text};

use crate::walks::{ShortestWalks, shortest_walks};
use graph_core::selection::{ExcludeSpec, Include, Selection, Standing, standing_at};
use graph_core::{DepKind, Krate, Metadata};
use std::alloc::{AllocError, Global};

/// Why a crate of the metadata is not checked.
#[derive(Clone, Copy, Debug, PartialEq, Eq)]
pub enum Unchecked {
    /// A spec of the command line leaves it out.
    LeftOutByWords,
    /// A spec of the policy does.
    LeftOutByPolicy,
    /// It would be a root, and is left out since it is never published.
    NeverPublished,
    /// Dev dependencies are not included, and no walk without them leads to it.
    OnlyDev,
    /// Build dependencies are not included, and no walk without them leads to it.
    OnlyBuild,
    /// No walk leads to it.
    NotLedTo,
}

/// The walks that decide which crates are selected: over all edges, and without the dependencies of a kind.
#[derive(Drop)]
pub struct SelectingWalks {
    pub all: ShortestWalks,
    pub without_dev: ShortestWalks,
    pub without_build: ShortestWalks,
}

/// Whether walks lead to a crate.
#[derive(Clone, Copy)]
struct Led {
    all: bool,
    without_dev: bool,
    without_build: bool,
}

/// Whether a spec leaves a crate out.
fn leaves_out(krate: &Krate, one: &ExcludeSpec) -> bool
    ensures { result ≡ spec.leaves_out (record_of krate.now) one.now }
{
    one.excludes(krate)
}

/// Whether one of some specs does.
fn any_leaves_out(specs: &[ExcludeSpec], krate: &Krate) -> bool
    ensures { result ≡ list_any (spec.leaves_out (record_of krate.now)) specs.now }
{
    specs.iter().any(|one| leaves_out(krate, one))
}

/// The same, by what the specs are read as.
fn is_left_out(specs: &[ExcludeSpec], krate: &Krate) -> bool
    ensures { result ≡ is_excluded (map exclude_spec_of specs.now) (record_of krate.now) }
{
    any_leaves_out(specs, krate)
}

/// The first of some specs, so many or all, and the others.
fn parts_of(specs: &[ExcludeSpec], count: usize) -> (&[ExcludeSpec], &[ExcludeSpec])
    ensures first { result.0.now ≡ take count specs.now }
    ensures rest { result.1.now ≡ drop count specs.now }
{
    specs.split_at(count.min(specs.len()))
}

/// Whether the policy or the words leave a crate out of the roots as one that is never published.
fn is_unpublished(standing: Standing) -> bool
    ensures { result ≡ is_unpublished_standing standing }
{
    standing.base && !standing.excluded && standing.unpublished
}

fn led_of(walks: &SelectingWalks, place: usize) -> Led
    requires all { place < length walks.now.all }
    requires without_dev { place < length walks.now.without_dev }
    requires without_build { place < length walks.now.without_build }
    ensures { result
        ≡ spec.led_by walks.now.all walks.now.without_dev walks.now.without_build place }
{
    Led {
        all: walks.all.leads_to(place),
        without_dev: walks.without_dev.leads_to(place),
        without_build: walks.without_build.leads_to(place),
    }
}

fn unled(include: Include, led: Led) -> Option<Unchecked>
    ensures { result ≡ spec.unled_by include led }
{
    if !led.all {
        Some(Unchecked::NotLedTo)
    } else if !(include.dev || led.without_dev) {
        Some(Unchecked::OnlyDev)
    } else if !(include.build || led.without_build) {
        Some(Unchecked::OnlyBuild)
    } else {
        None
    }
}

fn cause(
    words: bool,
    policy: bool,
    unpublished: bool,
    unled: Option<Unchecked>,
) -> Option<Unchecked>
    ensures { result ≡ spec.cause_by words policy unpublished unled }
{
    match unled {
        None => None,
        Some(_) if words => Some(Unchecked::LeftOutByWords),
        Some(_) if policy => Some(Unchecked::LeftOutByPolicy),
        Some(_) if unpublished => Some(Unchecked::NeverPublished),
        Some(unled) => Some(unled),
    }
}

impl SelectingWalks {
    /// The walks by which the crates of metadata are selected.
    pub fn of(
        alloc: Global,
        metadata: &Metadata,
        selection: &Selection,
    ) -> Result<SelectingWalks, AllocError>
        ensures { IfOk result (λ walks. AreSelecting metadata.now (choice_of selection.now)
            walks.all walks.without_dev walks.without_build) }
    {
        let all = shortest_walks(alloc, metadata, selection, None)?;
        let without_dev = shortest_walks(alloc, metadata, selection, Some(DepKind::Dev))?;
        let without_build = shortest_walks(alloc, metadata, selection, Some(DepKind::Build))?;
        Ok(SelectingWalks {
            all,
            without_dev,
            without_build,
        })
    }

    /// Why the crate at a place is not checked; none where it is. The first specs of the selection, so many,
    /// are those of the command line, the others those of the policy.
    pub fn why_unchecked(
        &self,
        metadata: &Metadata,
        selection: &Selection,
        standings: &[Standing],
        words: usize,
        include: Include,
        place: usize,
    ) -> Option<Unchecked>
        requires within { place < length metadata.now.nodes }
        requires told { standings.now ≡ standings_in metadata.now (choice_of selection.now) }
        requires walks { AreSelecting metadata.now (choice_of selection.now)
            self.now.all self.now.without_dev self.now.without_build }
        ensures { (krate : CrateRecord) → slice_get (crates_of metadata.now) place ≡ Some krate
            → UncheckedIs metadata.now (choice_of selection.now) words include krate result }
    {
        let krate = &metadata.crates()[place];
        let (by_words, by_policy) = parts_of(selection.exclude.items(), words);
        let standing = standing_at(standings, place);
        cause(
            is_left_out(by_words, krate),
            is_left_out(by_policy, krate),
            is_unpublished(standing),
            unled(include, led_of(self, place)),
        )
    }
}

impl Unchecked {
    /// The line that says so.
    pub fn as_str(self) -> &'static str
        ensures { result.now ≡ unchecked_text self }
    {
        match self {
            Unchecked::LeftOutByWords => "left out by --exclude",
            Unchecked::LeftOutByPolicy => "left out by exclude of the policy",
            Unchecked::NeverPublished => "left out, since it is never published",
            Unchecked::OnlyDev => "only dev-dependencies lead to it",
            Unchecked::OnlyBuild => "only build-dependencies lead to it",
            Unchecked::NotLedTo => "nothing that is checked leads to it",
        }
    }
}
