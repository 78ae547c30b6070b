//! What `why` knows of the metadata, before the crates are chosen from it.
//! Made by `found_why` of whying, read by telling; the walks that the selection does not follow may be let go.
ghost use Rattle.std.specs.Prelude.{◌≡◌, ◌++◌, ◌<◌, IfOk, OnOk, length, map, option_copied};
ghost use Rattle.std.specs.Option.{option_to_list};
ghost use Rattle.graph_core.specs.selection.Choice.{choice_of};
ghost use Rattle.graph_walk.specs.Unchecked.{AreSelecting};
ghost use Rattle.run_why.specs.Steps as spec;
ghost use Rattle.run_why.specs.Steps.{IsGraphTold, copied_titles};

use crate::named::named_marks;
use check_why::{CrateTitle, CrateTitles, title_of};
use deny_text::{Text, Texts};
use graph_core::selection::{Include, Standing, standings_of};
use graph_core::{DepKind, Krate};
use graph_walk::{SelectingWalks, ShortestWalks, Unchecked, kind_left_out};
use run_context::AskedMetadata;
use std::alloc::{AllocError, Global};

/// What is known of the crates of the metadata, in the order of their ids.
#[derive(Drop)]
pub(crate) struct GraphTold {
    titles: CrateTitles,
    /// Why each is not checked; none where it is.
    causes: Vec<Option<Unchecked>>,
    /// Whether a word names it.
    named: Vec<bool>,
    walks: SelectingWalks,
    include: Include,
}

fn titles_of(alloc: Global, krates: &[Krate]) -> Result<CrateTitles, AllocError>
    ensures { IfOk result (λ titles. titles ≡ spec.titles_in krates.now) }
{
    let mut titles = CrateTitles::new(alloc);
    'crates: for krate in krates {
        let title = title_of(alloc, krate)?;
        titles.push(title)?;
    }
    Ok(titles)
}

/// Why each crate is not checked.
fn causes_of(
    alloc: Global,
    asked: &AskedMetadata,
    standings: &[Standing],
    walks: &SelectingWalks,
    include: Include,
) -> Result<Vec<Option<Unchecked>>, AllocError>
    requires walks { AreSelecting asked.now.metadata (choice_of asked.now.selection)
        walks.now.all walks.now.without_dev walks.now.without_build }
    requires told { spec.AreStandings asked.now standings.now }
    ensures { IfOk result (λ causes. spec.AreCauses asked.now include causes.items) }
{
    let mut causes = Vec::new(alloc);
    'places: for place in 0..asked.metadata.len() {
        let cause = walks.why_unchecked(
            &asked.metadata,
            &asked.selection,
            standings,
            asked.own_specs,
            include,
            place,
        );
        causes.push(cause)?;
    }
    Ok(causes)
}

fn copied_title(alloc: Global, title: &CrateTitle) -> Result<CrateTitle, AllocError>
    ensures { IfOk result (λ copy. copy ≡ title.now) }
{
    let id = Text::copy(alloc, title.id.as_str())?;
    let name = Text::copy(alloc, title.name.as_str())?;
    let version = Text::copy(alloc, title.version.as_str())?;
    Ok(CrateTitle { id, name, version })
}

/// Appends a title, where there is one.
fn push_title(
    alloc: Global,
    copies: &mut CrateTitles,
    title: Option<&CrateTitle>,
) -> Result<(), AllocError>
    ensures { OnOk result (copies.new ≡ copies.old ++ option_to_list (option_copied title.entry)) }
{
    match title {
        Some(title) => {
            let copy = copied_title(alloc, title)?;
            copies.push(copy)
        }
        None => Ok(()),
    }
}

/// The titles at some places.
fn titles_at(
    alloc: Global,
    titles: &[CrateTitle],
    places: &[usize],
) -> Result<CrateTitles, AllocError>
    ensures { IfOk result (λ copies. copies ≡ copied_titles titles.now places.now) }
{
    let mut copies = CrateTitles::new(alloc);
    'places: for place in places {
        push_title(alloc, &mut copies, titles.get(*place))?;
    }
    Ok(copies)
}

/// The places of a walk before the last one.
fn before_last(places: &[usize]) -> &[usize]
    ensures { result.now ≡ spec.before_last places.now }
{
    let (before, _) = places.split_at(places.len().saturating_sub(1));
    before
}

impl GraphTold {
    /// What is known of the metadata's crates, once it is known which crates of dependencies are included.
    pub(crate) fn of(
        alloc: Global,
        words: &Texts,
        asked: &AskedMetadata,
        include: Include,
    ) -> Result<GraphTold, AllocError>
        ensures { IfOk result (λ told. IsGraphTold words.now asked.now include told) }
    {
        let krates = asked.metadata.crates();
        let standings = standings_of(alloc, &asked.metadata, &asked.selection)?;
        let walks = SelectingWalks::of(alloc, &asked.metadata, &asked.selection)?;
        let causes = causes_of(alloc, asked, &standings, &walks, include)?;
        let titles = titles_of(alloc, krates)?;
        let named = named_marks(alloc, words.items(), krates)?;
        Ok(GraphTold {
            titles,
            causes,
            named,
            walks,
            include,
        })
    }

    /// How many crates there are.
    pub(crate) fn len(&self) -> usize
        ensures { result ≡ length self.now.titles }
    {
        self.titles.items().len()
    }

    pub(crate) fn title(&self, place: usize) -> Option<&CrateTitle>
        ensures { option_copied result ≡ spec.title_at self.now.titles place }
    {
        self.titles.items().get(place)
    }

    /// Why the crate at a place is not checked; none where it is.
    pub(crate) fn cause(&self, place: usize) -> Option<Unchecked>
        ensures { result ≡ spec.cause_at self.now.causes.items place }
    {
        match self.causes.get(place) {
            Some(cause) => *cause,
            None => None,
        }
    }

    /// Whether a word names the crate at a place.
    pub(crate) fn is_named(&self, place: usize) -> bool
        ensures { result ≡ spec.mark_at self.now.named.items place }
    {
        match self.named.get(place) {
            Some(mark) => *mark,
            None => false,
        }
    }

    /// The walks that the selection follows.
    fn followed(&self) -> &ShortestWalks
        ensures { result.now ≡ spec.followed self.now }
    {
        match kind_left_out(self.include) {
            Some(DepKind::Dev) => &self.walks.without_dev,
            Some(DepKind::Build) => &self.walks.without_build,
            Some(DepKind::Normal) | None => &self.walks.all,
        }
    }

    /// The crates of the shortest walk that leads to the crate at a place, without itself.
    pub(crate) fn needed_by(&self, alloc: Global, place: usize) -> Result<CrateTitles, AllocError>
        requires { place < length (spec.followed self.now) }
        ensures { IfOk result (λ titles. titles ≡ spec.needed_titles self.now place) }
    {
        match self.followed().walk_to(alloc, place)? {
            Some(walk) => titles_at(alloc, self.titles.items(), before_last(walk.as_slice())),
            None => Ok(CrateTitles::new(alloc)),
        }
    }
}
