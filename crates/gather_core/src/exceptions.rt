//! The exceptions of a policy, and which of them count for a crate.
ghost use Rattle.std.specs.Prelude.{◌≡◌, ◌++◌, ◌∷◌, [], map, slice_get, option_copied, IfOk, OnErr, OnOk, if◌then◌else◌};
ghost use Rattle.std.specs.List.{fold};
ghost use Rattle.std.specs.Option.{option_to_list};
ghost use Rattle.graph_core.specs.Krate.{record_of};
ghost use Rattle.policy_parts.specs.spec.Index.{first_of, places_from};
ghost use Rattle.gather_license.specs.files.Calls.{GoesBy, Starves};
ghost use Rattle.gather_license.specs.files.KnownReads.{FolderReads, holds, looked_of};
ghost use Rattle.gather_license.specs.files.Steps.{Agrees, with_path};
ghost use Rattle.gather_license.specs.files.View.{paths_read};
ghost use Rattle.gather_core.specs.Exceptions.{counted_of, exception_entry, exception_rules, files_at, holding_at, holds_for};
ghost use Rattle.gather_core.specs.Exceptions.{is_for, looked_at, named_by_each, named_for, named_in};

use crate::clarifications::file_refs;
use gather_license::FileRef;
use gather_license::files::{LicensePack, TriedClarification};
use graph_core::Krate;
use policy_core::valid::{ValidConfig, ValidException, is_version_3};
use policy_parts::spec::{HasSpec, PackageSpec, Places, SpecIndex};
use std::alloc::{AllocError, Global};
use std::marker::Model;
use tree_core::Tree;

/// The crates that an exception of a policy is for, and the files that it names.
#[derive(Drop)]
struct ExceptionRef<'p> {
    spec: &'p PackageSpec,
    files: Vec<FileRef<'p>>,
}

impl<'p> Model for ExceptionRef<'p> {
    ghost use Rattle.std.specs.Coded.{codes};
    ghost use Rattle.gather_core.specs.Exceptions.{ExceptionEntry, named_in};

    ghost Value = { ExceptionEntry };

    ghost coded = { Prim.hlevel codes };

    ghost view = { λ e. record { spec = e.spec.now; files = named_in e.files.items } };
}

impl<'p> HasSpec for ExceptionRef<'p> {
    ghost spec_of = { λ one. one.spec };

    fn spec(&self) -> &PackageSpec {
        self.spec
    }
}

impl<'p> ExceptionRef<'p> {
    /// The files that it names, in the order in which they are looked at.
    fn files(&self) -> &[FileRef<'p>]
        ensures { named_in result.now ≡ self.now.files }
    {
        &self.files
    }
}

/// The exceptions of a policy, found by the names of crates.
#[derive(Drop)]
pub(crate) struct ExceptionIndex<'p> {
    each_counts: bool,
    entries: Vec<ExceptionRef<'p>>,
    index: SpecIndex,
}

impl<'p> Model for ExceptionIndex<'p> {
    ghost use Rattle.std.specs.Prelude.{◌≡◌};
    ghost use Rattle.std.specs.Coded.{codes};
    ghost use Rattle.policy_parts.specs.spec.Index.{spec_numbers};
    ghost use Rattle.gather_core.specs.Exceptions.{ExceptionRules, exception_specs};

    ghost Value = { ExceptionRules };

    ghost coded = { Prim.hlevel codes };

    ghost view = { λ x. record { each_counts = x.each_counts; entries = x.entries.items } };

    ghost invariant = { λ x. spec_numbers (exception_specs x.entries.items) ≡ x.index };
}

/// The places of the exceptions that count for a crate, and its pack, with the files that were looked at for
/// them.
#[derive(Drop)]
pub(crate) struct CountedExceptions {
    pub(crate) places: Places,
    pub(crate) pack: LicensePack,
}

#[tactic(auto, using(crate::proofs::ExceptionLemmas::named_of_placed))]
fn exception_ref(alloc: Global, exception: &ValidException) -> Result<ExceptionRef<'_>, AllocError>
    ensures { IfOk result (λ found. found ≡ exception_entry exception.now) }
{
    let files = file_refs(alloc, exception.license_files.items())?;
    Ok(ExceptionRef {
        spec: &exception.spec,
        files,
    })
}

fn exception_refs(
    alloc: Global,
    exceptions: &[ValidException],
) -> Result<Vec<ExceptionRef<'_>>, AllocError>
    ensures { IfOk result (λ refs. refs.items ≡ map exception_entry exceptions.now) }
{
    let mut refs = Vec::new(alloc);
    'exceptions: for exception in exceptions {
        let found = exception_ref(alloc, exception)?;
        refs.push(found)?;
    }
    Ok(refs)
}

/// The exception at a place, if there is one.
#[tactic(auto, using(crate::proofs::ExceptionLemmas::item_at))]
fn exception_at<'a, 'p>(
    entries: &'a [ExceptionRef<'p>],
    place: usize,
) -> Option<&'a ExceptionRef<'p>>
    ensures { option_copied result ≡ slice_get entries.entry.now place }
{
    entries.get(place)
}

/// Tries the exception at a place by its files: each is looked up in order, up to the first that does not
/// match; none is read twice. Where there is no exception nothing is.
fn try_at<T: Tree>(
    alloc: Global,
    tree: &mut T,
    pack: LicensePack,
    entries: &[ExceptionRef<'_>],
    place: usize,
) -> Result<TriedClarification, AllocError>
    ensures paths { IfOk result (λ tried. (known_reads : FolderReads) → Agrees known_reads tried.pack
        → paths_read tried.pack.reads
        ≡ fold with_path (paths_read pack.reads) (looked_of known_reads (files_at entries.now place))) }
    ensures holds { IfOk result (λ tried. (known_reads : FolderReads) → Agrees known_reads tried.pack
        → tried.holds ≡ holds known_reads (files_at entries.now place)) }
    ensures goes { IfOk result (λ tried. GoesBy (T.content tree.old) (T.content tree.new) (T.fault_count tree.old)
        (T.fault_count tree.new) (T.trace tree.old) (T.trace tree.new)
        pack tried.pack) }
    ensures no_memory { OnErr result (Starves (T.content tree.old) (T.content tree.new) (T.fault_count tree.old)
        (T.fault_count tree.new) (T.trace tree.old) (T.trace tree.new)
        pack (λ known_reads.
        fold with_path (paths_read pack.reads) (looked_of known_reads (files_at entries.now place)))) }
{
    match exception_at(entries, place) {
        Some(one) => pack.tries(alloc, tree, one.files()),
        None => Ok(TriedClarification {
            pack,
            holds: true,
            missing: None,
        }),
    }
}

/// Appends a place where its exception holds.
fn push_where(counted: &mut Places, place: usize, holds: bool) -> Result<(), AllocError>
    ensures { OnOk result (counted.new ≡ counted.old ++ (if holds then place ∷ [] else [])) }
{
    if holds { counted.push(place) } else { Ok(()) }
}

/// The places of the exceptions that hold by their files, out of some places.
fn holding<T: Tree>(
    alloc: Global,
    tree: &mut T,
    pack: LicensePack,
    entries: &[ExceptionRef<'_>],
    places: &[usize],
) -> Result<CountedExceptions, AllocError>
    ensures places { IfOk result (λ counted. (known_reads : FolderReads) → Agrees known_reads counted.pack
        → counted.places ≡ holding_at known_reads entries.now places.now) }
    ensures paths { IfOk result (λ counted. (known_reads : FolderReads) → Agrees known_reads counted.pack
        → paths_read counted.pack.reads
        ≡ fold with_path (paths_read pack.reads) (looked_at known_reads entries.now places.now)) }
    // over any tree: the calls are those of the reads that went into the pack
    ensures goes { IfOk result (λ counted. GoesBy (T.content tree.old) (T.content tree.new) (T.fault_count tree.old)
        (T.fault_count tree.new) (T.trace tree.old) (T.trace tree.new)
        pack counted.pack) }
    ensures no_memory { OnErr result (Starves (T.content tree.old) (T.content tree.new) (T.fault_count tree.old)
        (T.fault_count tree.new) (T.trace tree.old) (T.trace tree.new)
        pack (λ known_reads. fold with_path (paths_read pack.reads) (looked_at known_reads entries.now places.now))) }
{
    let mut pack = pack;
    let mut counted = Places::new(alloc);
    'places: for place in places {
        let tried = try_at(alloc, tree, pack, entries, *place)?;
        pack = tried.pack;
        push_where(&mut counted, *place, tried.holds)?;
    }
    Ok(CountedExceptions {
        places: counted,
        pack,
    })
}

/// The first place alone, where there is one.
fn alone(alloc: Global, place: Option<usize>) -> Result<Places, AllocError>
    ensures { IfOk result (λ places. places ≡ option_to_list place) }
{
    let mut places = Places::new(alloc);
    if let Some(place) = place {
        places.push(place)?;
    }
    Ok(places)
}

impl<'p> ExceptionIndex<'p> {
    /// The exceptions of a policy, in its order.
    pub(crate) fn of(
        alloc: Global,
        policy: &'p ValidConfig,
    ) -> Result<ExceptionIndex<'p>, AllocError>
        ensures { IfOk result (λ all. all ≡ exception_rules policy.entry.now) }
    {
        let entries = exception_refs(alloc, policy.exceptions.items())?;
        let index = SpecIndex::of(alloc, &entries)?;
        Ok(ExceptionIndex {
            each_counts: is_version_3(policy.version),
            entries,
            index,
        })
    }

    /// The first that is for a crate, whatever files it names.
    fn first(&self, alloc: Global, krate: &Krate) -> Result<Places, AllocError>
        ensures { IfOk result (λ places.
            places ≡ option_to_list (first_of (places_from 0 (is_for (record_of krate.now)) self.now.entries))) }
    {
        let place = self.index.first(&self.entries, krate);
        alone(alloc, place)
    }

    /// Each that is for a crate and holds by its files.
    fn each<T: Tree>(
        &self,
        alloc: Global,
        tree: &mut T,
        krate: &Krate,
        pack: LicensePack,
    ) -> Result<CountedExceptions, AllocError>
        ensures places { IfOk result (λ counted. (known_reads : FolderReads) → Agrees known_reads counted.pack
            → counted.places ≡ places_from 0 (holds_for (record_of krate.now) known_reads) self.now.entries) }
        ensures paths { IfOk result (λ counted. (known_reads : FolderReads) → Agrees known_reads counted.pack
            → paths_read counted.pack.reads ≡ fold with_path (paths_read pack.reads)
            (named_by_each self.now.entries (record_of krate.now) known_reads)) }
        ensures goes { IfOk result (λ counted. GoesBy (T.content tree.old) (T.content tree.new) (T.fault_count tree.old)
            (T.fault_count tree.new) (T.trace tree.old) (T.trace tree.new)
            pack counted.pack) }
        ensures no_memory { OnErr result (Starves (T.content tree.old) (T.content tree.new) (T.fault_count tree.old)
            (T.fault_count tree.new) (T.trace tree.old) (T.trace tree.new)
            pack (λ known_reads. fold with_path (paths_read pack.reads)
            (named_by_each self.now.entries (record_of krate.now) known_reads))) }
    {
        let places = self.index.matches(alloc, &self.entries, krate)?;
        holding(alloc, tree, pack, &self.entries, places.items())
    }

    /// Those that count for a crate, whose files are looked up in its pack where each counts. It looks at those
    /// of the crate's name alone.
    pub(crate) fn counted<T: Tree>(
        &self,
        alloc: Global,
        tree: &mut T,
        krate: &Krate,
        pack: LicensePack,
    ) -> Result<CountedExceptions, AllocError>
        // by whatever known reads that agree with the pack that is left
        ensures places { IfOk result (λ counted. (known_reads : FolderReads) → Agrees known_reads counted.pack
            → counted.places ≡ counted_of self.now (record_of krate.now) known_reads) }
        ensures paths { IfOk result (λ counted. (known_reads : FolderReads) → Agrees known_reads counted.pack
            → paths_read counted.pack.reads ≡ fold with_path (paths_read pack.reads)
            (named_for self.now (record_of krate.now) known_reads)) }
        // over any tree: the calls are those of the reads that went into the pack
        ensures goes { IfOk result (λ counted. GoesBy (T.content tree.old) (T.content tree.new) (T.fault_count tree.old)
            (T.fault_count tree.new) (T.trace tree.old) (T.trace tree.new)
            pack counted.pack) }
        ensures no_memory { OnErr result (Starves (T.content tree.old) (T.content tree.new) (T.fault_count tree.old)
            (T.fault_count tree.new) (T.trace tree.old) (T.trace tree.new)
            pack (λ known_reads. fold with_path (paths_read pack.reads)
            (named_for self.now (record_of krate.now) known_reads))) }
    {
        if self.each_counts {
            return self.each(alloc, tree, krate, pack);
        }
        let places = self.first(alloc, krate)?;
        Ok(CountedExceptions { places, pack })
    }
}
