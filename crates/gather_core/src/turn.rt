//! What is taken at a crate's turn: what settles its licence, where its field is, and which exceptions count.
ghost use Rattle.std.specs.Prelude.{◌≡◌, ◌≤◌, ◌++◌, ◌&&◌, ℕ, not, true, false, IfOk, IfSome, OnErr, is_some};
ghost use Rattle.std.specs.Prelude.{drop, length, map, take, if◌then◌else◌};
ghost use Rattle.std.specs.List.{fold};
ghost use Rattle.std.specs.Option.{option_to_list};
ghost use Rattle.graph_core.specs.Krate.{record_of};
ghost use Rattle.gather_license.specs.files.Calls.{Starves};
ghost use Rattle.gather_license.specs.files.Steps.{with_path};
ghost use Rattle.gather_license.specs.files.View.{paths_read};
ghost use Rattle.gather_license.specs.location.Location.{PointsAt};
ghost use Rattle.gather_license.specs.Clarification.{lent_clarification};
ghost use Rattle.gather_license.specs.Priority as spec;
ghost use Rattle.gather_license.specs.Priority.{field_of, folder_of};
ghost use Rattle.gather_license.specs.Settled.{scanner_of_scan};
ghost use Rattle.gather_core.specs.Calls.{IsByOwnReads, StarvesTaking};
ghost use Rattle.gather_core.specs.Exceptions.{ExceptionRules, named_for};
ghost use Rattle.gather_core.specs.Premises.{Grows};
ghost use Rattle.gather_core.specs.Taken.{CountsBy, IsBegunFrom, IsLocatedWhere, IsTaken, Keeps, is_clarified, turn_with};
ghost use Rattle.gather_core.specs.Turns.{field_text, in_order, located_where, records_before, records_in};

use crate::exceptions::ExceptionIndex;
use deny_text::ListOf;
use diag_core::{Coord, Files};
use gather_license::files::LicensePack;
use gather_license::location::{LocatedField, locate};
use gather_license::{
    ClarificationRef, Coords, KeptFiles, LicenseBasis, Scan, kept_files, settle_license,
};
use graph_core::Krate;
use policy_parts::spec::Places;
use spdx_core::{Catalog, Expression};
use spdx_terms::catalog::Identifier;
use std::alloc::{AllocError, Global};
use tree_core::{ReadRecord, Reads, Tree};

/// What settles a crate's licence, where its manifest writes its field, and what was read for that.
#[derive(Drop)]
pub(crate) struct LocatedLicense {
    pub(crate) by: LicenseBasis,
    pub(crate) missing: Coords,
    pub(crate) location: Option<Coord>,
    /// The record of the manifest's read.
    pub(crate) manifest: Option<ReadRecord>,
    /// What was read of the crate's folder, and the records of these reads.
    pub(crate) pack: LicensePack,
    /// How many of them there are.
    pub(crate) reads_made: usize,
}

/// What settles a crate's licence, where its manifest writes its field, which exceptions count for it, the
/// reads of its turn, and what is kept of the licence files among them.
#[derive(Drop)]
pub(crate) struct TakenLicense {
    pub(crate) by: LicenseBasis,
    pub(crate) missing: Coords,
    pub(crate) location: Option<Coord>,
    pub(crate) exceptions: Places,
    pub(crate) reads: Reads,
    pub(crate) kept: KeptFiles,
}

/// Items behind others.
pub(crate) fn joined<T: Drop>(front: ListOf<T>, back: ListOf<T>) -> Result<ListOf<T>, AllocError>
    ensures { IfOk result (λ all. all ≡ front ++ back) }
{
    let mut all = front.into_vec();
    let mut more = back.into_vec();
    all.append(&mut more)?;
    Ok(ListOf::from(all))
}

/// Reads with that of the manifest at a place among them, where there is one.
fn with_manifest(
    reads: Reads,
    place: usize,
    manifest: Option<ReadRecord>,
) -> Result<Reads, AllocError>
    requires { place ≤ length reads }
    ensures { IfOk result (λ all. all ≡ take place reads ++ (option_to_list manifest ++ drop place reads)) }
{
    match manifest {
        Some(read) => {
            let mut all = reads.into_vec();
            all.reserve_exact(1)?;
            all.insert(place, read)?;
            Ok(Reads::from(all))
        }
        None => Ok(reads),
    }
}

/// The place of the manifest's record among the reads: first, or behind those that settled the licence.
fn manifest_place(manifest_first: bool, reads_made: usize) -> usize
    ensures { result ≡ (if manifest_first then 0 else reads_made) }
{
    if manifest_first { 0 } else { reads_made }
}

/// Where a crate's field is, where it has one; else its manifest is not asked for.
fn locate_field<T: Tree>(
    alloc: Global,
    tree: &mut T,
    files: &mut Files,
    krate: &Krate,
) -> Result<LocatedField, AllocError>
    // over any tree, by the answers to the reads that are made, which are all the calls
    ensures answered { let krate = record_of krate.now in IfOk result (λ located.
        IsByOwnReads (T.content tree.old) (T.content tree.new) (T.fault_count tree.old)
        (T.fault_count tree.new) (T.trace tree.old) (T.trace tree.new)
        (folder_of krate) (option_to_list located.read) (λ known_reads manifest.
        IsLocatedWhere (is_some krate.license) krate files.old manifest located files.new)) }
    ensures no_memory { let krate = record_of krate.now in OnErr result (
        StarvesTaking (T.content tree.old) (T.content tree.new) (T.fault_count tree.old)
        (T.fault_count tree.new) (T.trace tree.old) (T.trace tree.new)
        (folder_of krate) (λ known_reads manifest. option_to_list
        (located_where (is_some krate.license) krate files.old manifest).read)) }
    ensures points { IfOk result (λ located. IfSome located.location (λ at.
        PointsAt files.new at (field_text (record_of krate.now)))) }
    ensures err { OnErr result (files.new ≡ files.old) }
    ensures grows { Grows files.old files.new }
{
    match &krate.license {
        Some(field) => locate(alloc, tree, files, &krate.manifest_path, field.as_str()),
        None => Ok(LocatedField {
            location: None,
            read: None,
        }),
    }
}

/// Whether a clarification settles a licence.
fn is_clarified(by: &LicenseBasis) -> bool
    ensures { result ≡ is_clarified by.now }
{
    match by {
        LicenseBasis::Clarified(_) => true,
        LicenseBasis::Field(_) => false,
        LicenseBasis::Files { .. } => false,
    }
}

/// The same, where no clarification settles the licence.
fn locate_unless_clarified<T: Tree>(
    alloc: Global,
    tree: &mut T,
    files: &mut Files,
    krate: &Krate,
    by: &LicenseBasis,
) -> Result<LocatedField, AllocError>
    // over any tree, by the answers to the reads that are made, which are all the calls
    ensures answered { let krate = record_of krate.now in IfOk result (λ located.
        IsByOwnReads (T.content tree.old) (T.content tree.new) (T.fault_count tree.old)
        (T.fault_count tree.new) (T.trace tree.old) (T.trace tree.new)
        (folder_of krate) (option_to_list located.read) (λ known_reads manifest.
        IsLocatedWhere (not (is_clarified by.now) && is_some krate.license) krate files.old manifest located files.new)) }
    ensures no_memory { let krate = record_of krate.now in OnErr result (
        StarvesTaking (T.content tree.old) (T.content tree.new) (T.fault_count tree.old)
        (T.fault_count tree.new) (T.trace tree.old) (T.trace tree.new)
        (folder_of krate) (λ known_reads manifest. option_to_list
        (located_where (not (is_clarified by.now) && is_some krate.license) krate files.old manifest).read)) }
    ensures points { IfOk result (λ located. IfSome located.location (λ at.
        PointsAt files.new at (field_text (record_of krate.now)))) }
    ensures err { OnErr result (files.new ≡ files.old) }
    ensures grows { Grows files.old files.new }
{
    if is_clarified(by) {
        return Ok(LocatedField {
            location: None,
            read: None,
        });
    }
    locate_field(alloc, tree, files, krate)
}

/// Where no clarification is for the crate, its manifest is asked for before its files.
fn take_manifest_first<T: Tree, I: Identifier, C: Catalog>(
    alloc: Global,
    tree: &mut T,
    files: &mut Files,
    scan: &Scan<'_, I, C>,
    krate: &Krate,
    clarifications: &[&ClarificationRef<'_>],
    field: Option<Expression>,
) -> Result<LocatedLicense, AllocError>
    requires nothing { spec.is_nothing (map lent_clarification clarifications.now) ≡ true }
    requires field { field ≡ field_of (C.lists scan.now.catalog.now) (record_of krate.now) }
    // over any tree, by the answers to the reads that are made, which are all the calls, and by whatever else agrees
    // with these
    ensures answered { let krate = record_of krate.now in let all = map lent_clarification clarifications.now in
        (exceptions : ExceptionRules) → IfOk result (λ located.
        IsByOwnReads (T.content tree.old) (T.content tree.new) (T.fault_count tree.old)
        (T.fault_count tree.new) (T.trace tree.old) (T.trace tree.new)
        (folder_of krate) (in_order (spec.is_nothing all) located.manifest located.pack.reads) (λ known_reads manifest.
        IsBegunFrom (turn_with (scanner_of_scan C.lists I.match_of scan.now) all exceptions krate known_reads
        manifest files.old) located files.new)) }
    ensures no_memory { let krate = record_of krate.now in let all = map lent_clarification clarifications.now in
        (exceptions : ExceptionRules) → OnErr result (
        StarvesTaking (T.content tree.old) (T.content tree.new) (T.fault_count tree.old)
        (T.fault_count tree.new) (T.trace tree.old) (T.trace tree.new)
        (folder_of krate) (λ known_reads manifest. records_before (turn_with
        (scanner_of_scan C.lists I.match_of scan.now) all exceptions krate known_reads manifest files.old))) }
    ensures points { IfOk result (λ located. IfSome located.location (λ at.
        PointsAt files.new at (field_text (record_of krate.now)))) }
    ensures grows { Grows files.old files.new }
{
    let located = locate_field(alloc, tree, files, krate)?;
    let settled = settle_license(alloc, tree, scan, krate, clarifications, field)?;
    Ok(LocatedLicense {
        by: settled.by,
        missing: settled.missing,
        location: located.location,
        manifest: located.read,
        pack: settled.pack,
        reads_made: settled.reads_made,
    })
}

/// Where a clarification is for the crate, its files are read before its manifest, and that is asked for
/// where none holds.
fn take_files_first<T: Tree, I: Identifier, C: Catalog>(
    alloc: Global,
    tree: &mut T,
    files: &mut Files,
    scan: &Scan<'_, I, C>,
    krate: &Krate,
    clarifications: &[&ClarificationRef<'_>],
    field: Option<Expression>,
) -> Result<LocatedLicense, AllocError>
    requires some { spec.is_nothing (map lent_clarification clarifications.now) ≡ false }
    requires field { field ≡ field_of (C.lists scan.now.catalog.now) (record_of krate.now) }
    // over any tree, by the answers to the reads that are made, which are all the calls, and by whatever else agrees
    // with these
    ensures answered { let krate = record_of krate.now in let all = map lent_clarification clarifications.now in
        (exceptions : ExceptionRules) → IfOk result (λ located.
        IsByOwnReads (T.content tree.old) (T.content tree.new) (T.fault_count tree.old)
        (T.fault_count tree.new) (T.trace tree.old) (T.trace tree.new)
        (folder_of krate) (in_order (spec.is_nothing all) located.manifest located.pack.reads) (λ known_reads manifest.
        IsBegunFrom (turn_with (scanner_of_scan C.lists I.match_of scan.now) all exceptions krate known_reads
        manifest files.old) located files.new)) }
    ensures no_memory { let krate = record_of krate.now in let all = map lent_clarification clarifications.now in
        (exceptions : ExceptionRules) → OnErr result (
        StarvesTaking (T.content tree.old) (T.content tree.new) (T.fault_count tree.old)
        (T.fault_count tree.new) (T.trace tree.old) (T.trace tree.new)
        (folder_of krate) (λ known_reads manifest. records_before (turn_with
        (scanner_of_scan C.lists I.match_of scan.now) all exceptions krate known_reads manifest files.old))) }
    ensures points { IfOk result (λ located. IfSome located.location (λ at.
        PointsAt files.new at (field_text (record_of krate.now)))) }
    ensures grows { Grows files.old files.new }
{
    let settled = settle_license(alloc, tree, scan, krate, clarifications, field)?;
    let located = locate_unless_clarified(alloc, tree, files, krate, &settled.by)?;
    Ok(LocatedLicense {
        by: settled.by,
        missing: settled.missing,
        location: located.location,
        manifest: located.read,
        pack: settled.pack,
        reads_made: settled.reads_made,
    })
}

/// Whether no clarification is for a crate.
fn is_nothing(clarifications: &[&ClarificationRef<'_>]) -> bool
    ensures { result ≡ spec.is_nothing (map lent_clarification clarifications.now) }
{
    clarifications.is_empty()
}

/// What settles a crate's licence, and where its manifest writes its field. The field is handed in as it was
/// read.
fn take_located<T: Tree, I: Identifier, C: Catalog>(
    alloc: Global,
    tree: &mut T,
    files: &mut Files,
    scan: &Scan<'_, I, C>,
    krate: &Krate,
    clarifications: &[&ClarificationRef<'_>],
    field: Option<Expression>,
) -> Result<LocatedLicense, AllocError>
    requires { field ≡ field_of (C.lists scan.now.catalog.now) (record_of krate.now) }
    // over any tree, by the answers to the reads that are made, which are all the calls, and by whatever else agrees
    // with these
    ensures answered { let krate = record_of krate.now in let all = map lent_clarification clarifications.now in
        (exceptions : ExceptionRules) → IfOk result (λ located.
        IsByOwnReads (T.content tree.old) (T.content tree.new) (T.fault_count tree.old)
        (T.fault_count tree.new) (T.trace tree.old) (T.trace tree.new)
        (folder_of krate) (in_order (spec.is_nothing all) located.manifest located.pack.reads) (λ known_reads manifest.
        IsBegunFrom (turn_with (scanner_of_scan C.lists I.match_of scan.now) all exceptions krate known_reads
        manifest files.old) located files.new)) }
    ensures no_memory { let krate = record_of krate.now in let all = map lent_clarification clarifications.now in
        (exceptions : ExceptionRules) → OnErr result (
        StarvesTaking (T.content tree.old) (T.content tree.new) (T.fault_count tree.old)
        (T.fault_count tree.new) (T.trace tree.old) (T.trace tree.new)
        (folder_of krate) (λ known_reads manifest. records_before (turn_with
        (scanner_of_scan C.lists I.match_of scan.now) all exceptions krate known_reads manifest files.old))) }
    ensures points { IfOk result (λ located. IfSome located.location (λ at.
        PointsAt files.new at (field_text (record_of krate.now)))) }
    ensures grows { Grows files.old files.new }
{
    if is_nothing(clarifications) {
        take_manifest_first(alloc, tree, files, scan, krate, clarifications, field)
    } else {
        take_files_first(alloc, tree, files, scan, krate, clarifications, field)
    }
}

/// The exceptions that count for a crate, whose files are looked at behind all else, and all reads in order:
/// with the manifest's first, or behind those that settled the licence. The texts of the files are let go.
fn take_exceptions<T: Tree, I: Identifier, C: Catalog>(
    alloc: Global,
    tree: &mut T,
    scan: &Scan<'_, I, C>,
    krate: &Krate,
    exceptions: &ExceptionIndex<'_>,
    manifest_first: bool,
    located: LocatedLicense,
) -> Result<TakenLicense, AllocError>
    requires { located.reads_made ≡ length located.pack.reads }
    ensures kept { IfOk result (λ taken. Keeps located taken) }
    // over any tree, by whatever known reads agree with what was read
    ensures counted { IfOk result (λ taken. CountsBy (T.content tree.old) (T.content tree.new) (T.fault_count tree.old)
        (T.fault_count tree.new) (T.trace tree.old) (T.trace tree.new)
        (scanner_of_scan C.lists I.match_of scan.now) exceptions.now (record_of krate.now) manifest_first located taken) }
    ensures no_memory { OnErr result (Starves (T.content tree.old) (T.content tree.new) (T.fault_count tree.old)
        (T.fault_count tree.new) (T.trace tree.old) (T.trace tree.new)
        located.pack (λ known_reads. fold with_path (paths_read located.pack.reads)
        (named_for exceptions.now (record_of krate.now) known_reads))) }
{
    let place = manifest_place(manifest_first, located.reads_made);
    let counted = exceptions.counted(alloc, tree, krate, located.pack)?;
    let kept = kept_files(alloc, scan, &counted.pack)?;
    let reads = with_manifest(counted.pack.into_reads(), place, located.manifest)?;
    Ok(TakenLicense {
        by: located.by,
        missing: located.missing,
        location: located.location,
        exceptions: counted.places,
        reads,
        kept,
    })
}

/// What settles a crate's licence, where its manifest writes its field, and which exceptions count for it. The
/// field is handed in as it was read.
pub(crate) fn take<T: Tree, I: Identifier, C: Catalog>(
    alloc: Global,
    tree: &mut T,
    files: &mut Files,
    scan: &Scan<'_, I, C>,
    krate: &Krate,
    clarifications: &[&ClarificationRef<'_>],
    exceptions: &ExceptionIndex<'_>,
    field: Option<Expression>,
) -> Result<TakenLicense, AllocError>
    requires { field ≡ field_of (C.lists scan.now.catalog.now) (record_of krate.now) }
    // over any tree, by the answers to the turn's own reads, which are all the calls
    ensures answered { let krate = record_of krate.now in IfOk result (λ taken.
        IsByOwnReads (T.content tree.old) (T.content tree.new) (T.fault_count tree.old)
        (T.fault_count tree.new) (T.trace tree.old) (T.trace tree.new)
        (folder_of krate) taken.reads (λ known_reads manifest. IsTaken (turn_with
        (scanner_of_scan C.lists I.match_of scan.now) (map lent_clarification clarifications.now) exceptions.now krate
        known_reads manifest files.old) taken files.new)) }
    ensures no_memory { let krate = record_of krate.now in OnErr result (
        StarvesTaking (T.content tree.old) (T.content tree.new) (T.fault_count tree.old)
        (T.fault_count tree.new) (T.trace tree.old) (T.trace tree.new)
        (folder_of krate) (λ known_reads manifest. records_in (turn_with
        (scanner_of_scan C.lists I.match_of scan.now) (map lent_clarification clarifications.now) exceptions.now krate
        known_reads manifest files.old))) }
    ensures points { IfOk result (λ taken. IfSome taken.location (λ at.
        PointsAt files.new at (field_text (record_of krate.now)))) }
    ensures grows { Grows files.old files.new }
{
    let manifest_first = is_nothing(clarifications);
    let located = take_located(alloc, tree, files, scan, krate, clarifications, field)?;
    take_exceptions(
        alloc,
        tree,
        scan,
        krate,
        exceptions,
        manifest_first,
        located,
    )
}
