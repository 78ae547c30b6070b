//! The licence of one crate.
ghost use Rattle.std.specs.Prelude.{◌≡◌, ◌++◌, IfOk, OnErr, OnOk, None, Some, [], map, option_map};
ghost use Rattle.std.specs.List.{flat_map, fold};
ghost use Rattle.std.specs.Option.{option_to_list};
ghost use Rattle.graph_core.specs.Krate.{record_of};
ghost use Rattle.gather_license.specs.files.Calls.{GoesBy, IsMadeBy, Starves, StarvesAmong};
ghost use Rattle.gather_license.specs.files.KnownReads.{FolderReads, looked_of, tried_of};
ghost use Rattle.gather_license.specs.files.Steps.{Agrees, unread_pack, with_path};
ghost use Rattle.gather_license.specs.files.View.{paths_read};
ghost use Rattle.gather_license.specs.Calls.{IsByReads};
ghost use Rattle.gather_license.specs.Clarification.{lent_clarification, named_files, held_in};
ghost use Rattle.gather_license.specs.Priority as spec;
ghost use Rattle.gather_license.specs.Priority.{field_of, folder_of, holding_clarification, records_of, records_with};
ghost use Rattle.gather_license.specs.Settled.{IsSettledFrom, missing_of, scanner_of_scan};
ghost use Rattle.gather_license.specs.Steps.{IsLooked, IsOrderedFrom};

use crate::clarification::{ClarificationRef, HeldClarification};
use crate::files::LicensePack;
use crate::scan::Scan;
use crate::settling::{LicenseBasis, settle_by_cases};
use deny_text::ListOf;
use deny_text::path::parent;
use diag_core::Coord;
use graph_core::Krate;
use spdx_core::{Catalog, Expression};
use spdx_terms::catalog::Identifier;
use std::alloc::{AllocError, Global};
use tree_core::Tree;

/// Places in files, in order.
pub type Coords = ListOf<Coord>;

/// What settles a crate's licence, and what was read of its folder for that.
#[derive(Drop)]
pub struct SettledLicense {
    pub by: LicenseBasis,
    /// The places of the paths of files that are not there: of each clarification that was tried, in its own
    /// file, that of the first file that does not match, where nothing is there.
    pub missing: Coords,
    /// The files that were read, by their paths, with the records of their reads. Further files can be looked
    /// up in it.
    pub pack: LicensePack,
    /// How many reads were made.
    pub reads_made: usize,
}

/// A crate's pack, the first clarification that holds by it, and the places of files that are not there.
#[derive(Drop)]
pub(crate) struct ClarifiedPack {
    pub(crate) pack: LicensePack,
    held: Option<HeldClarification>,
    missing: Coords,
}

/// The folder of a crate's manifest.
pub fn folder(krate: &Krate) -> &str
    ensures { result.now ≡ folder_of (record_of krate.now) }
{
    parent(krate.manifest_path.as_path()).unwrap_or("")
}

/// Appends the place of a file that is not there, where there is one.
fn push_missing(missing: &mut Coords, place: Option<Coord>) -> Result<(), AllocError>
    ensures { OnOk result (missing.new ≡ missing.old ++ option_to_list place) }
{
    match place {
        Some(place) => missing.push(place),
        None => Ok(()),
    }
}

/// Tries clarifications in order, up to the first that holds.
fn try_all<T: Tree>(
    alloc: Global,
    tree: &mut T,
    pack: LicensePack,
    clarifications: &[&ClarificationRef<'_>],
) -> Result<ClarifiedPack, AllocError>
    ensures paths { IfOk result (λ clarified. (known_reads : FolderReads) → Agrees known_reads clarified.pack
        → paths_read clarified.pack.reads ≡ fold with_path (paths_read pack.reads)
        (flat_map (looked_of known_reads) (tried_of known_reads (named_files (map lent_clarification clarifications.now))))) }
    ensures held { IfOk result (λ clarified. (known_reads : FolderReads) → Agrees known_reads clarified.pack
        → clarified.held ≡ option_map held_in (holding_clarification known_reads (map lent_clarification clarifications.now))) }
    ensures missing { IfOk result (λ clarified. (known_reads : FolderReads) → Agrees known_reads clarified.pack
        → clarified.missing ≡ missing_of known_reads (map lent_clarification clarifications.now)) }
    // over any tree: the calls are those of the reads that went into the pack
    ensures goes { IfOk result (λ clarified. GoesBy (T.content tree.old) (T.content tree.new) (T.fault_count tree.old)
        (T.fault_count tree.new) (T.trace tree.old) (T.trace tree.new)
        pack clarified.pack) }
    ensures no_memory { OnErr result (Starves (T.content tree.old) (T.content tree.new) (T.fault_count tree.old)
        (T.fault_count tree.new) (T.trace tree.old) (T.trace tree.new)
        pack (λ known_reads. fold with_path (paths_read pack.reads)
        (flat_map (looked_of known_reads) (tried_of known_reads (named_files (map lent_clarification clarifications.now)))))) }
{
    let mut pack = pack;
    let mut missing = Coords::new(alloc);
    'all: for clarification in clarifications {
        let tried = pack.tries(alloc, tree, clarification.files())?;
        pack = tried.pack;
        push_missing(&mut missing, clarification.place_of(tried.missing))?;
        if tried.holds {
            let held = clarification.held(alloc)?;
            return Ok(ClarifiedPack {
                pack,
                held: Some(held),
                missing,
            });
        }
    }
    Ok(ClarifiedPack {
        pack,
        held: None,
        missing,
    })
}

/// Reads what is found of a crate's licence files, and tries clarifications.
pub(crate) fn look<T: Tree>(
    alloc: Global,
    tree: &mut T,
    krate: &Krate,
    clarifications: &[&ClarificationRef<'_>],
) -> Result<ClarifiedPack, AllocError>
    ensures looked { IfOk result (λ clarified.
        IsLooked (record_of krate.now) (map lent_clarification clarifications.now) clarified.pack clarified.held
        clarified.missing) }
    ensures made { IfOk result (λ clarified. IsMadeBy (T.content tree.old) (T.content tree.new) (T.fault_count tree.old)
        (T.fault_count tree.new) (T.trace tree.old) (T.trace tree.new)
        (folder_of (record_of krate.now)) clarified.pack) }
    ensures no_memory { OnErr result (StarvesAmong (T.content tree.old) (T.content tree.new) (T.fault_count tree.old)
        (T.fault_count tree.new) (T.trace tree.old) (T.trace tree.new)
        (folder_of (record_of krate.now)) (records_with (map lent_clarification clarifications.now) (record_of krate.now))) }
{
    let pack = LicensePack::read(alloc, tree, folder(krate), krate.license_file.as_ref())?;
    let clarified = try_all(alloc, tree, pack, clarifications)?;
    Ok(clarified)
}

/// By the field alone, where no clarification is for the crate.
fn settle_by_field(
    alloc: Global,
    krate: &Krate,
    expression: Expression,
) -> Result<SettledLicense, AllocError>
    ensures { IfOk result (λ settled. settled ≡ record {
      by = LicenseBasis.Field expression;
      missing = [];
      pack = unread_pack (folder_of (record_of krate.now));
      reads_made = 0;
    }) }
{
    let pack = LicensePack::unread(alloc, folder(krate))?;
    Ok(SettledLicense {
        by: LicenseBasis::Field(expression),
        missing: Coords::new(alloc),
        pack,
        reads_made: 0,
    })
}

/// By the crate's files: with the clarifications that are for it, and the expression of its field.
fn settle_by_files<T: Tree, I: Identifier, C: Catalog>(
    alloc: Global,
    tree: &mut T,
    scan: &Scan<'_, I, C>,
    krate: &Krate,
    clarifications: &[&ClarificationRef<'_>],
    field: Option<Expression>,
) -> Result<SettledLicense, AllocError>
    requires { field ≡ field_of (C.lists scan.now.catalog.now) (record_of krate.now) }
    ensures answered { let krate = record_of krate.now in IfOk result (λ settled.
        IsByReads (T.content tree.old) (T.content tree.new) (T.fault_count tree.old)
        (T.fault_count tree.new) (T.trace tree.old) (T.trace tree.new)
        (folder_of krate) settled.pack.reads (λ known_reads. IsOrderedFrom (scanner_of_scan C.lists I.match_of scan.now)
        (map lent_clarification clarifications.now) krate known_reads settled)) }
    ensures no_memory { OnErr result (StarvesAmong (T.content tree.old) (T.content tree.new) (T.fault_count tree.old)
        (T.fault_count tree.new) (T.trace tree.old) (T.trace tree.new)
        (folder_of (record_of krate.now)) (records_with (map lent_clarification clarifications.now) (record_of krate.now))) }
{
    let clarified = look(alloc, tree, krate, clarifications)?;
    let by = settle_by_cases(alloc, scan, clarified.held, field, &clarified.pack)?;
    let reads_made = clarified.pack.reads_made();
    Ok(SettledLicense {
        by,
        missing: clarified.missing,
        pack: clarified.pack,
        reads_made,
    })
}

/// Whether no clarification is for a crate.
fn is_nothing(clarifications: &[&ClarificationRef<'_>]) -> bool
    ensures { result ≡ spec.is_nothing (map lent_clarification clarifications.now) }
{
    clarifications.is_empty()
}

/// What settles the licence of a crate: the first that holds of a clarification that is for it, with the
/// expression as it is there; its field, which is handed in as it was read; the names of its licence
/// files, joined; else nothing. Its folder is listed, and licence files are read, where a clarification is
/// for it, and where its field gives no expression.
pub fn settle_license<T: Tree, I: Identifier, C: Catalog>(
    alloc: Global,
    tree: &mut T,
    scan: &Scan<'_, I, C>,
    krate: &Krate,
    clarifications: &[&ClarificationRef<'_>],
    field: Option<Expression>,
) -> Result<SettledLicense, AllocError>
    requires { field ≡ field_of (C.lists scan.now.catalog.now) (record_of krate.now) }
    // over any tree, by the answers to the crate's own reads, which are all the calls, and by whatever else agrees with
    // these
    ensures answered { let krate = record_of krate.now in IfOk result (λ settled.
        IsByReads (T.content tree.old) (T.content tree.new) (T.fault_count tree.old)
        (T.fault_count tree.new) (T.trace tree.old) (T.trace tree.new)
        (folder_of krate) settled.pack.reads (λ known_reads. IsSettledFrom (scanner_of_scan C.lists I.match_of scan.now)
        (map lent_clarification clarifications.now) krate known_reads settled)) }
    ensures no_memory { OnErr result (StarvesAmong (T.content tree.old) (T.content tree.new) (T.fault_count tree.old)
        (T.fault_count tree.new) (T.trace tree.old) (T.trace tree.new)
        (folder_of (record_of krate.now)) (records_of (scanner_of_scan C.lists I.match_of scan.now)
        (map lent_clarification clarifications.now) (record_of krate.now))) }
{
    if !is_nothing(clarifications) {
        return settle_by_files(alloc, tree, scan, krate, clarifications, field);
    }
    match field {
        Some(expression) => settle_by_field(alloc, krate, expression),
        None => settle_by_files(alloc, tree, scan, krate, clarifications, None),
    }
}
