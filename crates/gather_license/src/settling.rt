//! What settles a licence.
ghost use Rattle.std.specs.Prelude.{◌≡◌, IfOk};
ghost use Rattle.gather_license.specs.Priority.{by_seen, scanned_in, joined_of, settling_by};
ghost use Rattle.gather_license.specs.Settled.{scanner_of_scan};
ghost use Rattle.gather_license.specs.Steps.{seen_in};

use crate::clarification::HeldClarification;
use crate::expression::{ScannedFile, joined, scan_pack};
use crate::files::LicensePack;
use crate::notes::{notes_of, paths_given};
use crate::scan::Scan;
use deny_text::{ListOf, Texts};
use diag_core::Notes;
use spdx_core::{Catalog, Expression};
use spdx_terms::catalog::Identifier;
use std::alloc::{AllocError, Global};
use tree_core::file_reads::BadRead;

/// What is seen of a crate's licence files.
#[derive(Drop)]
pub enum FilesSeen {
    /// Why the folder was not listed.
    Unlisted(BadRead),
    /// What comes of each file, in path order.
    Listed(ListOf<ScannedFile>),
}

/// The names that licence files give, as one expression.
#[derive(Drop)]
pub struct JoinedNames {
    pub expression: Expression,
    /// The paths of the files that give a name, in order.
    pub paths: Texts,
    /// What is noted of all files.
    pub notes: Notes,
}

/// What settles a licence.
#[derive(Drop)]
pub enum LicenseBasis {
    /// A clarification of the policy or of its exceptions file, which holds.
    Clarified(HeldClarification),
    /// The crate's own field.
    Field(Expression),
    /// The licence files; joined is the expression of their names, where a file gives one.
    Files {
        seen: FilesSeen,
        joined: Option<JoinedNames>,
    },
}

impl FilesSeen {
    /// What comes of each file; nothing where the folder was not listed.
    pub fn files(&self) -> &[ScannedFile]
        ensures { result.now ≡ scanned_in self.now }
    {
        match self {
            FilesSeen::Unlisted(_) => &[],
            FilesSeen::Listed(files) => files.items(),
        }
    }
}

/// What is seen of the licence files of a pack. Where the folder was not listed none is looked at.
fn seen_of<I: Identifier, C: Catalog>(
    alloc: Global,
    scan: &Scan<'_, I, C>,
    pack: &LicensePack,
) -> Result<FilesSeen, AllocError>
    ensures { IfOk result (λ seen.
        seen ≡ seen_in (scanner_of_scan C.lists I.match_of scan.now) pack.now) }
{
    match pack.unlisted() {
        Some(error) => Ok(FilesSeen::Unlisted(error)),
        None => {
            let files = scan_pack(alloc, scan, pack)?;
            Ok(FilesSeen::Listed(files))
        }
    }
}

/// The names that files give, joined.
fn joined_names<C: Catalog>(
    alloc: Global,
    files: &[ScannedFile],
    catalog: &C,
) -> Result<Option<JoinedNames>, AllocError>
    ensures { IfOk result (λ names. names ≡ joined_of (C.lists catalog.now) files.now) }
{
    let expression = joined(alloc, files, catalog)?;
    match expression {
        Some(expression) => {
            let paths = paths_given(alloc, files)?;
            let notes = notes_of(alloc, files)?;
            Ok(Some(JoinedNames {
                expression,
                paths,
                notes,
            }))
        }
        None => Ok(None),
    }
}

/// By the licence files of a pack.
fn by_pack<I: Identifier, C: Catalog>(
    alloc: Global,
    scan: &Scan<'_, I, C>,
    pack: &LicensePack,
) -> Result<LicenseBasis, AllocError>
    ensures { let scanner = scanner_of_scan C.lists I.match_of scan.now in IfOk result (λ by.
        by ≡ by_seen scanner.lists (seen_in scanner pack.now)) }
{
    let seen = seen_of(alloc, scan, pack)?;
    let joined = joined_names(alloc, seen.files(), scan.catalog)?;
    Ok(LicenseBasis::Files { seen, joined })
}

/// By a clarification that holds, else by the expression of the field, else by the licence files.
pub(crate) fn settle_by_cases<I: Identifier, C: Catalog>(
    alloc: Global,
    scan: &Scan<'_, I, C>,
    held: Option<HeldClarification>,
    field: Option<Expression>,
    pack: &LicensePack,
) -> Result<LicenseBasis, AllocError>
    ensures { let scanner = scanner_of_scan C.lists I.match_of scan.now in IfOk result (λ by.
        by ≡ settling_by held field (by_seen scanner.lists (seen_in scanner pack.now))) }
{
    match held {
        Some(held) => Ok(LicenseBasis::Clarified(held)),
        None => match field {
            Some(expression) => Ok(LicenseBasis::Field(expression)),
            None => by_pack(alloc, scan, pack),
        },
    }
}
