//! Licence files, and the names that they are identified by.
ghost use Rattle.std.specs.Prelude.{◌≡◌, IfOk, Some, option_copied, option_map, map, if◌then◌else◌, nat_le};
ghost use Rattle.tree_core.specs.file_reads.Views.{heard_file};
ghost use Rattle.gather_license.specs.expression.Scanned as spec;
ghost use Rattle.gather_license.specs.expression.Scanned.{begins_as_pixar, file_scanned, match_by, identified_name};
ghost use Rattle.gather_license.specs.Settled.{scanner_of_scan};
ghost use Rattle.gather_license.specs.expression.Scanned.{name_taken, named_by, scanned_of, text_scanned};

use crate::files::{LicensePack, LicenseText, PackFileData};
use crate::scan::Scan;
use deny_text::{ListOf, PathBuf, Text};
use spdx_terms::catalog::{Catalog, Identifier, Match};
use std::alloc::{AllocError, Global};
use tree_core::file_reads::BadRead;

/// The name that a text was identified by.
#[derive(Drop)]
pub struct IdentifiedName {
    pub name: Text,
    /// The name is `Apache-2.0` in the place of `Pixar`.
    pub renamed: bool,
}

/// What comes of a licence file. Hashes are those of normal forms, scores hundredths.
#[derive(Drop)]
pub enum FileResult {
    /// It is no text.
    Bad(BadRead),
    /// No name was taken.
    Unnamed {
        hash: u32,
        score: u8,
    },
    /// The score of the name is below the threshold.
    Low {
        hash: u32,
        score: u8,
        name: IdentifiedName,
    },
    /// The catalogue does not know the name.
    Unknown {
        hash: u32,
        score: u8,
        name: IdentifiedName,
    },
    /// The name is joined to the expression.
    Joined {
        hash: u32,
        name: IdentifiedName,
        deprecated: bool,
    },
}

/// A licence file by its path from the crate's folder.
#[derive(Drop)]
pub struct ScannedFile {
    pub path: PathBuf,
    pub scanned: FileResult,
}

/// Whether a text, without white space at its start, begins as that of `Pixar`.
fn begins_as_pixar(normal: &str) -> bool
    ensures { result ≡ begins_as_pixar normal.now }
{
    normal
        .trim_start()
        .starts_with("Modified Apache 2.0 License")
}

fn name_of(alloc: Global, normal: &str, name: Text) -> Result<IdentifiedName, AllocError>
    ensures { IfOk result (λ taken. taken ≡ identified_name normal.now name) }
{
    if name.as_str() == "Pixar" {
        if begins_as_pixar(normal) {
            return Ok(IdentifiedName {
                name,
                renamed: false,
            });
        }
        let name = Text::copy(alloc, "Apache-2.0")?;
        return Ok(IdentifiedName {
            name,
            renamed: true,
        });
    }
    Ok(IdentifiedName {
        name,
        renamed: false,
    })
}

/// The name that is taken of what an identifier says of a text.
pub(crate) fn name_taken(
    alloc: Global,
    normal: &str,
    found: Match,
) -> Result<Option<IdentifiedName>, AllocError>
    ensures { IfOk result (λ taken. taken ≡ name_taken normal.now found) }
{
    if found.score < 50 {
        return Ok(None);
    }
    match found.name {
        Some(name) => {
            let name = name_of(alloc, normal, name)?;
            Ok(Some(name))
        }
        None => Ok(None),
    }
}

/// What an identifier says of a text; without one no text is identified, at score 0.
pub(crate) fn identified<I: Identifier>(
    alloc: Global,
    identifier: Option<&I>,
    normal: &str,
) -> Result<Match, AllocError>
    ensures { IfOk result (λ found. found ≡ match_by I.match_of (option_copied identifier.entry) normal.now) }
{
    match identifier {
        Some(identifier) => identifier.scan(alloc, normal),
        None => Ok(Match {
            name: None,
            score: 0,
        }),
    }
}

/// A name, by whether its score is enough and the catalogue knows it.
fn named<C: Catalog>(
    threshold: u8,
    hash: u32,
    score: u8,
    name: IdentifiedName,
    catalog: &C,
) -> FileResult
    ensures { result ≡ named_by (C.lists catalog.now) threshold hash score name }
{
    if score < threshold {
        return FileResult::Low { hash, score, name };
    }
    match catalog.license(name.name.as_str()) {
        Some(entry) => FileResult::Joined {
            hash,
            name,
            deprecated: entry.deprecated,
        },
        None => FileResult::Unknown { hash, score, name },
    }
}

fn text_scanned<I: Identifier, C: Catalog>(
    alloc: Global,
    scan: &Scan<'_, I, C>,
    text: &LicenseText,
) -> Result<FileResult, AllocError>
    ensures { IfOk result (λ scanned. scanned ≡ text_scanned (scanner_of_scan C.lists I.match_of scan.now) text.now) }
{
    let found = identified(alloc, scan.identifier, text.as_str())?;
    let score = found.score;
    let taken = name_taken(alloc, text.as_str(), found)?;
    match taken {
        Some(name) => Ok(named(scan.threshold, text.hash(), score, name, scan.catalog)),
        None => Ok(FileResult::Unnamed {
            hash: text.hash(),
            score,
        }),
    }
}

#[tactic(auto, using(crate::proofs::expression::ScannedLemmas::bad_scanned))]
fn scan_file<I: Identifier, C: Catalog>(
    alloc: Global,
    scan: &Scan<'_, I, C>,
    kept: &PackFileData,
) -> Result<FileResult, AllocError>
    ensures { IfOk result (λ scanned. scanned ≡ scanned_of (scanner_of_scan C.lists I.match_of scan.now) (heard_file kept.now)) }
{
    match kept {
        Ok(text) => text_scanned(alloc, scan, text),
        Err(error) => Ok(FileResult::Bad(*error)),
    }
}

/// What comes of each file of a pack, in path order.
pub fn scan_pack<I: Identifier, C: Catalog>(
    alloc: Global,
    scan: &Scan<'_, I, C>,
    pack: &LicensePack,
) -> Result<ListOf<ScannedFile>, AllocError>
    ensures { IfOk result (λ files. files ≡ map (file_scanned (scanner_of_scan C.lists I.match_of scan.now)) pack.now.files) }
{
    let mut files = ListOf::new(alloc);
    let mut rest = pack.iter();
    'files: while let Some((path, kept)) = rest.next() {
        let path = PathBuf::copy(alloc, path.as_path())?;
        let scanned = scan_file(alloc, scan, kept)?;
        files.push(ScannedFile { path, scanned })?;
    }
    Ok(files)
}
