//! What is kept of licence files, once their texts are let go.
ghost use Rattle.std.specs.Prelude.{◌≡◌, ◌++◌, ◌∷◌, [], IfOk, OnOk};
ghost use Rattle.tree_core.specs.file_reads.Views.{heard_file};
ghost use Rattle.gather_license.specs.Settled.{scanner_of_scan};
ghost use Rattle.gather_license.specs.expression.Kept as spec;
ghost use Rattle.gather_license.specs.expression.Kept.{files_kept_in, kept_in};

use crate::expression::files::{IdentifiedName, identified, name_taken};
use crate::files::{LicensePack, LicenseText, PackFileData};
use crate::scan::Scan;
use deny_text::{ListOf, PathBuf};
use spdx_terms::catalog::{Catalog, Identifier};
use std::alloc::{AllocError, Global};
use tree_core::file_reads::BadRead;
use tree_core::{ReadKind, ReadRecord};

/// What is kept of a licence text: what it is identified as, whatever score is enough.
#[derive(Drop)]
pub struct KeptText {
    /// The hash of its normal form.
    pub hash: u32,
    /// In hundredths.
    pub score: u8,
    /// The name that is taken for it, if one is.
    pub name: Option<IdentifiedName>,
}

/// What is kept of a text, or why a file is none.
pub type TextKept = Result<KeptText, BadRead>;

/// A licence file by the path that it was read by.
#[derive(Drop)]
pub struct KeptFile {
    pub path: PathBuf,
    pub kept: TextKept,
}

/// Licence files, in the order in which they were read.
pub type KeptFiles = ListOf<KeptFile>;

fn text_kept<I: Identifier, C: Catalog>(
    alloc: Global,
    scan: &Scan<'_, I, C>,
    text: &LicenseText,
) -> Result<KeptText, AllocError>
    ensures { IfOk result (λ kept. kept ≡ spec.text_kept (scanner_of_scan C.lists I.match_of scan.now) text.now) }
{
    let found = identified(alloc, scan.identifier, text.as_str())?;
    let score = found.score;
    let name = name_taken(alloc, text.as_str(), found)?;
    Ok(KeptText {
        hash: text.hash(),
        score,
        name,
    })
}

/// What is kept of a file of a pack.
#[tactic(auto, using(crate::proofs::expression::KeptLemmas::bad_kept))]
fn data_kept<I: Identifier, C: Catalog>(
    alloc: Global,
    scan: &Scan<'_, I, C>,
    held: &PackFileData,
) -> Result<TextKept, AllocError>
    ensures { IfOk result (λ kept.
        kept ≡ spec.kept_of (scanner_of_scan C.lists I.match_of scan.now) (heard_file held.now)) }
{
    match held {
        Ok(text) => {
            let kept = text_kept(alloc, scan, text)?;
            Ok(Ok(kept))
        }
        Err(error) => Ok(Err(*error)),
    }
}

/// What is kept of the file at a path of a pack; one that is not in it is not there.
fn at_path<I: Identifier, C: Catalog>(
    alloc: Global,
    scan: &Scan<'_, I, C>,
    pack: &LicensePack,
    path: &PathBuf,
) -> Result<TextKept, AllocError>
    ensures { IfOk result (λ kept.
        kept ≡ spec.kept_at (scanner_of_scan C.lists I.match_of scan.now) pack.now.files path.now) }
{
    let found = pack.file(alloc, path)?;
    match found {
        Some(held) => data_kept(alloc, scan, held),
        None => Ok(Err(BadRead::Absent)),
    }
}

/// Appends what is kept of a read, where that is of a licence file.
fn push_kept<I: Identifier, C: Catalog>(
    alloc: Global,
    kept: &mut KeptFiles,
    scan: &Scan<'_, I, C>,
    pack: &LicensePack,
    read: &ReadRecord,
) -> Result<(), AllocError>
    ensures { OnOk result (kept.new ≡ kept.old
        ++ files_kept_in (scanner_of_scan C.lists I.match_of scan.now) pack.now.files (read.now ∷ [])) }
{
    match read.kind {
        ReadKind::LicenseFile => {
            let text = at_path(alloc, scan, pack, &read.path)?;
            let path = PathBuf::copy(alloc, read.path.as_path())?;
            kept.push(KeptFile { path, kept: text })
        }
        ReadKind::Manifest | ReadKind::Listing => Ok(()),
    }
}

/// What is kept of the licence files of a pack, in the order in which they were read. Each is identified anew.
fn all_kept<I: Identifier, C: Catalog>(
    alloc: Global,
    scan: &Scan<'_, I, C>,
    pack: &LicensePack,
) -> Result<KeptFiles, AllocError>
    ensures { IfOk result (λ kept.
        kept ≡ files_kept_in (scanner_of_scan C.lists I.match_of scan.now) pack.now.files pack.now.reads) }
{
    let mut kept = KeptFiles::new(alloc);
    'reads: for read in pack.reads() {
        push_kept(alloc, &mut kept, scan, pack, read)?;
    }
    Ok(kept)
}

/// What is kept of the licence files of a pack, in the order in which they were read; nothing where it is not asked
/// for.
pub fn kept_files<I: Identifier, C: Catalog>(
    alloc: Global,
    scan: &Scan<'_, I, C>,
    pack: &LicensePack,
) -> Result<KeptFiles, AllocError>
    ensures { IfOk result (λ kept. kept ≡ kept_in (scanner_of_scan C.lists I.match_of scan.now) pack.now) }
{
    if scan.keeps {
        all_kept(alloc, scan, pack)
    } else {
        Ok(KeptFiles::new(alloc))
    }
}
