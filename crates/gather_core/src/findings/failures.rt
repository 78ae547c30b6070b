//! What failed of a crate's licence files.
ghost use Rattle.std.specs.Prelude.{◌≡◌, ◌++◌, IfOk, OnOk, map, option_copied};
ghost use Rattle.std.specs.List.{filter_map};
ghost use Rattle.std.specs.Option.{option_to_list};
ghost use Rattle.gather_core.specs.findings.Findings as spec;
ghost use Rattle.gather_core.specs.findings.Findings.{failure_of};
ghost use Rattle.gather_core.specs.findings.Views.{lent_text, seen_view};

use crate::findings::case::SeenFiles;
use gather_license::expression::{FileResult, ScannedFile};
use std::alloc::{AllocError, Global};

/// What is said of failures, in order.
pub(crate) type Words = Vec<&'static str>;

/// Why a file gives no name; none where it gives one.
fn failure_of(scanned: &FileResult) -> Option<&'static str>
    ensures { option_copied result ≡ failure_of scanned.now }
{
    match scanned {
        FileResult::Bad(_) => Some("unable to read license file"),
        FileResult::Unnamed { .. } => Some("low confidence in the license text"),
        FileResult::Low { .. } => Some("low confidence in the license text"),
        FileResult::Unknown { .. } => Some("unknown SPDX identifier"),
        FileResult::Joined { .. } => None,
    }
}

/// Appends why a file gives no name.
fn push_failure(words: &mut Words, file: &ScannedFile) -> Result<(), AllocError>
    ensures { OnOk result (map lent_text words.new.items ≡ map lent_text words.old.items
        ++ option_to_list (failure_of file.now.scanned)) }
{
    match failure_of(&file.scanned) {
        Some(failure) => {
            words.push(failure)?;
            Ok(())
        }
        None => Ok(()),
    }
}

/// What is said of the files that give no name, in order.
fn file_failures(alloc: Global, files: &[ScannedFile]) -> Result<Words, AllocError>
    ensures { IfOk result (λ words. map lent_text words.items
        ≡ filter_map (λ file. failure_of file.scanned) files.now) }
{
    let mut words = Vec::new(alloc);
    'files: for file in files {
        push_failure(&mut words, file)?;
    }
    Ok(words)
}

/// What failed, in path order.
pub(crate) fn failures_of(alloc: Global, seen: SeenFiles<'_>) -> Result<Words, AllocError>
    ensures { IfOk result (λ words. map lent_text words.items ≡ spec.failures_of (seen_view seen.entry)) }
{
    match seen {
        SeenFiles::Unlisted(_) => {
            let mut words = Vec::new(alloc);
            words.push("unable to gather license files")?;
            Ok(words)
        }
        SeenFiles::Listed(files) => file_failures(alloc, files),
    }
}
