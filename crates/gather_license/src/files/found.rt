//! The licence files that a listing shows.
ghost use Rattle.std.specs.Prelude.{◌≡◌, ◌++◌, ◌∷◌, [], IfOk, OnOk, map, option_copied, if◌then◌else◌};
ghost use Rattle.std.specs.List.{list_any};
ghost use Rattle.tree_core.specs.Answer.{listed_entry};
ghost use Rattle.tree_core.specs.file_reads.Views.{heard_folder};
ghost use Rattle.gather_license.specs.files.Pack.{ends_with_parts, license_files_in, is_license_file, is_license_name};
ghost use Rattle.gather_license.specs.files.Pack.{names_found, with_license_file};

use deny_text::path::ends_with;
use deny_text::{ListOf, PathBuf};
use std::alloc::{AllocError, Global};
use tree_core::Entry;
use tree_core::file_reads::FolderHeard;

/// Whether a name begins `LICENSE` or `COPYING`.
fn is_license_name(name: &str) -> bool
    ensures { result ≡ is_license_name name.now }
{
    name.starts_with("LICENSE") || name.starts_with("COPYING")
}

fn is_license_file(entry: &Entry) -> bool
    ensures { result ≡ is_license_file (listed_entry entry.now) }
{
    entry.is_file && is_license_name(entry.name.as_str())
}

/// Appends the name of an entry where that is a licence file.
fn push_found(alloc: Global, names: &mut ListOf<PathBuf>, entry: &Entry) -> Result<(), AllocError>
    ensures { OnOk result (names.new ≡ names.old
        ++ (if is_license_file (listed_entry entry.now) then entry.now.name ∷ [] else [])) }
{
    if is_license_file(entry) {
        let name = PathBuf::copy(alloc, entry.name.as_str())?;
        return names.push(name);
    }
    Ok(())
}

fn names_found(alloc: Global, entries: &[Entry]) -> Result<ListOf<PathBuf>, AllocError>
    ensures { IfOk result (λ names. names ≡ names_found (map listed_entry entries.now)) }
{
    let mut names = ListOf::new(alloc);
    'entries: for entry in entries {
        push_found(alloc, &mut names, entry)?;
    }
    Ok(names)
}

/// Whether the parts of a path end with those of another.
fn ends_with_parts(path: &str, end: &str) -> bool
    ensures { result ≡ ends_with_parts path.now end.now }
{
    ends_with(path, end)
}

/// Whether the parts of some path end with those of another.
fn some_ends_with(paths: &[PathBuf], end: &str) -> bool
    ensures { result ≡ list_any (λ path. ends_with_parts path end.now) paths.now }
{
    paths
        .iter()
        .any(|path| ends_with_parts(path.as_path(), end))
}

/// Appends the crate's `license_file`, where no path ends with it.
fn push_license_file(
    alloc: Global,
    names: &mut ListOf<PathBuf>,
    license_file: Option<&PathBuf>,
) -> Result<(), AllocError>
    ensures { OnOk result (names.new ≡ with_license_file (option_copied license_file.entry) names.old) }
{
    let Some(file) = license_file else {
        return Ok(());
    };
    if some_ends_with(names.items(), file.as_path()) {
        return Ok(());
    }
    let file = PathBuf::copy(alloc, file.as_path())?;
    names.push(file)
}

/// The files that are found: those that the listing shows by their names, and the crate's `license_file`.
/// Without a listing nothing is found.
pub(crate) fn found(
    alloc: Global,
    listing: &FolderHeard,
    license_file: Option<&PathBuf>,
) -> Result<ListOf<PathBuf>, AllocError>
    ensures { IfOk result (λ names.
        names ≡ license_files_in (heard_folder listing.now) (option_copied license_file.entry)) }
{
    match listing {
        Ok(entries) => {
            let mut names = names_found(alloc, entries.items())?;
            push_license_file(alloc, &mut names, license_file)?;
            Ok(names)
        }
        Err(_) => Ok(ListOf::new(alloc)),
    }
}
