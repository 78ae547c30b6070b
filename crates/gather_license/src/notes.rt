//! What is noted of licence files.
ghost use Rattle.std.specs.Prelude.{◌≡◌, ◌++◌, IfOk, OnOk};
ghost use Rattle.std.specs.List.{flat_map};
ghost use Rattle.std.specs.Option.{option_to_list};
ghost use Rattle.gather_license.specs.Notes as spec;
ghost use Rattle.gather_license.specs.Notes.{deprecated_note, file_notes, path_given, renamed_note};

use crate::expression::{FileResult, IdentifiedName, ScannedFile};
use deny_text::{PathBuf, Text, Texts};
use diag_core::Notes;
use std::alloc::{AllocError, Global};

/// Notes a file whose text was taken for that of `Pixar`.
fn note_renamed(
    alloc: Global,
    notes: &mut Notes,
    path: &PathBuf,
    name: &IdentifiedName,
) -> Result<(), AllocError>
    ensures { OnOk result (notes.new ≡ notes.old ++ renamed_note path.now name.now.renamed) }
{
    if name.renamed {
        let note = format!(in alloc;
            "'{path}' fuzzy matched to Pixar license, but it is actually a normal Apache-2.0 license"
        )?;
        return notes.push(Text::from(note));
    }
    Ok(())
}

/// Notes a file whose licence the catalogue calls deprecated.
fn note_deprecated(
    alloc: Global,
    notes: &mut Notes,
    path: &PathBuf,
    name: &IdentifiedName,
    deprecated: bool,
) -> Result<(), AllocError>
    ensures { OnOk result (notes.new ≡ notes.old ++ deprecated_note path.now name.now.name deprecated) }
{
    if deprecated {
        let name = &name.name;
        let note = format!(in alloc;
            "license '{name}' detected in '{path}' is deprecated in the catalogue"
        )?;
        return notes.push(Text::from(note));
    }
    Ok(())
}

/// Appends what is noted of a file.
fn note_file(alloc: Global, notes: &mut Notes, file: &ScannedFile) -> Result<(), AllocError>
    ensures { OnOk result (notes.new ≡ notes.old ++ file_notes file.now) }
{
    match &file.scanned {
        FileResult::Bad(_) => Ok(()),
        FileResult::Unnamed { .. } => Ok(()),
        FileResult::Low { name, .. } => note_renamed(alloc, notes, &file.path, name),
        FileResult::Unknown { name, .. } => note_renamed(alloc, notes, &file.path, name),
        FileResult::Joined {
            name,
            deprecated,
            ..
        } => {
            note_renamed(alloc, notes, &file.path, name)?;
            note_deprecated(alloc, notes, &file.path, name, *deprecated)
        }
    }
}

/// What is noted of files, in order.
pub(crate) fn notes_of(alloc: Global, files: &[ScannedFile]) -> Result<Notes, AllocError>
    ensures { IfOk result (λ notes. notes ≡ flat_map file_notes files.now) }
{
    let mut notes = Notes::new(alloc);
    'files: for file in files {
        note_file(alloc, &mut notes, file)?;
    }
    Ok(notes)
}

/// Appends the path of a file that gives a name.
fn push_given(alloc: Global, paths: &mut Texts, file: &ScannedFile) -> Result<(), AllocError>
    ensures { OnOk result (paths.new ≡ paths.old ++ option_to_list (path_given file.now)) }
{
    match &file.scanned {
        FileResult::Joined { .. } => {
            let path = Text::copy(alloc, file.path.as_path())?;
            paths.push(path)
        }
        _ => Ok(()),
    }
}

/// The paths of the files that give a name, in order.
pub(crate) fn paths_given(alloc: Global, files: &[ScannedFile]) -> Result<Texts, AllocError>
    ensures { IfOk result (λ paths. paths ≡ spec.paths_given files.now) }
{
    let mut paths = Texts::new(alloc);
    'files: for file in files {
        push_given(alloc, &mut paths, file)?;
    }
    Ok(paths)
}
