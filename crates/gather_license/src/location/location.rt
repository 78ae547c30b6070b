//! The location of a field, by the file table or by reading the manifest.
ghost use Rattle.std.specs.Prelude.{◌≡◌, ◌⊎◌, ◌++◌, ℕ, List, [], ◌∷◌, length, IfOk, IfSome, OnOk, OnErr, None};
ghost use Rattle.std.specs.Option.{option_and_then, option_map};
ghost use Rattle.tree_core.specs.Call as call;
ghost use Rattle.tree_core.specs.Hearing.{MadeSome};
ghost use Rattle.tree_core.specs.file_reads.Answered.{IsFileRead, call_of};
ghost use Rattle.tree_core.specs.file_reads.Views.{heard_file};
ghost use Rattle.deny_text.specs.Path.{key_of};
ghost use Rattle.diag_core.specs.File.{file_id_at, source_of_file};
ghost use Rattle.gather_license.specs.location.Calls.{IsLocatedBy, StarvesLocating};
ghost use Rattle.gather_license.specs.location.Location as spec;
ghost use Rattle.gather_license.specs.location.Location.{CutsOut, PointsAt, coord_at, files_with_manifest};
ghost use Rattle.gather_license.specs.location.Location.{in_heard, field_in_table, joined_by};

use crate::location::search::{counted_at, span_in};
use deny_text::{PathBuf, Span, Text};
use diag_core::{Coord, FileId, Files};
use std::alloc::{AllocError, Global};
use tree_core::file_reads::{FileHeard, file_record, read_file};
use tree_core::{ReadKind, ReadRecord, Tree};

/// Where a field is, and the record of the read of its manifest, where that was read.
#[derive(Drop)]
pub struct LocatedField {
    /// None where the manifest does not write the field.
    pub location: Option<Coord>,
    pub read: Option<ReadRecord>,
}

/// The place of a field in a file of the table.
fn span_of(files: &mut Files, id: FileId, field: &str) -> Option<Span>
    ensures value { result ≡ option_and_then (spec.span_in field.now) (source_of_file files.old id) }
    ensures points { IfSome result (λ span. PointsAt files.new (coord_at id span) field.now) }
    ensures same { files.new ≡ files.old }
{
    let span = files.license_span(id);
    match files.source(id) {
        Ok(text) => counted_at(text, span, field),
        Err(_) => None,
    }
}

/// By a file of the table: nothing is read.
fn locate_in(files: &mut Files, id: FileId, field: &str) -> LocatedField
    ensures located { result ≡ field_in_table field.now files.old id }
    ensures points { IfSome result.location (λ at. PointsAt files.new at field.now) }
    ensures same { files.new ≡ files.old }
{
    match span_of(files, id, field) {
        Some(span) => LocatedField {
            location: Some(Coord { file: id, span }),
            read: None,
        },
        None => LocatedField {
            location: None,
            read: None,
        },
    }
}

/// What is read of a manifest. Its path is by the root, and not by a folder of its own.
fn read_manifest<T: Tree>(
    alloc: Global,
    tree: &mut T,
    path: &PathBuf,
) -> Result<FileHeard, AllocError>
    ensures read { IfOk result (λ heard. IsFileRead (T.fault_count tree.old) (T.fault_count tree.new)
        (T.trace tree.old) (T.trace tree.new) path.now (heard_file heard)) }
    ensures no_memory { OnErr result ((T.trace tree.new ≡ T.trace tree.old)
        ⊎ (T.trace tree.new ≡ T.trace tree.old ++ call_of call.read path.now call.no_memory ∷ [])) }
    ensures made { MadeSome (T.content tree.old) (T.content tree.new) (T.fault_count tree.old)
        (T.fault_count tree.new) (T.trace tree.old) (T.trace tree.new) }
{
    read_file(alloc, tree, "", path.as_path())
}

/// Puts a manifest into the table where the place of the field counts, and tells the location. The key is that of its
/// path, which finds no file.
fn join_where_counted(
    files: &mut Files,
    key: Result<Text, AllocError>,
    path: PathBuf,
    text: Text,
    span: Option<Span>,
) -> Result<Option<Coord>, AllocError>
    requires key { IfOk key (λ key. key ≡ key_of path) }
    requires unknown { file_id_at files.old path ≡ None }
    ensures location { IfOk result (λ location. location ≡ option_map (coord_at (length files.old)) span) }
    ensures files { OnOk result (files.new ≡ joined_by path files.old text span) }
    ensures points { (field : List ℕ) → IfSome span (λ place. CutsOut text place field)
        → IfOk result (λ location. IfSome location (λ at. PointsAt files.new at field)) }
    ensures err { OnErr result (files.new ≡ files.old) }
{
    let Some(span) = span else {
        return Ok(None);
    };
    let key = key?;
    match files.add_new(key, path, text) {
        Ok(file) => Ok(Some(Coord { file, span })),
        Err(_) => Err(AllocError),
    }
}

/// By what was read of the manifest.
fn locate_heard(
    alloc: Global,
    files: &mut Files,
    key: Result<Text, AllocError>,
    path: &PathBuf,
    field: &str,
    heard: FileHeard,
) -> Result<LocatedField, AllocError>
    requires key { IfOk key (λ key. key ≡ key_of path.now) }
    requires unknown { file_id_at files.old path.now ≡ None }
    ensures located { IfOk result (λ located.
        located ≡ in_heard path.now field.now files.old (heard_file heard)) }
    ensures files { OnOk result (
        files.new ≡ files_with_manifest path.now field.now files.old (heard_file heard)) }
    ensures points { IfOk result (λ located. IfSome located.location (λ at.
        PointsAt files.new at field.now)) }
    ensures err { OnErr result (files.new ≡ files.old) }
{
    let record = file_record(alloc, ReadKind::Manifest, path, &heard)?;
    match heard {
        Ok(text) => {
            let span = span_in(text.as_str(), field);
            let name = PathBuf::copy(alloc, path.as_path())?;
            let location = join_where_counted(files, key, name, text, span)?;
            Ok(LocatedField {
                location,
                read: Some(record),
            })
        }
        Err(_) => Ok(LocatedField {
            location: None,
            read: Some(record),
        }),
    }
}

/// The location of a crate's field: the first licence field that its manifest writes, where the text there is
/// the field. The manifest is a file of the table, where one has its path by parts, and else it is read; a
/// manifest that was read joins the table exactly where the location counts.
pub fn locate<T: Tree>(
    alloc: Global,
    tree: &mut T,
    files: &mut Files,
    path: &PathBuf,
    field: &str,
) -> Result<LocatedField, AllocError>
    // over any tree, by what the manifest's read was answered, which is its one call
    ensures answered { IfOk result (λ located. IsLocatedBy (T.content tree.old) (T.content tree.new) (T.fault_count tree.old)
        (T.fault_count tree.new) (T.trace tree.old) (T.trace tree.new)
        path.now field.now files.old located files.new) }
    ensures no_memory { OnErr result (StarvesLocating (T.content tree.old) (T.content tree.new) (T.fault_count tree.old)
        (T.fault_count tree.new) (T.trace tree.old) (T.trace tree.new)
        path.now field.now files.old) }
    ensures points { IfOk result (λ located. IfSome located.location (λ at.
        PointsAt files.new at field.now)) }
    ensures err { OnErr result (files.new ≡ files.old) }
{
    let (there, key) = files.looked_up(path.as_path());
    match there {
        Some(id) => Ok(locate_in(files, id, field)),
        None => {
            let heard = read_manifest(alloc, tree, path)?;
            let located = locate_heard(alloc, files, key, path, field, heard)?;
            Ok(located)
        }
    }
}
