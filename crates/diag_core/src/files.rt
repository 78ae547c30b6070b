//! The files that findings point into.
ghost use Rattle.std.specs.Prelude.{◌≡◌, ◌<◌, ◌+◌, ◌^◌, ◌⊎◌, ◌↔◌, [], ◌∷◌, ◌++◌, length};
ghost use Rattle.std.specs.Prelude.{IfOk, IfErr, OnOk, OnErr};
ghost use Rattle.std.specs.Prelude.{IsSome, Some, None, Ok, Err, true, false, slice_get};
ghost use Rattle.std.specs.Option.{ForSome, option_copied, option_and_then};
ghost use Rattle.deny_text.specs.Path.{key_of};
ghost use Rattle.diag_core.specs.File.{File, with_source_at, source_of_file, name_of_file, file_id_at, asked_of_text};
ghost use Rattle.diag_core.specs.FileName.{name_text, is_path};
ghost use Rattle.diag_core.specs.Kept.{IsFound};
ghost use Rattle.diag_core.specs.Position.{line_of, line_range_of, location_of};

use crate::position::{FileId, FilesErr, Location};
use crate::source_file::{FileName, SourceFile};
use deny_text::path::key;
use deny_text::{PathBuf, Span, Text, TextMap};
use std::alloc::{AllocError, Global};
use std::marker::Model;

/// Why a file was not added.
#[derive(Debug, Drop)]
pub enum AddError {
    /// A file with an equal path is there; the path and the text come back.
    PathTaken(PathBuf, Text),
    Memory,
}

impl From<AllocError> for AddError {
    ghost use Rattle.diag_core.specs.declared.files.AddError.TheVariants.{Memory};

    ghost from_gives = { λ _ error. error ≡ Memory };

    fn from(_error: AllocError) -> AddError {
        AddError::Memory
    }
}

/// Files by number, in the order in which they were added. Those that were added with a path are also found
/// by it: among n of them, in about log2 n comparisons.
#[derive(Drop)]
pub struct Files {
    files: Vec<SourceFile>,
    /// The numbers of the files by the keys of their paths.
    ids: TextMap<FileId>,
    alloc: Global,
}

impl Model for Files {
    ghost use Rattle.std.specs.Prelude.{List};
    ghost use Rattle.diag_core.specs.File.{File};
    ghost use Rattle.diag_core.specs.PathIds.{Finds};

    ghost Value = { List File };

    ghost view = { λ files. files.files.items };

    ghost invariant = { λ files. Finds files.ids files.files.items };
}

/// Puts a file at the end.
fn append(files: &mut Vec<SourceFile>, name: FileName, source: Text) -> Result<FileId, AllocError>
    ensures number { IfOk result (λ id. id ≡ length files.old.items) }
    ensures ok { OnOk result (files.new.items ≡ files.old.items
        ++ record { name = name_text name; source = source; has_path = is_path name } ∷ []) }
    ensures fits { length source < 2 ^ 64 }
    ensures err { OnErr result (files.new.items ≡ files.old.items) }
{
    let id = files.len();
    // Each place in the file is then one of 64 bits.
    let bytes = source.as_str().len();
    prove!(bytes <= usize::MAX);
    files.push(SourceFile::new(name, source))?;
    Ok(id)
}

/// Makes the index of a file, which is seen as it was.
fn make_index_at(files: &mut Vec<SourceFile>, id: FileId, alloc: Global)
    requires { id < length files.old.items }
    ensures { files.new.items ≡ files.old.items }
{
    files[id].make_index(alloc);
}

/// Counts a label that points into a file, which is seen as it was.
fn count_label_at(files: &mut Vec<SourceFile>, id: FileId, alloc: Global)
    requires { id < length files.old.items }
    ensures { files.new.items ≡ files.old.items }
{
    files[id].count_label(alloc);
}

/// The place of the licence field of a file, which is seen as it was.
fn license_span_at(files: &mut Vec<SourceFile>, id: FileId) -> Option<Span>
    requires { id < length files.old.items }
    ensures found { ForSome (source_of_file files.old.items id) (λ text. IsFound text result) }
    ensures same { files.new.items ≡ files.old.items }
{
    files[id].license_span()
}

/// The number of the file that is found by the path. It asks one file after another, and takes no memory.
fn first_at(files: &[SourceFile], path: &str) -> Option<FileId>
    ensures { result ≡ file_id_at files.now path.now }
{
    files.iter().position(|file| file.is_at(path))
}

impl Files {
    pub fn new(alloc: Global) -> Files
        ensures { result ≡ [] }
    {
        Files {
            files: Vec::new(alloc),
            ids: TextMap::new(alloc),
            alloc,
        }
    }

    /// Adds a file that is found by its path.
    pub fn add(&mut self, path: PathBuf, source: Text) -> Result<FileId, AddError>
        ensures number { IfOk result (λ id. id ≡ length self.old) }
        ensures ok { OnOk result (self.new
            ≡ self.old ++ record { name = path; source = source; has_path = true } ∷ []) }
        ensures fits { OnOk result (length source < 2 ^ 64) }
        ensures taken { (result ≡ Err (AddError.PathTaken path source)) ↔ IsSome (file_id_at self.old path) }
        ensures otherwise { IfErr result (λ error. (error ≡ AddError.PathTaken path source)
            ⊎ (error ≡ AddError.Memory)) }
        ensures err { OnErr result (self.new ≡ self.old) }
    {
        let (there, key) = self.looked_up(path.as_path());
        if there.is_some() {
            return Err(AddError::PathTaken(path, source));
        }
        let id = self.add_new(key?, path, source)?;
        Ok(id)
    }

    /// Adds a file by its path, which finds none so far, and by the key of the path.
    pub fn add_new(&mut self, key: Text, path: PathBuf, source: Text) -> Result<FileId, AllocError>
        requires key { key ≡ key_of path }
        requires unknown { file_id_at self.old path ≡ None }
        ensures number { IfOk result (λ id. id ≡ length self.old) }
        ensures ok { OnOk result (self.new
            ≡ self.old ++ record { name = path; source = source; has_path = true } ∷ []) }
        ensures fits { OnOk result (length source < 2 ^ 64) }
        ensures err { OnErr result (self.new ≡ self.old) }
    {
        let id = append(&mut self.files, FileName::Path(path), source)?;
        match self.ids.insert(key, id) {
            Ok(_) => Ok(id),
            Err(_) => {
                self.files.truncate(id);
                Err(AllocError)
            }
        }
    }

    /// Adds a file that no path finds.
    pub fn add_unnamed(&mut self, name: Text, source: Text) -> Result<FileId, AllocError>
        ensures number { IfOk result (λ id. id ≡ length self.old) }
        ensures ok { OnOk result (self.new
            ≡ self.old ++ record { name = name; source = source; has_path = false } ∷ []) }
        ensures fits { OnOk result (length source < 2 ^ 64) }
        ensures err { OnErr result (self.new ≡ self.old) }
    {
        append(&mut self.files, FileName::Label(name), source)
    }

    /// Gives a file another text. The other files stay.
    pub fn update(&mut self, id: FileId, source: Text) -> Result<(), AllocError>
        requires { id < length self.old }
        ensures ok { OnOk result (self.new ≡ with_source_at self.old id source) }
        ensures err { OnErr result (self.new ≡ self.old) }
    {
        self.files[id].update(source);
        Ok(())
    }

    /// Adds a file that many labels may point into: places in it are found fast at once.
    pub fn add_indexed(&mut self, path: PathBuf, source: Text) -> Result<FileId, AddError>
        ensures number { IfOk result (λ id. id ≡ length self.old) }
        ensures ok { OnOk result (self.new
            ≡ self.old ++ record { name = path; source = source; has_path = true } ∷ []) }
        ensures fits { OnOk result (length source < 2 ^ 64) }
        ensures taken { (result ≡ Err (AddError.PathTaken path source)) ↔ IsSome (file_id_at self.old path) }
        ensures otherwise { IfErr result (λ error. (error ≡ AddError.PathTaken path source)
            ⊎ (error ≡ AddError.Memory)) }
        ensures err { OnErr result (self.new ≡ self.old) }
    {
        match self.add(path, source) {
            Ok(id) => {
                self.index(id);
                Ok(id)
            }
            Err(error) => Err(error),
        }
    }

    /// Makes the index of a file's lines, where there is none and memory for it: places in it are found fast
    /// from then on. Without an index all that is before a place is gone over.
    pub fn index(&mut self, id: FileId)
        ensures { self.new ≡ self.old }
    {
        if id < self.files.len() {
            make_index_at(&mut self.files, id, self.alloc);
        }
    }

    /// Says that a label points into a file. The index of its lines is made once many do, where there is memory for
    /// it: a few places are found as fast without one.
    pub fn count_label(&mut self, id: FileId)
        ensures { self.new ≡ self.old }
    {
        if id < self.files.len() {
            count_label_at(&mut self.files, id, self.alloc);
        }
    }

    /// The place of the licence field of a file, as in a manifest; none where there is no such file. A file is
    /// searched once.
    pub fn license_span(&mut self, id: FileId) -> Option<Span>
        ensures found { ForSome (source_of_file self.old id) (λ text. IsFound text result) }
        ensures same { self.new ≡ self.old }
    {
        if id < self.files.len() {
            license_span_at(&mut self.files, id)
        } else {
            None
        }
    }

    /// The file of that number.
    fn file(&self, id: FileId) -> Result<&SourceFile, FilesErr>
        ensures file { IfOk result (λ file. slice_get self.now id ≡ Some file.now) }
        ensures missing { IfErr result (λ error. (error ≡ FilesErr.FileMissing)
            × (slice_get self.now id ≡ None)) }
    {
        match self.files.get(id) {
            Some(file) => Ok(file),
            None => Err(FilesErr::FileMissing),
        }
    }

    /// The text of a file.
    pub fn source(&self, id: FileId) -> Result<&str, FilesErr>
        ensures source { IfOk result (λ text. source_of_file self.now id ≡ Some text.now) }
        ensures missing { IfErr result (λ error. (error ≡ FilesErr.FileMissing)
            × (source_of_file self.now id ≡ None)) }
    {
        Ok(self.file(id)?.source())
    }

    /// The name of a file: its path, where it has one.
    pub fn name(&self, id: FileId) -> Result<&str, FilesErr>
        ensures name { IfOk result (λ text. name_of_file self.now id ≡ Some text.now) }
        ensures missing { IfErr result (λ error. (error ≡ FilesErr.FileMissing)
            × (name_of_file self.now id ≡ None)) }
    {
        Ok(self.file(id)?.name())
    }

    /// The number of the file that is found by the path, and the path's key where there is memory for it: by that
    /// `add_new` adds the file where there is none.
    pub fn looked_up(&self, path: &str) -> (Option<FileId>, Result<Text, AllocError>)
        ensures number { result.0 ≡ file_id_at self.now path.now }
        ensures key { IfOk result.1 (λ key. key ≡ key_of path.now) }
    {
        match key(self.alloc, path) {
            Ok(key) => (self.ids.get(key.as_str()).copied(), Ok(key)),
            // Where there is no memory for the key, each file is asked.
            Err(error) => (first_at(&self.files, path), Err(error)),
        }
    }

    /// The number of the file that is found by the path.
    pub fn id_for_path(&self, path: &str) -> Option<FileId>
        ensures { result ≡ file_id_at self.now path.now }
    {
        self.looked_up(path).0
    }

    /// The text of the file that is found by the path.
    pub fn source_by_path(&self, path: &str) -> Option<&str>
        ensures { option_copied result ≡ option_and_then (source_of_file self.now) (file_id_at self.now path.now) }
    {
        match self.id_for_path(path) {
            Some(id) => Some(self.files[id].source()),
            None => None,
        }
    }

    /// The line of a place, from 0. A place past the end counts as the end.
    pub fn line_index(&self, id: FileId, byte_index: usize) -> Result<usize, FilesErr>
        ensures { result ≡ asked_of_text (source_of_file self.now id) (λ text. Ok (line_of text byte_index)) }
    {
        Ok(self.file(id)?.line_index(byte_index))
    }

    /// The bytes of a line, with its line feed.
    pub fn line_range(&self, id: FileId, line_index: usize) -> Result<Span, FilesErr>
        ensures { result ≡ asked_of_text (source_of_file self.now id) (line_range_of line_index) }
    {
        self.file(id)?.line_range(line_index)
    }

    /// The line and the column of a place.
    pub fn location(&self, id: FileId, byte_index: usize) -> Result<Location, FilesErr>
        ensures place { result ≡ asked_of_text (source_of_file self.now id) (location_of byte_index) }

        // Both fit also where they are counted from 1.
        ensures room { IfOk result (λ place. (place.line + 1 < 2 ^ 64) × (place.column + 1 < 2 ^ 64)) }
    {
        self.file(id)?.location(byte_index)
    }
}
