//! Reading a file, and listing a folder.
ghost use Rattle.std.specs.Prelude.{◌≡◌, ◌++◌, ◌⊎◌, [], ◌∷◌, IfOk, OnErr, Some};
ghost use Rattle.deny_text.specs.Path.{join_of};
ghost use Rattle.tree_core.specs.Call as call;
ghost use Rattle.tree_core.specs.Content.{file};
ghost use Rattle.tree_core.specs.Hearing.{MadeSome};
ghost use Rattle.tree_core.specs.declared.reads.ReadKind.TheVariants.{Listing};
ghost use Rattle.tree_core.specs.file_reads.Answered.{IsListed, IsFileRead, call_of};
ghost use Rattle.tree_core.specs.file_reads.Heard.{file_heard, read_record_of};
ghost use Rattle.tree_core.specs.file_reads.Views.{heard_file, heard_folder};

use crate::file_reads::bad_read::BadRead;
use crate::{FolderEntries, ReadAnswer, ReadKind, ReadRecord, Tree, TreeError};
use deny_text::path::join;
use deny_text::{Bytes, PathBuf, Text};
use std::alloc::{AllocError, Global};

/// A file's text, or why there is none.
pub type FileHeard = Result<Text, BadRead>;

/// A folder's entries in byte order of their names, or why there are none.
pub type FolderHeard = Result<FolderEntries, BadRead>;

/// A file's bytes as a text, which is made of them without a copy.
fn text_of(bytes: Bytes) -> FileHeard
    ensures { heard_file result ≡ file_heard (Some (file bytes)) }
{
    match String::from_utf8(bytes.into_vec()) {
        Ok(text) => Ok(Text::from(text)),
        Err(_) => Err(BadRead::NotUtf8),
    }
}

/// What is read of the file at a path.
fn read_at<T: Tree>(alloc: Global, tree: &mut T, path: &str) -> Result<FileHeard, AllocError>
    ensures read { IfOk result (λ heard. IsFileRead (T.fault_count tree.old) (T.fault_count tree.new)
        (T.trace tree.old) (T.trace tree.new) path.now (heard_file heard)) }
    ensures no_memory { OnErr result (T.trace tree.new
        ≡ T.trace tree.old ++ call_of call.read path.now call.no_memory ∷ []) }
    ensures made { MadeSome (T.content tree.old) (T.content tree.new) (T.fault_count tree.old)
        (T.fault_count tree.new) (T.trace tree.old) (T.trace tree.new) }
{
    let before = tree.faults();
    match tree.read(alloc, path) {
        Ok(bytes) => Ok(text_of(bytes)),
        Err(TreeError::Absent) => Ok(Err(BadRead::Absent)),
        Err(TreeError::WrongKind) => Ok(Err(BadRead::WrongKind)),
        Err(TreeError::Failed) => Ok(Err(BadRead::Failed {
            before,
            after: tree.faults(),
        })),
        Err(TreeError::Memory) => Err(AllocError),
    }
}

/// What is read of a file of a crate, by its path from the crate's folder.
pub fn read_file<T: Tree>(
    alloc: Global,
    tree: &mut T,
    folder: &str,
    path: &str,
) -> Result<FileHeard, AllocError>
    ensures read { IfOk result (λ heard. IsFileRead (T.fault_count tree.old) (T.fault_count tree.new)
        (T.trace tree.old) (T.trace tree.new) (join_of folder.now path.now) (heard_file heard)) }
    ensures no_memory { OnErr result ((T.trace tree.new ≡ T.trace tree.old)
        ⊎ (T.trace tree.new ≡ T.trace tree.old
        ++ call_of call.read (join_of folder.now path.now) call.no_memory ∷ [])) }
    ensures made { MadeSome (T.content tree.old) (T.content tree.new) (T.fault_count tree.old)
        (T.fault_count tree.new) (T.trace tree.old) (T.trace tree.new) }
{
    let joined = join(alloc, folder, path)?;
    read_at(alloc, tree, joined.as_path())
}

/// What is read of the listing of a folder.
pub fn list_folder<T: Tree>(
    alloc: Global,
    tree: &mut T,
    folder: &str,
) -> Result<FolderHeard, AllocError>
    ensures listed { IfOk result (λ heard. IsListed (T.fault_count tree.old) (T.fault_count tree.new)
        (T.trace tree.old) (T.trace tree.new) folder.now (heard_folder heard)) }
    ensures no_memory { OnErr result (T.trace tree.new
        ≡ T.trace tree.old ++ call_of call.list folder.now call.no_memory ∷ []) }
    ensures made { MadeSome (T.content tree.old) (T.content tree.new) (T.fault_count tree.old)
        (T.fault_count tree.new) (T.trace tree.old) (T.trace tree.new) }
{
    let before = tree.faults();
    match tree.list(alloc, folder) {
        Ok(entries) => Ok(Ok(entries)),
        Err(TreeError::Absent) => Ok(Err(BadRead::Absent)),
        Err(TreeError::WrongKind) => Ok(Err(BadRead::WrongKind)),
        Err(TreeError::Failed) => Ok(Err(BadRead::Failed {
            before,
            after: tree.faults(),
        })),
        Err(TreeError::Memory) => Err(AllocError),
    }
}

/// The record of a read of a file, be it a manifest or a licence file.
pub fn file_record(
    alloc: Global,
    kind: ReadKind,
    path: &PathBuf,
    heard: &FileHeard,
) -> Result<ReadRecord, AllocError>
    ensures { IfOk result (λ read. read ≡ read_record_of kind path.now (heard_file heard.now)) }
{
    let path = PathBuf::copy(alloc, path.as_path())?;
    let answer = match heard {
        Ok(_) => ReadAnswer::Got,
        Err(error) => ReadAnswer::from(*error),
    };
    Ok(ReadRecord { path, kind, answer })
}

/// The record of a listing.
pub fn listing_record(
    alloc: Global,
    folder: &str,
    heard: &FolderHeard,
) -> Result<ReadRecord, AllocError>
    ensures { IfOk result (λ read. read ≡ read_record_of Listing folder.now (heard_folder heard.now)) }
{
    let path = PathBuf::copy(alloc, folder)?;
    let answer = match heard {
        Ok(_) => ReadAnswer::Got,
        Err(error) => ReadAnswer::from(*error),
    };
    Ok(ReadRecord {
        path,
        kind: ReadKind::Listing,
        answer,
    })
}
