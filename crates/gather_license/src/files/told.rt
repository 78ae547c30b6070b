//! What a look-up tells of a file.
ghost use Rattle.std.specs.Prelude.{◌≡◌};
ghost use Rattle.tree_core.specs.file_reads.Views.{heard_bad, heard_file};
ghost use Rattle.gather_license.specs.files.Told.{tells_absent, tells_hash, file_state};

use crate::files::pack::PackFileData;
use tree_core::file_reads::BadRead;

/// What a look-up tells of a file.
#[derive(Clone, Copy)]
pub(crate) enum FileState {
    /// It is a text, with this hash of its normal form.
    Hash(u32),
    /// Nothing is there.
    Absent,
    /// It is no text, or its read failed.
    Other,
}

fn told_bad(error: BadRead) -> FileState
    ensures { result ≡ file_state (heard_bad error) }
{
    match error {
        BadRead::Absent => FileState::Absent,
        BadRead::WrongKind => FileState::Other,
        BadRead::NotUtf8 => FileState::Other,
        BadRead::Failed { .. } => FileState::Other,
    }
}

impl FileState {
    /// By what is kept of a file.
    pub(crate) fn of(kept: &PackFileData) -> FileState
        ensures { result ≡ file_state (heard_file kept.now) }
    {
        match kept {
            Ok(text) => FileState::Hash(text.hash()),
            Err(error) => told_bad(*error),
        }
    }

    pub(crate) fn has_hash(self, hash: u32) -> bool
        ensures { result ≡ tells_hash hash self }
    {
        match self {
            FileState::Hash(found) => found == hash,
            FileState::Absent => false,
            FileState::Other => false,
        }
    }

    pub(crate) fn is_absent(self) -> bool
        ensures { result ≡ tells_absent self }
    {
        match self {
            FileState::Hash(_) => false,
            FileState::Absent => true,
            FileState::Other => false,
        }
    }
}
