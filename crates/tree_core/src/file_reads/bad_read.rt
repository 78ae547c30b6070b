//! Why there is no text, or no listing.
ghost use Rattle.std.specs.Prelude.{◌≡◌};

use crate::ReadAnswer;

/// Why a file was not read as a text, or a folder not listed.
#[derive(Clone, Copy, Debug, PartialEq, Eq)]
pub enum BadRead {
    Absent,
    WrongKind,
    /// The bytes are no UTF-8.
    NotUtf8,
    /// The read failed, and the tree's count of faults stood so right before and right after it.
    Failed { before: u64, after: u64 },
}

impl From<BadRead> for ReadAnswer {
    ghost use Rattle.tree_core.specs.file_reads.Heard.{read_answer_of};
    ghost use Rattle.tree_core.specs.file_reads.Views.{heard_bad};

    ghost from_gives = { λ error answer. answer ≡ read_answer_of (heard_bad error) };

    fn from(error: BadRead) -> ReadAnswer {
        match error {
            BadRead::Absent => ReadAnswer::Absent,
            BadRead::WrongKind => ReadAnswer::WrongKind,
            BadRead::NotUtf8 => ReadAnswer::NotUtf8,
            BadRead::Failed { before, after } => ReadAnswer::Failed { before, after },
        }
    }
}
