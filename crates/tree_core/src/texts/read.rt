//! Reading a file as a text.
ghost use Rattle.std.specs.Prelude.{◌≡◌, ◌≤◌, ◌++◌, [], ◌∷◌, Some, IfOk, OnErr};
ghost use Rattle.tree_core.specs.Content.{file};
ghost use Rattle.tree_core.specs.Hearing.{MadeSome};
ghost use Rattle.tree_core.specs.texts.Cause.{ReadCounts, heard_cause};
ghost use Rattle.tree_core.specs.texts.Heard.{IsTextRead, heard_of, read_of};
ghost use Rattle.tree_core.specs.Call.{no_memory};

use crate::texts::fault::ReadFault;
use crate::{Tree, TreeError};
use deny_text::{Bytes, Text};
use std::alloc::{AllocError, Global};

/// A file's text, or why there is none.
pub type TextHeard = Result<Text, ReadFault>;

/// A file's bytes as a text, which is made of them without a copy.
fn text_of(bytes: Bytes) -> TextHeard
    ensures { result ≡ heard_of (Some (file bytes)) }
{
    match String::from_utf8(bytes.into_vec()) {
        Ok(text) => Ok(Text::from(text)),
        Err(error) => Err(ReadFault::NotUtf8 {
            at: error.utf8_error().valid_up_to(),
        }),
    }
}

/// What is read of the file at a path, by the answer of the one call that is made, the read of that path.
/// `before` is the tree's count of faults when the run began.
pub fn read_file_text<T: Tree>(
    alloc: Global,
    tree: &mut T,
    path: &str,
    before: u64,
) -> Result<TextHeard, AllocError>
    requires { before ≤ T.fault_count tree.old }
    ensures read { IfOk result
        (IsTextRead before (T.fault_count tree.new) (T.trace tree.old) (T.trace tree.new) path.now) }
    ensures no_memory { OnErr result (T.trace tree.new ≡ T.trace tree.old ++ read_of path.now no_memory ∷ []) }
    ensures made { MadeSome (T.content tree.old) (T.content tree.new) (T.fault_count tree.old)
        (T.fault_count tree.new) (T.trace tree.old) (T.trace tree.new) }
    ensures counts { IfOk result (λ heard.
        ReadCounts before (T.fault_count tree.old) (T.fault_count tree.new) (heard_cause heard)) }
{
    match tree.read(alloc, path) {
        Ok(bytes) => Ok(text_of(bytes)),
        Err(TreeError::Absent) => Ok(Err(ReadFault::Absent)),
        Err(TreeError::WrongKind) => Ok(Err(ReadFault::Folder)),
        Err(TreeError::Failed) => Ok(Err(ReadFault::Failed {
            before,
            after: tree.faults(),
        })),
        Err(TreeError::Memory) => Err(AllocError),
    }
}
