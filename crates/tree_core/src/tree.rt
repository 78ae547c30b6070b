//! A tree of files, and what its calls answer.
ghost use Rattle.std.specs.Prelude.{◌≡◌, ℕ, List, Option, IfOk, ◌++◌, [], ◌∷◌};
ghost use Rattle.std.specs.Option.{ForSome};
ghost use Rattle.tree_core.specs.Content.{Content, node_at};
ghost use Rattle.tree_core.specs.Answer.{ReadAnswers, ListAnswers, FileAnswers, ExistsAnswers};
ghost use Rattle.tree_core.specs.Answer.{FailsOrLacksMemory, IsInNameOrder};
ghost use Rattle.tree_core.specs.Call.{Call};
ghost use Rattle.tree_core.specs.Faults.{count_after};
ghost use Rattle.tree_core.specs.Trace.{read_call, list_call, file_call, exists_call};

use deny_text::{Bytes, ListOf, PathBuf, Text};
use std::alloc::{AllocError, Global};
use thiserror::Error;

/// Why a tree did not answer.
#[derive(Clone, Copy, Debug, PartialEq, Eq, Error)]
pub enum TreeError {
    /// Nothing is at the path.
    #[error("not found")]
    Absent,
    /// A folder was to be read, or a file to be listed.
    #[error("is of the wrong kind")]
    WrongKind,
    /// The tree failed, and counted it.
    #[error("read failed")]
    Failed,
    #[error("out of memory")]
    Memory,
}

impl From<AllocError> for TreeError {
    ghost use Rattle.tree_core.specs.declared.tree.TreeError.TheVariants.{Memory};

    ghost from_gives = { λ _ e. e ≡ Memory };

    fn from(_: AllocError) -> TreeError {
        TreeError::Memory
    }
}

/// What is right in a folder.
#[derive(Debug, Drop)]
pub struct Entry {
    pub name: Text,
    pub is_file: bool,
}

/// The entries of a folder, in byte order of their names.
pub type FolderEntries = ListOf<Entry>;

/// Files and folders, by paths. A relative path is read from the root.
pub trait Tree {
    /// What the tree holds, where it tells it.
    ghost content: { Self → Option Content };

    /// How often a call has failed.
    ghost fault_count: { Self → ℕ };

    /// The calls so far, in order, each with what it answered.
    ghost trace: { Self → List Call };

    /// The bytes of a file.
    fn read(&mut self, alloc: Global, path: &str) -> Result<Bytes, TreeError>
        ensures answer { ForSome (content self.old) (λ c. ReadAnswers (node_at c path.now) result) }
        ensures same { content self.new ≡ content self.old }
        ensures counts { fault_count self.new ≡ count_after (fault_count self.old) result }
        ensures traced { trace self.new ≡ trace self.old ++ read_call path.now result ∷ [] };

    /// What is right in a folder.
    fn list(&mut self, alloc: Global, path: &str) -> Result<FolderEntries, TreeError>
        ensures answer { ForSome (content self.old) (λ c. ListAnswers c path.now result) }
        ensures ordered { IfOk result IsInNameOrder }
        ensures same { content self.new ≡ content self.old }
        ensures counts { fault_count self.new ≡ count_after (fault_count self.old) result }
        ensures traced { trace self.new ≡ trace self.old ++ list_call path.now result ∷ [] };

    /// Whether a file is at the path.
    fn is_file(&mut self, alloc: Global, path: &str) -> Result<bool, TreeError>
        ensures answer { ForSome (content self.old) (λ c. FileAnswers (node_at c path.now) result) }
        ensures refusal { FailsOrLacksMemory result }
        ensures same { content self.new ≡ content self.old }
        ensures counts { fault_count self.new ≡ count_after (fault_count self.old) result }
        ensures traced { trace self.new ≡ trace self.old ++ file_call path.now result ∷ [] };

    /// Whether a file or a folder is at the path.
    fn exists(&mut self, alloc: Global, path: &str) -> Result<bool, TreeError>
        ensures answer { ForSome (content self.old) (λ c. ExistsAnswers (node_at c path.now) result) }
        ensures refusal { FailsOrLacksMemory result }
        ensures same { content self.new ≡ content self.old }
        ensures counts { fault_count self.new ≡ count_after (fault_count self.old) result }
        ensures traced { trace self.new ≡ trace self.old ++ exists_call path.now result ∷ [] };

    /// How often a call has failed; it stops at the last number.
    fn faults(&self) -> u64
        ensures { result ≡ fault_count self.now };
}

/// A tree that reads a pipe or a device only at paths that it is given.
pub trait NamesPaths: Tree {
    /// Gives it these paths, in place of those that it had. Nothing else of it changes.
    fn name_paths(&mut self, paths: Vec<PathBuf>)
        ensures content { Self.content self.new ≡ Self.content self.old }
        ensures counts { Self.fault_count self.new ≡ Self.fault_count self.old }
        ensures traced { Self.trace self.new ≡ Self.trace self.old };
}
