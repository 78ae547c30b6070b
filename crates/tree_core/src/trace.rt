//! The calls that a tree was asked, which only proofs read.
ghost use Rattle.std.specs.Prelude.{◌≡◌, List, [], ◌∷◌, ◌++◌};
ghost use Rattle.std.specs.Borrow.{ftrue};
ghost use Rattle.std.specs.Coded.{coded_list};
ghost use Rattle.tree_core.specs.Call.{Call, call_code};

use crate::tree::{FolderEntries, TreeError};
use deny_text::Bytes;
use std::marker::Model;

/// The calls so far, in order, each with what it answered. It takes no memory, and its methods do nothing at
/// run time.
#[derive(Drop)]
pub struct Trace {
    pub ghost calls: { List Call } by { coded_list call_code },
}

impl Model for Trace {
    ghost also_owns = { λ _. ftrue };
}

impl Trace {
    ghost use Rattle.tree_core.specs.Trace.{read_call, list_call, file_call, exists_call};

    /// No call yet.
    pub fn new() -> Trace
        ensures { result.calls ≡ [] }
    {
        Trace {}
    }

    /// The calls so far, and a read.
    pub fn read(&self, path: &[u8], answer: &Result<Bytes, TreeError>) -> Trace
        ensures { result.calls ≡ self.now.calls ++ read_call path.now answer.now ∷ [] }
    {
        Trace {}
    }

    /// The calls so far, and a listing.
    pub fn list(&self, path: &[u8], answer: &Result<FolderEntries, TreeError>) -> Trace
        ensures { result.calls ≡ self.now.calls ++ list_call path.now answer.now ∷ [] }
    {
        Trace {}
    }

    /// The calls so far, and a look for a file.
    pub fn is_file(&self, path: &[u8], answer: &Result<bool, TreeError>) -> Trace
        ensures { result.calls ≡ self.now.calls ++ file_call path.now answer.now ∷ [] }
    {
        Trace {}
    }

    /// The calls so far, and a look for anything.
    pub fn exists(&self, path: &[u8], answer: &Result<bool, TreeError>) -> Trace
        ensures { result.calls ≡ self.now.calls ++ exists_call path.now answer.now ∷ [] }
    {
        Trace {}
    }
}
