//! A tree of which no call fails, and a sink that refuses nothing.
//! Called by `report_on` of `command`; any tree may be inside of which no call is named to fail.
ghost use Rattle.std.specs.Prelude.{◌≡◌, [], None, Some};

use deny_text::Bytes;
use std::alloc::Global;
use std::marker::Model;
use tree_core::{FolderEntries, MemTree, Sink, SinkFailed, Tree, TreeError};

/// A tree in memory of which no call fails, since none is named to.
#[derive(Drop)]
pub(crate) struct SteadyTree {
    tree: MemTree,
}

impl Model for SteadyTree {
    ghost use Rattle.tree_core.specs.TreeState.{TreeState, state_code};

    ghost Value = { TreeState };

    ghost coded = { state_code };

    ghost view = { λ t. t.tree };

    ghost use Rattle.run_sample.specs.Steady.{IsSteady};

    ghost invariant = { λ t. IsSteady t.tree };
}

impl SteadyTree {
    /// A tree of which no call has failed, and of which none is named to fail.
    pub(crate) fn new(tree: MemTree) -> SteadyTree
        requires no_faults { tree.faults ≡ 0 }
        requires no_failing { tree.failing ≡ [] }
        ensures { result ≡ tree }
    {
        SteadyTree { tree }
    }
}

impl Tree for SteadyTree {
    ghost content = { λ t. Some t.content };

    ghost fault_count = { λ _. 0 };

    ghost trace = { λ t. t.calls };

    fn read(&mut self, alloc: Global, path: &str) -> Result<Bytes, TreeError> {
        self.tree.read(alloc, path)
    }

    fn list(&mut self, alloc: Global, path: &str) -> Result<FolderEntries, TreeError> {
        self.tree.list(alloc, path)
    }

    fn is_file(&mut self, alloc: Global, path: &str) -> Result<bool, TreeError> {
        self.tree.is_file(alloc, path)
    }

    fn exists(&mut self, alloc: Global, path: &str) -> Result<bool, TreeError> {
        self.tree.exists(alloc, path)
    }

    fn faults(&self) -> u64 {
        0
    }
}

/// A sink that takes everything and keeps nothing.
#[derive(Clone, Copy)]
pub(crate) struct Nowhere;

impl Sink for Nowhere {
    ghost written = { λ _. None };

    ghost fault_count = { λ _. 0 };

    fn write(&mut self, piece: &[u8]) -> Result<usize, SinkFailed> {
        Ok(piece.len())
    }

    fn faults(&self) -> u64 {
        0
    }
}
