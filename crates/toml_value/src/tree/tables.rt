//! Tables that are filled key by key, each key asked for before its value is read.
ghost use Rattle.std.specs.Prelude.{◌≡◌, ◌<◌, length, None, IsTrue};
ghost use Rattle.toml_subset.specs.TableFaults.{put_fault};
ghost use Rattle.toml_value.specs.BranchViews.{branches_view, is_whole};

use super::Branches;
use super::fault::key_fault;
use super::finish::into_entries;
use super::put::put_along;
use crate::value::{Entries, Value};
use std::alloc::{AllocError, Global};
use toml_subset::key_index::KeyParts;
use toml_subset::{Key, Keys, SyntaxError};

/// The table of a body or of an inline table, with all that dotted keys made in it.
#[derive(Drop)]
pub(crate) struct TableTree<'de> {
    root: Branches<'de>,
    ghost whole: { IsTrue (is_whole root) },
}

/// A table and a further key of it, which nothing refuses and whose value is still to come.
#[derive(Drop)]
pub(crate) struct Awaiting<'de> {
    tree: TableTree<'de>,
    keys: Keys<'de>,
    above: usize,
    ghost some: { 0 < length keys },
    ghost free: { put_fault keys (branches_view tree.root) above ≡ None },
}

impl<'de> TableTree<'de> {
    ghost use Rattle.std.specs.Prelude.{◌≡◌, ◌<◌, ◌≤◌, length, IsTrue, IfOk, option_map};
    ghost use Rattle.toml_subset.specs.frames.Levels.{found_at};
    ghost use Rattle.toml_value.specs.BranchViews.{branches_view, is_whole};
    ghost use Rattle.toml_subset.specs.Data.{depth_limit};
    ghost use Rattle.toml_subset.specs.TableFaults.{put_fault};
    ghost use Rattle.toml_subset.specs.Tables.{unbranched, entries_of};
    ghost use Rattle.toml_value.specs.TreeViews.{tree_view, IsAwaited};
    ghost use Rattle.toml_value.specs.Views.{entries_view};

    /// A table without keys, which takes no memory.
    pub(crate) fn new(alloc: Global) -> TableTree<'de>
        ensures { tree_view result ≡ unbranched }
    {
        TableTree {
            root: Branches::new(alloc),
        }
    }

    /// The place of a key among those of the table.
    pub(super) fn find(&self, key: &Key<'_>) -> Option<usize>
        ensures { result ≡ option_map (λ found. found.0) (found_at key.now (tree_view self.now)) }
    {
        self.root.find(key)
    }

    pub(super) fn from_root(root: Branches<'de>) -> TableTree<'de>
        requires { IsTrue (is_whole root) }
        ensures { tree_view result ≡ branches_view root.entry }
    {
        TableTree { root }
    }

    /// Lets the table go.
    pub(crate) fn let_go(self) {
        self.root.let_go();
    }

    pub(super) fn into_root(self) -> Branches<'de>
        ensures view { branches_view result ≡ tree_view self.entry }
        ensures whole { IsTrue (is_whole result) }
    {
        self.root
    }

    /// A further key, so many tables and arrays standing around the table's entries. It is refused before its
    /// value is looked at, and then nothing is left.
    pub(crate) fn await_value(
        self,
        keys: Keys<'de>,
        above: usize,
    ) -> Result<Awaiting<'de>, SyntaxError>
        requires some { 0 < length keys }
        requires shallow { above ≤ depth_limit }
        ensures { IsAwaited (put_fault keys.entry (tree_view self.entry) above) keys.entry
            (tree_view self.entry) result }
    {
        match key_fault(&self.root, keys.items(), above) {
            Some(fault) => Err(fault),
            None => Ok(Awaiting {
                tree: self,
                keys,
                above,
            }),
        }
    }

    /// The entries of the table, each dotted key's table in its place. Where memory ends, nothing is left.
    pub(crate) fn into_entries(self, alloc: Global) -> Result<Entries<'de>, AllocError>
        ensures { IfOk result (λ entries. entries_view entries ≡ entries_of (tree_view self.entry)) }
    {
        into_entries(alloc, self.root)
    }
}

impl<'de> Awaiting<'de> {
    ghost use Rattle.std.specs.Prelude.{◌≡◌, ◌+◌, ◌-◌, length, Some, IfOk};
    ghost use Rattle.toml_subset.specs.Tables.{branches_with_value};
    ghost use Rattle.toml_value.specs.BranchViews.{closed_node};
    ghost use Rattle.toml_value.specs.TreeViews.{tree_view};

    /// Lets the table and the key go.
    pub(super) fn let_go(self) {
        let Awaiting { tree, .. } = self;
        tree.let_go();
    }

    /// How many parts the key has.
    pub(crate) fn parts(&self) -> usize
        ensures { result ≡ length self.now.keys }
    {
        self.keys.items().len()
    }

    /// The table with the value at the key. Where memory ends, nothing is left.
    pub(crate) fn put(self, alloc: Global, value: Value<'de>) -> Result<TableTree<'de>, AllocError>
        ensures { IfOk result (λ tree. branches_with_value self.entry.keys (closed_node value.entry) (tree_view self.entry.tree)
            ≡ Some (tree_view tree)) }
    {
        let Awaiting {
            tree,
            keys,
            above: _,
        } = self;
        let mut parts = KeyParts::new(keys);
        let Some(first) = parts.next() else {
            unreachable!()
        };
        let root = put_along(alloc, tree.root, first, parts, value)?;
        Ok(TableTree { root })
    }
}
