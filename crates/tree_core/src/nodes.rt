//! What a tree in memory stores.
ghost use Rattle.std.specs.Prelude.{◌≡◌, ◌++◌, None, IfOk, OnOk, OnErr, T, map};
ghost use Rattle.std.specs.Option.{option_to_list};
ghost use Rattle.std.specs.FinMap as finite;
ghost use Rattle.tree_core.specs.Content.{entries_in, entry_in, place_cmp};
ghost use Rattle.tree_core.specs.Answer.{IsInNameOrder, listed_entry};
ghost use Rattle.tree_core.specs.Stored.{IsSound, content_of, node_of, stored_at, with_root};
ghost use Rattle.tree_core.specs.Found.{found_node};
ghost use Rattle.tree_core.specs.TreeState.{Clashes, IsClosedAbove, Puts};

use crate::place::Place;
use crate::tree::{Entry, FolderEntries};
use deny_text::{Bytes, Text};
use std::alloc::{AllocError, Global};
use std::collections::BTreeMap;
use thiserror::Error;

/// Why a file was not put.
#[derive(Clone, Copy, Debug, PartialEq, Eq, Error)]
pub enum PutError {
    /// A folder is there, or a file where a parent belongs.
    #[error("a file or a folder is in the way")]
    Clash,
    #[error("out of memory")]
    Memory,
}

impl From<AllocError> for PutError {
    ghost use Rattle.tree_core.specs.declared.nodes.PutError.TheVariants.{Memory};

    ghost from_gives = { λ _ e. e ≡ Memory };

    fn from(_: AllocError) -> PutError {
        PutError::Memory
    }
}

/// What is at a place below the root.
#[derive(Drop)]
pub enum StoredNode {
    File(Bytes),
    Folder,
}

impl StoredNode {
    ghost use Rattle.tree_core.specs.Content.{is_file};
    ghost use Rattle.tree_core.specs.Stored.{node_of};

    fn is_file(&self) -> bool
        ensures { result ≡ is_file (node_of self.now) }
    {
        matches!(self, StoredNode::File(_))
    }
}

/// The nodes below the root, by their places.
pub type Nodes = BTreeMap<Place, StoredNode>;

/// What a look-up finds.
pub enum FoundNode<'a> {
    Nothing,
    File(&'a Bytes),
    Folder,
}

/// What is at a place.
pub fn find<'a>(nodes: &'a Nodes, place: &Place) -> FoundNode<'a>
    ensures { found_node result ≡ stored_at nodes.now.entries place.now }
{
    if place.is_root() {
        return FoundNode::Folder;
    }
    match nodes.get(place) {
        None => FoundNode::Nothing,
        Some(StoredNode::Folder) => FoundNode::Folder,
        Some(StoredNode::File(bytes)) => FoundNode::File(bytes),
    }
}

/// Puts a node in place of a file, or where nothing is there, and makes its missing parents folders.
pub fn put_at(
    nodes: &mut Nodes,
    alloc: Global,
    place: &Place,
    node: StoredNode,
) -> Result<(), PutError>
    requires { IsSound nodes.old.entries }
    ensures sound { IsSound nodes.new.entries }
    ensures ok { OnOk result
        (Puts (content_of nodes.old.entries) (content_of nodes.new.entries) place.now (node_of node)) }
    ensures ok_only { OnOk result (¬ (Clashes (content_of nodes.old.entries) place.now)) }
    ensures clash_only { result ≡ Err PutError.Clash → Clashes (content_of nodes.old.entries) place.now }
    ensures err { OnErr result (nodes.new.entries ≡ nodes.old.entries) }
{
    match find(nodes, place) {
        FoundNode::Folder => Err(PutError::Clash),
        FoundNode::Nothing => add(nodes, alloc, place, node),
        FoundNode::File(_) => {
            let key = place.copy(alloc)?;
            match nodes.insert(key, node) {
                Ok(_) => Ok(()),
                Err(_) => Err(PutError::Memory),
            }
        }
    }
}

/// Adds a node where nothing is there, and makes its missing parents folders.
fn add(nodes: &mut Nodes, alloc: Global, place: &Place, node: StoredNode) -> Result<(), PutError>
    requires ordered { T (finite.is_sorted place_cmp (with_root nodes.old.entries)) }
    requires absent { stored_at nodes.old.entries place.now ≡ None }
    requires closed { IsClosedAbove (content_of nodes.old.entries) place.now }
    ensures ordered { T (finite.is_sorted place_cmp (with_root nodes.new.entries)) }
    ensures ok { OnOk result
        (Puts (content_of nodes.old.entries) (content_of nodes.new.entries) place.now (node_of node)) }
    ensures ok_only { OnOk result (¬ (Clashes (content_of nodes.old.entries) place.now)) }
    ensures clash_only { result ≡ Err PutError.Clash → Clashes (content_of nodes.old.entries) place.now }
    ensures err { OnErr result (nodes.new.entries ≡ nodes.old.entries) }
{
    let key = place.copy(alloc)?;
    let above = place.above(alloc)?;
    match nodes.insert(key, node) {
        Ok(_) => {}
        Err(_) => return Err(PutError::Memory),
    }
    match find(nodes, &above) {
        FoundNode::Folder => return Ok(()),
        FoundNode::File(_) => {
            let _added = nodes.remove(place);
            return Err(PutError::Clash);
        }
        FoundNode::Nothing => {}
    }
    match add(nodes, alloc, &above, StoredNode::Folder) {
        Ok(()) => Ok(()),
        Err(error) => {
            let _added = nodes.remove(place);
            Err(error)
        }
    }
}

/// What is right in a folder, in order: from the folder's least possible entry on, which has the empty
/// name, up to the first of another folder.
pub fn entries_at(nodes: &Nodes, alloc: Global, folder: &Place) -> Result<FolderEntries, AllocError>
    requires { T (finite.is_sorted place_cmp (with_root nodes.now.entries)) }
    ensures answer { IfOk result (λ entries. map listed_entry entries
        ≡ entries_in (content_of nodes.now.entries) folder.now) }
    ensures ordered { IfOk result IsInNameOrder }
{
    let least = folder.child(alloc, "")?;
    let past = least.child(alloc, "")?;
    let mut entries = FolderEntries::new(alloc);
    'nodes: for (place, node) in nodes.range(least..past) {
        push_entry(&mut entries, alloc, folder, place, node)?;
    }
    Ok(entries)
}

/// Appends what is at the place, where that is right in the folder.
fn push_entry(
    entries: &mut FolderEntries,
    alloc: Global,
    folder: &Place,
    place: &Place,
    node: &StoredNode,
) -> Result<(), AllocError>
    ensures { OnOk result (map listed_entry entries.new
        ≡ map listed_entry entries.old ++ option_to_list (entry_in folder.now place.now (node_of node.now))) }
{
    if let Some(name) = place.name_in(folder) {
        let name = Text::copy(alloc, name)?;
        let is_file = node.is_file();
        entries.push(Entry { name, is_file })?;
    }
    Ok(())
}
