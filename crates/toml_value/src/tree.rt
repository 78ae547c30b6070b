//! Tables that grow key by key, as the table rules of the subset have them.
ghost use Rattle.std.specs.Prelude.{◌≡◌, ◌<◌, ◌++◌, [], ◌∷◌, length, get_or, set, false, IsTrue, IfOk, IfSome, option_map};
ghost use Rattle.toml_subset.specs.key_index.KeyPlaces.{first_key_place};
ghost use Rattle.toml_subset.specs.TableFaults.{table_node_at};
ghost use Rattle.toml_subset.specs.Tables.{unbranched, has_key, branches_with_key};
ghost use Rattle.toml_subset.specs.frames.Levels.{size as size_of, branches_with_node, hole as hole_at};
ghost use Rattle.toml_value.specs.BranchViews.{node_view, branches_view, is_whole, is_whole_node};
ghost use Rattle.toml_value.specs.declared.tree.Branches.{out-Branches};

mod document;
mod fault;
mod finish;
mod levels;
mod put;
mod tables;

use crate::value::{Value, ValueInner};
use deny_text::Span;
pub(crate) use document::{Document, Pending};
pub(crate) use fault::DEPTH_LIMIT;
use std::alloc::{AllocError, Global};
use std::mem;
pub(crate) use tables::{Awaiting, TableTree};
use toml_subset::Key;
use toml_subset::key_index::KeyIndex;

/// What made a table.
#[derive(Clone, Copy)]
pub(crate) enum Mark {
    /// A header of its own.
    Header,
    /// A part of a header before the last.
    Implicit,
    /// A part of a dotted key.
    Dotted,
}

/// What is at a key.
#[derive(Drop)]
#[cycle(tree)]
pub(crate) enum Node<'de> {
    /// A value as it was written, which nothing extends.
    Closed(Value<'de>),
    /// A table that may grow, with its place.
    Growing(Span, Mark, Branches<'de>),
    /// An array of tables, with its place: the tables before its last one, and that one's place and keys.
    Tables(Span, Vec<Body<'de>>, Span, Branches<'de>),
}

/// A table of an array of tables, which nothing extends any more, with its place.
#[derive(Drop)]
#[cycle(tree)]
pub(crate) struct Body<'de> {
    span: Span,
    table: Branches<'de>,
}

/// The keys of a table that may grow, in the order in which they first appear, and what is at each.
#[derive(Drop)]
#[cycle(tree)]
pub(crate) struct Branches<'de> {
    keys: KeyIndex<'de>,
    nodes: Vec<Node<'de>>,
}

impl<'de> Branches<'de> {
    pub(crate) fn new(alloc: Global) -> Branches<'de>
        ensures empty { branches_view result ≡ unbranched }
        ensures whole { IsTrue (is_whole result) }
    {
        Branches {
            keys: KeyIndex::new(alloc),
            nodes: Vec::new(alloc),
        }
    }

    /// The place of a key.
    fn find(&self, key: &Key<'_>) -> Option<usize>
        ensures { result ≡ first_key_place key.now.name.text (out-Branches self.now).keys }
    {
        self.keys.find(key.name.as_str())
    }

    /// What is at a key.
    fn at(&self, key: &Key<'_>) -> Option<&Node<'de>>
        requires { IsTrue (is_whole self.now) }
        ensures value { option_map (λ node. node_view node.now) result
            ≡ table_node_at key.now (branches_view self.now) }
        ensures whole { IfSome result (λ node. IsTrue (is_whole_node node.now)) }
    {
        let place = self.find(key)?;
        Some(&self.nodes[place])
    }

    /// The table with a further key, which it does not have. Where memory ends, nothing is left.
    fn with(
        self,
        alloc: Global,
        key: Key<'de>,
        node: Node<'de>,
    ) -> Result<Branches<'de>, AllocError>
        requires whole { IsTrue (is_whole self) }
        requires node { IsTrue (is_whole_node node) }
        requires new { has_key key (branches_view self) ≡ false }
        ensures view { IfOk result (λ new. branches_view new
            ≡ branches_with_key key.entry (node_view node.entry) (branches_view self.entry)) }
        ensures whole { IfOk result (λ new. IsTrue (is_whole new)) }
    {
        let Branches { keys, nodes } = self;
        match keys.with(alloc, key) {
            Ok(keys) => of_parts(keys, nodes, node),
            Err(error) => {
                let_nodes_go(nodes, node);
                Err(error)
            }
        }
    }

    /// Puts another node at a place, and hands out the one that was there.
    fn replace(&mut self, place: usize, node: Node<'de>) -> Node<'de>
        requires { place < length (out-Branches self.old).nodes.items }
        ensures keys { (out-Branches self.new).keys ≡ (out-Branches self.old).keys }
        ensures nodes { (out-Branches self.new).nodes.items
            ≡ set (out-Branches self.old).nodes.items place node.entry }
        ensures value { result ≡ get_or (out-Branches self.old).nodes.items place result }
    {
        mem::replace(&mut self.nodes[place], node)
    }

    /// Puts another node at a place. The one that was there is let go.
    fn put_back(&mut self, place: usize, node: Node<'de>)
        requires { place < length (out-Branches self.old).nodes.items }
        ensures keys { (out-Branches self.new).keys ≡ (out-Branches self.old).keys }
        ensures nodes { (out-Branches self.new).nodes.items
            ≡ set (out-Branches self.old).nodes.items place node.entry }
    {
        let old = self.replace(place, node);
        old.let_go();
    }

    /// How many keys it has.
    fn size(&self) -> usize
        requires { IsTrue (is_whole self.now) }
        ensures { result ≡ size_of (branches_view self.now) }
    {
        self.nodes.len()
    }

    /// Takes out what is at the place of a key. A hole is left there.
    fn take(&mut self, place: usize, key: &Key<'_>) -> Node<'de>
        requires whole { IsTrue (is_whole self.old) }
        requires inside { place < length (out-Branches self.old).nodes.items }
        ensures value { result ≡ get_or (out-Branches self.old).nodes.items place result }
        ensures left { branches_view self.new ≡ branches_with_node place (hole_at key.now) (branches_view self.old) }
        ensures whole { IsTrue (is_whole self.new) }
    {
        self.replace(place, hole(key))
    }

    /// Lets the table go.
    fn let_go(self) {}
}

impl Node<'_> {
    /// Lets the node go.
    fn let_go(self) {}
}

/// Lets nodes and a further one go.
fn let_nodes_go(_nodes: Vec<Node<'_>>, node: Node<'_>) {
    node.let_go();
}

/// A table of some keys and as many nodes, of which this is the last.
fn of_parts<'de>(
    keys: KeyIndex<'de>,
    nodes: Vec<Node<'de>>,
    node: Node<'de>,
) -> Result<Branches<'de>, AllocError>
    ensures { IfOk result (λ new. ((out-Branches new).keys ≡ keys.entry)
        × ((out-Branches new).nodes.items ≡ nodes.entry.items ++ node.entry ∷ [])) }
{
    let mut nodes = nodes;
    nodes.push(node)?;
    Ok(Branches { keys, nodes })
}

/// What is at the place of a table that was taken out.
fn hole<'de>(key: &Key<'_>) -> Node<'de>
    ensures view { node_view result ≡ hole_at key.now }
    ensures whole { IsTrue (is_whole_node result) }
{
    Node::Closed(Value::new(ValueInner::Boolean(false), key.span))
}
