//! A value at the end of a dotted key.
ghost use Rattle.std.specs.Prelude.{◌≡◌, ◌<◌, ◌∷◌, length, Some, true, is_some, IsTrue, IfOk, IfSome};
ghost use Rattle.std.specs.Prelude.{option_map};
ghost use Rattle.toml_subset.specs.Tables.{branches_with_value};
ghost use Rattle.toml_subset.specs.frames.Levels.{found_at, branches_with_node};
ghost use Rattle.toml_value.specs.BelowViews.{LeadsOn, IsTakenOut, HasRoom, table_with_node};
ghost use Rattle.toml_value.specs.BranchViews.{node_view, branches_view, is_whole, is_whole_node, closed_node};
ghost use Rattle.toml_value.specs.BranchViews.{parts_of_dotted};
ghost use Rattle.toml_value.specs.declared.tree.Branches.{out-Branches};

use super::{Branches, Mark, Node};
use crate::value::Value;
use deny_text::Span;
use std::alloc::{AllocError, Global};
use toml_subset::Key;
use toml_subset::key_index::KeyParts;

/// The place and the keys of a table that a dotted key made.
fn dotted_parts(node: Node<'_>) -> Option<(Span, Branches<'_>)>
    requires whole { IsTrue (is_whole_node node) }
    ensures parts { option_map (λ p. (p.0, branches_view p.1)) result
        ≡ parts_of_dotted (node_view node.entry) }
    ensures whole { IfSome result (λ p. IsTrue (is_whole p.1)) }
{
    match node {
        Node::Growing(span, Mark::Dotted, inner) => Some((span, inner)),
        other => {
            other.let_go();
            None
        }
    }
}

/// What is below a key that has further parts: the key's place, where its table has it, and the table there
/// with its own place.
struct Below<'de> {
    place: Option<usize>,
    span: Span,
    table: Branches<'de>,
}

/// Takes the table below a key out, or makes one where nothing is there.
fn take_below<'de>(alloc: Global, table: &mut Branches<'de>, key: &Key<'_>) -> Below<'de>
    requires whole { IsTrue (is_whole table.old) }
    requires leads { LeadsOn (found_at key.now (branches_view table.old)) }
    ensures taken { IsTakenOut key.now (branches_view table.old) (branches_view table.new) result.place
        result.span (branches_view result.table) }
    ensures whole { IsTrue (is_whole table.new) }
    ensures inner { IsTrue (is_whole result.table) }
{
    match table.find(key) {
        Some(place) => below_at(table, place, key),
        None => Below {
            place: None,
            span: key.span,
            table: Branches::new(alloc),
        },
    }
}

/// The same of a key that its table has at a place.
fn below_at<'de>(table: &mut Branches<'de>, place: usize, key: &Key<'_>) -> Below<'de>
    requires whole { IsTrue (is_whole table.old) }
    requires found { option_map (λ found. found.0) (found_at key.now (branches_view table.old)) ≡ Some place }
    requires leads { LeadsOn (found_at key.now (branches_view table.old)) }
    ensures taken { IsTakenOut key.now (branches_view table.old) (branches_view table.new) result.place
        result.span (branches_view result.table) }
    ensures whole { IsTrue (is_whole table.new) }
    ensures inner { IsTrue (is_whole result.table) }
{
    match dotted_parts(table.take(place, key)) {
        Some((span, inner)) => Below {
            place: Some(place),
            span,
            table: inner,
        },
        None => unreachable!(),
    }
}

/// The table with a node at a place, or behind all others at a further key where there is none.
fn with_below<'de>(
    alloc: Global,
    table: Branches<'de>,
    place: Option<usize>,
    key: Key<'de>,
    node: Node<'de>,
) -> Result<Branches<'de>, AllocError>
    requires whole { IsTrue (is_whole table) }
    requires node { IsTrue (is_whole_node node) }
    requires room { HasRoom place key (branches_view table) }
    ensures view { IfOk result (λ new. branches_view new
        ≡ table_with_node place key.entry (node_view node.entry) (branches_view table.entry)) }
    ensures whole { IfOk result (λ new. IsTrue (is_whole new)) }
{
    match place {
        Some(place) => Ok(with_node(table, place, node)),
        None => table.with(alloc, key, node),
    }
}

/// The table with another node at a place.
fn with_node<'de>(table: Branches<'de>, place: usize, node: Node<'de>) -> Branches<'de>
    requires whole { IsTrue (is_whole table) }
    requires node { IsTrue (is_whole_node node) }
    requires inside { place < length (out-Branches table).nodes.items }
    ensures view { branches_view result ≡ branches_with_node place (node_view node.entry) (branches_view table.entry) }
    ensures whole { IsTrue (is_whole result) }
{
    let mut table = table;
    table.put_back(place, node);
    table
}

/// Lets a table and a key go.
fn let_go(table: Branches<'_>, _key: Key<'_>) {
    table.let_go();
}

/// Puts a value at a key of which `rest` are the further parts, where the table rules let it are.
pub(crate) fn put_along<'de>(
    alloc: Global,
    table: Branches<'de>,
    key: Key<'de>,
    rest: KeyParts<'de>,
    value: Value<'de>,
) -> Result<Branches<'de>, AllocError>
    requires whole { IsTrue (is_whole table) }
    requires free { is_some (branches_with_value (key ∷ rest) (closed_node value) (branches_view table)) ≡ true }
    ensures view { IfOk result (λ new. branches_with_value (key.entry ∷ rest.entry) (closed_node value.entry)
        (branches_view table.entry) ≡ Some (branches_view new)) }
    ensures whole { IfOk result (λ new. IsTrue (is_whole new)) }
{
    let mut rest = rest;
    let Some(next) = rest.next() else {
        return table.with(alloc, key, Node::Closed(value));
    };
    let mut table = table;
    let Below {
        place,
        span,
        table: below,
    } = take_below(alloc, &mut table, &key);
    match put_along(alloc, below, next, rest, value) {
        Ok(inner) => {
            let node = Node::Growing(span, Mark::Dotted, inner);
            with_below(alloc, table, place, key, node)
        }
        Err(error) => {
            let_go(table, key);
            Err(error)
        }
    }
}
