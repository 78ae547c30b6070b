//! What a table came to.
ghost use Rattle.std.specs.Prelude.{◌≡◌, ◌∷◌, List, map, IfOk, OnOk};
ghost use Rattle.toml_subset.specs.Tables.{entries_of};
ghost use Rattle.toml_value.specs.BranchViews.{node_view, branches_view, body_view, body_items, node_value};
ghost use Rattle.toml_value.specs.FinishViews.{joined_entries, left_of, array_with};
ghost use Rattle.toml_value.specs.Views.{value_view, values_view, entries_view};
ghost use Rattle.toml_value.specs.declared.tree.Node.{Node as NodeOf};

use super::{Body, Branches, Node};
use crate::value::{Entries, Value, ValueInner, Values};
use deny_text::Span;
use std::alloc::{AllocError, Global};
use toml_subset::key_index::KeyParts;

/// What is at a key, as a value.
#[cycle(finish)]
fn into_value<'de>(alloc: Global, node: Node<'de>) -> Result<Value<'de>, AllocError>
    ensures { IfOk result (λ value. value_view value ≡ node_value (node_view node.entry)) }
{
    match node {
        Node::Closed(value) => Ok(value),
        Node::Growing(span, _, inner) => {
            let entries = into_entries(alloc, inner)?;
            Ok(Value::new(ValueInner::Table(entries), span))
        }
        Node::Tables(span, before, last, inner) => match into_items(alloc, before) {
            Ok(items) => match into_entries(alloc, inner) {
                Ok(entries) => into_array(span, items, last, entries),
                Err(error) => {
                    items.let_go();
                    Err(error)
                }
            },
            Err(error) => {
                inner.let_go();
                Err(error)
            }
        },
    }
}

/// The array of some items and a last one, a table.
fn into_array<'de>(
    span: Span,
    items: Values<'de>,
    last: Span,
    entries: Entries<'de>,
) -> Result<Value<'de>, AllocError>
    ensures { IfOk result (λ value. value_view value
        ≡ array_with span (values_view items.entry) last (entries_view entries.entry)) }
{
    let all = items.with(Value::new(ValueInner::Table(entries), last))?;
    Ok(Value::new(ValueInner::Array(all), span))
}

/// Tables of an array of tables.
#[cycle(finish)]
fn into_items<'de>(alloc: Global, bodies: Vec<Body<'de>>) -> Result<Values<'de>, AllocError>
    ensures { let seen = map (λ b. body_view b) bodies.entry.items in
        IfOk result (λ items. values_view items ≡ body_items seen) }
{
    let mut items = Values::new(alloc);
    'bodies: for body in bodies {
        let Body { span, table } = body;
        let entries = into_entries(alloc, table)?;
        items.push(Value::new(ValueInner::Table(entries), span))?;
    }
    Ok(items)
}

/// The entries of a table, each with its key.
#[cycle(finish)]
pub(crate) fn into_entries<'de>(
    alloc: Global,
    table: Branches<'de>,
) -> Result<Entries<'de>, AllocError>
    ensures { IfOk result (λ entries. entries_view entries ≡ entries_of (branches_view table.entry)) }
{
    let Branches { keys, nodes } = table;
    let mut keys = keys.into_parts();
    let mut entries = Entries::new(alloc);
    'nodes: for node in nodes {
        let value = into_value(alloc, node)?;
        push_value(&mut entries, &mut keys, value)?;
    }
    Ok(entries)
}

/// A further entry of a table, at the first key that is left. A value without a key is no entry.
fn push_value<'de>(
    entries: &mut Entries<'de>,
    keys: &mut KeyParts<'de>,
    value: Value<'de>,
) -> Result<(), AllocError>
    ensures { (node : NodeOf) (nodes : List NodeOf) → value_view value.entry ≡ node_value (node_view node)
        → OnOk result (joined_entries (entries_view entries.old) (left_of keys.old (node ∷ nodes))
        ≡ joined_entries (entries_view entries.new) (left_of keys.new nodes)) }
{
    let Some(key) = keys.next() else {
        value.let_go();
        return Ok(());
    };
    entries.push(key, value)?;
    Ok(())
}
