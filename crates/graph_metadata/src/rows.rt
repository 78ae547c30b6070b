//! The rows of metadata, one after another.
ghost use Rattle.std.specs.Prelude.{◌≡◌, map, Some, None, Ok};
ghost use Rattle.serde_json.specs.View.{view};
ghost use Rattle.graph_core.specs.Krate.{record_of};
ghost use Rattle.graph_metadata.specs.NodeRows.{root_of, resolve_of, node_of};
ghost use Rattle.graph_metadata.specs.AllRows.{rows_view};
ghost use Rattle.graph_metadata.specs.Records as spec;
ghost use Rattle.graph_metadata.specs.Told.{AnswersMeta};

use crate::fault::MetaError;
use crate::floats::unless_float;
use crate::nodes::{
    NodesRow, ResolveRow, RootRow, all_deps, all_edges, nodes_in, resolve_row, root_row,
};
use crate::package::packages_in;
use graph_core::{Edges, Krate};
use serde_json::Value;
use std::alloc::Global;

/// What all rows tell, by the places of packages.
#[derive(Drop)]
pub(crate) struct AllRows<'v> {
    pub(crate) root: RootRow<'v>,
    pub(crate) crates: Vec<Krate>,
    pub(crate) resolve: ResolveRow<'v>,
    pub(crate) nodes: NodesRow<'v>,
    pub(crate) edges: Vec<Edges>,
}

#[tactic(auto, unfolding(crate::specs::Records::rows_in))]
pub(crate) fn rows_in<'v>(
    alloc: Global,
    sparse_dir: &str,
    value: &'v Value,
) -> Result<AllRows<'v>, MetaError>
    ensures { AnswersMeta rows_view result (spec.rows_in sparse_dir.now (view value.now)) }
{
    unless_float(alloc, value)?;
    let root = root_row(alloc, value)?;
    let crates = packages_in(alloc, sparse_dir, &root.known, root.packages)?;
    let resolve = resolve_row(alloc, &root.known, root.resolve)?;
    let nodes = nodes_in(alloc, &root.known, resolve.nodes)?;
    let deps = all_deps(alloc, &root.known, &nodes.nodes)?;
    let edges = all_edges(alloc, &deps)?;
    Ok(AllRows {
        root,
        crates,
        resolve,
        nodes,
        edges,
    })
}
