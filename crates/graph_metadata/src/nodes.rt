//! The rows of the root, of `resolve`, of nodes, of dependencies and of their kinds.
ghost use Rattle.std.specs.Prelude.{◌≡◌, codes, map, option_map, option_copied};
ghost use Rattle.serde_json.specs.View.{view, items_view};
ghost use Rattle.graph_core.specs.Metadata.{no_kinds};
ghost use Rattle.graph_metadata.specs.Nodes as spec;
ghost use Rattle.graph_metadata.specs.NodeRows.{member_of, root_of, resolve_of, node_of, nodes_of, dep_of};
ghost use Rattle.graph_metadata.specs.NodeRows.{deps_of};
ghost use Rattle.graph_metadata.specs.Told.{AnswersMeta, key_place};

use crate::fault::{MetaError, MetaReason, ObjectPlace, fault_at};
use crate::shape::{
    IdPlaces, known_at, known_in, known_of, list_at, list_or_empty_at, new_at, object_here,
    optional_text_at, text_at, text_here,
};
use graph_core::{DepKind, Edge, Edges, Kinds};
use serde_json::Value;
use std::alloc::Global;

/// A member of the workspace: its id, and the place of its package.
#[derive(Drop)]
pub(crate) struct MemberRow<'v> {
    pub(crate) id: &'v str,
    pub(crate) place: usize,
}

#[tactic(auto, unfolding(crate::specs::Nodes::member_row))]
fn member_row<'v>(
    alloc: Global,
    known: &IdPlaces,
    index: usize,
    value: &'v Value,
) -> Result<MemberRow<'v>, MetaError>
    ensures { AnswersMeta member_of result (spec.member_row known.now index (view value.now)) }
{
    let id = text_here(alloc, ObjectPlace::Root, "workspace_members", index, value)?;
    let place = known_in(
        alloc,
        known,
        ObjectPlace::Root,
        "workspace_members",
        index,
        id,
    )?;
    Ok(MemberRow { id, place })
}

fn members_in<'v>(
    alloc: Global,
    known: &IdPlaces,
    items: &'v [Value],
) -> Result<Vec<MemberRow<'v>>, MetaError>
    ensures { AnswersMeta (λ members. map member_of members.items) result
        (spec.members_in known.now (items_view items.now)) }
{
    let mut members = Vec::with_capacity(alloc, items.len())?;
    'members: for (index, item) in items.iter().enumerate() {
        let member = member_row(alloc, known, index, item)?;
        members.push(member)?;
    }
    Ok(members)
}

/// An object that has to be there.
fn object_at<'v>(
    alloc: Global,
    place: ObjectPlace,
    key: &str,
    value: &'v Value,
) -> Result<&'v Value, MetaError>
    ensures { AnswersMeta (λ found. view found.now) result (spec.object_at place key.now (view value.now)) }
{
    match value.get(key) {
        None => Err(fault_at(alloc, place, key, MetaReason::Missing)),
        Some(found) if found.is_object() => Ok(found),
        Some(_) => Err(fault_at(alloc, place, key, MetaReason::WrongKind)),
    }
}

/// What the root tells.
#[derive(Drop)]
pub(crate) struct RootRow<'v> {
    pub(crate) packages: &'v [Value],
    pub(crate) known: IdPlaces,
    pub(crate) members: Vec<MemberRow<'v>>,
    pub(crate) workspace_root: &'v str,
    pub(crate) resolve: &'v Value,
}

#[tactic(auto, unfolding(crate::specs::Nodes::root_row))]
pub(crate) fn root_row(alloc: Global, value: &Value) -> Result<RootRow<'_>, MetaError>
    ensures { AnswersMeta root_of result (spec.root_row (view value.now)) }
{
    let root = object_here(alloc, ObjectPlace::Root, value)?;
    let packages = list_at(alloc, ObjectPlace::Root, "packages", root)?;
    let listed = list_at(alloc, ObjectPlace::Root, "workspace_members", root)?;
    let known = known_of(alloc, packages)?;
    let members = members_in(alloc, &known, listed)?;
    let workspace_root = text_at(alloc, ObjectPlace::Root, "workspace_root", root)?;
    let resolve = object_at(alloc, ObjectPlace::Root, "resolve", root)?;
    Ok(RootRow {
        packages,
        known,
        members,
        workspace_root,
        resolve,
    })
}

/// What `resolve` tells.
#[derive(Drop)]
pub(crate) struct ResolveRow<'v> {
    pub(crate) nodes: &'v [Value],
    pub(crate) root: Option<usize>,
}

fn known_or_null(
    alloc: Global,
    known: &IdPlaces,
    id: Option<&str>,
) -> Result<Option<usize>, MetaError>
    ensures { AnswersMeta (λ root. root) result
        (spec.known_or_null known.now (key_place ObjectPlace.Resolve (codes "root")) (option_copied id.entry)) }
{
    match id {
        Some(id) => Ok(Some(known_at(alloc, known, ObjectPlace::Resolve, "root", id)?)),
        None => Ok(None),
    }
}

#[tactic(auto, unfolding(crate::specs::Nodes::resolve_row))]
pub(crate) fn resolve_row<'v>(
    alloc: Global,
    known: &IdPlaces,
    value: &'v Value,
) -> Result<ResolveRow<'v>, MetaError>
    ensures { AnswersMeta resolve_of result (spec.resolve_row known.now (view value.now)) }
{
    let nodes = list_at(alloc, ObjectPlace::Resolve, "nodes", value)?;
    let id = optional_text_at(alloc, ObjectPlace::Resolve, "root", value)?;
    let root = known_or_null(alloc, known, id)?;
    Ok(ResolveRow { nodes, root })
}

/// A node: its dependencies.
#[derive(Drop)]
pub(crate) struct NodeRow<'v> {
    pub(crate) deps: &'v [Value],
}

#[tactic(auto, unfolding(crate::specs::Nodes::node_row))]
fn node_row<'v>(
    alloc: Global,
    known: &IdPlaces,
    firsts: &IdPlaces,
    index: usize,
    value: &'v Value,
) -> Result<NodeRow<'v>, MetaError>
    ensures { AnswersMeta node_of result (spec.node_row known.now firsts.now index (view value.now)) }
{
    let node = object_here(alloc, ObjectPlace::Node(index), value)?;
    let id = text_at(alloc, ObjectPlace::Node(index), "id", node)?;
    let _place = known_at(alloc, known, ObjectPlace::Node(index), "id", id)?;
    let _new = new_at(alloc, firsts, ObjectPlace::Node(index), index, id)?;
    let deps = list_or_empty_at(alloc, ObjectPlace::Node(index), "deps", node)?;
    Ok(NodeRow { deps })
}

fn nodes_with<'v>(
    alloc: Global,
    known: &IdPlaces,
    firsts: &IdPlaces,
    items: &'v [Value],
) -> Result<Vec<NodeRow<'v>>, MetaError>
    ensures { AnswersMeta (λ nodes. map node_of nodes.items) result
        (spec.nodes_with known.now firsts.now (items_view items.now)) }
{
    let mut nodes = Vec::with_capacity(alloc, items.len())?;
    'nodes: for (index, item) in items.iter().enumerate() {
        let node = node_row(alloc, known, firsts, index, item)?;
        nodes.push(node)?;
    }
    Ok(nodes)
}

/// The nodes, and the place of the node that has an id.
#[derive(Drop)]
pub(crate) struct NodesRow<'v> {
    pub(crate) firsts: IdPlaces,
    pub(crate) nodes: Vec<NodeRow<'v>>,
}

/// The nodes, of which no two have one id.
#[tactic(auto, unfolding(crate::specs::Nodes::nodes_read))]
pub(crate) fn nodes_in<'v>(
    alloc: Global,
    known: &IdPlaces,
    items: &'v [Value],
) -> Result<NodesRow<'v>, MetaError>
    ensures { AnswersMeta nodes_of result (spec.nodes_read known.now (items_view items.now)) }
{
    let firsts = known_of(alloc, items)?;
    let nodes = nodes_with(alloc, known, &firsts, items)?;
    Ok(NodesRow { firsts, nodes })
}

/// A dependency: the place of the package that it leads to, and the list of its kinds, where there is one.
#[derive(Drop)]
pub(crate) struct DepRow<'v> {
    pub(crate) to: usize,
    pub(crate) kinds: Option<&'v [Value]>,
}

/// The list of kinds; where nothing is there is none.
fn kinds_list_at<'v>(
    alloc: Global,
    place: ObjectPlace,
    key: &str,
    value: &'v Value,
) -> Result<Option<&'v [Value]>, MetaError>
    ensures { AnswersMeta (λ items. option_map (λ list. items_view list.now) items) result
        (spec.kinds_list_at place key.now (view value.now)) }
{
    match value.get(key) {
        None => Ok(None),
        Some(Value::Array(items)) => Ok(Some(items)),
        Some(_) => Err(fault_at(alloc, place, key, MetaReason::WrongKind)),
    }
}

#[tactic(auto, unfolding(crate::specs::Nodes::dep_row))]
fn dep_row<'v>(
    alloc: Global,
    known: &IdPlaces,
    i: usize,
    j: usize,
    value: &'v Value,
) -> Result<DepRow<'v>, MetaError>
    ensures { AnswersMeta dep_of result (spec.dep_row known.now i j (view value.now)) }
{
    let dep = object_here(alloc, ObjectPlace::Dep(i, j), value)?;
    let id = text_at(alloc, ObjectPlace::Dep(i, j), "pkg", dep)?;
    let to = known_at(alloc, known, ObjectPlace::Dep(i, j), "pkg", id)?;
    let kinds = kinds_list_at(alloc, ObjectPlace::Dep(i, j), "dep_kinds", dep)?;
    Ok(DepRow { to, kinds })
}

fn deps_in<'v>(
    alloc: Global,
    known: &IdPlaces,
    i: usize,
    node: &NodeRow<'v>,
) -> Result<Vec<DepRow<'v>>, MetaError>
    ensures { AnswersMeta deps_of result (spec.deps_in known.now i (node_of node.now)) }
{
    let items = node.deps;
    let mut deps = Vec::with_capacity(alloc, items.len())?;
    'deps: for (j, item) in items.iter().enumerate() {
        let dep = dep_row(alloc, known, i, j, item)?;
        deps.push(dep)?;
    }
    Ok(deps)
}

/// The dependencies of each node.
pub(crate) fn all_deps<'v>(
    alloc: Global,
    known: &IdPlaces,
    nodes: &[NodeRow<'v>],
) -> Result<Vec<Vec<DepRow<'v>>>, MetaError>
    ensures { AnswersMeta (λ lists. map deps_of lists.items) result
        (spec.all_deps known.now (map node_of nodes.now)) }
{
    let mut lists = Vec::with_capacity(alloc, nodes.len())?;
    'lists: for (i, node) in nodes.iter().enumerate() {
        let deps = deps_in(alloc, known, i, node)?;
        lists.push(deps)?;
    }
    Ok(lists)
}

const NO_KINDS: Kinds = Kinds {
    normal: false,
    dev: false,
    build: false,
};

fn with_kind(kinds: Kinds, kind: DepKind) -> Kinds
    ensures { result ≡ spec.with_kind kinds kind }
{
    match kind {
        DepKind::Normal => Kinds {
            normal: true,
            ..kinds
        },
        DepKind::Dev => Kinds { dev: true, ..kinds },
        DepKind::Build => Kinds {
            build: true,
            ..kinds
        },
    }
}

fn kind_from(alloc: Global, place: ObjectPlace, name: Option<&str>) -> Result<DepKind, MetaError>
    ensures { AnswersMeta (λ kind. kind) result
        (spec.kind_from (key_place place (codes "kind")) (option_copied name.entry)) }
{
    match name {
        None => Ok(DepKind::Normal),
        Some("dev") => Ok(DepKind::Dev),
        Some("build") => Ok(DepKind::Build),
        Some(_) => Err(fault_at(alloc, place, "kind", MetaReason::UnknownKind)),
    }
}

#[tactic(auto, unfolding(crate::specs::Nodes::kind_row))]
fn kind_row(alloc: Global, place: ObjectPlace, value: &Value) -> Result<DepKind, MetaError>
    ensures { AnswersMeta (λ kind. kind) result (spec.kind_row place (view value.now)) }
{
    let object = object_here(alloc, place, value)?;
    let name = optional_text_at(alloc, place, "kind", object)?;
    kind_from(alloc, place, name)
}

fn kinds_in(alloc: Global, i: usize, j: usize, items: &[Value]) -> Result<Kinds, MetaError>
    ensures { AnswersMeta (λ kinds. kinds) result (spec.kinds_in i j 0 no_kinds (items_view items.now)) }
{
    let mut kinds = NO_KINDS;
    'kinds: for (k, item) in items.iter().enumerate() {
        let kind = kind_row(alloc, ObjectPlace::Kind(i, j, k), item)?;
        kinds = with_kind(kinds, kind);
    }
    Ok(kinds)
}

/// The edge of a dependency. Without a list of kinds it is a normal one.
#[tactic(auto, unfolding(crate::specs::Nodes::edge_row))]
fn edge_row(alloc: Global, i: usize, j: usize, dep: &DepRow<'_>) -> Result<Edge, MetaError>
    ensures { AnswersMeta (λ edge. edge) result (spec.edge_row i j (dep_of dep.now)) }
{
    let kinds = match dep.kinds {
        Some(items) => kinds_in(alloc, i, j, items)?,
        None => with_kind(NO_KINDS, DepKind::Normal),
    };
    Ok(Edge { to: dep.to, kinds })
}

fn edges_in(alloc: Global, i: usize, deps: &[DepRow<'_>]) -> Result<Edges, MetaError>
    ensures { AnswersMeta (λ edges. edges) result (spec.edges_in i (map dep_of deps.now)) }
{
    let mut edges = Edges::from(Vec::with_capacity(alloc, deps.len())?);
    'edges: for (j, dep) in deps.iter().enumerate() {
        let edge = edge_row(alloc, i, j, dep)?;
        edges.push(edge)?;
    }
    Ok(edges)
}

/// The edges of each node.
pub(crate) fn all_edges(alloc: Global, lists: &[Vec<DepRow<'_>>]) -> Result<Vec<Edges>, MetaError>
    ensures { AnswersMeta (λ edges. edges.items) result (spec.all_edges (map deps_of lists.now)) }
{
    let mut all = Vec::with_capacity(alloc, lists.len())?;
    'lists: for (i, deps) in lists.iter().enumerate() {
        let edges = edges_in(alloc, i, deps)?;
        all.push(edges)?;
    }
    Ok(all)
}
