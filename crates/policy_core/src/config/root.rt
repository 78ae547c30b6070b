//! The whole policy, as it is written.
ghost use Rattle.std.specs.Prelude.{◌≡◌, [], ◌++◌, IfOk, OnOk, unwrap_or, codes};
ghost use Rattle.policy_toml.specs.rows.Rows.{left_of_table};
ghost use Rattle.policy_parts.specs.Tables.{graph_config_of};
ghost use Rattle.policy_toml.specs.HelperState.{optional_of, after_optional};
ghost use Rattle.policy_core.specs.config.OpenTable.{open_state, behind_rows};
ghost use Rattle.policy_core.specs.config.Places.{places_of_keys};
ghost use Rattle.policy_core.specs.config.Root as spec;
ghost use Rattle.policy_core.specs.config.Root.{no_graph, no_output, root_at, root_of};
ghost use Rattle.policy_core.specs.config.Root.{moved_in, moved_keys, moved_rows};
ghost use Rattle.toml_subset.specs.shapes.Shaped.{AnswersShape};

use crate::config::config::Config;
use crate::config::open_table::OpenTable;
use deny_text::{Span, Texts};
use policy_parts::{GraphConfig, OutputConfig, Targets};
use policy_toml::rows::Spans;
use policy_toml::{DeserError, Deserialize, Value};
use spdx_terms::catalog::Catalog;
use std::alloc::{AllocError, Global};
use toml_value::refuse_kind;

/// A policy file.
#[derive(Drop)]
pub struct RootConfig {
    /// What it says of licences, if it says anything.
    pub licenses: Option<Config>,
    /// Which crates are looked at. A key that was moved here and is at the root of the file has its value
    /// in place of the one in the table `graph`.
    pub graph: GraphConfig,
    /// How findings are printed, `feature-depth` at the root in place of the one in the table `output`.
    pub output: OutputConfig,
    /// Where keys are at the root that were moved to `graph`, in the order of the table of keys.
    pub graph_deprecated: Spans,
    /// Where the key is at the root that was moved to `output`.
    pub output_deprecated: Option<Span>,
}

fn or_no_graph(alloc: Global, graph: Option<GraphConfig>) -> GraphConfig
    ensures { result ≡ unwrap_or graph no_graph }
{
    match graph {
        Some(graph) => graph,
        None => GraphConfig::default(alloc),
    }
}

/// The values of keys that were moved to the table `graph`, where they are there.
#[derive(Drop)]
struct MovedKeys {
    targets: Option<Targets>,
    exclude: Option<Texts>,
    features: Option<Texts>,
    all_features: Option<bool>,
    no_default_features: Option<bool>,
    exclude_dev: Option<bool>,
}

/// The graph with these values in place of its own.
fn with_moved(graph: GraphConfig, moved: MovedKeys) -> GraphConfig
    ensures { result ≡ spec.with_moved moved graph }
{
    let MovedKeys {
        targets,
        exclude,
        features,
        all_features,
        no_default_features,
        exclude_dev,
    } = moved;
    GraphConfig {
        targets: targets.unwrap_or(graph.targets),
        exclude: exclude.unwrap_or(graph.exclude),
        features: features.unwrap_or(graph.features),
        all_features: all_features.unwrap_or(graph.all_features),
        no_default_features: no_default_features.unwrap_or(graph.no_default_features),
        exclude_dev: exclude_dev.unwrap_or(graph.exclude_dev),
        exclude_unpublished: graph.exclude_unpublished,
    }
}

/// The output with this depth in place of its own.
fn with_depth(output: Option<OutputConfig>, depth: Option<u32>) -> OutputConfig
    ensures { result ≡ spec.with_depth depth (unwrap_or output no_output) }
{
    let none = OutputConfig {
        feature_depth: None,
    };
    let output = output.unwrap_or(none);
    OutputConfig {
        feature_depth: depth.or(output.feature_depth),
    }
}

/// Reads the keys that were moved to the table `graph`, and appends their places.
fn read_moved(
    alloc: Global,
    table: &mut OpenTable<'_>,
    places: &mut Spans,
) -> Result<MovedKeys, AllocError>
    ensures keys { IfOk result (λ keys. keys ≡ moved_in (open_state table.old).left) }
    ensures places { OnOk result
        (places.new ≡ places.old ++ places_of_keys moved_keys (open_state table.old).left) }
    ensures after { OnOk result (open_state table.new ≡ behind_rows moved_rows (open_state table.old)) }
{
    let targets = table.moved(alloc, "targets", &(), places)?;
    let exclude = table.moved(alloc, "exclude", &(), places)?;
    let features = table.moved(alloc, "features", &(), places)?;
    let all_features = table.moved(alloc, "all-features", &(), places)?;
    let no_default_features = table.moved(alloc, "no-default-features", &(), places)?;
    let exclude_dev = table.moved(alloc, "exclude-dev", &(), places)?;
    Ok(MovedKeys {
        targets,
        exclude,
        features,
        all_features,
        no_default_features,
        exclude_dev,
    })
}

/// The graph of a policy, and where keys of it are at the root.
#[derive(Drop)]
struct RootGraph {
    graph: GraphConfig,
    places: Spans,
}

/// Reads the table `graph`, and behind it the keys that were moved there.
fn read_graph(alloc: Global, table: &mut OpenTable<'_>) -> Result<RootGraph, AllocError>
    ensures graph { let state = open_state table.old in
        let own = unwrap_or (optional_of (codes "graph") graph_config_of state) no_graph in
        let moved = moved_in (after_optional (codes "graph") graph_config_of state).left in
        IfOk result (λ read. read.graph ≡ spec.with_moved moved own) }
    ensures places { let behind = after_optional (codes "graph") graph_config_of (open_state table.old) in
        IfOk result (λ read. read.places ≡ places_of_keys moved_keys behind.left) }
    ensures after { let behind = after_optional (codes "graph") graph_config_of (open_state table.old) in
        OnOk result (open_state table.new ≡ behind_rows moved_rows behind) }
{
    let graph = table.optional(alloc, "graph", &())?;
    let mut places = Spans::new(alloc);
    let moved = read_moved(alloc, table, &mut places)?;
    Ok(RootGraph {
        graph: with_moved(or_no_graph(alloc, graph), moved),
        places,
    })
}

/// Reads the keys of a policy of which none was read.
fn read_root<C: Catalog>(
    alloc: Global,
    mut table: OpenTable<'_>,
    catalog: &C,
) -> Result<RootConfig, DeserError>
    requires { (open_state table).faults ≡ [] }
    ensures { let state = open_state table.entry in
        AnswersShape (root_at (C.lists catalog.now) state.left state.span) result }
{
    table.pass_over("advisories");
    table.pass_over("bans");
    table.pass_over("sources");
    let licenses = table.optional(alloc, "licenses", catalog)?;
    let graph = read_graph(alloc, &mut table)?;
    let output = table.optional(alloc, "output", &())?;
    let depth = table.placed(alloc, "feature-depth", &())?;
    let root = RootConfig {
        licenses,
        graph: graph.graph,
        output: with_depth(output, depth.value),
        graph_deprecated: graph.places,
        output_deprecated: depth.place,
    };
    table.finish(alloc, root)
}

impl<C: Catalog> Deserialize<C> for RootConfig {
    ghost reads = { λ catalog value. root_of (C.lists catalog) value };

    ghost leaves = { λ _ value. left_of_table value };

    fn deserialize(
        alloc: Global,
        value: &mut Value<'_>,
        catalog: &C,
    ) -> Result<RootConfig, DeserError> {
        match value.take_table() {
            Some(entries) => {
                let table = OpenTable::new(alloc, entries, value.span());
                read_root(alloc, table, catalog)
            }
            None => refuse_kind(alloc, "a table", value),
        }
    }
}
