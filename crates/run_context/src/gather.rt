//! The crates that a request looks at, from its metadata's file.
//! Called by `krates_left` of `run_command`; the two lists of specs may be tested for signs in either order.
ghost use Rattle.std.specs.Prelude.{◌≡◌, ◌≤◌, ℕ, List, Some, length, IfErr, IfOk};
ghost use Rattle.std.specs.List.{filter_map};
ghost use Rattle.tree_core.specs.Hearing.{MadeSome};
ghost use Rattle.graph_core.specs.selection.Choice.{choice_of, spec_read};
ghost use Rattle.tree_core.specs.texts.Cause.{ReadCounts};
ghost use Rattle.graph_workspace.specs.Krates.{ReadsGraphBy, krates_cause};
ghost use Rattle.run_context.specs.Asked as spec;
ghost use Rattle.run_context.specs.Asked.{IsAnswerBy, IsMetadataBy, IsUnasked, by_specs, choice_asked, left_out};

use deny_text::Texts;
use graph_core::selection::{has_unsupported, read_specs};
use graph_workspace::{
    ExcludeSpecs, Krates, KratesError, Metadata, Selection, UnsupportedPart, krates_at, metadata_at,
};
use run_request::KrateContext;
use std::alloc::{AllocError, Global};
use tree_core::Tree;

/// The first part of a request that is not carried.
fn unsupported(context: &KrateContext, cfg_excludes: &Texts) -> Option<UnsupportedPart>
    ensures { result ≡ spec.unsupported_part context.now cfg_excludes.now }
{
    if context.metadata_path.is_none() {
        Some(UnsupportedPart::MetadataPath)
    } else if has_unsupported(&context.exclude) || has_unsupported(cfg_excludes) {
        Some(UnsupportedPart::ExcludeSpec)
    } else {
        None
    }
}

/// What a policy leaves out, beside a request.
#[derive(Clone, Copy)]
pub struct LeftOut<'p> {
    /// Specs of crates, which are read as those of the request are: unreadable ones are passed over.
    pub exclude: &'p Texts,
    /// Dependencies that serve development alone.
    pub exclude_dev: bool,
    /// Crates of the workspace that are never published.
    pub exclude_unpublished: bool,
}

/// What a request selects by, with the policy's specs behind its own.
fn selection_of(
    alloc: Global,
    context: &KrateContext,
    policy: &LeftOut<'_>,
) -> Result<Selection, AllocError>
    ensures { IfOk result (λ selection. choice_of selection
        ≡ choice_asked context.now (left_out policy.now)) }
{
    let mut exclude = ExcludeSpecs::new(alloc);
    read_specs(alloc, &mut exclude, context.exclude.items())?;
    read_specs(alloc, &mut exclude, policy.exclude.items())?;
    Ok(Selection {
        workspace: context.workspace,
        exclude,
        exclude_dev: context.exclude_dev || policy.exclude_dev,
        exclude_unpublished: context.exclude_unpublished || policy.exclude_unpublished,
    })
}

/// How many of the specs that a request selects by are its own.
fn own_specs(alloc: Global, context: &KrateContext) -> Result<usize, AllocError>
    ensures { IfOk result (λ count. count ≡ length (filter_map spec_read context.now.exclude)) }
{
    let mut own = ExcludeSpecs::new(alloc);
    read_specs(alloc, &mut own, context.exclude.items())?;
    Ok(own.items().len())
}

/// What the metadata that a request names tells, and what the request and a policy select of it.
#[derive(Drop)]
pub struct AskedMetadata {
    pub metadata: Metadata,
    pub selection: Selection,
    /// How many of the specs that leave crates out are the request's; those of the policy come behind them.
    pub own_specs: usize,
}

fn metadata_named<T: Tree>(
    context: &KrateContext,
    alloc: Global,
    tree: &mut T,
    begun: u64,
) -> Result<Metadata, KratesError>
    requires { begun ≤ T.fault_count tree.old }
    ensures read { (path : List ℕ) → context.now.metadata_path ≡ Some path
        → ReadsGraphBy begun (T.fault_count tree.new) (T.trace tree.old) (T.trace tree.new) path result }
    ensures made { MadeSome (T.content tree.old) (T.content tree.new) (T.fault_count tree.old)
        (T.fault_count tree.new) (T.trace tree.old) (T.trace tree.new) }
    ensures counts { IfErr result (λ error. ReadCounts begun
        (T.fault_count tree.old) (T.fault_count tree.new) (krates_cause error)) }
{
    match &context.metadata_path {
        Some(path) => metadata_at(alloc, tree, path.as_path(), begun),
        None => Err(KratesError::NotCarried(UnsupportedPart::MetadataPath)),
    }
}

/// What the metadata that a request names tells, before the crates are looked at. `begun` is the tree's count of
/// faults when the run began.
///
/// It is refused where no metadata is named, where a spec holds a `/` or a `#`, and then as `metadata_at` is.
pub fn gather_metadata_since<T: Tree>(
    context: &KrateContext,
    alloc: Global,
    tree: &mut T,
    policy: &LeftOut<'_>,
    begun: u64,
) -> Result<AskedMetadata, KratesError>
    requires { begun ≤ T.fault_count tree.old }
    ensures refused { spec.IsRefused context.now policy.now.exclude.now result }
    ensures read { IsMetadataBy context.now (left_out policy.now) begun
        (T.fault_count tree.new) (T.trace tree.old) (T.trace tree.new) result }
    ensures made { MadeSome (T.content tree.old) (T.content tree.new) (T.fault_count tree.old)
        (T.fault_count tree.new) (T.trace tree.old) (T.trace tree.new) }
    ensures counts { IfErr result (λ error. ReadCounts begun
        (T.fault_count tree.old) (T.fault_count tree.new) (krates_cause error)) }
{
    if let Some(what) = unsupported(context, policy.exclude) {
        return Err(KratesError::NotCarried(what));
    }
    let selection = selection_of(alloc, context, policy)?;
    let own_specs = own_specs(alloc, context)?;
    let metadata = metadata_named(context, alloc, tree, begun)?;
    Ok(AskedMetadata {
        metadata,
        selection,
        own_specs,
    })
}

/// The crates that a request looks at: those that its selection and what a policy leaves out reach in the
/// metadata that the request names. `begun` is the tree's count of faults when the run began.
///
/// It is refused where no metadata is named, where a spec holds a `/` or a `#`, and then as `krates_at` is.
/// A failed read carries the tree's counts of faults when the run began and after the read.
pub fn gather_krates_since<T: Tree>(
    context: &KrateContext,
    alloc: Global,
    tree: &mut T,
    policy: &LeftOut<'_>,
    begun: u64,
) -> Result<Krates, KratesError>
    requires { begun ≤ T.fault_count tree.old }
    ensures refused { spec.IsRefused context.now policy.now.exclude.now result }
    ensures read { IsAnswerBy context.now (left_out policy.now) begun
        (T.fault_count tree.new) (T.trace tree.old) (T.trace tree.new) result }
    ensures unasked { IsUnasked context.now policy.now.exclude.now (T.trace tree.old) (T.trace tree.new) }
    ensures made { MadeSome (T.content tree.old) (T.content tree.new) (T.fault_count tree.old)
        (T.fault_count tree.new) (T.trace tree.old) (T.trace tree.new) }
    ensures counts { IfErr result (λ error. ReadCounts begun
        (T.fault_count tree.old) (T.fault_count tree.new) (krates_cause error)) }
{
    if let Some(what) = unsupported(context, policy.exclude) {
        return Err(KratesError::NotCarried(what));
    }
    let selection = selection_of(alloc, context, policy)?;
    match &context.metadata_path {
        Some(path) => krates_at(alloc, tree, path.as_path(), &selection, begun),
        None => Err(KratesError::NotCarried(UnsupportedPart::MetadataPath)),
    }
}

/// The crates that a request looks at, as `gather_krates_since` has them from the start of this call on, of a
/// policy of which the specs alone are known.
pub fn gather_krates<T: Tree>(
    context: KrateContext,
    alloc: Global,
    tree: &mut T,
    cfg_excludes: &Texts,
) -> Result<Krates, KratesError>
    ensures refused { spec.IsRefused context cfg_excludes.now result }
    ensures read { IsAnswerBy context (by_specs cfg_excludes.now) (T.fault_count tree.old)
        (T.fault_count tree.new) (T.trace tree.old) (T.trace tree.new) result }
    ensures unasked { IsUnasked context cfg_excludes.now (T.trace tree.old) (T.trace tree.new) }
    ensures made { MadeSome (T.content tree.old) (T.content tree.new) (T.fault_count tree.old)
        (T.fault_count tree.new) (T.trace tree.old) (T.trace tree.new) }
    ensures counts { IfErr result (λ error. ReadCounts (T.fault_count tree.old)
        (T.fault_count tree.old) (T.fault_count tree.new) (krates_cause error)) }
{
    let begun = tree.faults();
    let policy = LeftOut {
        exclude: cfg_excludes,
        exclude_dev: false,
        exclude_unpublished: false,
    };
    gather_krates_since(&context, alloc, tree, &policy, begun)
}
