//! The crates of a workspace, from the metadata's file.
ghost use Rattle.std.specs.Prelude.{◌≡◌, ◌≤◌, IfErr};
ghost use Rattle.tree_core.specs.Hearing.{MadeSome};
ghost use Rattle.graph_core.specs.selection.Choice.{choice_of};
ghost use Rattle.tree_core.specs.texts.Cause.{ReadCounts};
ghost use Rattle.graph_workspace.specs.Krates.{krates_cause, graph_in, sparse_dir, IsCarried};
ghost use Rattle.graph_workspace.specs.Krates.{GathersBy, AreFrom, AnswersGraph, ReadsGraphBy};

use crate::error::KratesError;
use graph_core::Metadata;
use graph_core::selection::{Krates, Selection};
use graph_metadata::records;
use std::alloc::Global;
use tree_core::Tree;
use tree_core::texts::{TextHeard, read_file_text};

/// The folder in which cargo keeps crates of the sparse index of crates.io.
fn sparse_dir() -> &'static str
    ensures { result.now ≡ sparse_dir }
{
    "index.crates.io-1949cf8c6b5b557f"
}

/// What the metadata tells, from what was read of its file. The text is let go before it is answered.
fn metadata_of(alloc: Global, heard: TextHeard) -> Result<Metadata, KratesError>
    ensures told { AnswersGraph (graph_in heard) result }
    ensures carried { IfErr result IsCarried }
{
    match heard {
        Ok(text) => Ok(records(alloc, text.as_str(), sparse_dir())?),
        Err(fault) => Err(KratesError::MetadataRead(fault)),
    }
}

/// The crates that a selection reaches, from what was read of the metadata's file.
fn krates_of(alloc: Global, heard: TextHeard, selection: &Selection) -> Result<Krates, KratesError>
    ensures from { AreFrom (choice_of selection.now) heard result }
    ensures carried { IfErr result IsCarried }
{
    let metadata = metadata_of(alloc, heard)?;
    Ok(Krates::build(alloc, metadata, selection)?)
}

/// What the metadata of the file at a path tells. `begun` is the tree's count of faults when the run began.
///
/// It is refused where the file is not read, is no JSON or has not the stated shape, and for want of memory.
pub fn metadata_at<T: Tree>(
    alloc: Global,
    tree: &mut T,
    path: &str,
    begun: u64,
) -> Result<Metadata, KratesError>
    requires { begun ≤ T.fault_count tree.old }
    ensures carried { IfErr result IsCarried }
    ensures read { ReadsGraphBy begun (T.fault_count tree.new)
        (T.trace tree.old) (T.trace tree.new) path.now result }
    ensures made { MadeSome (T.content tree.old) (T.content tree.new) (T.fault_count tree.old)
        (T.fault_count tree.new) (T.trace tree.old) (T.trace tree.new) }
    ensures counts { IfErr result (λ error.
        ReadCounts begun (T.fault_count tree.old) (T.fault_count tree.new) (krates_cause error)) }
{
    let heard = read_file_text(alloc, tree, path, begun)?;
    metadata_of(alloc, heard)
}

/// The crates that a selection reaches in the metadata of the file at a path. `begun` is the tree's count of
/// faults when the run began.
///
/// It is refused where the file is not read, is no JSON or has not the stated shape, or where no root is
/// left, and for want of memory.
pub fn krates_at<T: Tree>(
    alloc: Global,
    tree: &mut T,
    path: &str,
    selection: &Selection,
    begun: u64,
) -> Result<Krates, KratesError>
    requires { begun ≤ T.fault_count tree.old }
    ensures carried { IfErr result IsCarried }
    ensures read { GathersBy (choice_of selection.now) begun (T.fault_count tree.new)
        (T.trace tree.old) (T.trace tree.new) path.now result }
    ensures made { MadeSome (T.content tree.old) (T.content tree.new) (T.fault_count tree.old)
        (T.fault_count tree.new) (T.trace tree.old) (T.trace tree.new) }
    ensures counts { IfErr result (λ error.
        ReadCounts begun (T.fault_count tree.old) (T.fault_count tree.new) (krates_cause error)) }
{
    let heard = read_file_text(alloc, tree, path, begun)?;
    krates_of(alloc, heard, selection)
}
