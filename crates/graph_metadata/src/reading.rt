//! The records of metadata.
ghost use Rattle.std.specs.Prelude.{◌≡◌, Some, None, Ok, Err, IfOk, IfErr};
ghost use Rattle.graph_core.specs.Metadata.{Graph};
ghost use Rattle.graph_metadata.specs.declared.fault.MetaFault.{MetaFault};
ghost use Rattle.graph_metadata.specs.declared.fault.MetaError.TheVariants.{Shape, Syntax};
ghost use Rattle.graph_metadata.specs.Records.{metadata_of, AnswersOr, IsMetaCause};

use crate::fault::MetaError;
use crate::order::in_order;
use crate::rows::rows_in;
use graph_core::Metadata;
use serde_json::Value;
use std::alloc::Global;

/// Reads the output of `cargo metadata --format-version 1`: the crates of a workspace and of all that it
/// depends on, and the edges between them. Keys that no row of the table of shapes names are passed over, and
/// of equal keys of an object the last holds. A source that can't be read is none. `sparse_dir` is the name
/// of the folder in which cargo keeps crates of the sparse index of crates.io.
pub fn records(alloc: Global, text: &str, sparse_dir: &str) -> Result<Metadata, MetaError>
    ensures records { IfOk result (λ metadata. metadata_of text.now sparse_dir.now ≡ Some (Ok metadata)) }
    ensures cause { IfErr result (λ error. IsMetaCause error (metadata_of text.now sparse_dir.now)) }
    ensures told { (graph : Graph) → metadata_of text.now sparse_dir.now ≡ Some (Ok graph)
        → AnswersOr result (Ok graph) }
    ensures faulty { (fault : MetaFault) → metadata_of text.now sparse_dir.now ≡ Some (Err fault)
        → AnswersOr result (Err (Shape fault)) }
    ensures unread { metadata_of text.now sparse_dir.now ≡ None → AnswersOr result (Err Syntax) }
{
    let value = Value::from_str(alloc, text)?;
    let rows = rows_in(alloc, sparse_dir, &value)?;
    Ok(in_order(alloc, rows)?)
}
