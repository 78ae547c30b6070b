//! Where the table rules refuse a key.
ghost use Rattle.std.specs.Prelude.{◌≡◌, ◌+◌, ◌<◌, ◌^◌, ◌∷◌, length, IsTrue};
ghost use Rattle.toml_subset.specs.TableFaults.{fault_at_key, new_key_fault, put_fault};
ghost use Rattle.toml_subset.specs.Tables.{unbranched};
ghost use Rattle.toml_value.specs.BranchViews.{branches_view, is_whole};

use super::{Branches, Mark, Node};
use toml_subset::{Key, SyntaxError, SyntaxReason};

/// How many tables and arrays may be around a value.
pub(crate) const DEPTH_LIMIT: usize = 128;

/// The fault at a part of a key.
fn refuse(reason: SyntaxReason, key: &Key<'_>) -> Option<SyntaxError>
    ensures { result ≡ fault_at_key reason key.now }
{
    Some(SyntaxError {
        reason,
        span: key.span,
    })
}

/// The last part of a key is refused where its table has it.
fn last_fault(table: &Branches<'_>, key: &Key<'_>) -> Option<SyntaxError>
    requires { IsTrue (is_whole table.now) }
    ensures { result ≡ new_key_fault key.now (branches_view table.now) 0 }
{
    match table.at(key) {
        Some(_) => refuse(SyntaxReason::DuplicateKey, key),
        None => None,
    }
}

/// The first part of a key that a table refuses, so many tables and arrays standing around the table's
/// entries.
pub(crate) fn key_fault(table: &Branches<'_>, keys: &[Key<'_>], above: usize) -> Option<SyntaxError>
    requires whole { IsTrue (is_whole table.now) }
    requires fits { above + length keys.now < 2 ^ 64 }
    ensures { result ≡ put_fault keys.now (branches_view table.now) above }
{
    let (key, rest) = keys.split_first()?;
    if rest.is_empty() {
        return last_fault(table, key);
    }
    match table.at(key) {
        Some(Node::Growing(_, Mark::Dotted, inner)) => key_fault(inner, rest, above + 1),
        Some(_) => refuse(SyntaxReason::RedefinedTable, key),
        None => new_tables_fault(key, rest, above),
    }
}

/// The same of a part that its table does not have, and of those behind it, which make new tables.
fn new_tables_fault(key: &Key<'_>, rest: &[Key<'_>], above: usize) -> Option<SyntaxError>
    requires fits { above + length rest.now < 2 ^ 64 }
    ensures { result ≡ put_fault (key.now ∷ rest.now) unbranched above }
{
    let (next, more) = rest.split_first()?;
    if above == DEPTH_LIMIT {
        return refuse(SyntaxReason::TooDeep, key);
    }
    new_tables_fault(next, more, above + 1)
}
