//! The search for a file in a folder and those above it.
ghost use Rattle.std.specs.Prelude.{◌≡◌, ◌≤◌, ◌++◌, [], ◌∷◌, map, IfErr, IfOk};
ghost use Rattle.tree_core.specs.Hearing.{MadeSome};
ghost use Rattle.tree_core.specs.texts.Cause.{ReadCounts};
ghost use Rattle.tree_core.specs.Call.{told};
ghost use Rattle.tree_core.specs.texts.Looked.{FindsByLooks, LookedUntil, look_of, failed_look};
ghost use Rattle.tree_core.specs.texts.Search.{names_sought, paths_in_folder, candidates, search_cause};
ghost use Rattle.tree_core.specs.declared.texts.search.SearchError.TheVariants.{Memory};

use crate::{Tree, TreeError};
use deny_text::PathBuf;
use deny_text::path::{join, parent};
use std::alloc::{AllocError, Global};

/// What is looked for.
#[derive(Clone, Copy, Debug, PartialEq, Eq)]
pub enum SoughtFile {
    /// A policy: `deny.toml`, `.deny.toml` or `.cargo/deny.toml`.
    Policy,
    /// An exceptions file: `deny.exceptions.toml`, `.deny.exceptions.toml` or
    /// `.cargo/deny.exceptions.toml`.
    Exceptions,
}

/// Why a search was given up.
#[derive(Clone, Copy, Debug, PartialEq, Eq)]
pub enum SearchError {
    /// The tree failed. The numbers are its counts of faults, at the start of the run and after it had
    /// failed.
    Failed { before: u64, after: u64 },
    Memory,
}

impl From<AllocError> for SearchError {
    ghost from_gives = { λ _ error. error ≡ Memory };

    fn from(_: AllocError) -> SearchError {
        SearchError::Memory
    }
}

impl SoughtFile {
    /// The names that a folder is asked for, in order.
    fn names(self) -> [&'static str; 3]
        ensures { map (λ name. name.now) result ≡ names_sought self }
    {
        match self {
            SoughtFile::Policy => ["deny.toml", ".deny.toml", ".cargo/deny.toml"],
            SoughtFile::Exceptions => [
                "deny.exceptions.toml",
                ".deny.exceptions.toml",
                ".cargo/deny.exceptions.toml",
            ],
        }
    }
}

/// Whether something is at a path.
fn look<T: Tree>(alloc: Global, tree: &mut T, path: &str, begun: u64) -> Result<bool, SearchError>
    requires { begun ≤ T.fault_count tree.old }
    ensures looked { IfOk result (λ there.
        T.trace tree.new ≡ T.trace tree.old ++ look_of path.now (told there) ∷ []) }
    ensures given_up { IfErr result (λ error.
        T.trace tree.new ≡ T.trace tree.old ++ look_of path.now (failed_look error) ∷ []) }
    ensures made { MadeSome (T.content tree.old) (T.content tree.new) (T.fault_count tree.old)
        (T.fault_count tree.new) (T.trace tree.old) (T.trace tree.new) }
    ensures counts { IfErr result (λ error.
        ReadCounts begun (T.fault_count tree.old) (T.fault_count tree.new) (search_cause error)) }
{
    match tree.exists(alloc, path) {
        Ok(there) => Ok(there),
        Err(TreeError::Memory) => Err(SearchError::Memory),
        Err(_) => Err(SearchError::Failed {
            before: begun,
            after: tree.faults(),
        }),
    }
}

/// The first of the names in a folder at which something is there.
fn first_in<T: Tree>(
    alloc: Global,
    tree: &mut T,
    folder: &str,
    sought: SoughtFile,
    begun: u64,
) -> Result<Option<PathBuf>, SearchError>
    requires { begun ≤ T.fault_count tree.old }
    ensures looked { IfOk result
        (FindsByLooks (paths_in_folder (names_sought sought) folder.now) (T.trace tree.old) (T.trace tree.new)) }
    ensures given_up { IfErr result
        (LookedUntil (paths_in_folder (names_sought sought) folder.now) (T.trace tree.old) (T.trace tree.new)) }
    ensures made { MadeSome (T.content tree.old) (T.content tree.new) (T.fault_count tree.old)
        (T.fault_count tree.new) (T.trace tree.old) (T.trace tree.new) }
    ensures counts { IfErr result (λ error.
        ReadCounts begun (T.fault_count tree.old) (T.fault_count tree.new) (search_cause error)) }
{
    'names: for name in sought.names() {
        let path = join(alloc, folder, name)?;
        if look(alloc, tree, path.as_path(), begun)? {
            return Ok(Some(path));
        }
    }
    Ok(None)
}

/// The first of the paths at which a policy or an exceptions file is looked for, in the manifest's folder and
/// each folder above, at which something is there. `begun` is the tree's count of faults when the run began.
///
/// It is refused where a look fails, and for want of memory.
pub fn find_upwards<T: Tree>(
    alloc: Global,
    tree: &mut T,
    manifest_path: &str,
    sought: SoughtFile,
    begun: u64,
) -> Result<Option<PathBuf>, SearchError>
    requires { begun ≤ T.fault_count tree.old }
    ensures looked { IfOk result
        (FindsByLooks (candidates sought manifest_path.now) (T.trace tree.old) (T.trace tree.new)) }
    ensures given_up { IfErr result
        (LookedUntil (candidates sought manifest_path.now) (T.trace tree.old) (T.trace tree.new)) }
    ensures made { MadeSome (T.content tree.old) (T.content tree.new) (T.fault_count tree.old)
        (T.fault_count tree.new) (T.trace tree.old) (T.trace tree.new) }
    ensures counts { IfErr result (λ error.
        ReadCounts begun (T.fault_count tree.old) (T.fault_count tree.new) (search_cause error)) }
{
    let mut folder = parent(manifest_path);
    'folders: while let Some(here) = folder {
        let found = first_in(alloc, tree, here, sought, begun)?;
        if found.is_some() {
            return Ok(found);
        }
        folder = parent(here);
    }
    Ok(None)
}
