//! The look at the manifest.
//! Called by `lists_of_request` of `prelude`; a refusal's copy of the path may be made before the look.
ghost use Rattle.std.specs.Prelude.{◌≡◌, ◌≤◌, ◌⊎◌, IfErr};
ghost use Rattle.tree_core.specs.texts.Cause.{ReadCounts};
ghost use Rattle.run_found.specs.declared.error.Error.TheVariants.{Memory, ManifestPath};
ghost use Rattle.run_found.specs.Error.{cause_of};
ghost use Rattle.run_command.specs.Manifest as spec;
ghost use Rattle.run_command.specs.Manifest.{LooksAtManifest};
ghost use Rattle.run_found.specs.Hearing.{seen_between};

use deny_text::PathBuf;
use deny_text::path::file_name;
use run_found::Error;
use std::alloc::Global;
use tree_core::{Tree, TreeError};

/// Whether the last part of a path is the name of a manifest.
fn is_manifest(path: &str) -> bool
    ensures { result ≡ spec.is_manifest path.now }
{
    match file_name(path) {
        Some(name) => name == "Cargo.toml",
        None => false,
    }
}

/// The refusal of a path that names no manifest, which keeps a copy of it.
fn no_manifest(alloc: Global, path: &str) -> Error
    ensures { (result ≡ ManifestPath path.now) ⊎ (result ≡ Memory) }
{
    match PathBuf::copy(alloc, path) {
        Ok(path) => Error::ManifestPath(path),
        Err(_) => Error::Memory,
    }
}

/// Looks whether the manifest is there. A path with another name is refused without a look.
pub(crate) fn look_at_manifest<T: Tree>(
    alloc: Global,
    tree: &mut T,
    path: &str,
) -> Result<(), Error>
    ensures looked { LooksAtManifest path.now
        (seen_between T.content T.fault_count T.trace tree.old tree.new) result }
    ensures counts { IfErr result (λ error. ReadCounts
        (T.fault_count tree.old) (T.fault_count tree.old) (T.fault_count tree.new) (cause_of error)) }
{
    if !is_manifest(path) {
        return Err(no_manifest(alloc, path));
    }
    let before = tree.faults();
    match tree.is_file(alloc, path) {
        Ok(true) => Ok(()),
        Ok(false) => Err(no_manifest(alloc, path)),
        Err(TreeError::Failed) => Err(Error::ManifestRead {
            before,
            after: tree.faults(),
        }),
        Err(_) => Err(Error::Memory),
    }
}
