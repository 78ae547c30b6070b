//! The files of the sample.
//! Called by `report_on` of `command`; a path may be made by any code, the order of the files is in a clause.
ghost use Rattle.std.specs.Prelude.{◌≡◌, ◌≤◌, ◌<◌, [], string_bytes, IfOk, OnOk};
ghost use Rattle.std.specs.List.{fold};
ghost use Rattle.tree_core.specs.Content.{resolve};
ghost use Rattle.tree_core.specs.TreeState.{root_alone};
ghost use Rattle.run_sample.specs.Metadata.{numbers};
ghost use Rattle.run_sample.specs.Files.{manifest_path, sample_content, with_file, with_manifest, with_texts};
ghost use Rattle.run_sample.specs.Shallow.{IsLeaf, IsShallow};

use crate::metadata::sample_metadata;
use std::alloc::{AllocError, Global};
use tree_core::{MemTree, PutError};

/// The policy.
const POLICY: &str = "[licenses]\nallow = [\"MIT\"]\n";

/// Puts a file where nothing is in the way.
fn put_file(tree: &mut MemTree, path: &str, bytes: &[u8]) -> Result<(), AllocError>
    requires shallow { IsShallow tree.old.content }
    requires leaf { IsLeaf (resolve path.now) }
    ensures content { OnOk result
        (tree.new.content ≡ with_file tree.old.content (resolve path.now) bytes.now) }
    ensures shallow { IsShallow tree.new.content }
    ensures faults { tree.new.faults ≡ tree.old.faults }
    ensures failing { tree.new.failing ≡ tree.old.failing }
    ensures calls { tree.new.calls ≡ tree.old.calls }
{
    match tree.put(path, bytes) {
        Ok(()) => Ok(()),
        Err(PutError::Clash) => unreachable!(),
        Err(PutError::Memory) => Err(AllocError),
    }
}

/// Puts the metadata and the policy.
fn put_texts(tree: &mut MemTree, alloc: Global, count: u32) -> Result<(), AllocError>
    requires alone { tree.old.content ≡ root_alone }
    ensures content { OnOk result (tree.new.content ≡ with_texts count) }
    ensures shallow { IsShallow tree.new.content }
    ensures faults { tree.new.faults ≡ tree.old.faults }
    ensures failing { tree.new.failing ≡ tree.old.failing }
    ensures calls { tree.new.calls ≡ tree.old.calls }
{
    let metadata = sample_metadata(alloc, count)?;
    put_file(tree, "/s/m.json", metadata.as_bytes())?;
    put_file(tree, "/s/p.toml", POLICY.as_bytes())
}

/// The path of the manifest of a crate.
fn manifest_path(alloc: Global, i: u32) -> Result<String, AllocError>
    ensures { IfOk result (λ path. string_bytes path ≡ manifest_path i) }
{
    format!(in alloc; "/s/c{i}/Cargo.toml")
}

/// Puts the manifest of a crate.
fn put_manifest(tree: &mut MemTree, alloc: Global, i: u32) -> Result<(), AllocError>
    requires shallow { IsShallow tree.old.content }
    ensures content { OnOk result (tree.new.content ≡ with_manifest tree.old.content i) }
    ensures shallow { IsShallow tree.new.content }
    ensures faults { tree.new.faults ≡ tree.old.faults }
    ensures failing { tree.new.failing ≡ tree.old.failing }
    ensures calls { tree.new.calls ≡ tree.old.calls }
{
    let path = manifest_path(alloc, i)?;
    put_file(tree, path.as_str(), &[])
}

/// Puts the manifests of so many crates.
fn put_manifests(tree: &mut MemTree, alloc: Global, count: u32) -> Result<(), AllocError>
    requires shallow { IsShallow tree.old.content }
    ensures content { OnOk result (tree.new.content ≡ fold with_manifest tree.old.content (numbers count)) }
    ensures faults { tree.new.faults ≡ tree.old.faults }
    ensures failing { tree.new.failing ≡ tree.old.failing }
    ensures calls { tree.new.calls ≡ tree.old.calls }
{
    'crates: for i in 0..count {
        put_manifest(tree, alloc, i)?;
    }
    Ok(())
}

/// The files of a sample of so many crates, of which no call has been made.
pub fn sample_tree(alloc: Global, count: u32) -> Result<MemTree, AllocError>
    ensures content { IfOk result (λ tree. tree.content ≡ sample_content count) }
    ensures no_faults { IfOk result (λ tree. tree.faults ≡ 0) }
    ensures no_failing { IfOk result (λ tree. tree.failing ≡ []) }
    ensures no_calls { IfOk result (λ tree. tree.calls ≡ []) }
{
    let mut tree = MemTree::new(alloc);
    put_texts(&mut tree, alloc, count)?;
    put_manifests(&mut tree, alloc, count)?;
    Ok(tree)
}
