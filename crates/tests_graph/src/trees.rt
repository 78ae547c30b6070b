//! The crates that are gathered for a request, and the policy and the exceptions file that are found in a tree.
use crate::{Graph, put_made};
use deny_text::{PathBuf, Texts};
use run_context::{KrateContext, Krates, KratesError, gather_krates};
use std::alloc::Global;
use tests_files::tree::{fail_call, tree_of};
use tests_files::{AnswerText, Asked, Shown};
use tree_core::texts::{SoughtFile, find_upwards};
use tree_core::{MemTree, Tree};

/// The crates that are gathered for a request, which is made in `/w` for the metadata at the path of a case.
fn gathered(asked: &Asked<'_>, tree: &mut MemTree) -> Result<Krates, KratesError> {
    let alloc = asked.alloc;
    let manifest = PathBuf::copy(alloc, "/w/Cargo.toml").ok();
    let metadata = PathBuf::copy(alloc, asked.case.word("metadata")).ok();
    match manifest.zip(metadata).zip(PathBuf::copy(alloc, "/w").ok()) {
        Some(((manifest_path, metadata_path), cwd)) => {
            let context = KrateContext {
                manifest_path,
                config_path: None,
                metadata_path: Some(metadata_path),
                workspace: false,
                exclude: Texts::new(alloc),
                targets: Texts::new(alloc),
                no_default_features: false,
                all_features: false,
                features: Texts::new(alloc),
                frozen: false,
                locked: false,
                offline: false,
                exclude_dev: false,
                exclude_unpublished: false,
                cwd,
            };
            gather_krates(context, alloc, tree, &Texts::new(alloc))
        }
        None => Err(KratesError::Memory),
    }
}

impl Shown<Graph> for Krates {
    fn put(&self, out: &mut AnswerText) {
        out.each::<Graph, _>("", self.krates());
    }
}

/// Puts the ids that are gathered, or the refusal, once for each number of a call that fails, over one tree.
pub fn put_gathered(asked: &Asked<'_>, out: &mut AnswerText) {
    let Ok(mut tree) = tree_of(asked.alloc, &asked.case) else {
        return out.cant_be_tried();
    };
    let mut is_behind = false;
    for word in asked.case.word_or("fail", "0").split_whitespace() {
        out.tries(fail_call(&mut tree, word));
        out.put(if is_behind { "; " } else { "" });
        put_made(out, gathered(asked, &mut tree));
        is_behind = true;
    }
}

/// Puts what a search from a manifest upwards finds. Nothing is said of it: whoever calls this owes nothing of its contract.
fn put_found(alloc: Global, tree: &mut MemTree, sought: SoughtFile, out: &mut AnswerText) {
    let begun = tree.faults();
    match &find_upwards(alloc, tree, "/w/a/Cargo.toml", sought, begun) {
        Ok(Some(path)) => out.put(path.as_path()),
        Ok(None) => out.put("none"),
        Err(error) => write!(out, "{error:?}"),
    }
}

/// Puts what is found for a policy and for an exceptions file in a tree of empty files; or, where numbers are behind a bar, what is
/// found for a policy where one call after another fails.
pub fn put_searches(alloc: Global, text: &str, out: &mut AnswerText) {
    let (files, calls) = text.split_once(" | ").unwrap_or((text, ""));
    let mut tree = MemTree::new(alloc);
    for file in files.split_whitespace() {
        out.needs(tree.put(file, b""));
    }
    let mut is_behind = false;
    for word in calls.split_whitespace() {
        out.tries(fail_call(&mut tree, word));
        out.put(if is_behind { "; " } else { "" });
        put_found(alloc, &mut tree, SoughtFile::Policy, out);
        is_behind = true;
    }
    if calls.is_empty() {
        put_found(alloc, &mut tree, SoughtFile::Policy, out);
        out.put(" ");
        put_found(alloc, &mut tree, SoughtFile::Exceptions, out);
    }
}
