//! Policies that are loaded out of a tree in memory.
use crate::Policy;
use crate::show::{put_clarified, put_excepted, put_findings, put_printed};
use deny_text::PathBuf;
use diag_core::{Files, LevelFilter};
use diag_print::{Color, Format, LogContext};
use policy_load::{LoadError, LoadedPolicy, PolicyPaths, load};
use spdx_core::Table;
use std::alloc::Global;
use tests_files::tree::{fail_call, tree_of, written};
use tests_files::{AnswerText, Asked, Case, Room, Shown, Told, let_go};
use tree_core::{MemSink, MemTree, Tree};

/// What a load came to, the files that are known behind it, and what was printed.
#[derive(Drop)]
pub struct LoadEnding {
    answer: Result<LoadedPolicy, LoadError>,
    files: Files,
    sink: MemSink,
}

/// The path that is behind a key, if there is one.
fn path_of(alloc: Global, word: &str) -> Option<Option<PathBuf>> {
    match word {
        "" => Some(None),
        path => PathBuf::copy(alloc, path).ok().map(Some),
    }
}

/// Loads a policy over a tree, and prints to a sink.
fn ending_with(
    alloc: Global,
    paths: PolicyPaths,
    tree: &mut MemTree,
    mut sink: MemSink,
) -> LoadEnding {
    let mut files = Files::new(alloc);
    let context = LogContext {
        format: Format::Human,
        color: Color::Auto,
        log_level: LevelFilter::Warn,
    };
    let answer = load(
        alloc, paths, &mut files, context, tree, &mut sink, &Table, 0,
    );
    LoadEnding {
        answer,
        files,
        sink,
    }
}

/// Loads the policy of a case over a tree.
fn ending_in(alloc: Global, case: &Case<'_>, tree: &mut MemTree) -> Option<LoadEnding> {
    let policy = path_of(alloc, case.word("at"));
    let exceptions = path_of(alloc, case.word("exceptions"));
    let paths = policy.zip(exceptions);
    let paths = paths.map(|(policy, exceptions)| PolicyPaths { policy, exceptions });
    let parts = paths.zip(MemSink::new(alloc, 1000, 1000).ok());
    parts.map(|(paths, sink)| ending_with(alloc, paths, tree, sink))
}

/// Loads the policy of a case, for a second time where the case wants that: the first read of the tree fails in both then.
fn ending_over(alloc: Global, case: &Case<'_>, tree: &mut MemTree) -> Option<LoadEnding> {
    if !fail_call(tree, case.word("fail")) {
        return None;
    }
    if case.entry("twice").is_some() {
        let_go(ending_in(alloc, case, tree));
        tree.fail_call(1).ok()?;
    }
    ending_in(alloc, case, tree)
}

/// The same over the tree of the case; none where it can't be tried.
pub fn ending_of(alloc: Global, case: &Case<'_>) -> Option<LoadEnding> {
    let mut tree = tree_of(alloc, case).ok()?;
    ending_over(alloc, case, &mut tree)
}

/// What a policy allows, how many exceptions it has and its settings.
impl Shown<Policy> for LoadedPolicy {
    fn put(&self, out: &mut AnswerText) {
        let valid = &self.licenses;
        write!(out, "file {}:", valid.file_id);
        put_printed(out, &valid.allowed);
        let exceptions = valid.exceptions.items().len();
        let (dev, build) = (valid.include_dev, valid.include_build);
        let from = valid.confidence_threshold;
        write!(
            out,
            ", {exceptions} exceptions; dev {dev}, build {build}, from {from}"
        );
    }
}

/// Puts the names of the files that are known, and whether their texts are empty.
fn put_files(out: &mut AnswerText, files: &Files) {
    for id in 0..3 {
        match (files.name(id), files.source(id)) {
            (Ok(name), Ok("")) => write!(out, "{name} (empty);"),
            (Ok(name), _) => write!(out, "{name};"),
            _ => {}
        }
    }
}

/// A policy that is refused has no lists.
impl Room for LoadEnding {
    fn answer(&self, asked: &Asked<'_>, out: &mut AnswerText) -> Told {
        match (asked.group, &self.answer) {
            ("answer", Ok(loaded)) => loaded.put(out),
            ("answer", Err(error)) => error.put(out),
            ("files", _) => put_files(out, &self.files),
            ("found", Err(LoadError::ConfigInvalid(found))) => put_findings(out, found),
            ("printed" | "found", _) => out.put(written(&self.sink)),
            ("allowed", Ok(loaded)) => out.each::<Policy, _>("", loaded.licenses.allowed.items()),
            ("clarified", Ok(loaded)) => put_clarified(out, &loaded.licenses.clarifications),
            ("excepted", Ok(loaded)) => put_excepted(out, &loaded.licenses.exceptions),
            ("allowed" | "clarified" | "excepted", Err(_)) => {}
            ("at" | "exceptions" | "file" | "fail" | "twice", _) => return Told::Given,
            _ => return Told::NoSuchGroup,
        }
        Told::Answer
    }
}
