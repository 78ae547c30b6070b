//! The runs of a case: which calls of its tree fail, how much its sinks take, and how each run ends.
use crate::counted::{CountedSink, CountedTree};
use crate::identifiers::{CaseIdentifier, known_as};
use deny_run::Outcome;
use deny_run::run::run;
use spdx_terms::catalog::Table;
use std::alloc::{AllocError, Global};
use tests_files::tree::{fail_call, number, range_of, text_of, tree_of};
use tests_files::{Case, CaseEntry, let_go};
use tree_core::MemTree;

/// One run of a case.
#[derive(Clone, Copy)]
pub struct Setting<'c> {
    pub case: Case<'c>,
    /// The call of the tree that fails, counted from 1; at 0 none does but those that the case names.
    pub call: u64,
    /// A later call that fails too; at 0 there is none.
    pub later: u64,
    /// How many bytes the file has that the case cuts.
    pub kept: usize,
    /// How many bytes `out` takes in all.
    pub out: usize,
    pub err: usize,
}

impl<'c> Setting<'c> {
    /// The run of a case in which no call fails and no file is cut.
    pub fn whole(case: &Case<'c>, out: usize, err: usize) -> Setting<'c> {
        Setting {
            case: *case,
            call: 0,
            later: 0,
            kept: usize::MAX,
            out,
            err,
        }
    }
}

/// What a run is over, and what it writes to.
#[derive(Drop)]
pub struct Stage {
    pub tree: CountedTree,
    pub out: CountedSink,
    pub err: CountedSink,
}

/// What a run came to, which run it was, and what it was over.
#[derive(Drop)]
pub struct Ending<'c> {
    pub setting: Setting<'c>,
    pub outcome: Outcome,
    pub stage: Stage,
}

const WORDS: &str = "cargo-deny --metadata-path m.json --config p.toml check licenses";

/// The words: those behind the key, or one of each line below it.
fn words_of(alloc: Global, case: &Case<'_>) -> Result<Vec<String>, AllocError> {
    let (text, between) = match case.entry("words") {
        None => (WORDS, ' '),
        Some(entry) if entry.text.is_empty() => (entry.word(), ' '),
        Some(entry) => (entry.wanted(), '\n'),
    };
    text.split_terminator(between)
        .map(|word| String::from_str(alloc, word))
        .try_collect(alloc)
}

/// The number behind a key, or else this; none where there is another word.
fn number_or(case: &Case<'_>, key: &str, or: u64) -> Option<u64> {
    let entry = case.entry(key);
    entry.map_or(Some(or), |entry| number(entry.word()))
}

fn file_among<'e>(entries: &'e [CaseEntry], path: &str) -> Option<&'e CaseEntry> {
    let mut files = entries.iter().filter(|entry| entry.key() == "file");
    files.find(|entry| entry.word() == path)
}

/// The text of the file that the case cuts, which is its own or else its base's, if there is one.
fn whole_file(alloc: Global, case: &Case<'_>) -> Option<Vec<u8>> {
    let path = case.word("cut");
    let entry = file_among(case.own, path).or(file_among(case.base, path))?;
    text_of(alloc, case, entry).ok()
}

/// Puts the front of the file that the case cuts in its place. Returns whether that could be done.
fn cut_file(alloc: Global, tree: &mut MemTree, setting: &Setting<'_>) -> bool {
    let path = setting.case.word("cut");
    match &whole_file(alloc, &setting.case) {
        Some(whole) => {
            let front = whole.get(..setting.kept).unwrap_or(whole);
            tree.put(path, front).is_ok()
        }
        None => path.is_empty(),
    }
}

/// Lets a call of a tree fail; at 0 none.
fn fail_one(tree: &mut MemTree, call: u64) -> bool {
    call == 0 || tree.fail_call(call).is_ok()
}

/// Lets the calls of a tree fail that the setting says, or else those that the case names. Returns whether that could be done.
fn fail_all(tree: &mut MemTree, setting: &Setting<'_>) -> bool {
    let mut is_done = fail_one(tree, setting.later) & fail_one(tree, setting.call);
    let calls = setting.case.word("fail");
    if setting.call == 0 && calls.contains(' ') {
        for call in calls.split(' ') {
            is_done = fail_call(tree, call) & is_done;
        }
    }
    is_done
}

/// The tree of a run, which begins with so many faults.
fn tree_with(alloc: Global, setting: &Setting<'_>, failed: u64) -> Option<CountedTree> {
    let mut tree = tree_of(alloc, &setting.case).ok()?;
    if cut_file(alloc, &mut tree, setting) && fail_all(&mut tree, setting) {
        Some(CountedTree::new(alloc, tree, failed))
    } else {
        None
    }
}

/// The run, of which nothing is said: whoever calls this owes nothing of the run's contract.
fn outcome_of(
    alloc: Global,
    words: &[String],
    cwd: &str,
    stage: &mut Stage,
    known: &CaseIdentifier,
) -> Outcome {
    let Stage { tree, out, err } = stage;
    run(alloc, words, cwd, tree, out, err, &Table, known)
}

/// A sink of a run: `out` or `err`, by the keys that end so.
fn sink_of(
    alloc: Global,
    case: &Case<'_>,
    room: usize,
    piece: (&str, u64),
    faults: &str,
) -> Option<CountedSink> {
    let piece = number_or(case, piece.0, piece.1)? as usize;
    let faults = number_or(case, faults, 0)?;
    Some(CountedSink::new(alloc, room, piece, faults))
}

/// What a run is over; none where it can't be put.
pub fn stage_of(alloc: Global, setting: &Setting<'_>) -> Option<Stage> {
    let case = &setting.case;
    let out = sink_of(alloc, case, setting.out, ("piece-out", 4), "faults-out");
    let err = sink_of(alloc, case, setting.err, ("piece-err", 1000), "faults-err");
    let faults = number_or(case, "faults-tree", 0)?;
    let parts = tree_with(alloc, setting, faults).zip(out).zip(err);
    parts.map(|((tree, out), err)| Stage { tree, out, err })
}

fn ending_over<'c>(
    alloc: Global,
    setting: &Setting<'c>,
    words: &[String],
    known: &CaseIdentifier,
    mut stage: Stage,
) -> Ending<'c> {
    let cwd = setting.case.word_or("cwd", "/w");
    let outcome = outcome_of(alloc, words, cwd, &mut stage, known);
    Ending {
        setting: *setting,
        outcome,
        stage,
    }
}

/// How a run of the case ends; none where it can't be tried.
pub fn ending_of<'c>(alloc: Global, setting: &Setting<'c>) -> Option<Ending<'c>> {
    let identifier = setting.case.word_or("identifier", "none");
    let words = words_of(alloc, &setting.case).ok();
    let known = known_as(alloc, identifier).ok();
    let parts = words.zip(known).zip(stage_of(alloc, setting));
    parts.map(|((words, known), stage)| ending_over(alloc, setting, &words, &known, stage))
}

/// The rooms of a sink, from the first to the one before the last; they may be those below the text that is wanted.
pub fn rooms_of(case: &Case<'_>, key: &str, text: &str) -> Option<(usize, usize)> {
    if case.word(key) == "below" {
        let length = case.entry(text).map_or(0, |entry| entry.wanted().len());
        return Some((0, length));
    }
    let room = number_or(case, key, 4000)? as usize;
    Some((room, room.saturating_add(1)))
}

/// The lengths of the file that the case cuts: each below its own. Without such a file there is one run.
pub fn lengths_of(alloc: Global, case: &Case<'_>) -> Option<(usize, usize)> {
    match case.word("cut") {
        "" => Some((0, 1)),
        _ => whole_file(alloc, case).map(|whole| (0, whole.len())),
    }
}

/// Calls that fail, which are counted from 1, from the first to the last.
fn failing(word: &str) -> Option<(u64, u64)> {
    range_of(word).filter(|calls| calls.0 > 0)
}

/// The calls that fail behind the first one, from the first to the last.
pub fn laters_of(case: &Case<'_>) -> Option<(u64, u64)> {
    match case.word("fail-too") {
        "" => Some((0, 0)),
        word => failing(word),
    }
}

/// How many calls were made in a run, which is let go.
fn calls_in(ended: Option<Ending<'_>>) -> Option<u64> {
    let calls = ended.as_ref().map(|ended| ended.stage.tree.calls);
    let_go(ended);
    calls
}

/// The calls that fail alone in a run each, from the first to the last; `each` is of all that this run makes, in which none fails.
pub fn calls_of(alloc: Global, whole: &Setting<'_>) -> Option<(u64, u64)> {
    match whole.case.word("fail") {
        "" => Some((0, 0)),
        "each" => calls_in(ending_of(alloc, whole)).map(|calls| (1, calls)),
        // Several calls fail in one run.
        word if word.contains(' ') => Some((0, 0)),
        word => failing(word),
    }
}
