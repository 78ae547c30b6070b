//! A tree and a sink in memory, whose counts of faults begin anywhere.
ghost use Rattle.std.specs.Prelude.{◌≡◌, ◌≤◌, Some};
ghost use Rattle.tree_core.specs.Faults.{count_after};

use deny_text::{Bytes, PathBuf};
use std::alloc::Global;
use tests_files::AnswerText;
use tree_core::{FolderEntries, MemTree, NamesPaths, Sink, SinkFailed, Tree, TreeError};

/// A tree that counts its calls, and keeps a line for each: what was asked, the path, and the answer in a word. It keeps the paths
/// that it was given last.
#[derive(Drop)]
pub struct CountedTree {
    pub tree: MemTree,
    pub calls: u64,
    pub asked: AnswerText,
    pub failed: u64,
    pub named: Vec<PathBuf>,
}

/// An answer in a word.
fn word_of<T>(answer: &Result<T, TreeError>, word: &'static str) -> &'static str {
    match answer {
        Ok(_) => word,
        Err(TreeError::Absent) => "absent",
        Err(TreeError::WrongKind) => "of the wrong kind",
        Err(TreeError::Failed) => "failed",
        Err(TreeError::Memory) => "no memory",
    }
}

/// The answer of a look in a word.
fn told(answer: &Result<bool, TreeError>) -> &'static str {
    let is_so = matches!(answer, Ok(true));
    word_of(answer, if is_so { "true" } else { "false" })
}

impl CountedTree {
    /// No call was made yet.
    pub fn new(alloc: Global, tree: MemTree, failed: u64) -> CountedTree {
        CountedTree {
            tree,
            calls: 0,
            asked: AnswerText::new(alloc),
            failed,
            named: Vec::new(alloc),
        }
    }

    /// Counts a call that was answered so, and keeps its line.
    fn note<T>(&mut self, asked: &str, path: &str, answer: &Result<T, TreeError>, word: &str)
        ensures tree { self.new.tree ≡ self.old.tree }
        ensures failed { self.new.failed ≡ count_after self.old.failed answer.now }
    {
        self.calls = self.calls.saturating_add(1);
        if matches!(answer, Err(TreeError::Failed)) {
            self.failed = self.failed.saturating_add(1);
        }
        write!(self.asked, "{asked} {path}: {word}\n");
    }
}

impl Tree for CountedTree {
    ghost content = { λ t. Some t.tree.content };

    ghost fault_count = { λ t. t.failed };

    ghost trace = { λ t. t.tree.calls };

    fn read(&mut self, alloc: Global, path: &str) -> Result<Bytes, TreeError> {
        let answer = self.tree.read(alloc, path);
        self.note("read", path, &answer, word_of(&answer, "bytes"));
        answer
    }

    fn list(&mut self, alloc: Global, path: &str) -> Result<FolderEntries, TreeError> {
        let answer = self.tree.list(alloc, path);
        self.note("list", path, &answer, word_of(&answer, "entries"));
        answer
    }

    fn is_file(&mut self, alloc: Global, path: &str) -> Result<bool, TreeError> {
        let answer = self.tree.is_file(alloc, path);
        self.note("is_file", path, &answer, told(&answer));
        answer
    }

    fn exists(&mut self, alloc: Global, path: &str) -> Result<bool, TreeError> {
        let answer = self.tree.exists(alloc, path);
        self.note("exists", path, &answer, told(&answer));
        answer
    }

    fn faults(&self) -> u64 {
        self.failed
    }
}

impl NamesPaths for CountedTree {
    fn name_paths(&mut self, paths: Vec<PathBuf>) {
        self.named = paths;
    }
}

/// A sink that takes so many bytes a call, and holds so many.
#[derive(Drop)]
pub struct CountedSink {
    held: Vec<u8>,
    room: usize,
    piece: usize,
    pub refused: u64,
}

impl CountedSink {
    pub fn new(alloc: Global, room: usize, piece: usize, refused: u64) -> CountedSink {
        CountedSink {
            held: Vec::new(alloc),
            room,
            piece,
            refused,
        }
    }

    /// What was written so far, or that it is no text.
    pub fn text(&self) -> &str {
        str::from_utf8(&self.held).unwrap_or("what was written is no UTF-8")
    }

    /// How many bytes of a piece of this length it takes.
    fn taken(&self, length: usize) -> usize
        ensures { result ≤ length }
    {
        let left = self.room.saturating_sub(self.held.len());
        length.min(self.piece.min(left))
    }
}

impl Sink for CountedSink {
    ghost written = { λ s. Some s.held.items };

    ghost fault_count = { λ s. s.refused };

    fn write(&mut self, piece: &[u8]) -> Result<usize, SinkFailed> {
        let count = self.taken(piece.len());
        let is_refused = count == 0 && !piece.is_empty();
        if is_refused || self.held.extend_from_slice(&piece[..count]).is_err() {
            self.refused = self.refused.saturating_add(1);
            return Err(SinkFailed);
        }
        Ok(count)
    }

    fn faults(&self) -> u64 {
        self.refused
    }
}
