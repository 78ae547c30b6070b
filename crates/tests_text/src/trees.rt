//! Trees of files, in memory and real, and sinks: what is put into them, and what their calls answer.
use crate::calls::{CallWords, Called, put_answered};
use deny_text::Bytes;
use deny_text::path::parent;
use std::alloc::{AllocError, Global};
use std::fs::{File, OpenFile};
use std::rt::Files;
use std::{fs, io};
use tests_files::tree::{fail_call, first_word, number_in, written};
use tests_files::{AnswerText, Asked, Case, Room, Shown, Told};
use tree_core::{
    Entry, FolderEntries, FolderTree, MemSink, MemTree, Sink, Tree, TreeError, write_all,
};

/// Bytes of which none is alike at a distance that reads are likely to have.
fn counted(alloc: Global, length: usize) -> Result<Vec<u8>, AllocError> {
    let mut bytes = Vec::new(alloc);
    for place in 0..length {
        bytes.push((place % 251) as u8)?;
    }
    Ok(bytes)
}

/// The path of the one file that an entry of the folder with 300 entries is or holds: those with even numbers are files.
fn path_among_many(alloc: Global, number: u32) -> Result<String, AllocError> {
    let letter = if number < 150 { "f" } else { "ж" };
    let below = if number % 2 == 0 { "" } else { "/below" };
    format!(in alloc; "folder_test/many/{letter}{number:03}{below}")
}

/// Whether these are the 300 entries, in their order.
fn are_many(entries: &[Entry]) -> bool {
    for (number, entry) in entries.iter().enumerate() {
        let letter = if number < 150 { 'f' } else { 'ж' };
        let digits = entry.name.as_str().strip_prefix(letter).unwrap_or("");
        let is_named = digits.len() == 3 && digits.parse::<usize>().ok() == Some(number);
        if !is_named || entry.is_file != (number % 2 == 0) {
            return false;
        }
    }
    entries.len() == 300
}

/// Whether these are bytes as `counted` makes them.
fn are_counted(bytes: &[u8]) -> bool {
    for (place, byte) in bytes.iter().enumerate() {
        if *byte != (place % 251) as u8 {
            return false;
        }
    }
    true
}

/// What the calls of trees answer.
struct Answers;

/// What is read: as a text, or how many bytes there are.
impl Shown<Answers> for Bytes {
    fn put(&self, out: &mut AnswerText) {
        let bytes = self.items();
        let length = bytes.len();
        match str::from_utf8(bytes) {
            _ if length > 100 && are_counted(bytes) => write!(out, "counted {length}"),
            Ok(text) => write!(out, "{text:?}"),
            Err(_) => write!(out, "{length} bytes"),
        }
    }
}

/// The name of an entry, of a folder with a slash behind it.
impl Shown<Answers> for Entry {
    fn put(&self, out: &mut AnswerText) {
        let behind = if self.is_file { "" } else { "/" };
        write!(out, "{}{behind}", self.name);
    }
}

impl Shown<Answers> for FolderEntries {
    fn put(&self, out: &mut AnswerText) {
        if are_many(self.items()) {
            return out.put("all 300");
        }
        out.put("[");
        out.each::<Answers, _>(", ", self.items());
        out.put("]");
    }
}

impl Shown<Answers> for bool {
    fn put(&self, out: &mut AnswerText) {
        write!(out, "{self}");
    }
}

impl Shown<Answers> for TreeError {
    fn put(&self, out: &mut AnswerText) {
        write!(out, "{self:?}");
    }
}

/// Puts how many bytes are read.
fn put_length(out: &mut AnswerText, read: Result<Bytes, TreeError>) {
    match &read {
        Ok(bytes) => write!(out, "{}", bytes.items().len()),
        Err(error) => write!(out, "{error:?}"),
    }
}

/// Puts what a call of any tree answers.
pub fn put_one<T: Tree>(out: &mut AnswerText, alloc: Global, tree: &mut T, verb: &str, path: &str) {
    match verb {
        "read" => out.made::<Answers, _, _>(tree.read(alloc, path)),
        "length" => put_length(out, tree.read(alloc, path)),
        "list" => out.made::<Answers, _, _>(tree.list(alloc, path)),
        "is_file" => out.made::<Answers, _, _>(tree.is_file(alloc, path)),
        "exists" => out.made::<Answers, _, _>(tree.exists(alloc, path)),
        "faults" => write!(out, "{}", tree.faults()),
        _ => out.put("no such call"),
    }
}

/// Puts what a call of any tree answers, or several of them.
fn put_asked<T: Tree>(out: &mut AnswerText, alloc: Global, tree: &mut T, call: CallWords<'_>) {
    let verbs = match call.verb {
        "look" => "read is_file exists",
        "all" => "read list is_file exists",
        verb => verb,
    };
    let before = tree.faults();
    out.put(" =>");
    for verb in verbs.split(' ') {
        out.put(" ");
        put_one(out, alloc, tree, verb, call.path);
    }
    if call.verb == "all" {
        write!(out, " {}", tree.faults().saturating_sub(before));
    }
}

/// Where files are put: in memory, or in a real folder.
trait Store {
    /// Puts a file, and tells why it can't be.
    fn put_file(&mut self, out: &mut AnswerText, path: &str, bytes: &[u8]);
}

impl Store for MemTree {
    fn put_file(&mut self, out: &mut AnswerText, path: &str, bytes: &[u8]) {
        if let Err(error) = self.put(path, bytes) {
            write!(out, " => {error:?}");
        }
    }
}

/// The folder that the program runs in.
#[derive(Drop)]
struct Folder<'r> {
    rt: &'r HostRuntime,
    tree: FolderTree<HostRuntime>,
}

/// Writes a file, and makes the folder that it is in.
fn write_file(rt: &HostRuntime, path: &str, bytes: &[u8]) -> io::Result<()> {
    fs::create_dir_all(rt, parent(path).unwrap_or("."))?;
    fs::write(rt, path, bytes)
}

impl Store for Folder<'_> {
    fn put_file(&mut self, out: &mut AnswerText, path: &str, bytes: &[u8]) {
        if let Err(error) = write_file(self.rt, path, bytes) {
            write!(out, " => {error}");
        }
    }
}

/// Puts the files of the folder with 300 entries, in another order than that of their names.
fn put_many<S: Store>(out: &mut AnswerText, alloc: Global, store: &mut S) {
    for step in 0..300 {
        match &path_among_many(alloc, step * 7 % 300) {
            Ok(path) => store.put_file(out, path.as_str(), b"many"),
            Err(_) => out.want_memory(),
        }
    }
}

/// Puts the files that a call names, and returns whether it does so.
fn is_put<S: Store>(
    out: &mut AnswerText,
    alloc: Global,
    store: &mut S,
    call: CallWords<'_>,
) -> bool {
    match call.verb {
        "put" => store.put_file(out, call.path, call.text.as_bytes()),
        "counted" => match &counted(alloc, number_in(call.text)) {
            Ok(bytes) => store.put_file(out, call.path, bytes),
            Err(_) => out.want_memory(),
        },
        "many" => put_many(out, alloc, store),
        _ => return false,
    }
    true
}

impl Called for MemTree {
    fn put_answer(&mut self, out: &mut AnswerText, alloc: Global, call: CallWords<'_>) {
        if is_put(out, alloc, self, call) {
            return;
        }
        match call.verb {
            "fail" => out.tries(fail_call(self, call.path)),
            _ => put_asked(out, alloc, self, call),
        }
    }
}

/// Makes or removes something real, and returns whether the call does so.
fn is_made(rt: &HostRuntime, call: CallWords<'_>) -> io::Result<bool> {
    match call.verb {
        "make" => fs::create_dir_all(rt, call.path)?,
        "link" => rt.symlink(call.text, call.path)?,
        "set_length" => File::create(rt, call.path)?.set_len(number_in(call.text) as u64)?,
        "remove" => fs::remove_dir_all(rt, call.path)?,
        _ => return Ok(false),
    }
    Ok(true)
}

impl Called for Folder<'_> {
    fn put_answer(&mut self, out: &mut AnswerText, alloc: Global, call: CallWords<'_>) {
        if is_put(out, alloc, self, call) {
            return;
        }
        match is_made(self.rt, call) {
            Ok(true) => {}
            Ok(false) => put_asked(out, alloc, &mut self.tree, call),
            Err(error) => write!(out, " => {error}"),
        }
    }
}

impl Called for MemSink {
    fn put_answer(&mut self, out: &mut AnswerText, _: Global, call: CallWords<'_>) {
        let bytes = call.path.as_bytes();
        match call.verb {
            "write" => write!(out, " => {:?}", self.write(bytes)),
            "write_all" => write!(out, " => {:?}", write_all(self, bytes)),
            _ => out.put(" => no such call"),
        }
        let held = written(self);
        write!(out, " {held:?} {}", self.faults());
    }
}

/// A sink with the room and the piece that are behind the key `sink`.
fn sink_of(alloc: Global, case: &Case<'_>) -> Result<MemSink, AllocError> {
    let (room, piece) = first_word(case.word("sink"));
    MemSink::new(alloc, number_in(room), number_in(piece).max(1))
}

/// The cases of trees and sinks. Real files are made in the folder that the program runs in.
#[derive(Drop)]
pub struct Trees<'r> {
    pub rt: &'r HostRuntime,
}

impl Room for Trees<'_> {
    fn answer(&self, asked: &Asked<'_>, out: &mut AnswerText) -> Told {
        let (alloc, rt) = (asked.alloc, self.rt);
        let lines = asked.case.given(asked.group);
        match asked.group {
            "memory" => put_answered(out, alloc, lines, MemTree::new(alloc)),
            "folder" => {
                let tree = FolderTree::new(*rt);
                put_answered(out, alloc, lines, Folder { rt, tree });
            }
            "writes" => match sink_of(alloc, &asked.case) {
                Ok(sink) => put_answered(out, alloc, lines, sink),
                Err(_) => out.want_memory(),
            },
            "sink" => return Told::Given,
            _ => return Told::NoSuchGroup,
        }
        Told::Answer
    }
}
