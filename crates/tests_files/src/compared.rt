//! The one loop over rows and cases: each is asked, and what is answered is compared with what is wanted, and counted.
ghost use Rattle.std.specs.Prelude.{◌≡◌, bytes_eq, if◌then◌else◌};
ghost use Rattle.tree_core.specs.Faults.{next_count};

use crate::case::{Block, Case, CaseEntry, blocks_of, case_of};
use crate::room::{Asked, Room, Told};
use crate::rows::{Row, row_of};
use crate::shown::AnswerText;
use crate::told::{Tally, show, text_of};
use std::alloc::Global;
use std::{fs, io};

/// What was compared of a file so far.
#[derive(Drop)]
pub struct Comparison<'f> {
    pub alloc: Global,
    file: &'f str,
    pub told: Tally,
    /// The group of the rows that are read.
    group: &'f str,
    /// How many rows of the group were read, or how many cases.
    number: u64,
    /// How many lines the cases want.
    lines: u64,
    /// How many runs of cases were compared, where a room counts them.
    runs: u64,
}

/// Of a long text its beginning is told.
fn beginning(text: &str) -> &str {
    text.get(..4000).unwrap_or(text)
}

/// What is compared of a text by a key: where its beginning is wanted, as much as is wanted.
fn part_compared<'s>(key: &str, seen: &'s str, wanted: &str) -> &'s str {
    if key.ends_with("-begins") {
        seen.get(..wanted.len()).unwrap_or(seen)
    } else {
        seen
    }
}

/// How many lines a text has; one where it is empty.
fn lines_in(text: &str) -> u64 {
    let lines = text.lines().count() as u64;
    lines.max(1)
}

/// A line that wants something: of which row or case, and what.
#[derive(Clone, Copy)]
struct Wanted<'w> {
    line: u64,
    name: &'w str,
    text: &'w str,
}

impl<'f> Comparison<'f> {
    pub fn new(alloc: Global, file: &'f str) -> Comparison<'f> {
        Comparison {
            alloc,
            file,
            told: Tally::new(alloc),
            group: "",
            number: 0,
            lines: 0,
            runs: 0,
        }
    }

    /// Tells something of a line.
    pub fn tell(&mut self, line: u64, what: &str)
        ensures { self.new.told.times ≡ next_count self.old.told.times }
    {
        self.told.tell(self.file, line, what);
    }

    /// Counts a run of a case that is run more than once.
    pub fn count_run(&mut self) {
        self.runs = self.runs.saturating_add(1);
    }

    /// Tells where what is seen is not what is wanted.
    fn compare<R: Room>(&mut self, room: &R, wanted: Wanted<'_>, seen: &str)
        ensures { self.new.told.times ≡
            (if bytes_eq seen.now wanted.entry.text.now then self.old.told.times else next_count self.old.told.times) }
    {
        if seen == wanted.text {
            return;
        }
        self.tell(wanted.line, wanted.name);
        room.put_run(&mut self.told.differences);
        let (is, not) = (beginning(seen), beginning(wanted.text));
        write!(self.told.differences, "  is  {is:?}\n  not {not:?}\n");
    }

    /// Compares an answer.
    fn take_answer<R: Room>(&mut self, room: &R, key: &str, wanted: Wanted<'_>, seen: &AnswerText) {
        if !seen.is_whole() {
            self.tell(wanted.line, "out of memory");
        } else if !seen.is_tried() {
            self.tell(wanted.line, "it can't be tried");
        } else {
            let text = wanted.text.get(..room.room_for(key)).unwrap_or(wanted.text);
            let seen = part_compared(key, seen.text(), text);
            self.compare(room, Wanted { text, ..wanted }, seen);
        }
    }

    /// Asks a row or an entry of a case, and returns whether it wants something.
    fn ask<R: Room>(&mut self, room: &R, asked: &Asked<'_>, wanted: Wanted<'_>) -> bool {
        let mut out = AnswerText::new(self.alloc);
        let told = room.answer(asked, &mut out);
        match told {
            Told::Answer => self.take_answer(room, asked.group, wanted, &out),
            Told::Given => {}
            Told::NoSuchGroup => self.tell(wanted.line, "no such group or key"),
        }
        told != Told::Given
    }

    /// Asks an entry of a case, and returns whether it wants something.
    fn ask_entry<R: Room>(&mut self, room: &R, case: &Case<'_>, entry: &CaseEntry) -> bool {
        let asked = Asked {
            alloc: self.alloc,
            group: entry.key(),
            text: "",
            case: *case,
        };
        let text = entry.wanted();
        let wanted = Wanted {
            line: entry.line,
            name: case.name,
            text,
        };
        let is_wanted = !entry.is_shared() && self.ask(room, &asked, wanted);
        if is_wanted {
            self.lines = self.lines.saturating_add(lines_in(text));
        }
        is_wanted
    }

    /// Compares all that a case wants by itself, and what its base wants and it does not say otherwise.
    pub fn compare_case<R: Room>(&mut self, room: &R, case: &Case<'_>) {
        let mut has_wanted = false;
        for entry in case.base {
            if !case.has_own(entry.key()) {
                has_wanted = self.ask_entry(room, case, entry) | has_wanted;
            }
        }
        for entry in case.own {
            has_wanted = self.ask_entry(room, case, entry) | has_wanted;
        }
        if !has_wanted {
            self.tell(case.line, "a case that wants nothing");
        }
    }

    /// Compares what a case came to, which answers what it wants, and lets it go; none where it can't be tried.
    pub fn compare_ran<R: Room + Drop>(&mut self, ran: Option<R>, case: &Case<'_>) {
        match &ran {
            Some(room) => self.compare_case(room, case),
            None => self.tell(case.line, "a case that can't be tried"),
        }
    }

    fn take_case<R: Room>(&mut self, room: &R, case: &Case<'_>) {
        if !room.compare_runs(self, case) {
            self.compare_case(room, case);
        }
    }

    /// Takes a block: a case, or a base, which is read with its cases.
    fn take_block<R: Room>(&mut self, room: &R, blocks: &[Block], block: &Block) {
        match case_of(blocks, block) {
            Err(what) => self.tell(block.line, what),
            Ok(case) if !block.is_base => self.take_case(room, &case),
            Ok(_) => {}
        }
        if !block.is_base {
            self.number = self.number.saturating_add(1);
        }
    }

    fn compare_cases<R: Room>(&mut self, room: &R, text: &str) {
        let alloc = self.alloc;
        let blocks = blocks_of(alloc, self, text);
        for block in blocks.iter() {
            self.take_block(room, &blocks, block);
        }
        self.told.count(self.file, self.number, "cases");
        if self.runs > 0 {
            self.told.count(self.file, self.runs, "runs");
        } else {
            self.told.count(self.file, self.lines, "lines wanted");
        }
    }

    /// Tells how many rows a group has, where it has any.
    fn count_rows(&mut self) {
        if self.number > 0 {
            self.told.count(self.group, self.number, "rows");
        }
        self.number = 0;
    }

    fn ask_row<R: Room>(&mut self, room: &R, line: u64, row: &Row) {
        let asked = Asked {
            alloc: self.alloc,
            group: self.group,
            text: row.text.text(),
            case: Case::of_row(),
        };
        let wanted = Wanted {
            line,
            name: asked.group,
            text: row.wanted.text(),
        };
        if !self.ask(room, &asked, wanted) {
            self.tell(line, "no such group or key");
        }
    }

    fn take_row<R: Room>(&mut self, room: &R, line: u64, text: &str) {
        self.number = self.number.saturating_add(1);
        match &row_of(self.alloc, text) {
            Ok(row) => self.ask_row(room, line, row),
            Err(why) => self.tell(line, why.what()),
        }
    }

    fn compare_rows<R: Room>(&mut self, room: &R, text: &'f str) {
        let mut number: u64 = 0;
        for line in text.lines() {
            number = number.saturating_add(1);
            if let Some(name) = line.strip_prefix('[') {
                self.count_rows();
                self.group = name.strip_suffix(']').unwrap_or(name);
            } else if is_read(line) {
                self.take_row(room, number, line);
            }
        }
        self.count_rows();
    }
}

/// Whether a line is read: lines that are empty or begin with `#` are not.
pub fn is_read(line: &str) -> bool {
    !line.is_empty() && !line.starts_with('#')
}

/// Whether a file has rows: the first line of it that is read names a group.
fn has_rows(text: &str) -> bool {
    let first = text.lines().find(|line| is_read(*line));
    first.is_some_and(|line| line.starts_with('['))
}

/// What is reported of the rows or the cases of a text.
pub fn told_text<R: Room>(alloc: Global, file: &str, text: &str, room: &R) -> Tally {
    let mut compared = Comparison::new(alloc, file);
    if has_rows(text) {
        compared.compare_rows(room, text);
    } else {
        compared.compare_cases(room, text);
    }
    compared.told
}

fn told_bytes<R: Room>(alloc: Global, file: &str, bytes: &[u8], room: &R) -> Tally {
    let mut told = Tally::new(alloc);
    match text_of(&mut told, file, bytes) {
        Some(text) => told_text(alloc, file, text, room),
        None => told,
    }
}

fn told_file<R: Room>(rt: &HostRuntime, file: &str, room: &R) -> io::Result<Tally> {
    let bytes = fs::read(rt, file)?;
    Ok(told_bytes(rt.alloc(), file, &bytes, room))
}

/// Compares the rows or cases of a file of the folder that the program runs in, prints how many each group or the file has, and on
/// standard error what differs. Returns whether nothing does.
pub fn compare<R: Room>(rt: &HostRuntime, file: &str, room: &R) -> bool {
    let told = told_file(rt, file, room);
    show(rt, file, &told)
}

/// The same of several files.
pub fn compare_all<R: Room>(rt: &HostRuntime, files: &[&str], room: &R) -> bool {
    let mut is_as_wanted = true;
    for file in files {
        is_as_wanted = compare(rt, file, room) & is_as_wanted;
    }
    is_as_wanted
}
