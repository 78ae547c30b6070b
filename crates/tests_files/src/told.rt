//! What a program tells of a file: how many rows or cases it has, and what differs in them.
ghost use Rattle.std.specs.Prelude.{◌≡◌, ◌↔◌, IsTrue, IfNone, IsOkAnd, if◌then◌else◌};
ghost use Rattle.std.specs.Process.{exit_status};
ghost use Rattle.tree_core.specs.Faults.{next_count};

use crate::shown::AnswerText;
use std::alloc::{AllocError, Global};
use std::io;
use std::process::ExitCode;
use std::rt::Runtime;

/// Why a line can't be read.
#[derive(Clone, Copy, Debug, PartialEq, Eq)]
pub enum UnreadLine {
    Memory,
    /// What is wrong with it, in words.
    Line(&'static str),
}

impl From<AllocError> for UnreadLine {
    fn from(_: AllocError) -> UnreadLine {
        UnreadLine::Memory
    }
}

impl UnreadLine {
    /// What is wrong, in words.
    pub fn what(self) -> &'static str {
        match self {
            UnreadLine::Memory => "out of memory",
            UnreadLine::Line(what) => what,
        }
    }
}

/// A line for each group or file with the number of its rows or cases, and what is to be reported of single
/// lines.
#[derive(Drop)]
pub struct Tally {
    pub counts: AnswerText,
    pub differences: AnswerText,
    /// How often something was reported of a line.
    pub times: u64,
}

impl Tally {
    pub fn new(alloc: Global) -> Tally
        ensures { result.times ≡ 0 }
    {
        Tally {
            counts: AnswerText::new(alloc),
            differences: AnswerText::new(alloc),
            times: 0,
        }
    }

    /// Tells how many rows or cases something has.
    pub fn count(&mut self, name: &str, number: u64, of: &str)
        ensures { self.new.times ≡ self.old.times }
    {
        write!(self.counts, "{name}: {number} {of}\n");
    }

    /// Tells something of a line, which is counted from 1.
    pub fn tell(&mut self, file: &str, line: u64, what: &str)
        ensures { self.new.times ≡ next_count self.old.times }
    {
        self.times = self.times.saturating_add(1);
        write!(self.differences, "{file}:{line}: {what}\n");
    }
}

/// The line that a byte is in, counted from 1.
fn line_at(bytes: &[u8], place: usize) -> u64 {
    let before = bytes.get(..place).unwrap_or(bytes);
    let ends = before.iter().filter(|byte| **byte == b'\n').count() as u64;
    ends.saturating_add(1)
}

/// The text of a file; none where it is no UTF-8, which is reported.
pub fn text_of<'b>(told: &mut Tally, file: &str, bytes: &'b [u8]) -> Option<&'b str>
    ensures { IfNone result (told.new.times ≡ next_count told.old.times) }
{
    match str::from_utf8(bytes) {
        Ok(text) => Some(text),
        Err(error) => {
            let line = line_at(bytes, error.valid_up_to());
            told.tell(file, line, "the file is no UTF-8");
            None
        }
    }
}

/// Prints what is told, and returns whether there was memory for all of it.
fn print(rt: &HostRuntime, file: &str, told: &Tally) -> io::Result<bool> {
    print!(rt; "{}", told.counts.text())?;
    eprint!(rt; "{}", told.differences.text())?;
    let is_whole = told.counts.is_whole() & told.differences.is_whole();
    if !is_whole {
        eprintln!(rt; "{file}: out of memory")?;
    }
    Ok(is_whole)
}

/// Whether all of a file is as wanted: it was read, and nothing was reported of a line.
pub fn is_as_wanted(told: &io::Result<Tally>) -> bool
    ensures { IsTrue result ↔ IsOkAnd told.now (λ all. all.times ≡ 0) }
{
    match told {
        Ok(told) => told.times == 0,
        Err(_) => false,
    }
}

/// Prints what is reported of a file, and returns whether all of it is as wanted and could be printed.
pub fn show(rt: &HostRuntime, file: &str, told: &io::Result<Tally>) -> bool
    ensures { IsTrue result → IsOkAnd told.now (λ all. all.times ≡ 0) }
{
    let is_printed = match told {
        Ok(told) => matches!(print(rt, file, told), Ok(true)),
        Err(error) => {
            let _ = eprintln!(rt; "{file}: {error}");
            false
        }
    };
    is_printed && is_as_wanted(told)
}

/// What a program ends with: 0 where all is as wanted, else 1.
pub fn exit_code(all_is_as_wanted: bool) -> ExitCode
    ensures { exit_status result ≡ (if all_is_as_wanted then 0 else 1) }
{
    if all_is_as_wanted {
        ExitCode::from(0)
    } else {
        ExitCode::from(1)
    }
}
