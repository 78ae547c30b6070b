//! The index of a text: the places of its lines, and its characters by blocks.
ghost use Rattle.std.specs.Prelude.{◌≡◌, ◌<◌, ◌≤◌, IfOk, count_by, length, take};
ghost use Rattle.diag_core.specs.Blocks.{Indexes};
ghost use Rattle.diag_core.specs.Position.{line_of, line_start, line_end, line_range_of, column_of};
ghost use Rattle.diag_core.specs.Position.{line_count, line_starts as starts_of, begins_character as begins};
ghost use Rattle.diag_core.specs.Lines.{FoundLine};

use crate::characters::{characters_before, count_blocks};
use crate::position::{FilesErr, Location};
use deny_text::Span;
use memchr::memchr_iter;
use std::alloc::{AllocError, Global};

/// Where the lines of a text start, and how many characters are before each block of it.
#[derive(Drop)]
pub(crate) struct LineIndex {
    pub(crate) line_starts: Vec<usize>,
    pub(crate) character_counts: Vec<usize>,
}

/// The places at which the lines of a text start.
fn line_starts(alloc: Global, text: &str) -> Result<Vec<usize>, AllocError>
    ensures { IfOk result (λ starts. starts.items ≡ starts_of text.now) }
{
    let mut starts = Vec::new(alloc);
    starts.push(0)?;
    let mut feeds = memchr_iter(b'\n', text.as_bytes());
    'feeds: while let Some(feed) = feeds.next() {
        starts.push(feed + 1)?;
    }
    Ok(starts)
}

impl LineIndex {
    pub(crate) fn new(alloc: Global, text: &str) -> Result<LineIndex, AllocError>
        ensures { IfOk result (λ index. Indexes index text.now) }
    {
        let line_starts = line_starts(alloc, text)?;
        let character_counts = count_blocks(alloc, text.as_bytes())?;
        Ok(LineIndex {
            line_starts,
            character_counts,
        })
    }

    /// How many lines start at or before a place.
    fn lines_until(&self, text: &str, place: usize) -> usize
        requires { Indexes self.now text.now }
        ensures { FoundLine text.now place result }
    {
        self.line_starts.partition_point(|start| *start <= place)
    }

    /// The line of a place.
    pub(crate) fn line_index(&self, text: &str, place: usize) -> usize
        requires { Indexes self.now text.now }
        ensures line { result ≡ line_of text.now place }
        ensures within { result < line_count text.now }
        ensures start { line_start text.now result ≤ place }
    {
        self.lines_until(text, place) - 1
    }

    fn line_start(&self, text: &str, line: usize) -> usize
        requires index { Indexes self.now text.now }
        requires within { line < line_count text.now }
        ensures { result ≡ line_start text.now line }
    {
        let _length = text.len();
        self.line_starts[line]
    }

    /// Where the line after this one starts, or the end of the text.
    fn line_end(&self, text: &str, line: usize) -> usize
        requires index { Indexes self.now text.now }
        requires within { line < line_count text.now }
        ensures { result ≡ line_end text.now line }
    {
        match self.line_starts.get(line + 1) {
            Some(next) => *next,
            None => text.len(),
        }
    }

    /// How many lines the text has.
    fn line_count(&self, text: &str) -> usize
        requires { Indexes self.now text.now }
        ensures { result ≡ line_count text.now }
    {
        let _length = text.len();
        self.line_starts.len()
    }

    /// The bytes of a line.
    pub(crate) fn line_range(&self, text: &str, line: usize) -> Result<Span, FilesErr>
        requires { Indexes self.now text.now }
        ensures { result ≡ line_range_of line text.now }
    {
        let max = self.line_count(text);
        if line < max {
            Ok(Span {
                start: self.line_start(text, line),
                end: self.line_end(text, line),
            })
        } else {
            Err(FilesErr::LineTooLarge { given: line, max })
        }
    }

    /// How many characters are before a place.
    fn characters_before(&self, text: &str, place: usize) -> usize
        requires index { Indexes self.now text.now }
        requires within { place ≤ length text.now }
        ensures { result ≡ count_by begins (take place text.now) }
    {
        characters_before(&self.character_counts, text.as_bytes(), place)
    }

    /// The line and the column of a place.
    pub(crate) fn location(&self, text: &str, place: usize) -> Location
        requires index { Indexes self.now text.now }
        requires within { place ≤ length text.now }
        ensures line { result.line ≡ line_of text.now place }
        ensures column { result.column ≡ column_of text.now place }
    {
        let line = self.line_index(text, place);
        let start = self.line_start(text, line);
        let before = self.characters_before(text, start);
        Location {
            line,
            column: self.characters_before(text, place) - before,
        }
    }
}
