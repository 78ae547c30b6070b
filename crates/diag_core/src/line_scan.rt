//! Lines and columns of a text without an index: all that is before a place is searched for line feeds.
ghost use Rattle.std.specs.Prelude.{◌≡◌, ◌<◌, ◌≤◌, ◌+◌, ◌^◌, ◌∷◌, [], length, count_by, slice_get};
ghost use Rattle.diag_core.specs.Position.{line_of, line_start, line_end, line_range_of, column_of, is_line_feed};
ghost use Rattle.diag_core.specs.Position.{line_starts};
ghost use Rattle.diag_core.specs.Lines.{search_after};

use crate::characters::character_count;
use crate::position::{FilesErr, Location};
use deny_text::Span;
use memchr::{memchr_iter, memrchr};

/// Where the line of a place starts: behind the last line feed before the place.
fn start_before(bytes: &[u8], end: usize) -> usize
    requires { end ≤ length bytes.now }
    ensures { result ≡ line_start bytes.now (line_of bytes.now end) }
{
    match memrchr(b'\n', &bytes[..end]) {
        Some(feed) => feed + 1,
        None => 0,
    }
}

/// The line and the column of a place: the line feeds before it are counted, and the characters of its line.
fn location_in(bytes: &[u8], end: usize) -> Location
    requires { end ≤ length bytes.now }
    ensures line { result.line ≡ line_of bytes.now end }
    ensures column { result.column ≡ column_of bytes.now end }
{
    let line = line_feeds(&bytes[..end]);
    let start = start_before(bytes, end);
    Location {
        line,
        column: character_count(&bytes[start..end]),
    }
}

/// The line and the column of a place.
pub(crate) fn location(text: &str, place: usize) -> Location
    requires { place ≤ length text.now }
    ensures line { result.line ≡ line_of text.now place }
    ensures column { result.column ≡ column_of text.now place }
{
    location_in(text.as_bytes(), place)
}

/// How many line feeds there are. They are counted one by one, since the library's own count looks at each byte.
fn line_feeds(bytes: &[u8]) -> usize
    ensures { result ≡ count_by is_line_feed bytes.now }
{
    let mut count = 0;
    let mut feeds = memchr_iter(b'\n', bytes);
    'feeds: while let Some(_) = feeds.next() {
        count += 1;
    }
    count
}

/// The line of a place. A place past the end counts as the end.
pub(crate) fn line_index(text: &str, place: usize) -> usize
    ensures { result ≡ line_of text.now place }
{
    let bytes = text.as_bytes();
    if place < bytes.len() {
        line_feeds(bytes.split_at(place).0)
    } else {
        line_feeds(bytes)
    }
}

/// A search for the start of a line: where the last line that was met starts, and how many are still to come.
#[derive(Clone, Copy)]
pub(crate) struct LineSearch {
    pub(crate) start: usize,
    pub(crate) left: usize,
}

/// The search behind the byte at a place.
fn passed(search: LineSearch, place: usize, byte: u8) -> LineSearch
    requires { place + 1 < 2 ^ 64 }
    ensures { result ≡ search_after search place byte }
{
    if search.left > 0 && byte == b'\n' {
        LineSearch {
            start: place + 1,
            left: search.left - 1,
        }
    } else {
        search
    }
}

/// The search at the end of a text.
fn searched(text: &[u8], line: usize) -> LineSearch
    ensures { slice_get (result.start ∷ []) result.left ≡ slice_get (line_starts text.now) line }
{
    let mut search = LineSearch {
        start: 0,
        left: line,
    };
    let end = text.len();
    'places: for place in 0..end {
        search = passed(search, place, text[place]);
    }
    search
}

/// Where a line starts; none where there are fewer lines.
fn line_start(text: &[u8], line: usize) -> Option<usize>
    ensures { result ≡ slice_get (line_starts text.now) line }
{
    let search = searched(text, line);
    if search.left == 0 {
        Some(search.start)
    } else {
        None
    }
}

/// Where the line after this one starts, or the end of the text.
fn line_end(text: &[u8], line: usize) -> usize
    requires { line + 1 < 2 ^ 64 }
    ensures { result ≡ line_end text.now line }
{
    match line_start(text, line + 1) {
        Some(next) => next,
        None => text.len(),
    }
}

/// The bytes of a line.
#[tactic(auto, using(crate::proofs::ScanLemmas::feeds_within))]
pub(crate) fn line_range(text: &str, line: usize) -> Result<Span, FilesErr>
    ensures { result ≡ line_range_of line text.now }
{
    let bytes = text.as_bytes();
    let max = line_feeds(bytes) + 1;
    if line < max {
        let start = line_start(bytes, line).unwrap_or(0);
        let end = line_end(bytes, line);
        Ok(Span { start, end })
    } else {
        Err(FilesErr::LineTooLarge { given: line, max })
    }
}
