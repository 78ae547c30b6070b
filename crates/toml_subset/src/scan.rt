//! How far a run goes from a place.
ghost use Rattle.std.specs.Prelude.{◌≡◌, ◌+◌, ◌<◌, ◌≤◌, length};
ghost use Rattle.std.specs.Str.{IsCharBoundary};
ghost use Rattle.toml_subset.specs.Bytes.{is_blank as blank, may_stand as may, is_digit as digit};
ghost use Rattle.toml_subset.specs.Bytes.{is_letter as letter, is_sign as sign, is_bare as bare};
ghost use Rattle.toml_subset.specs.Bytes.{is_run as run};
ghost use Rattle.toml_subset.specs.Gaps.{goes_over};
ghost use Rattle.toml_subset.specs.Places.{stands as stands_at, belongs, run_end as run_ends};
ghost use Rattle.toml_subset.specs.Places.{after_blanks as blanks_end, behind_line_end as line_ends};
ghost use Rattle.toml_subset.specs.Places.{after_comment as comment_end, next_line as line_after};
ghost use Rattle.toml_subset.specs.Places.{after_lines_of, after_space, in_comment as ends_in_comment};
ghost use Rattle.toml_subset.specs.Places.{after_white as white_end, char_end as character_end};

use deny_text::character::goes_on;

/// What may be before a line's end in a gap.
#[derive(Clone, Copy)]
pub enum Gap {
    /// Blanks.
    White,
    /// Blanks and a comment.
    Space,
}

/// What a run is made of.
#[derive(Clone, Copy)]
pub enum RunKind {
    /// Spaces and tabs.
    Blanks,
    /// Letters, digits, `_` and `-`.
    Bare,
    /// A number run.
    Number,
    /// What may be in a comment.
    Comment,
    /// The bytes of a character behind its first.
    Character,
    Digits,
    /// All up to a point.
    Whole,
    /// All up to an `e` or `E`.
    Mantissa,
}

impl RunKind {
    /// Whether a byte belongs to it.
    pub fn has(self, byte: u8) -> bool
        ensures { result ≡ belongs self byte }
    {
        match self {
            RunKind::Blanks => is_blank(byte),
            RunKind::Bare => is_bare(byte),
            RunKind::Number => is_run(byte),
            RunKind::Comment => may_stand(byte),
            RunKind::Character => goes_on(byte),
            RunKind::Digits => is_digit(byte),
            RunKind::Whole => byte != b'.',
            RunKind::Mantissa => byte != b'e' && byte != b'E',
        }
    }
}

/// A space or a tab.
pub fn is_blank(byte: u8) -> bool
    ensures { result ≡ blank byte }
{
    byte == b' ' || byte == b'\t'
}

/// What may be in a comment or a string: no control character but a tab.
pub fn may_stand(byte: u8) -> bool
    ensures { result ≡ may byte }
{
    !(byte < 32 || byte == 127) || byte == b'\t'
}

/// An ASCII digit.
pub fn is_digit(byte: u8) -> bool
    ensures { result ≡ digit byte }
{
    b'0' <= byte && byte <= b'9'
}

/// An ASCII letter.
pub fn is_letter(byte: u8) -> bool
    ensures { result ≡ letter byte }
{
    (b'A' <= byte && byte <= b'Z') || (b'a' <= byte && byte <= b'z')
}

/// What a bare key is made of.
pub fn is_bare(byte: u8) -> bool
    ensures { result ≡ bare byte }
{
    is_letter(byte) || is_digit(byte) || byte == b'-' || byte == b'_'
}

/// What a number run is made of.
pub fn is_run(byte: u8) -> bool
    ensures { result ≡ run byte }
{
    is_bare(byte) || byte == b'+' || byte == b'.' || byte == b':'
}

pub fn is_sign(byte: u8) -> bool
    ensures { result ≡ sign byte }
{
    byte == b'+' || byte == b'-'
}

/// Whether this byte is at a place, which may lie behind the text.
pub fn stands(text: &[u8], place: usize, byte: u8) -> bool
    ensures { result ≡ stands_at text.now place byte }
{
    match text.get(place) {
        Some(found) => *found == byte,
        None => false,
    }
}

/// The place behind the longest run from a place on.
pub fn run_end(text: &[u8], place: usize, run: RunKind) -> usize
    requires { place ≤ length text.now }
    ensures end { result ≡ run_ends (belongs run) text.now place }
    ensures within { result ≤ length text.now }
{
    let mut end = place;
    'bytes: while end < text.len() && run.has(text[end]) {
        end += 1;
    }
    end
}

/// The place behind the blanks at a place.
pub fn after_blanks(text: &[u8], place: usize) -> usize
    requires { place ≤ length text.now }
    ensures end { result ≡ blanks_end text.now place }
    ensures within { result ≤ length text.now }
{
    run_end(text, place, RunKind::Blanks)
}

/// The place behind the line end at a place, where one is there.
pub fn line_end(text: &[u8], place: usize) -> Option<usize>
    requires { place ≤ length text.now }
    ensures { result ≡ line_ends text.now place }
{
    if stands(text, place, b'\n') {
        Some(place + 1)
    } else if stands(text, place, b'\r') && stands(text, place + 1, b'\n') {
        Some(place + 2)
    } else {
        None
    }
}

/// The place behind the comment at a place, or the place where none begins there.
pub fn after_comment(text: &[u8], place: usize) -> usize
    requires { place ≤ length text.now }
    ensures end { result ≡ comment_end text.now place }
    ensures within { result ≤ length text.now }
{
    if stands(text, place, b'#') {
        run_end(text, place + 1, RunKind::Comment)
    } else {
        place
    }
}

/// The place of the next line, where nothing but blanks and a comment is before this one's end.
pub fn next_line(text: &[u8], place: usize) -> Option<usize>
    requires { place ≤ length text.now }
    ensures { result ≡ line_after text.now place }
{
    let end = after_comment(text, after_blanks(text, place));
    if end == text.len() {
        Some(end)
    } else {
        line_end(text, end)
    }
}

impl Gap {
    /// The place behind what is at a place before the line's end.
    fn over(self, text: &[u8], place: usize) -> usize
        requires { place ≤ length text.now }
        ensures end { result ≡ goes_over self text.now place }
        ensures within { result ≤ length text.now }
    {
        let blanks = after_blanks(text, place);
        match self {
            Gap::White => blanks,
            Gap::Space => after_comment(text, blanks),
        }
    }

    /// The place behind all lines that it goes over from a place on.
    fn after_lines(self, text: &[u8], place: usize) -> usize
        requires { place ≤ length text.now }
        ensures end { result ≡ after_lines_of (goes_over self) text.now place }
        ensures within { result ≤ length text.now }
    {
        let mut line = place;
        'lines: while let Some(next) = line_end(text, self.over(text, line)) {
            line = next;
        }
        line
    }
}

/// The space between the tokens of an array, from a place on.
#[derive(Clone, Copy)]
pub struct Space {
    /// The place behind it.
    pub end: usize,
    /// Whether it ends within a comment.
    pub in_comment: bool,
}

/// The space between the tokens of an array.
pub fn space_from(text: &[u8], place: usize) -> Space
    requires { place ≤ length text.now }
    ensures end { result.end ≡ after_space text.now place }
    ensures in_comment { result.in_comment ≡ ends_in_comment text.now place }
    ensures within { result.end ≤ length text.now }
{
    let blanks = after_blanks(text, Gap::Space.after_lines(text, place));
    Space {
        end: after_comment(text, blanks),
        in_comment: stands(text, blanks, b'#'),
    }
}

/// The place behind white space and line ends.
pub fn after_white(text: &[u8], place: usize) -> usize
    requires { place ≤ length text.now }
    ensures end { result ≡ white_end text.now place }
    ensures within { result ≤ length text.now }
{
    after_blanks(text, Gap::White.after_lines(text, place))
}

/// The place behind the character that begins at a place.
pub fn char_end(text: &str, place: usize) -> usize
    requires { place < length text.now }
    ensures end { result ≡ character_end text.now place }
    ensures border { IsCharBoundary text.now result }
{
    run_end(text.as_bytes(), place + 1, RunKind::Character)
}
