//! A file, in which places are found by line and column.
ghost use Rattle.std.specs.Prelude.{◌≡◌, ◌<◌, ◌≤◌, ◌+◌, ◌^◌, length, IfOk, true, false};
ghost use Rattle.diag_core.specs.File.{with_source, is_at};
ghost use Rattle.diag_core.specs.FileName.{name_text, is_path};
ghost use Rattle.diag_core.specs.Kept.{IsFound};
ghost use Rattle.diag_core.specs.Position.{line_of, line_range_of, location_of, column_of};
ghost use Rattle.diag_core.specs.Position.{is_inside_character as is_inside};

use crate::characters::begins_character;
use crate::line_index::LineIndex;
use crate::line_scan;
use crate::position::{FilesErr, Location};
use crate::texts::license_span;
use deny_text::path::compare;
use deny_text::{PathBuf, Span, Text};
use std::alloc::Global;
use std::marker::Model;

/// So many labels are placed without an index: each takes a search of what is before it, which is less work than an
/// index of the whole file.
const FEW: u8 = 8;

/// What a file is called.
#[derive(Drop)]
pub(crate) enum FileName {
    /// A path by which the file is found.
    Path(PathBuf),
    /// A name alone.
    Label(Text),
}

/// A text with its name, and with its index once that was made.
#[derive(Drop)]
pub(crate) struct SourceFile {
    name: FileName,
    source: Text,
    /// Without it places are found by going over the text.
    index: Option<LineIndex>,
    /// How many labels were said to point into it while it had no index.
    labels: u8,
    /// Where its licence field is, once that was searched for.
    license: Option<Option<Span>>,
}

impl Model for SourceFile {
    ghost use Rattle.diag_core.specs.File.{File};
    ghost use Rattle.diag_core.specs.FileName.{name_text, is_path};
    ghost use Rattle.diag_core.specs.Kept.{IsKept};

    ghost Value = { File };

    ghost view = { λ file. record {
      name = name_text file.name;
      source = file.source;
      has_path = is_path file.name;
    } };

    ghost invariant = { λ file. IsKept file.index file.license file.source };
}

/// Whether the place is neither at the first byte of a character nor at the end of the text.
fn is_inside_character(text: &str, place: usize) -> bool
    ensures { result ≡ is_inside text.now place }
{
    place < text.len() && !begins_character(text.as_bytes()[place])
}

impl SourceFile {
    pub(crate) fn new(name: FileName, source: Text) -> SourceFile
        ensures { result ≡ record { name = name_text name; source = source; has_path = is_path name } }
    {
        SourceFile {
            name,
            source,
            index: None,
            labels: 0,
            license: None,
        }
    }

    /// Takes another text.
    pub(crate) fn update(&mut self, source: Text)
        ensures { self.new ≡ with_source source self.old }
    {
        self.index = None;
        self.labels = 0;
        self.license = None;
        self.source = source;
    }

    /// Makes the index, where there is none. It stays without one where memory is wanting.
    pub(crate) fn make_index(&mut self, alloc: Global)
        ensures { self.new ≡ self.old }
    {
        if self.index.is_some() {
            return;
        }
        if let Ok(index) = LineIndex::new(alloc, self.source.as_str()) {
            self.index = Some(index);
        }
    }

    /// Counts a label that points into it. With the first that is more than a few the index is made.
    pub(crate) fn count_label(&mut self, alloc: Global)
        ensures { self.new ≡ self.old }
    {
        if self.labels < FEW {
            self.labels += 1;
        } else {
            self.make_index(alloc);
        }
    }

    /// The place of its licence field, as in a manifest.
    pub(crate) fn license_span(&mut self) -> Option<Span>
        ensures found { IsFound self.old.source result }
        ensures same { self.new ≡ self.old }
    {
        if let Some(found) = self.license {
            return found;
        }
        let found = license_span(self.source.as_str());
        self.license = Some(found);
        found
    }

    pub(crate) fn name(&self) -> &str
        ensures { result.now ≡ self.now.name }
    {
        match &self.name {
            FileName::Path(path) => path.as_path(),
            FileName::Label(text) => text.as_str(),
        }
    }

    /// Whether the path finds the file.
    pub(crate) fn is_at(&self, path: &str) -> bool
        ensures { result ≡ is_at path.now self.now }
    {
        match &self.name {
            FileName::Path(own) => compare(own.as_path(), path).is_eq(),
            FileName::Label(_) => false,
        }
    }

    pub(crate) fn source(&self) -> &str
        ensures { result.now ≡ self.now.source }
    {
        self.source.as_str()
    }

    /// The line of a place.
    pub(crate) fn line_index(&self, place: usize) -> usize
        ensures { result ≡ line_of self.now.source place }
    {
        let text = self.source.as_str();
        match &self.index {
            Some(index) => index.line_index(text, place),
            None => line_scan::line_index(text, place),
        }
    }

    /// The bytes of a line.
    pub(crate) fn line_range(&self, line: usize) -> Result<Span, FilesErr>
        ensures { result ≡ line_range_of line self.now.source }
    {
        let text = self.source.as_str();
        match &self.index {
            Some(index) => index.line_range(text, line),
            None => line_scan::line_range(text, line),
        }
    }

    /// The line and the column of a place up to the end.
    fn location_within(&self, place: usize) -> Location
        requires { place ≤ length self.now.source }
        ensures line { result.line ≡ line_of self.now.source place }
        ensures column { result.column ≡ column_of self.now.source place }
    {
        let text = self.source.as_str();
        match &self.index {
            Some(index) => index.location(text, place),
            None => line_scan::location(text, place),
        }
    }

    /// The line and the column of a place.
    pub(crate) fn location(&self, place: usize) -> Result<Location, FilesErr>
        ensures place { result ≡ location_of place self.now.source }

        // Both fit also where they are counted from 1.
        ensures room { IfOk result (λ place. (place.line + 1 < 2 ^ 64) × (place.column + 1 < 2 ^ 64)) }
    {
        let text = self.source.as_str();
        if place > text.len() {
            return Err(FilesErr::IndexTooLarge {
                given: place,
                max: text.len().saturating_sub(1),
            });
        }
        if is_inside_character(text, place) {
            return Err(FilesErr::InvalidCharBoundary { given: place });
        }
        Ok(self.location_within(place))
    }
}
