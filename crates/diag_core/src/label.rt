//! Places in files that a finding points at.
ghost use Rattle.std.specs.Prelude.{◌≡◌, [], IfOk};
ghost use Rattle.diag_core.specs.Label.{label_at};

use crate::position::FileId;
use deny_text::{ListOf, Span, Text};
use std::alloc::{AllocError, Global};

/// Whether a label is the reason for a finding, or adds to it.
#[derive(Clone, Copy, Debug, PartialEq, Eq)]
pub enum LabelStyle {
    Primary,
    Secondary,
}

/// A place in a file, with a text that may be empty.
#[derive(Drop)]
pub struct Label {
    pub style: LabelStyle,
    pub file_id: FileId,
    /// Bytes of the file's text.
    pub range: Span,
    pub message: Text,
    /// What `with_message` takes memory from.
    alloc: Global,
}

/// A list of labels.
pub type Labels = ListOf<Label>;

impl Label {
    /// A place that is the reason for a finding. It has no text yet.
    pub fn primary(alloc: Global, file: FileId, span: Span) -> Label
        ensures { result ≡ label_at LabelStyle.Primary file span [] }
    {
        Label::new(alloc, LabelStyle::Primary, file, span)
    }

    /// A place that adds to a finding. It has no text yet.
    pub fn secondary(alloc: Global, file: FileId, span: Span) -> Label
        ensures { result ≡ label_at LabelStyle.Secondary file span [] }
    {
        Label::new(alloc, LabelStyle::Secondary, file, span)
    }

    fn new(alloc: Global, style: LabelStyle, file_id: FileId, range: Span) -> Label
        ensures { result ≡ label_at style file_id range [] }
    {
        Label {
            style,
            file_id,
            range,
            message: Text::from(String::new(alloc)),
            alloc,
        }
    }

    /// The label with this text.
    pub fn with_message(self, text: &str) -> Result<Label, AllocError>
        ensures { IfOk result (λ label. label ≡ record self { message = text.now }) }
    {
        let mut label = self;
        label.message = Text::copy(label.alloc, text)?;
        Ok(label)
    }
}

/// A place in a file.
#[derive(Clone, Copy, Debug, PartialEq, Eq)]
pub struct Coord {
    pub file: FileId,
    pub span: Span,
}

/// Where a crate is named.
pub type KrateCoord = Coord;

/// Where a policy says something.
pub type CfgCoord = Coord;

impl Coord {
    /// A primary label without a text.
    pub fn into_label(self, alloc: Global) -> Label
        ensures { result ≡ label_at LabelStyle.Primary self.file self.span [] }
    {
        Label::primary(alloc, self.file, self.span)
    }
}
