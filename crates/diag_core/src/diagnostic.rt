//! What is reported.
ghost use Rattle.std.specs.Prelude.{◌≡◌, [], ◌∷◌, ◌++◌, IfOk, Some};
ghost use Rattle.diag_core.specs.Diagnostic.{plain_diagnostic};

use crate::label::{Label, Labels};
use crate::severity::Severity;
use deny_text::{ListOf, Text};
use std::alloc::{AllocError, Global};

/// A list of notes.
pub type Notes = ListOf<Text>;

/// A message with the places that it is about.
#[derive(Drop)]
pub struct Diagnostic {
    pub severity: Severity,
    /// The name of a code.
    pub code: Option<Text>,
    pub message: Text,
    pub labels: Labels,
    pub notes: Notes,
    /// What the builders take memory from.
    pub(crate) alloc: Global,
}

impl Diagnostic {
    /// No code, an empty message, no label and no note.
    pub fn new(alloc: Global, severity: Severity) -> Diagnostic
        ensures { result ≡ plain_diagnostic severity }
    {
        Diagnostic {
            severity,
            code: None,
            message: Text::from(String::new(alloc)),
            labels: Labels::new(alloc),
            notes: Notes::new(alloc),
            alloc,
        }
    }

    /// The diagnostic with the name of a code.
    pub fn with_code(self, text: &str) -> Result<Diagnostic, AllocError>
        ensures { IfOk result (λ diag. diag ≡ record self { code = Some text.now }) }
    {
        let mut diag = self;
        diag.code = Some(Text::copy(diag.alloc, text)?);
        Ok(diag)
    }

    /// The diagnostic with this message.
    pub fn with_message(self, text: &str) -> Result<Diagnostic, AllocError>
        ensures { IfOk result (λ diag. diag ≡ record self { message = text.now }) }
    {
        let mut diag = self;
        diag.message = Text::copy(diag.alloc, text)?;
        Ok(diag)
    }

    /// The diagnostic with one more label, behind the others.
    pub fn with_label(self, label: Label) -> Result<Diagnostic, AllocError>
        ensures { IfOk result (λ diag. diag ≡ record self { labels = self.labels ++ label ∷ [] }) }
    {
        let mut diag = self;
        diag.labels.push(label)?;
        Ok(diag)
    }

    /// The diagnostic with one more note, behind the others.
    pub fn with_note(self, text: &str) -> Result<Diagnostic, AllocError>
        ensures { IfOk result (λ diag. diag ≡ record self { notes = self.notes ++ text.now ∷ [] }) }
    {
        let mut diag = self;
        let note = Text::copy(diag.alloc, text)?;
        diag.notes.push(note)?;
        Ok(diag)
    }
}
