//! Clarifications as a crate's pack takes them.
ghost use Rattle.std.specs.Prelude.{◌≡◌, IfOk};
ghost use Rattle.gather_license.specs.Clarification as spec;
ghost use Rattle.gather_license.specs.Clarification.{held_in};

use crate::files::NamedFile;
use deny_text::{PathBuf, Span};
use diag_core::{Coord, FileId};
use spdx_core::Expression;
use std::alloc::{AllocError, Global};
use std::marker::Model;

/// A file that a clarification names.
#[derive(Drop)]
pub struct FileRef<'p> {
    path: &'p PathBuf,
    hash: u32,
    span: Span,
}

impl<'p> Model for FileRef<'p> {
    ghost use Rattle.gather_license.specs.Clarification.{PlacedFile, placed_code};

    ghost Value = { PlacedFile };

    ghost coded = { placed_code };

    ghost view = { λ f. record { named = record { path = f.path.now; hash = f.hash }; span = f.span } };
}

impl<'p> FileRef<'p> {
    /// A path from the crate's folder, the hash that the file's normal form is to have, and the place of the
    /// path in the clarification's file.
    pub fn new(path: &'p PathBuf, hash: u32, span: Span) -> FileRef<'p>
        ensures { result ≡ record { named = record { path = path.entry.now; hash = hash }; span = span } }
    {
        FileRef { path, hash, span }
    }

    /// The place of the path in the clarification's file.
    pub fn span(&self) -> Span
        ensures { result ≡ self.now.span }
    {
        self.span
    }
}

impl<'p> NamedFile for FileRef<'p> {
    ghost named = { λ file. file.named };

    fn path(&self) -> &PathBuf {
        self.path
    }

    fn hash(&self) -> u32 {
        self.hash
    }
}

/// The expression of a clarification that holds, and where it is.
#[derive(Drop)]
pub struct HeldClarification {
    pub expression: Expression,
    /// The file that it is in: the policy's, or that of its exceptions.
    pub file: FileId,
    /// Whether it is one of the exceptions file.
    pub overlay: bool,
    /// Where the expression's text begins.
    pub offset: usize,
    /// The place of the expression's string, where that has escapes; the offset means nothing then.
    pub whole: Option<Span>,
}

/// A clarification: the expression that a policy or its exceptions file gives a crate, where that is, and the
/// files that it was read from.
#[derive(Drop)]
pub struct ClarificationRef<'p> {
    expression: &'p Expression,
    file: FileId,
    overlay: bool,
    offset: usize,
    whole: Option<Span>,
    files: Vec<FileRef<'p>>,
}

impl<'p> Model for ClarificationRef<'p> {
    ghost use Rattle.gather_license.specs.Clarification.{ClarificationView, clarification_code};

    ghost Value = { ClarificationView };

    ghost coded = { clarification_code };

    ghost view = { λ c. record {
      expression = c.expression.now;
      file = c.file;
      overlay = c.overlay;
      offset = c.offset;
      whole = c.whole;
      files = c.files.items;
    } };
}

/// The place of a file's path, where there is a file of the number.
fn span_at(files: &[FileRef<'_>], number: usize) -> Option<Span>
    ensures { result ≡ spec.span_at files.now number }
{
    match files.get(number) {
        Some(file) => Some(file.span()),
        None => None,
    }
}

impl<'p> ClarificationRef<'p> {
    pub fn new(
        expression: &'p Expression,
        file: FileId,
        overlay: bool,
        offset: usize,
        whole: Option<Span>,
        files: Vec<FileRef<'p>>,
    ) -> ClarificationRef<'p>
        ensures { result ≡ record {
          expression = expression.entry.now;
          file = file;
          overlay = overlay;
          offset = offset;
          whole = whole;
          files = files.entry.items;
        } }
    {
        ClarificationRef {
            expression,
            file,
            overlay,
            offset,
            whole,
            files,
        }
    }

    /// The expression and where it is there.
    pub fn held(&self, alloc: Global) -> Result<HeldClarification, AllocError>
        ensures { IfOk result (λ held. held ≡ held_in self.now) }
    {
        let expression = self.expression.copy(alloc)?;
        Ok(HeldClarification {
            expression,
            file: self.file,
            overlay: self.overlay,
            offset: self.offset,
            whole: self.whole,
        })
    }

    /// The place of the path of the file of a number, if there is one.
    pub fn place_of(&self, number: Option<usize>) -> Option<Coord>
        ensures { result ≡ spec.place_of self.now number }
    {
        let Some(number) = number else {
            return None;
        };
        match span_at(&self.files, number) {
            Some(span) => Some(Coord {
                file: self.file,
                span,
            }),
            None => None,
        }
    }

    /// The files, in the order in which they are tried.
    pub fn files(&self) -> &[FileRef<'p>]
        ensures { result.now ≡ self.now.files }
    {
        &self.files
    }
}
