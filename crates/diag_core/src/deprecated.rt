//! Keys of a policy that are no longer wanted.
ghost use Rattle.std.specs.Prelude.{◌≡◌, IfOk, Some};
ghost use Rattle.diag_core.specs.Deprecated.{reason_text, deprecation_of};

use crate::diagnostic::Diagnostic;
use crate::general::Code;
use crate::label::Label;
use crate::position::FileId;
use crate::severity::Severity;
use deny_text::Span;
use std::alloc::{AllocError, Global};
use std::fmt;

/// Why a key is no longer wanted.
#[derive(Clone, Copy, Debug)]
pub enum DeprecationReason {
    /// It will be removed; the address says more.
    WillBeRemoved(Option<&'static str>),
    /// It is in this table now.
    Moved(&'static str),
    /// It has this name now.
    Renamed(&'static str),
    MovedAndRenamed {
        table: &'static str,
        key: &'static str,
    },
    /// It was removed; the address says more.
    Removed(&'static str),
}

impl fmt::Display for DeprecationReason {
    ghost output = { λ reason. Some (reason_text reason) };

    fn fmt<W: fmt::Write>(&self, f: &mut fmt::Formatter<W>) -> fmt::Result {
        match *self {
            DeprecationReason::WillBeRemoved(None) => {
                write!(f, "this key will be removed in a future update")
            }
            DeprecationReason::WillBeRemoved(Some(url)) => {
                write!(
                    f,
                    "this key will be removed in a future update, see {url} for details"
                )
            }
            DeprecationReason::Moved(table) => { write!(f, "this key has been moved to [{table}]") }
            DeprecationReason::Renamed(name) => {
                write!(f, "this key has been renamed to '{name}'")
            }
            DeprecationReason::MovedAndRenamed { table, key } => {
                write!(f, "this key been moved to [{table}] and renamed to '{key}'")
            }
            DeprecationReason::Removed(url) => {
                write!(
                    f,
                    "this key has been removed, see {url} for migration information"
                )
            }
        }
    }
}

/// A key that is no longer wanted.
#[derive(Clone, Copy, Debug)]
pub struct Deprecated {
    /// Where the key is in the file.
    pub key: Span,
    pub reason: DeprecationReason,
    pub file_id: FileId,
}

impl Deprecated {
    /// An error for a key that was removed, and else a warning.
    pub fn into_diagnostic(self, alloc: Global) -> Result<Diagnostic, AllocError>
        ensures { IfOk result (λ diag. diag ≡ deprecation_of self) }
    {
        let reason = self.reason;
        let severity = match reason {
            DeprecationReason::Removed(_) => Severity::Error,
            _ => Severity::Warning,
        };
        let message = format!(in alloc; "{reason}")?;
        let label = Label::primary(alloc, self.file_id, self.key);
        Diagnostic::new(alloc, severity)
            .with_message(message.as_str())?
            .with_label(label)?
            .with_code(Code::Deprecated.as_str())
    }
}
