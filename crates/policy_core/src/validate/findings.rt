//! What is found wrong, and where it goes.
ghost use Rattle.std.specs.Prelude.{◌≡◌, ◌++◌, IfOk, OnOk, map, option_to_list};
ghost use Rattle.std.specs.Result.{result_ok, result_err};
ghost use Rattle.deny_text.specs.Fronts.{StandsInFront};
ghost use Rattle.policy_core.specs.validate.Valid as spec;

use deny_text::{ListOf, Span};
use diag_core::lists::Diagnostics;
use diag_core::{Deprecated, DeprecationReason, Diagnostic, FileId, Label, Severity};
use std::alloc::{AllocError, Global};

/// An item as it is kept, or what is reported of it.
pub type ItemOrFinding<T> = Result<T, Diagnostic>;

/// Where it is reported why keys were removed.
const MIGRATION: &str = "https://github.com/EmbarkStudios/cargo-deny/pull/611";

/// An error at a place of a file, and what is said there.
pub fn error_at(
    alloc: Global,
    file: FileId,
    message: &str,
    place: Span,
    words: &str,
) -> Result<Diagnostic, AllocError>
    ensures { IfOk result (λ diag. diag ≡ spec.error_at file message.now place words.now) }
{
    let label = Label::primary(alloc, file, place).with_message(words)?;
    Diagnostic::new(alloc, Severity::Error)
        .with_message(message)?
        .with_label(label)
}

/// Puts an item behind those that are kept, or what is reported of it behind the findings so far.
pub(crate) fn push_judged<T: Drop>(
    judged: ItemOrFinding<T>,
    kept: &mut ListOf<T>,
    found: &mut Diagnostics,
) -> Result<(), AllocError>
    ensures kept { OnOk result (kept.new ≡ kept.old ++ option_to_list (result_ok judged)) }
    ensures told { OnOk result (found.new ≡ found.old ++ option_to_list (result_err judged)) }
    ensures kept_front { StandsInFront kept.old kept.new }
    ensures front { StandsInFront found.old found.new }
{
    match judged {
        Ok(item) => kept.push(item),
        Err(diag) => found.push(diag),
    }
}

/// The error that a key was removed.
fn removed_key(alloc: Global, file: FileId, key: Span) -> Result<Diagnostic, AllocError>
    ensures { IfOk result (λ diag. diag ≡ spec.removed_key file key) }
{
    let reason = DeprecationReason::Removed(MIGRATION);
    let deprecated = Deprecated {
        key,
        reason,
        file_id: file,
    };
    deprecated.into_diagnostic(alloc)
}

/// Tells of each key that was removed.
pub(crate) fn tell_removed(
    alloc: Global,
    file: FileId,
    keys: &[Span],
    found: &mut Diagnostics,
) -> Result<(), AllocError>
    ensures ok { OnOk result (found.new ≡ found.old ++ map (spec.removed_key file) keys.now) }
    ensures front { StandsInFront found.old found.new }
{
    'keys: for key in keys {
        let diag = removed_key(alloc, file, *key)?;
        found.push(diag)?;
    }
    Ok(())
}
