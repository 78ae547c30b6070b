//! What terms are called in a notice.
ghost use Rattle.std.specs.Prelude.{◌≡◌, ◌++◌, IfOk};
ghost use Rattle.spdx_terms.specs.Terms.{exception_text};
ghost use Rattle.check_notice.specs.Keys as spec;

use deny_text::Text;
use spdx_terms::{LicenseItem, LicenseReq};
use std::alloc::{AllocError, Global};

/// The name of a licence, and of its exception where it has one.
fn with_exception(alloc: Global, name: &str, exception: &Option<Text>) -> Result<Text, AllocError>
    ensures { IfOk result (λ key. key ≡ name.now ++ exception_text exception.now) }
{
    match exception {
        None => Text::copy(alloc, name),
        Some(exception) => {
            let key = format!(in alloc; "{name} WITH {exception}")?;
            Ok(Text::from(key))
        }
    }
}

/// What a term is called: as it is printed, without its `+`.
pub(crate) fn key_of(alloc: Global, term: &LicenseReq) -> Result<Text, AllocError>
    ensures { IfOk result (λ key. key ≡ spec.key_of term.now) }
{
    match &term.item {
        LicenseItem::Spdx { name, .. } => with_exception(alloc, name.as_str(), &term.exception),
        LicenseItem::Reference { .. } => {
            let key = format!(in alloc; "{term}")?;
            Ok(Text::from(key))
        }
    }
}
