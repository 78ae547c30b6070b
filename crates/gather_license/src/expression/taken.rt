//! Licence expressions of fields and of names.
ghost use Rattle.std.specs.Prelude.{◌≡◌, ◌++◌, ℕ, List, IfOk, OnOk, string_bytes, codes, if◌then◌else◌};
ghost use Rattle.spdx_core.specs.Reading.{expression_of_text};
ghost use Rattle.gather_license.specs.expression.Joined.{IsJoined, given_by, has_some};
ghost use Rattle.gather_license.specs.expression.Scanned.{names_given};
ghost use Rattle.gather_license.specs.expression.Taken.{field_read, joined_read, joined_text};

use crate::expression::files::{FileResult, ScannedFile};
use spdx_core::{Catalog, ExprError, Expression, ParseMode};
use std::alloc::{AllocError, Global};

/// The mode that names of licence files are read in: deprecated names are allowed, and nothing else.
const NAMED: ParseMode = ParseMode {
    allow_deprecated: true,
    allow_imprecise_license_names: false,
    allow_postfix_plus_on_gpl: false,
    allow_slash_as_or_operator: false,
};

/// The mode that fields are read in first: strict, and a slash says `OR`.
const FIELD: ParseMode = ParseMode {
    allow_deprecated: false,
    allow_imprecise_license_names: false,
    allow_postfix_plus_on_gpl: false,
    allow_slash_as_or_operator: true,
};

/// The expression that a text is; none where it has a fault.
#[tactic(auto, using(crate::proofs::expression::TakenLemmas::of_read, crate::proofs::expression::TakenLemmas::of_fault))]
fn expression<C: Catalog>(
    alloc: Global,
    text: &str,
    mode: ParseMode,
    catalog: &C,
) -> Result<Option<Expression>, AllocError>
    ensures { IfOk result (λ read. read ≡ expression_of_text mode (C.lists catalog.now) text.now) }
{
    match Expression::parse_mode(alloc, text, mode, catalog) {
        Ok(read) => Ok(Some(read)),
        Err(ExprError::Parse(_)) => Ok(None),
        Err(ExprError::Memory) => Err(AllocError),
    }
}

/// The expression of a crate's field: strict with the slash on, or else lax. An empty field is none.
pub fn field<C: Catalog>(
    alloc: Global,
    field: &str,
    catalog: &C,
) -> Result<Option<Expression>, AllocError>
    ensures { IfOk result (λ read. read ≡ field_read (C.lists catalog.now) field.now) }
{
    if field.is_empty() {
        return Ok(None);
    }
    let strict = expression(alloc, field, FIELD, catalog)?;
    match strict {
        Some(read) => Ok(Some(read)),
        None => expression(alloc, field, ParseMode::LAX, catalog),
    }
}

/// Appends the name that a file gives, where it gives one, behind the others; whether there is a name then.
fn push_given(text: &mut String, file: &ScannedFile, some: bool) -> Result<bool, AllocError>
    // of whatever names the text is made of so far
    ensures { (names : List (List ℕ)) → string_bytes text.old ≡ joined_text names → some ≡ has_some names
        → IfOk result (λ now. IsJoined (names ++ given_by file.now) (string_bytes text.new) now) }
{
    match &file.scanned {
        FileResult::Joined { name, .. } => {
            push_name(text, name.name.as_str(), some)?;
            Ok(true)
        }
        _ => Ok(some),
    }
}

/// Appends a name, behind ` AND ` where others are there.
fn push_name(text: &mut String, name: &str, some: bool) -> Result<(), AllocError>
    ensures { OnOk result (string_bytes text.new ≡ string_bytes text.old
        ++ (if some then codes " AND " ++ name.now else name.now)) }
{
    if some {
        text.push_str(" AND ")?;
    }
    text.push_str(name)?;
    Ok(())
}

/// The names that files give, joined by ` AND `, as an expression; none where no file gives one.
pub fn joined<C: Catalog>(
    alloc: Global,
    files: &[ScannedFile],
    catalog: &C,
) -> Result<Option<Expression>, AllocError>
    ensures { IfOk result (λ read. read ≡ joined_read (C.lists catalog.now) (names_given files.now)) }
{
    let mut text = String::new(alloc);
    let mut some = false;
    'files: for file in files {
        some = push_given(&mut text, file, some)?;
    }
    if some {
        expression(alloc, text.as_str(), NAMED, catalog)
    } else {
        Ok(None)
    }
}
