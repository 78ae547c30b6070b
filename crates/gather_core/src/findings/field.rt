//! Reading a crate's field.
ghost use Rattle.std.specs.Prelude.{◌≡◌, IfOk, Some};
ghost use Rattle.spdx_terms.specs.Faults.{first_fault};
ghost use Rattle.spdx_core.specs.Reading.{expression_of_text};
ghost use Rattle.gather_license.specs.expression.Taken.{field_read};
ghost use Rattle.gather_core.specs.findings.Faults as spec;
ghost use Rattle.gather_core.specs.findings.Faults.{faults_by, field_faults};
ghost use Rattle.gather_core.specs.findings.Premises.{FaultsLie};

use deny_text::{ListOf, Span};
use spdx_core::{Catalog, ExprError, Expression, ParseError, ParseMode};
use std::alloc::{AllocError, Global};

/// The mode that fields are read in first: strict, and a slash says `OR`.
const FIELD: ParseMode = ParseMode {
    allow_deprecated: false,
    allow_imprecise_license_names: false,
    allow_postfix_plus_on_gpl: false,
    allow_slash_as_or_operator: true,
};

/// Faults in order.
pub type ParseErrors = ListOf<ParseError>;

/// The expression of a field, if it is one, and what is wrong with it.
#[derive(Drop)]
pub struct FieldRead {
    pub expression: Option<Expression>,
    pub faults: ParseErrors,
}

/// One reading of a text: the expression, or the first fault.
#[derive(Drop)]
struct FieldReading {
    expression: Option<Expression>,
    fault: Option<ParseError>,
}

#[tactic(auto, using(crate::proofs::findings::FieldLemmas::read_of, crate::proofs::findings::FieldLemmas::fault_of))]
fn read_in<C: Catalog>(
    alloc: Global,
    text: &str,
    mode: ParseMode,
    catalog: &C,
) -> Result<FieldReading, AllocError>
    ensures expression { IfOk result (λ reading.
        reading.expression ≡ expression_of_text mode (C.lists catalog.now) text.now) }
    ensures fault { IfOk result (λ reading.
        reading.fault ≡ first_fault mode (C.lists catalog.now) text.now) }
{
    match Expression::parse_mode(alloc, text, mode, catalog) {
        Ok(read) => Ok(FieldReading {
            expression: Some(read),
            fault: None,
        }),
        Err(ExprError::Parse(fault)) => Ok(FieldReading {
            expression: None,
            fault: Some(fault),
        }),
        Err(ExprError::Memory) => Err(AllocError),
    }
}

fn same_span(one: Span, other: Span) -> bool
    ensures { result ≡ spec.same_span one other }
{
    one.start == other.start && one.end == other.end
}

/// The fault of the lax reading is behind that of the strict one, but for one at the same place.
fn faults(
    alloc: Global,
    strict: ParseError,
    lax: Option<ParseError>,
) -> Result<ParseErrors, AllocError>
    ensures { IfOk result (λ faults. faults ≡ faults_by (Some strict) lax) }
{
    let mut faults = ParseErrors::new(alloc);
    faults.push(strict)?;
    match lax {
        Some(fault) if !same_span(strict.span, fault.span) => faults.push(fault)?,
        _ => {}
    }
    Ok(faults)
}

fn read_both<C: Catalog>(alloc: Global, field: &str, catalog: &C) -> Result<FieldRead, AllocError>
    ensures expression { IfOk result (λ read. read.expression ≡ field_read (C.lists catalog.now) field.now) }
    ensures faults { IfOk result (λ read. read.faults ≡ field_faults (C.lists catalog.now) field.now) }
{
    if field.is_empty() {
        return Ok(FieldRead {
            expression: None,
            faults: ParseErrors::new(alloc),
        });
    }
    let strict = read_in(alloc, field, FIELD, catalog)?;
    match strict.fault {
        None => Ok(FieldRead {
            expression: strict.expression,
            faults: ParseErrors::new(alloc),
        }),
        Some(fault) => {
            let lax = read_in(alloc, field, ParseMode::LAX, catalog)?;
            let faults = faults(alloc, fault, lax.fault)?;
            Ok(FieldRead {
                expression: lax.expression,
                faults,
            })
        }
    }
}

/// A crate's field, read strictly with the slash on, or else laxly. An empty field is no expression, and
/// nothing is wrong with it.
pub fn read_field<C: Catalog>(
    alloc: Global,
    field: &str,
    catalog: &C,
) -> Result<FieldRead, AllocError>
    ensures expression { IfOk result (λ read. read.expression ≡ field_read (C.lists catalog.now) field.now) }
    ensures faults { IfOk result (λ read. read.faults ≡ field_faults (C.lists catalog.now) field.now) }
    ensures inside { IfOk result (λ read. FaultsLie field.now read.faults) }
{
    let read = read_both(alloc, field, catalog)?;
    Ok(read)
}
