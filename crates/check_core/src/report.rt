//! The report on one crate.
//! Called by `skip` and `tell` of `crate_check`; the id may be copied last, no clause has the order of copies.
ghost use Rattle.std.specs.Prelude.{◌≡◌, IfOk};
ghost use Rattle.check_core.specs.Reports as spec;
ghost use Rattle.check_core.specs.Reports.{license_place, license_source, report_of};
ghost use Rattle.check_core.specs.Turns.{expression_of};

use crate::evaluate::Verdict;
use deny_text::{ListOf, Span, Text};
use diag_core::{FileId, Notes};
use gather_core::{Diags, KrateLicense, LicenseExprInfo, LicenseExprSource, LicenseInfo};
use gather_license::KeptFiles;
use policy_parts::spec::Places;
use spdx_core::Expression;
use std::alloc::{AllocError, Global};
use tree_core::Reads;

/// Where the text of an expression begins.
#[derive(Clone, Copy)]
pub struct ExpressionPlace {
    pub file: FileId,
    /// The first byte, in the file; of a string with escapes it means nothing.
    pub offset: usize,
    /// The place of the expression's string, where that has escapes.
    pub whole: Option<Span>,
}

/// The verdict on one crate.
#[derive(Drop)]
pub struct CrateReport {
    /// The package id, as cargo writes it.
    pub id: Text,
    /// The reads of the crate's files, in the order of the calls.
    pub reads: Reads,
    /// The licence expression, if there is one.
    pub expression: Option<Expression>,
    /// Where the expression comes from.
    pub source: Option<LicenseExprSource>,
    /// Where the expression is.
    pub place: Option<ExpressionPlace>,
    /// What is noted of the licence files that the expression was made of.
    pub notes: Notes,
    /// The places, in the policy's list, of the exceptions that count for the crate.
    pub exceptions: Places,
    /// What is kept of the licence files among the reads, in their order; nothing where it is not asked for.
    pub kept: KeptFiles,
    /// Whether the policy allows the licence, and what shows it.
    pub verdict: Verdict,
}

/// Reports on crates, in order.
pub type CrateReports = ListOf<CrateReport>;

/// The expression of a licence, where it comes from, and where it is.
#[derive(Drop)]
struct InfoParts {
    expression: Option<Expression>,
    source: Option<LicenseExprSource>,
    place: Option<ExpressionPlace>,
}

fn place_of(nfo: &LicenseExprInfo) -> ExpressionPlace
    ensures { result ≡ spec.place_of nfo.now }
{
    ExpressionPlace {
        file: nfo.file_id,
        offset: nfo.offset,
        whole: nfo.whole,
    }
}

fn parts_of(info: LicenseInfo) -> InfoParts
    ensures expression { result.expression ≡ expression_of info }
    ensures source { result.source ≡ license_source info }
    ensures place { result.place ≡ license_place info }
{
    match info {
        LicenseInfo::SpdxExpression { expr, nfo } => InfoParts {
            expression: Some(expr),
            place: Some(place_of(&nfo)),
            source: Some(nfo.source),
        },
        LicenseInfo::Unlicensed => InfoParts {
            expression: None,
            source: None,
            place: None,
        },
    }
}

/// The report on a crate, by its licence and the verdict on it, and apart from it what was found on the way to the
/// licence.
pub(crate) fn report_on(
    alloc: Global,
    license: KrateLicense<'_>,
    verdict: Verdict,
) -> Result<(CrateReport, Diags), AllocError>
    ensures report { IfOk result (λ told. told.0 ≡ report_of license.entry verdict) }
    ensures gathered { IfOk result (λ told. told.1 ≡ license.entry.diags) }
{
    let KrateLicense {
        krate,
        lic_info,
        notes,
        diags,
        reads,
        exceptions,
        kept,
    } = license;
    let id = Text::copy(alloc, krate.id.as_str())?;
    let parts = parts_of(lic_info);
    let report = CrateReport {
        id,
        reads,
        expression: parts.expression,
        source: parts.source,
        place: parts.place,
        notes,
        exceptions,
        kept,
        verdict,
    };
    Ok((report, diags))
}
