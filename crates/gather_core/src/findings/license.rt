//! The licence of a crate, and where its expression is.
use deny_text::{Span, Texts};
use diag_core::FileId;
use spdx_core::Expression;

/// Where a licence expression comes from.
#[derive(Drop, PartialEq, Eq)]
pub enum LicenseExprSource {
    /// The crate's own field, and the place in its manifest where that writes it.
    Metadata(Option<(FileId, Span)>),
    /// A clarification of the policy.
    UserOverride,
    /// A clarification of the exceptions file.
    OverlayOverride,
    /// Licence files, by the paths of those that were joined.
    LicenseFiles(Texts),
}

/// What is reported of a licence expression.
#[derive(Drop)]
pub struct LicenseExprInfo {
    /// The file that the expression is in.
    pub file_id: FileId,
    /// Where the expression's text begins there.
    pub offset: usize,
    /// The place of the expression's string, where that has escapes; the offset means nothing then.
    pub whole: Option<Span>,
    pub source: LicenseExprSource,
}

/// The licence of a crate.
#[derive(Drop)]
pub enum LicenseInfo {
    SpdxExpression {
        expr: Expression,
        nfo: LicenseExprInfo,
    },
    /// There is no expression.
    Unlicensed,
}
