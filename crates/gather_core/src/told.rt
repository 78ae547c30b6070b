//! What is reported of a crate's licence, by what settles it.
ghost use Rattle.std.specs.Prelude.{◌≡◌, ◌^◌, ◌<◌, None, unwrap_or};
ghost use Rattle.gather_license.specs.Priority.{answer_in};
ghost use Rattle.gather_core.specs.Told as spec;
ghost use Rattle.gather_core.specs.Told.{field_source, info_at, info_by, joined_info, joined_notes, notes_of};
ghost use Rattle.gather_core.specs.Told.{no_place};

use crate::findings::{LicenseExprInfo, LicenseExprSource, LicenseInfo};
use deny_text::Span;
use diag_core::{Coord, Notes};
use gather_license::{HeldClarification, JoinedNames, LicenseBasis};
use spdx_core::Expression;
use std::alloc::Global;

/// The licence of a crate, with what is noted of its files.
#[derive(Drop)]
pub(crate) struct NotedLicense {
    pub(crate) info: LicenseInfo,
    pub(crate) notes: Notes,
}

/// Where finding gave no place. It gives one wherever there is an expression.
fn place_or_nowhere(place: Option<Coord>) -> Coord
    ensures place { result ≡ unwrap_or place no_place }
    ensures fits { result.span.end < 2 ^ 64 }
{
    match place {
        Some(at) => at,
        None => Coord {
            file: 0,
            span: Span { start: 0, end: 0 },
        },
    }
}

/// An expression that is at a place.
fn told_at(expr: Expression, at: Coord, source: LicenseExprSource) -> LicenseInfo
    ensures { result ≡ LicenseInfo.SpdxExpression expr (info_at at source) }
{
    let nfo = LicenseExprInfo {
        file_id: at.file,
        offset: at.span.start,
        whole: None,
        source,
    };
    LicenseInfo::SpdxExpression { expr, nfo }
}

/// The source of a field.
fn source_of(location: Option<Coord>) -> LicenseExprSource
    ensures { result ≡ field_source location }
{
    match location {
        Some(at) => LicenseExprSource::Metadata(Some((at.file, at.span))),
        None => LicenseExprSource::Metadata(None),
    }
}

/// The source of a clarification, by whether it is one of the exceptions file.
fn clarified_source(overlay: bool) -> LicenseExprSource
    ensures { result ≡ spec.clarified_source overlay }
{
    if overlay {
        LicenseExprSource::OverlayOverride
    } else {
        LicenseExprSource::UserOverride
    }
}

/// By a clarification.
fn told_by_clarification(held: HeldClarification) -> LicenseInfo
    ensures { result ≡ info_by None no_place (LicenseBasis.Clarified held) }
{
    let nfo = LicenseExprInfo {
        file_id: held.file,
        offset: held.offset,
        whole: held.whole,
        source: clarified_source(held.overlay),
    };
    LicenseInfo::SpdxExpression {
        expr: held.expression,
        nfo,
    }
}

/// By the licence files.
fn told_by_files(alloc: Global, place: Coord, joined: Option<JoinedNames>) -> NotedLicense
    ensures info { result.info ≡ joined_info place joined }
    ensures notes { result.notes ≡ joined_notes joined }
{
    match joined {
        Some(joined) => {
            let JoinedNames {
                expression,
                paths,
                notes,
            } = joined;
            NotedLicense {
                info: told_at(expression, place, LicenseExprSource::LicenseFiles(paths)),
                notes,
            }
        }
        None => NotedLicense {
            info: LicenseInfo::Unlicensed,
            notes: Notes::new(alloc),
        },
    }
}

/// By what settles the licence, the location of the field and the place of the expression.
pub(crate) fn told_by(
    alloc: Global,
    location: Option<Coord>,
    place: Option<Coord>,
    by: LicenseBasis,
) -> NotedLicense
    ensures info { result.info ≡ info_by location (unwrap_or place no_place) by }
    ensures notes { result.notes ≡ notes_of (answer_in by) }
    ensures fits { let place = unwrap_or place no_place in place.span.end < 2 ^ 64 }
{
    let place = place_or_nowhere(place);
    match by {
        LicenseBasis::Clarified(held) => NotedLicense {
            info: told_by_clarification(held),
            notes: Notes::new(alloc),
        },
        LicenseBasis::Field(expression) => NotedLicense {
            info: told_at(expression, place, source_of(location)),
            notes: Notes::new(alloc),
        },
        LicenseBasis::Files { joined, .. } => told_by_files(alloc, place, joined),
    }
}
