//! What of a request for a check is not carried.
//! Called by `check_request` of `deny_run` and by `cmd`; parts may be tested in any order, the first is named.
ghost use Rattle.std.specs.Prelude.{◌≡◌};
ghost use Rattle.std.specs.List.{list_all};
ghost use Rattle.run_check.specs.Carried as spec;
ghost use Rattle.run_check.specs.Carried.{unsupported_of};

use diag_print::LogContext;
use graph_core::selection::has_unsupported;
use graph_workspace::UnsupportedPart;
use run_found::is_sarif;
use run_request::check::CheckArgs;
use run_request::{KrateContext, WhichCheck};

/// Whether licences are named, once or more, and nothing else.
fn names_licenses(which: &[WhichCheck]) -> bool
    ensures { result ≡ spec.names_licenses which.now }
{
    !which.is_empty() && all_are_licenses(which)
}

fn all_are_licenses(which: &[WhichCheck]) -> bool
    ensures { result ≡ list_all spec.is_licenses which.now }
{
    which.iter().all(|check| is_licenses(*check))
}

fn is_licenses(check: WhichCheck) -> bool
    ensures { result ≡ spec.is_licenses check }
{
    match check {
        WhichCheck::Licenses => true,
        WhichCheck::Advisories | WhichCheck::Bans | WhichCheck::Sources | WhichCheck::All => false,
    }
}

/// The first part of a request that is not carried.
pub fn unsupported_in(
    log_ctx: LogContext,
    args: &CheckArgs,
    context: &KrateContext,
) -> Option<UnsupportedPart>
    ensures { result ≡ unsupported_of log_ctx args.now context.now }
{
    if context.metadata_path.is_none() {
        Some(UnsupportedPart::MetadataPath)
    } else if !names_licenses(args.which.items()) {
        Some(UnsupportedPart::Which)
    } else if is_sarif(log_ctx.format) {
        Some(UnsupportedPart::Format)
    } else if !context.targets.items().is_empty() {
        Some(UnsupportedPart::Target)
    } else if args.graph.is_some() {
        Some(UnsupportedPart::Graph)
    } else if args.audit_compatible_output {
        Some(UnsupportedPart::Audit)
    } else if has_unsupported(&context.exclude) {
        Some(UnsupportedPart::ExcludeSpec)
    } else {
        None
    }
}
