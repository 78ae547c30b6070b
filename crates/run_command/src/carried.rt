//! What of a request is not carried.
//! Called by `deny_run` and the commands; parts may be tested in any order, the part that is named may not.
ghost use Rattle.std.specs.Prelude.{◌≡◌};
ghost use Rattle.run_command.specs.Carried as spec;
ghost use Rattle.run_command.specs.Carried.{unsupported_of};

use diag_print::LogContext;
use graph_core::selection::has_unsupported;
use graph_workspace::UnsupportedPart;
use run_found::is_sarif;
use run_request::{CodeOrLevels, KrateContext, LintLevels};
use std::alloc::Global;

/// The first part of a request that is not carried.
pub fn unsupported_in(log_ctx: LogContext, context: &KrateContext) -> Option<UnsupportedPart>
    ensures { result ≡ unsupported_of log_ctx context.now }
{
    if context.metadata_path.is_none() {
        Some(UnsupportedPart::MetadataPath)
    } else if is_sarif(log_ctx.format) {
        Some(UnsupportedPart::Format)
    } else if !context.targets.items().is_empty() {
        Some(UnsupportedPart::Target)
    } else if has_unsupported(&context.exclude) {
        Some(UnsupportedPart::ExcludeSpec)
    } else {
        None
    }
}

/// No code and no level.
pub fn no_levels(alloc: Global) -> LintLevels
    ensures { result ≡ spec.no_levels }
{
    LintLevels {
        warn: CodeOrLevels::new(alloc),
        allow: CodeOrLevels::new(alloc),
        deny: CodeOrLevels::new(alloc),
    }
}
