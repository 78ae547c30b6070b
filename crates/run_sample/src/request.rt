//! The request that checks the sample.
//! Called by `report_on` of `command`; paths may be copied in any order, each value is in a clause.
ghost use Rattle.std.specs.Prelude.{◌≡◌, IfOk};
ghost use Rattle.run_sample.specs.Request.{sample_args, sample_context, sample_log};

use deny_text::{PathBuf, Texts};
use diag_core::LevelFilter;
use diag_print::{Color, Format, LogContext};
use run_request::{CodeOrLevels, KrateContext, LintLevels, WhichCheck, WhichChecks, check};
use std::alloc::{AllocError, Global};

/// Nothing is reported of what is found.
pub(crate) fn sample_log() -> LogContext
    ensures { result ≡ sample_log }
{
    LogContext {
        format: Format::Human,
        color: Color::Auto,
        log_level: LevelFilter::Off,
    }
}

/// The crates that are looked at, and where the files of the sample are.
pub(crate) fn sample_context(alloc: Global) -> Result<KrateContext, AllocError>
    ensures { IfOk result (λ context. context ≡ sample_context) }
{
    let manifest_path = PathBuf::copy(alloc, "/s/c0/Cargo.toml")?;
    let config_path = PathBuf::copy(alloc, "/s/p.toml")?;
    let metadata_path = PathBuf::copy(alloc, "/s/m.json")?;
    let cwd = PathBuf::copy(alloc, "/s")?;
    Ok(KrateContext {
        manifest_path,
        config_path: Some(config_path),
        metadata_path: Some(metadata_path),
        workspace: false,
        exclude: Texts::new(alloc),
        targets: Texts::new(alloc),
        no_default_features: false,
        all_features: false,
        features: Texts::new(alloc),
        frozen: false,
        locked: false,
        offline: false,
        exclude_dev: false,
        exclude_unpublished: false,
        cwd,
    })
}

/// The check of licences.
pub(crate) fn sample_args(alloc: Global) -> Result<check::CheckArgs, AllocError>
    ensures { IfOk result (λ args. args ≡ sample_args) }
{
    let mut which = WhichChecks::new(alloc);
    which.push(WhichCheck::Licenses)?;
    Ok(check::CheckArgs {
        graph: None,
        hide_inclusion_graph: false,
        audit_compatible_output: false,
        show_stats: false,
        lint_levels: LintLevels {
            warn: CodeOrLevels::new(alloc),
            allow: CodeOrLevels::new(alloc),
            deny: CodeOrLevels::new(alloc),
        },
        feature_depth: None,
        which,
    })
}
