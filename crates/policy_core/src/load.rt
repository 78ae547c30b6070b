//! Policies that were read, and have their shape.
ghost use Rattle.std.specs.Prelude.{◌≡◌, ◌++◌, map, unwrap_or, IfOk, OnOk, codes};
ghost use Rattle.std.specs.Option.{option_copied, option_to_list};
ghost use Rattle.deny_text.specs.Fronts.{StandsInFront};
ghost use Rattle.policy_core.specs.config.Config.{no_config};
ghost use Rattle.policy_core.specs.validate.Order.{PutsPolicyInOrder};
ghost use Rattle.policy_core.specs.validate.Valid.{valid_part, validation_findings};
ghost use Rattle.policy_core.specs.Findings.{moved_key_finding};
ghost use Rattle.policy_core.specs.Findings.{target_findings, graph_key_findings, output_key_findings};
ghost use Rattle.policy_core.specs.Policy.{absence_findings};

use crate::config::{Config, RootConfig};
use crate::findings::{absent, moved, tell_moved, tell_targets};
use crate::valid::ValidConfig;
use crate::validate::UnvalidatedConfig;
use deny_text::Span;
use diag_core::lists::{Diagnostics, ValidationContext};
use diag_core::{FileId, Files};
use policy_parts::{GraphConfig, OutputConfig};
use spdx_core::Catalog;
use std::alloc::{AllocError, Global};

/// What a policy asks for.
#[derive(Drop)]
pub struct LoadedPolicy {
    pub licenses: ValidConfig,
    pub graph: GraphConfig,
    pub output: OutputConfig,
}

/// The file of a policy.
#[derive(Clone, Copy)]
pub struct PolicySource<'p> {
    /// Its number.
    pub file_id: FileId,
    /// Where it was to be; none where no path was given and none was found.
    pub path: Option<&'p str>,
    /// Whether it was there. Otherwise it counts as empty.
    pub is_there: bool,
}

/// Tells of a policy that is absent.
fn tell_absence(
    alloc: Global,
    source: &PolicySource<'_>,
    found: &mut Diagnostics,
) -> Result<(), AllocError>
    ensures ok { OnOk result (found.new
        ≡ found.old ++ absence_findings source.now.is_there (option_copied source.now.path)) }
    ensures front { StandsInFront found.old found.new }
{
    if source.is_there {
        return Ok(());
    }
    let diag = absent(alloc, source.path)?;
    found.push(diag)
}

/// What a policy says of licences.
fn licenses_or_default(alloc: Global, licenses: Option<Config>) -> Config
    ensures { result ≡ unwrap_or licenses no_config }
{
    match licenses {
        Some(config) => config,
        None => Config::default(alloc),
    }
}

/// What is valid of what a policy says of licences, before its exceptions file is read; that the policy is
/// absent and what is wrong with it goes behind the findings so far.
///
/// It is refused for want of memory alone; findings may have grown then, and keep their places.
pub fn validate_policy<C: Catalog>(
    alloc: Global,
    source: &PolicySource<'_>,
    licenses: Option<Config>,
    files: &mut Files,
    found: &mut Diagnostics,
    catalog: &C,
) -> Result<ValidConfig, AllocError>
    ensures valid { IfOk result (PutsPolicyInOrder
        (valid_part (C.lists catalog.now) source.now.file_id (unwrap_or licenses no_config))) }
    ensures told { OnOk result (found.new ≡ found.old
        ++ absence_findings source.now.is_there (option_copied source.now.path)
        ++ validation_findings (C.lists catalog.now) source.now.file_id (unwrap_or licenses no_config)) }
    ensures files { files.new ≡ files.old }
    ensures front { StandsInFront found.old found.new }
{
    tell_absence(alloc, source, found)?;
    let config = licenses_or_default(alloc, licenses);
    let context = ValidationContext {
        cfg_id: source.file_id,
        files,
        diagnostics: found,
    };
    config.validate(alloc, context, catalog)
}

/// Tells of the key that was moved to the table `output`, where it is there.
fn tell_output_key(
    alloc: Global,
    file: FileId,
    key: Option<Span>,
    found: &mut Diagnostics,
) -> Result<(), AllocError>
    ensures ok { OnOk result (found.new
        ≡ found.old ++ map (moved_key_finding (codes "output") file) (option_to_list key)) }
    ensures front { StandsInFront found.old found.new }
{
    match key {
        Some(key) => {
            let diag = moved(alloc, "output", file, key)?;
            found.push(diag)
        }
        None => Ok(()),
    }
}

/// Tells of what has no effect in a policy, or is in another table now, behind the findings so far, which
/// keep their places. It is refused for want of memory alone.
pub fn tell_settings(
    alloc: Global,
    file: FileId,
    root: &RootConfig,
    found: &mut Diagnostics,
) -> Result<(), AllocError>
    ensures ok { OnOk result (found.new ≡ found.old
        ++ target_findings file root.now ++ graph_key_findings file root.now ++ output_key_findings file root.now) }
    ensures front { StandsInFront found.old found.new }
{
    tell_targets(alloc, file, root.graph.targets.items(), found)?;
    tell_moved(alloc, file, root.graph_deprecated.items(), found)?;
    tell_output_key(alloc, file, root.output_deprecated, found)
}
