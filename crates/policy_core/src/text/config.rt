//! The policy as it is written, from its text.
ghost use Rattle.std.specs.Prelude.{◌≡◌, IfErr};
ghost use Rattle.toml_value.specs.Views.{value_view};
ghost use Rattle.policy_core.specs.text.Config.{HasAFault, IsOfText, AnswersConfig, AnswersConfigBy};
ghost use Rattle.policy_core.specs.text.Config.{config_of_text, config_of_value, value_of_text};

use crate::config::RootConfig;
use crate::text::error::ConfigError;
use graph_core::selection::has_unsupported;
use policy_toml::{Deserialize, Value, parse};
use spdx_terms::catalog::Catalog;
use std::alloc::Global;

/// The value that a text stands for.
fn value_of(alloc: Global, text: &str) -> Result<Value<'_>, ConfigError>
    ensures told { AnswersConfigBy (λ value. value_view value) (value_of_text text.now) result }
    ensures fault { IfErr result HasAFault }
    ensures of_text { IfErr result IsOfText }
{
    match parse(alloc, text) {
        Ok(value) => Ok(value),
        Err(refused) => Err(ConfigError::from(refused)),
    }
}

/// What a value says, where it has the shape of a policy.
fn config_of<C: Catalog>(
    alloc: Global,
    mut value: Value<'_>,
    catalog: &C,
) -> Result<RootConfig, ConfigError>
    ensures told { AnswersConfig (config_of_value (C.lists catalog.now) (value_view value.entry)) result }
    ensures fault { IfErr result HasAFault }
    ensures of_text { IfErr result IsOfText }
{
    match RootConfig::deserialize(alloc, &mut value, catalog) {
        Ok(config) => Ok(config),
        Err(refused) => Err(ConfigError::from(refused)),
    }
}

/// The policy that a text is, as it is written.
///
/// It is refused where the text stands for no value, where the value has not the shape of a policy, and where
/// one of its specs of crates to be left out holds a `/` or a `#`.
pub fn read_config<C: Catalog>(
    alloc: Global,
    text: &str,
    catalog: &C,
) -> Result<RootConfig, ConfigError>
    ensures told { AnswersConfig (config_of_text (C.lists catalog.now) text.now) result }
    ensures fault { IfErr result HasAFault }
    ensures of_text { IfErr result IsOfText }
{
    let value = match value_of(alloc, text) {
        Ok(value) => value,
        Err(error) => return Err(error),
    };
    let config = config_of(alloc, value, catalog)?;
    if has_unsupported(&config.graph.exclude) {
        return Err(ConfigError::NotCarried);
    }
    Ok(config)
}
