//! Why there is no policy as it is written.
ghost use Rattle.std.specs.Prelude.{◌≡◌};
ghost use Rattle.policy_core.specs.declared.text.error.ConfigError.TheVariants.{Memory};

use policy_toml::{DeserError, ShapeErrors, SyntaxError, TomlError};
use std::alloc::AllocError;
use tree_core::texts::ReadFault;

/// Why a policy's file gives no policy.
#[derive(Drop)]
pub enum ConfigError {
    Memory,
    /// The file was not read. It is never absent: an absent policy is an empty one.
    ConfigRead(ReadFault),
    /// The text stands for no value.
    ConfigSyntax(SyntaxError),
    /// The value has not the shape of a policy. There is one fault at least.
    ConfigShape(ShapeErrors),
    /// A spec of crates to be left out holds a `/` or a `#`.
    NotCarried,
}

impl From<AllocError> for ConfigError {
    ghost from_gives = { λ _ error. error ≡ Memory };

    fn from(_: AllocError) -> ConfigError {
        ConfigError::Memory
    }
}

impl From<TomlError> for ConfigError {
    ghost use Rattle.policy_core.specs.text.Config.{error_of_toml};

    ghost from_gives = { λ refused error. error ≡ error_of_toml refused };

    fn from(refused: TomlError) -> ConfigError {
        match refused {
            TomlError::Syntax(fault) => ConfigError::ConfigSyntax(fault),
            TomlError::Memory => ConfigError::Memory,
        }
    }
}

impl From<DeserError> for ConfigError {
    ghost use Rattle.policy_core.specs.text.Config.{error_of_shape};

    ghost from_gives = { λ refused error. error ≡ error_of_shape refused };

    fn from(refused: DeserError) -> ConfigError {
        match refused {
            DeserError::Faults(faults) => ConfigError::ConfigShape(faults),
            DeserError::Memory => ConfigError::Memory,
        }
    }
}
