//! Why a policy was not loaded.
ghost use Rattle.std.specs.Prelude.{◌≡◌};
ghost use Rattle.policy_load.specs.declared.error.LoadError.TheVariants.{Memory};

use diag_print::PrintError;
use policy_core::Diagnostics;
use policy_core::text::{ConfigError, ReadFault, ShapeErrors, SyntaxError};
use std::alloc::AllocError;

/// Why a policy was not loaded.
#[derive(Drop)]
pub enum LoadError {
    Memory,
    /// The policy was not read. It is never absent: an absent policy is an empty one.
    ConfigRead(ReadFault),
    /// The policy's text stands for no value.
    ConfigSyntax(SyntaxError),
    /// The policy's value has not the shape of a policy. There is one fault at least.
    ConfigShape(ShapeErrors),
    /// A spec of crates to be left out holds a `/` or a `#`.
    NotCarried,
    /// Of these findings one is an error at least.
    ConfigInvalid(Diagnostics),
    /// The sink refused a write. The numbers are its counts of faults, at the start of the call and after
    /// that.
    WriteFault { before: u64, after: u64 },
}

impl From<AllocError> for LoadError {
    ghost from_gives = { λ _ error. error ≡ Memory };

    fn from(_: AllocError) -> LoadError {
        LoadError::Memory
    }
}

impl From<ConfigError> for LoadError {
    ghost use Rattle.policy_load.specs.Load.{error_of_config};

    ghost from_gives = { λ refused error. error ≡ error_of_config refused };

    fn from(refused: ConfigError) -> LoadError {
        match refused {
            ConfigError::Memory => LoadError::Memory,
            ConfigError::ConfigRead(fault) => LoadError::ConfigRead(fault),
            ConfigError::ConfigSyntax(fault) => LoadError::ConfigSyntax(fault),
            ConfigError::ConfigShape(faults) => LoadError::ConfigShape(faults),
            ConfigError::NotCarried => LoadError::NotCarried,
        }
    }
}

impl From<PrintError> for LoadError {
    ghost use Rattle.policy_load.specs.Answer.{error_of_print};

    ghost from_gives = { λ refused error. error ≡ error_of_print refused };

    fn from(refused: PrintError) -> LoadError {
        match refused {
            PrintError::WriteFault { before, after } => LoadError::WriteFault { before, after },
            PrintError::Memory => LoadError::Memory,
        }
    }
}
