//! Why words override nothing.
//! Made by overrides, read by `from` of run_found's error; the variants may be in any order.
ghost use Rattle.std.specs.Prelude.{◌≡◌};
ghost use Rattle.run_overrides.specs.declared.error.OverrideError.TheVariants.{Memory};

use deny_text::Text;
use diag_core::Severity;
use std::alloc::AllocError;

/// Why words override nothing.
#[derive(Drop)]
pub enum OverrideError {
    Memory,
    /// A code or a level is there twice.
    OverrideTwice {
        /// The name of the code, or `allowed`, `warnings` or `denied`.
        name: Text,
        /// What it is set to where it is first.
        first: Severity,
        /// What it is set to where it is again.
        second: Severity,
    },
}

impl From<AllocError> for OverrideError {
    ghost from_gives = { λ _ error. error ≡ Memory };

    fn from(_: AllocError) -> OverrideError {
        OverrideError::Memory
    }
}
