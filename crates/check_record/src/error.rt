//! Why bytes are no verdict file.
//! Made by digits, decode_parts and decoding, read by `verify_text`; variants may be in any order.
ghost use Rattle.std.specs.Prelude.{◌≡◌};
ghost use Rattle.check_record.specs.declared.error.RecordError.TheVariants.{Memory};

use std::alloc::{AllocError, AllocFailed};

/// Why a record could not be read.
#[derive(Clone, Copy, Debug, Drop, PartialEq, Eq)]
pub enum RecordError {
    /// The bytes are the spelling of no record.
    Syntax,
    /// Memory was refused.
    Memory,
}

impl From<AllocError> for RecordError {
    ghost from_gives = { λ _ error. error ≡ Memory };

    fn from(_refused: AllocError) -> RecordError {
        RecordError::Memory
    }
}

impl<T: Drop> From<AllocFailed<T>> for RecordError {
    ghost from_gives = { λ _ error. error ≡ Memory };

    fn from(_refused: AllocFailed<T>) -> RecordError {
        RecordError::Memory
    }
}
