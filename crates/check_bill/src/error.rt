//! Why bytes are no bill.
ghost use Rattle.std.specs.Prelude.{◌≡◌};
ghost use Rattle.check_bill.specs.declared.error.BillError.TheVariants.{Memory};

use std::alloc::{AllocError, AllocFailed};

/// Why a bill could not be read.
#[derive(Clone, Copy, Debug, Drop, PartialEq, Eq)]
pub enum BillError {
    /// The bytes are the lines of no bill.
    Syntax,
    /// Memory was refused.
    Memory,
}

impl From<AllocError> for BillError {
    ghost from_gives = { λ _ error. error ≡ Memory };

    fn from(_refused: AllocError) -> BillError {
        BillError::Memory
    }
}

impl<T: Drop> From<AllocFailed<T>> for BillError {
    ghost from_gives = { λ _ error. error ≡ Memory };

    fn from(_refused: AllocFailed<T>) -> BillError {
        BillError::Memory
    }
}
