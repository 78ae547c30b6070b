//! Why there is no catalogue, and why there are no texts.

use deny_text::Text;
use std::alloc::AllocError;
use thiserror::Error;

/// Why a catalogue's file was not read.
#[derive(Clone, Copy, Debug, PartialEq, Eq, Drop, Error)]
pub enum ListingError {
    /// The number, from 1, of the first line with a fault.
    #[error("line {line} is none of a catalogue")]
    Syntax { line: usize },
    #[error("out of memory")]
    Memory,
}

impl From<AllocError> for ListingError {
    ghost use Rattle.std.specs.Prelude.{◌≡◌};
    ghost use Rattle.spdx_own_names.specs.declared.error.ListingError.TheVariants.{Memory};

    ghost from_gives = { λ _ e. e ≡ Memory };

    fn from(_: AllocError) -> ListingError {
        ListingError::Memory
    }
}

/// Why a folder of texts was not read.
#[derive(Debug, PartialEq, Eq, Drop)]
pub enum StoreFault {
    /// The tree failed. The numbers are its counts of faults, before the call and after it had failed.
    Failed { before: u64, after: u64 },
    /// Nothing is there, or a file that was listed is not.
    Absent,
    /// A file is there.
    NotFolder,
    /// The bytes of this file are not UTF-8.
    NotUtf8 { name: Text },
}

/// Why there is no store.
#[derive(Debug, PartialEq, Eq, Drop)]
pub enum StoreError {
    Fault(StoreFault),
    Memory,
}

impl From<AllocError> for StoreError {
    ghost use Rattle.std.specs.Prelude.{◌≡◌};
    ghost use Rattle.spdx_own_names.specs.declared.error.StoreError.TheVariants.{Memory};

    ghost from_gives = { λ _ e. e ≡ Memory };

    fn from(_: AllocError) -> StoreError {
        StoreError::Memory
    }
}
