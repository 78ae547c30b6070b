//! Why a command was refused.
//! Made by each command, `line` called by deny_run; arms may be in any order, each line is in a clause.
ghost use Rattle.std.specs.Prelude.{◌≡◌};
ghost use Rattle.run_found.specs.Error.{fault_line};

use crate::policy::PolicyRefusal;
use crate::reads::CrateReads;
use deny_text::{PathBuf, Text};
use diag_core::Severity;
use diag_print::PrintError;
use graph_workspace::{KratesError, MetaFault, UnsupportedPart};
use policy_load::{Diagnostics, LoadError, ReadFault, ShapeErrors, SyntaxError};
use run_overrides::OverrideError;
use spdx_own_names::{ListingError, StoreError, StoreFault};
use std::alloc::AllocError;
use tree_core::texts::SearchError;

/// Why a command was refused, in the order of the table of refusals.
#[derive(Drop)]
pub enum Error {
    Memory,
    /// The first part of the request, or of the policy, that is not carried.
    NotCarried(UnsupportedPart),
    /// The path names no file `Cargo.toml`.
    ManifestPath(PathBuf),
    /// The look at the manifest failed. The numbers are the tree's counts of faults, when the run began and
    /// behind the look.
    ManifestRead {
        before: u64,
        after: u64,
    },
    /// The catalogue's file was not read. It is never without UTF-8 here: that is a fault of its lines.
    CatalogRead(ReadFault),
    /// The catalogue's file has a fault. The number is that of the first line with one, from 1.
    CatalogSyntax {
        line: usize,
    },
    /// The folder of licence texts was not read.
    StoreRead(StoreFault),
    /// The policy was not read, or it was not found out where its files are. It is never absent: an absent policy
    /// is an empty one.
    ConfigRead(ReadFault),
    /// The policy's text stands for no value.
    ConfigSyntax(SyntaxError),
    /// The policy's value has not the shape of a policy. There is one fault at least.
    ConfigShape(ShapeErrors),
    /// Of these findings of the load one is an error at least.
    ConfigInvalid(Diagnostics),
    /// A code or a level is there twice among the levels that are asked for.
    OverrideTwice {
        name: Text,
        first: Severity,
        second: Severity,
    },
    /// The metadata was not read.
    MetadataRead(ReadFault),
    /// The metadata is no JSON.
    MetadataSyntax,
    /// The metadata has not the stated shape.
    MetadataShape(MetaFault),
    /// No root crate is left.
    NoRoots {
        /// The crates that would be roots.
        base: usize,
        /// Those of them that a spec leaves out.
        excluded: usize,
        /// Those of the others that are published nowhere, where these are left out.
        unpublished: usize,
    },
    /// No crate of the metadata is named so. The text is the first such word.
    NoSuchCrate(Text),
    /// A crate is rejected, or has no licence, so there is no notice. The text is the id of the first such crate; the
    /// licences were settled by these reads.
    NotAccepted {
        id: Text,
        reads: CrateReads,
    },
    /// There is no text of a licence that a crate is used under. The texts are the id of the first such crate, and the
    /// key of its first such term; behind the reads of the licences these were made for the crates' own texts.
    NoText {
        id: Text,
        key: Text,
        reads: CrateReads,
        own: CrateReads,
    },
    /// A verdict file was not read, once the licences were settled by these reads. The numbers of a failed read are
    /// the tree's counts of faults as that read began and behind it.
    RecordRead {
        fault: ReadFault,
        reads: CrateReads,
    },
    /// A verdict file is the spelling of no record.
    RecordSyntax,
    /// The name of a crate is empty or has the end of a line, so no bill has it. The text is the id of the first
    /// such crate.
    BillText(Text),
    /// A bill was not read, once the licences were settled by these reads. The numbers of a failed read are the
    /// tree's counts of faults as that read began and behind it.
    BillRead {
        fault: ReadFault,
        reads: CrateReads,
    },
    /// A file is the lines of no bill.
    BillSyntax,
    /// A sink refused a write. The numbers are its counts of faults, at the start of the call and after that.
    WriteFault {
        before: u64,
        after: u64,
    },
}

impl Error {
    /// The line that is written after a refusal, with its line end.
    pub fn line(&self) -> &'static str
        ensures { result.now ≡ fault_line self.now }
    {
        match self {
            Error::Memory => "error: out of memory\n",
            Error::NotCarried(_) => "error: the request is not carried\n",
            Error::ManifestPath(_) => "error: --manifest-path must point to a Cargo.toml file\n",
            Error::ManifestRead { .. } => "error: the manifest could not be looked up\n",
            Error::CatalogRead(_) => "error: the catalogue could not be read\n",
            Error::CatalogSyntax { .. } => "error: the catalogue could not be parsed\n",
            Error::StoreRead(_) => "error: the license texts could not be read\n",
            Error::ConfigRead(_) => "error: the policy could not be read\n",
            Error::ConfigSyntax(_) => "error: the policy could not be parsed\n",
            Error::ConfigShape(_) => "error: the policy could not be deserialized\n",
            Error::ConfigInvalid(_) => "error: the policy is not valid\n",
            Error::OverrideTwice { .. } => "error: a code or level is overridden twice\n",
            Error::MetadataRead(_) => "error: the metadata could not be read\n",
            Error::MetadataSyntax => "error: the metadata could not be parsed\n",
            Error::MetadataShape(_) => "error: the metadata has not the stated shape\n",
            Error::NoRoots { .. } => "error: no root crate is left\n",
            Error::NoSuchCrate(_) => "error: no crate of the metadata is named so\n",
            Error::NotAccepted { .. } => "error: a crate is not accepted\n",
            Error::NoText { .. } => "error: a license text is missing\n",
            Error::RecordRead { .. } => "error: the record could not be read\n",
            Error::RecordSyntax => "error: the record could not be parsed\n",
            Error::BillText(_) => "error: a crate name does not fit the bill\n",
            Error::BillRead { .. } => "error: the bill could not be read\n",
            Error::BillSyntax => "error: the bill could not be parsed\n",
            Error::WriteFault { .. } => "error: writing failed\n",
        }
    }
}

impl From<AllocError> for Error {
    ghost use Rattle.run_found.specs.declared.error.Error.TheVariants.{Memory};

    ghost from_gives = { λ _ error. error ≡ Memory };

    fn from(_: AllocError) -> Error {
        Error::Memory
    }
}

impl From<PrintError> for Error {
    ghost use Rattle.run_found.specs.Error.{error_of_print};

    ghost from_gives = { λ refused error. error ≡ error_of_print refused };

    fn from(refused: PrintError) -> Error {
        match refused {
            PrintError::Memory => Error::Memory,
            PrintError::WriteFault { before, after } => Error::WriteFault { before, after },
        }
    }
}

impl From<ListingError> for Error {
    ghost use Rattle.run_found.specs.Error.{error_of_listing};

    ghost from_gives = { λ refused error. error ≡ error_of_listing refused };

    fn from(refused: ListingError) -> Error {
        match refused {
            ListingError::Memory => Error::Memory,
            ListingError::Syntax { line } => Error::CatalogSyntax { line },
        }
    }
}

impl From<StoreError> for Error {
    ghost use Rattle.run_found.specs.Error.{error_of_store};

    ghost from_gives = { λ refused error. error ≡ error_of_store refused };

    fn from(refused: StoreError) -> Error {
        match refused {
            StoreError::Memory => Error::Memory,
            StoreError::Fault(fault) => Error::StoreRead(fault),
        }
    }
}

impl From<SearchError> for Error {
    ghost use Rattle.run_found.specs.Error.{error_of_search};

    ghost from_gives = { λ refused error. error ≡ error_of_search refused };

    fn from(refused: SearchError) -> Error {
        match refused {
            SearchError::Failed { before, after } => Error::ConfigRead(ReadFault::Failed {
                before,
                after,
            }),
            SearchError::Memory => Error::Memory,
        }
    }
}

impl From<LoadError> for Error {
    ghost use Rattle.run_found.specs.Error.{error_of_load};

    ghost from_gives = { λ refused error. error ≡ error_of_load refused };

    fn from(refused: LoadError) -> Error {
        match refused {
            LoadError::Memory => Error::Memory,
            LoadError::ConfigRead(fault) => Error::ConfigRead(fault),
            LoadError::ConfigSyntax(fault) => Error::ConfigSyntax(fault),
            LoadError::ConfigShape(faults) => Error::ConfigShape(faults),
            LoadError::NotCarried => Error::NotCarried(UnsupportedPart::ExcludeSpec),
            LoadError::ConfigInvalid(found) => Error::ConfigInvalid(found),
            LoadError::WriteFault { before, after } => Error::WriteFault { before, after },
        }
    }
}

impl From<KratesError> for Error {
    ghost use Rattle.run_found.specs.Error.{error_of_krates};

    ghost from_gives = { λ refused error. error ≡ error_of_krates refused };

    fn from(refused: KratesError) -> Error {
        match refused {
            KratesError::Memory => Error::Memory,
            KratesError::NotCarried(what) => Error::NotCarried(what),
            KratesError::MetadataRead(fault) => Error::MetadataRead(fault),
            KratesError::MetadataSyntax => Error::MetadataSyntax,
            KratesError::MetadataShape(fault) => Error::MetadataShape(fault),
            KratesError::NoRoots {
                base,
                excluded,
                unpublished,
            } => Error::NoRoots {
                base,
                excluded,
                unpublished,
            },
        }
    }
}

impl From<OverrideError> for Error {
    ghost use Rattle.run_found.specs.Error.{error_of_override};

    ghost from_gives = { λ refused error. error ≡ error_of_override refused };

    fn from(refused: OverrideError) -> Error {
        match refused {
            OverrideError::Memory => Error::Memory,
            OverrideError::OverrideTwice {
                name,
                first,
                second,
            } => Error::OverrideTwice {
                name,
                first,
                second,
            },
        }
    }
}

impl From<PolicyRefusal> for Error {
    ghost use Rattle.run_found.specs.Error.{error_of_policy};

    ghost from_gives = { λ refused error. error ≡ error_of_policy refused };

    fn from(refused: PolicyRefusal) -> Error {
        match refused {
            PolicyRefusal::Memory => Error::Memory,
            PolicyRefusal::Search(refused) => Error::from(refused),
            PolicyRefusal::Load(refused) => Error::from(refused),
        }
    }
}
