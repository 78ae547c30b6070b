//! What `why` says of a crate, before it is put into lines or into an object.
use deny_text::{ListOf, PathBuf, Text, Texts};
use spdx_core::certificates::TermPlaces;

/// A crate by its id, its name and its version.
#[derive(Drop)]
pub struct CrateTitle {
    pub id: Text,
    pub name: Text,
    pub version: Text,
}

/// Crates in order.
pub type CrateTitles = ListOf<CrateTitle>;

/// Whether the policy allows a term, and where the entry that does is: its file, line and column.
#[derive(Drop)]
pub enum TermHit {
    Allowed(Text),
    /// By an exception.
    Excepted(Text),
    NotAllowed,
}

/// A term of the expression, as it prints.
#[derive(Drop)]
pub struct TermAnswer {
    pub text: Text,
    pub hit: TermHit,
}

/// Terms in the order of the expression.
pub type TermAnswers = ListOf<TermAnswer>;

/// A verdict with what shows it: places of terms, from 0 in the order of the expression.
#[derive(Drop)]
pub enum VerdictAnswer {
    /// The terms that it rests on.
    Accepted {
        choice: TermPlaces,
    },
    Rejected {
        /// The terms that are not allowed of the choice with the fewest such.
        allow: TermPlaces,
        /// Terms of which one at least has to be allowed.
        blocks: TermPlaces,
    },
    Unlicensed,
    /// The policy passes it over as a private crate.
    PassedOver,
}

/// The expression of a crate.
#[derive(Drop)]
pub struct LicenseAnswer {
    pub text: Text,
    /// What it was retrieved via.
    pub source: Text,
    /// Where it begins: its file, line and column.
    pub place: Text,
}

/// What came of a read.
#[derive(Drop)]
pub enum ReadSaid {
    /// A manifest or a listing was read.
    Read,
    /// A licence file was read, and is the text of this licence, with its score in hundredths.
    Known { name: Text, score: u8 },
    /// A licence file was read, and is no text that is known.
    Unknown { score: u8 },
    NotThere,
    /// A file was wanted, and a folder is there.
    Folder,
    /// A folder was wanted, and something else is there.
    NoFolder,
    NotUtf8,
    Failed,
}

/// A read of one of the crate's files.
#[derive(Drop)]
pub struct ReadAnswer {
    pub path: PathBuf,
    pub said: ReadSaid,
}

/// Reads in the order of the calls.
pub type ReadAnswers = ListOf<ReadAnswer>;

/// What of a policy asks that files have hashes.
#[derive(Clone, Copy, Debug, PartialEq, Eq)]
pub enum Asking {
    Clarification,
    Exception,
}

/// Why a file does not match.
#[derive(Clone, Copy, Debug, PartialEq, Eq)]
pub enum Unmatched {
    /// It has another hash than the one that is wanted.
    Hash { found: u32, wanted: u32 },
    NotThere,
    /// It is no text.
    NoText,
    Failed,
}

/// A clarification or an exception that is for the crate and does not hold.
#[derive(Drop)]
pub struct UnmetAnswer {
    pub asking: Asking,
    /// Where it names the crate: its file, line and column.
    pub place: Text,
    /// The first of its files that does not match.
    pub path: PathBuf,
    pub by: Unmatched,
}

/// What does not hold, the clarifications first.
pub type UnmetAnswers = ListOf<UnmetAnswer>;

/// What is said of a crate that is checked.
#[derive(Drop)]
pub struct CrateAnswer {
    pub title: CrateTitle,
    pub verdict: VerdictAnswer,
    /// None where the crate has no expression.
    pub license: Option<LicenseAnswer>,
    /// None of a crate that is passed over.
    pub terms: TermAnswers,
    /// The crates of the shortest walk that leads to it, from a root to the one that needs it; none of a root.
    pub needed_by: CrateTitles,
    pub reads: ReadAnswers,
    pub unmet: UnmetAnswers,
    pub notes: Texts,
}
