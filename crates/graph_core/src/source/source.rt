//! Sources of crates.
ghost use Rattle.std.specs.Prelude.{◌≡◌, Some, option_copied};
ghost use Rattle.graph_core.specs.source.Source as spec;
ghost use Rattle.graph_core.specs.source.Source.{RegistryIsNotGit};

use deny_text::Text;
use std::alloc::AllocError;
use std::fmt;
use url::{ParseError, Url};

/// What is named in a git repository.
#[derive(Clone, Copy, Debug, PartialEq, Eq)]
pub enum GitSpec {
    /// Nothing: what its default branch has.
    Any,
    Branch,
    Tag,
    Rev,
}

/// Where a crate comes from. Sources are equal and ordered by variant, then by fields, and addresses by their
/// texts.
#[derive(Drop)]
pub enum Source {
    /// The registry crates.io, and whether its sparse index is used.
    CratesIo(bool),
    /// A git repository, at its normal address. The value is that of the branch, tag or revision.
    Git {
        spec: GitSpec,
        url: Url,
        spec_value: Option<Text>,
    },
    /// Another registry, with a git index.
    Registry(Url),
    /// Another registry, with a sparse index. Its address begins with `sparse+`.
    Sparse(Url),
}

/// Why a text is no source.
#[derive(Clone, Copy, Debug, Drop, PartialEq, Eq)]
pub enum SourceError {
    /// The text has no `+`.
    NoPlus,
    /// What is before the first `+` is none of `registry`, `sparse` and `git`.
    UnknownKind,
    /// The address is over 65,536 bytes, or is none.
    BadUrl,
    /// Memory was refused.
    Memory,
}

impl From<AllocError> for SourceError {
    ghost use Rattle.graph_core.specs.declared.source.source.SourceError.TheVariants.{Memory};

    ghost from_gives = { λ _ error. error ≡ Memory };

    fn from(_refused: AllocError) -> SourceError {
        SourceError::Memory
    }
}

impl Source {
    /// The registry crates.io.
    pub fn crates_io(is_sparse: bool) -> Source
        ensures { result ≡ Source.CratesIo is_sparse }
    {
        Source::CratesIo(is_sparse)
    }

    pub fn is_git(&self) -> bool
        ensures { result ≡ spec.is_git self.now }
    {
        matches!(self, Source::Git { .. })
    }

    /// What is named in a git repository. Another source has none.
    pub fn git_spec(&self) -> Option<GitSpec>
        ensures { result ≡ spec.git_spec self.now }
    {
        match self {
            Source::Git { spec, .. } => Some(*spec),
            _ => None,
        }
    }

    pub fn is_registry(&self) -> bool
        ensures { result ≡ spec.is_registry self.now }
    {
        !self.is_git()
    }

    pub fn is_crates_io(&self) -> bool
        ensures { result ≡ spec.is_crates_io self.now }
    {
        matches!(self, Source::CratesIo(_))
    }

    /// Whether an advisory for this source is one for the other; without another, for crates.io.
    pub fn matches_rustsec(&self, sid: Option<&Source>) -> bool
        ensures { result ≡ spec.matches_rustsec self.now (option_copied sid.entry) }
    {
        let Some(other) = sid else {
            return self.is_crates_io();
        };
        match (self, other) {
            (Source::Registry(x), Source::Registry(y)) => x == y,
            (Source::Sparse(x), Source::Sparse(y)) => x == y,
            _ => false,
        }
    }
}

impl fmt::Display for Source {
    ghost output = { λ source. Some (spec.source_text_of source) };

    fn fmt<W: fmt::Write>(&self, f: &mut fmt::Formatter<W>) -> fmt::Result {
        match self {
            Source::CratesIo(_) => {
                f.write_str("registry+https://github.com/rust-lang/crates.io-index")
            }
            Source::Git { url, .. } => write!(f, "git+{url}"),
            Source::Registry(url) => write!(f, "registry+{url}"),
            Source::Sparse(url) => write!(f, "{url}"),
        }
    }
}

/// A source is of a registry exactly where it is not of a git repository.
pub fn registry_is_not_git()
    ensures { RegistryIsNotGit }
{}
