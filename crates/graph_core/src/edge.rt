//! Edges between crates.
use deny_text::ListOf;

/// What a dependency is for.
#[derive(Clone, Copy, Debug, PartialEq, Eq)]
pub enum DepKind {
    Normal,
    Dev,
    Build,
}

/// A set of kinds of dependency.
#[derive(Clone, Copy, Debug, PartialEq, Eq)]
pub struct Kinds {
    pub normal: bool,
    pub dev: bool,
    pub build: bool,
}

/// A dependency on the crate at a place among the crates of the metadata.
#[derive(Clone, Copy, Debug, PartialEq, Eq)]
pub struct Edge {
    pub to: usize,
    pub kinds: Kinds,
}

/// The dependencies of a crate, in the order of the metadata.
pub type Edges = ListOf<Edge>;
