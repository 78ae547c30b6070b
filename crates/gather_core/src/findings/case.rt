//! Crates whose licence no clarification settles.
use diag_core::Coord;
use gather_license::expression::ScannedFile;
use graph_core::Krate;
use spdx_core::ParseError;
use tree_core::file_reads::BadRead;

/// What is seen of a crate's licence files.
#[derive(Clone, Copy)]
pub enum SeenFiles<'a> {
    /// The folder was not listed.
    Unlisted(BadRead),
    /// What comes of each file, in path order.
    Listed(&'a [ScannedFile]),
}

/// What settles a licence.
#[derive(Clone, Copy)]
pub enum ExpressionBasis<'a> {
    /// The crate's field gives the expression.
    Field,
    /// The files are looked at; joined is the expression of the names that they give, where there is one.
    Files {
        seen: SeenFiles<'a>,
        joined: Option<&'a str>,
    },
}

/// A crate whose licence no clarification settles.
#[derive(Clone, Copy)]
pub struct UnclarifiedCrate<'a> {
    pub krate: &'a Krate,
    /// The folder of its manifest.
    pub folder: &'a str,
    /// Where its manifest writes its field.
    pub location: Option<Coord>,
    /// What is wrong with its field.
    pub faults: &'a [ParseError],
    pub settles: ExpressionBasis<'a>,
}
