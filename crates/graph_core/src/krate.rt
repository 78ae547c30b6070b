//! A crate, as metadata tells of it.
ghost use Rattle.std.specs.Prelude.{◌≡◌, ◌↔◌, Some, IsTrue};
ghost use Rattle.std.specs.List.{list_all};
ghost use Rattle.std.specs.Ordering.{eq_by_cmp};
ghost use Rattle.std.specs.Cmp.{eq_by_cmp_equiv, partial_equiv_from_equiv, partial_order_from_total};
ghost use Rattle.std.specs.Cmp.Rules.{comparing};
ghost use Rattle.std.proofs.Common.{rules};
ghost use Rattle.graph_core.specs.Krate as spec;
ghost use Rattle.graph_core.specs.Krate.{krate_order, krate_order_total, record_of, title_of, SourceMatches};

use crate::source::{Source, matches_address};
use deny_text::{PathBuf, Text, TextMap, Texts};
use semver::Version;
use std::cmp::Ordering;
use std::fmt;
use url::Url;

/// The features of a crate by name: what each turns on.
pub type FeatureMap = TextMap<Texts>;

/// A crate. Crates are equal and ordered by their ids alone.
#[derive(Drop)]
pub struct Krate {
    pub name: Text,
    /// The package id, as cargo writes it.
    pub id: Text,
    pub version: Version,
    /// Where it comes from. A crate of the workspace, and one at a path, has none.
    pub source: Option<Source>,
    pub authors: Texts,
    pub repository: Option<Text>,
    pub description: Option<Text>,
    /// The path of its manifest.
    pub manifest_path: PathBuf,
    /// The `license` field of the manifest, as it is there.
    pub license: Option<Text>,
    /// The `license-file` field of the manifest, by the folder of the manifest.
    pub license_file: Option<PathBuf>,
    pub features: FeatureMap,
    /// The registries that it may be published to. Without a list it may be published to any.
    pub publish: Option<Texts>,
    /// The least version of Rust that it is built with, as its text.
    pub rust_version: Option<Text>,
}

/// Whether a list holds a text.
fn holds(texts: &[Text], text: &Text) -> bool
    ensures { result ≡ spec.has_text texts.now text.now }
{
    texts.iter().any(|other| other.as_str() == text.as_str())
}

/// Whether a list holds each of some texts.
fn holds_all(texts: &[Text], names: &[Text]) -> bool
    ensures { result ≡ list_all (spec.has_text texts.now) names.now }
{
    names.iter().all(|name| holds(texts, name))
}

impl Krate {
    /// Whether it is published at most to registries of the list: its publish list is there, and each name in
    /// it is among them.
    pub fn is_private(&self, registries: &Texts) -> bool
        ensures { result ≡ spec.is_private registries.now self.now.publish }
    {
        match &self.publish {
            Some(names) => holds_all(registries.items(), names.items()),
            None => false,
        }
    }

    /// Whether it comes from an address. An exact match asks for equal hosts and paths, another for a path
    /// that the address begins. A crate without a source matches none.
    pub fn matches_url(&self, url: &Url, exact: bool) -> bool
        ensures { IsTrue result ↔ SourceMatches exact self.now.source url.now }
    {
        match &self.source {
            Some(source) => matches_address(source, url, exact),
            None => false,
        }
    }

    pub fn is_crates_io(&self) -> bool
        ensures { result ≡ spec.is_crates_io self.now.source }
    {
        match &self.source {
            Some(source) => source.is_crates_io(),
            None => false,
        }
    }

    pub fn is_git_source(&self) -> bool
        ensures { result ≡ spec.is_git_source self.now.source }
    {
        match &self.source {
            Some(source) => source.is_git(),
            None => false,
        }
    }

    pub fn is_registry(&self) -> bool
        ensures { result ≡ spec.is_registry self.now.source }
    {
        match &self.source {
            Some(source) => source.is_registry(),
            None => false,
        }
    }
}

impl fmt::Display for Krate {
    ghost output = { λ krate. Some (title_of (record_of krate)) };

    fn fmt<W: fmt::Write>(&self, f: &mut fmt::Formatter<W>) -> fmt::Result {
        write!(f, "{} = {}", self.name, self.version)
    }
}

impl PartialEq for Krate {
    ghost eq = { eq_by_cmp krate_order };

    ghost laws = { partial_equiv_from_equiv (eq_by_cmp_equiv krate_order_total) };

    fn eq(&self, other: &Krate) -> bool {
        self.cmp(other).is_eq()
    }
}

impl Eq for Krate {
    ghost laws = { eq_by_cmp_equiv krate_order_total };
}

impl PartialOrd for Krate {
    ghost partial_cmp = { λ x y. Some (krate_order x y) };

    ghost laws = { partial_order_from_total krate_order_total };

    fn partial_cmp(&self, other: &Krate) -> Option<Ordering> {
        Some(self.cmp(other))
    }
}

impl Ord for Krate {
    ghost cmp = { krate_order };

    ghost total = { krate_order_total };

    ghost matches_partial_cmp = { Prim.search (comparing, rules) };

    ghost matches_eq = { Prim.search (comparing, rules) };

    fn cmp(&self, other: &Krate) -> Ordering {
        self.id.cmp(&other.id)
    }
}
