//! The pairs of a query.
ghost use Rattle.std.specs.Prelude.{◌≡◌, List, length, option_copied, string_bytes, IfOk, OnOk, not};
ghost use Rattle.std.specs.List.{list_any};
ghost use Rattle.graph_core.specs.source.Git as spec;
ghost use Rattle.graph_core.specs.source.Git.{Pair, query_of};

use crate::source::source::GitSpec;
use deny_text::Text;
use std::alloc::{AllocError, Global};
use std::marker::Model;
use url::Url;

/// The pairs of a query, decoded, seen as a list of names with their values.
#[derive(Drop)]
pub(crate) struct QueryPairs {
    pairs: Vec<(Text, Text)>,
}

impl Model for QueryPairs {
    ghost use Rattle.std.specs.Prelude.{List};
    ghost use Rattle.graph_core.specs.source.Git.{Pair};

    ghost Value = { List Pair };

    ghost view = { λ query. query.pairs.items };
}

pub(crate) fn query_pairs(alloc: Global, url: &Url) -> Result<QueryPairs, AllocError>
    ensures { IfOk result (λ query. query ≡ query_of url.now) }
{
    let mut pairs = Vec::new(alloc);
    'pairs: for pair in url.query_pairs() {
        let (name, value) = pair?;
        let name = Text::from(name.into_owned(alloc)?);
        let value = Text::from(value.into_owned(alloc)?);
        pairs.push((name, value))?;
    }
    Ok(QueryPairs { pairs })
}

fn spec_named(name: &str) -> Option<GitSpec>
    ensures { result ≡ spec.spec_named name.now }
{
    match name {
        "branch" | "ref" => Some(GitSpec::Branch),
        "tag" => Some(GitSpec::Tag),
        "rev" => Some(GitSpec::Rev),
        _ => None,
    }
}

fn names_spec(pair: &(Text, Text)) -> bool
    ensures { result ≡ spec.names_spec pair.now }
{
    spec_named(pair.0.as_str()).is_some()
}

fn is_master(pair: &(Text, Text)) -> bool
    ensures { result ≡ spec.is_master pair.now }
{
    pair.0.as_str() == "branch" && pair.1.as_str() == "master"
}

/// The pair where it names a branch, a tag or a revision, else the one found before.
fn later<'p>(found: Option<&'p (Text, Text)>, pair: &'p (Text, Text)) -> Option<&'p (Text, Text)>
    ensures { option_copied result ≡ spec.last_spec_pair (option_copied found.entry) pair.now }
{
    if names_spec(pair) { Some(pair) } else { found }
}

/// The last pair that names a branch, a tag or a revision.
fn last_spec(pairs: &[(Text, Text)]) -> Option<&(Text, Text)>
    ensures { option_copied result ≡ spec.last_spec pairs.now }
{
    let mut found = None;
    'pairs: for pair in pairs {
        found = later(found, pair);
    }
    found
}

/// Appends `name=value`, behind an `&` where text is before it.
fn push_pair(text: &mut String, pair: &(Text, Text)) -> Result<(), AllocError>
    ensures { OnOk result (string_bytes text.new ≡ spec.with_pair (string_bytes text.old) pair.now) }
{
    if !text.is_empty() {
        text.push_str("&")?;
    }
    text.push_str(pair.0.as_str())?;
    text.push_str("=")?;
    text.push_str(pair.1.as_str())
}

/// Appends the pair unless it is `branch=master`.
fn push_unless_master(text: &mut String, pair: &(Text, Text)) -> Result<(), AllocError>
    ensures { OnOk result (string_bytes text.new ≡ spec.with_kept (string_bytes text.old) pair.now) }
{
    if is_master(pair) {
        return Ok(());
    }
    push_pair(text, pair)
}

impl QueryPairs {
    pub(crate) fn len(&self) -> usize
        ensures { result ≡ length self.now }
    {
        self.pairs.len()
    }

    pub(crate) fn spec(&self) -> GitSpec
        ensures { result ≡ spec.spec_in self.now }
    {
        match last_spec(&self.pairs) {
            Some(pair) => spec_named(pair.0.as_str()).unwrap_or(GitSpec::Any),
            None => GitSpec::Any,
        }
    }

    pub(crate) fn value(&self) -> Option<&str>
        ensures { option_copied result ≡ spec.value_in self.now }
    {
        match last_spec(&self.pairs) {
            Some(pair) => Some(pair.1.as_str()),
            None => None,
        }
    }

    pub(crate) fn has_master(&self) -> bool
        ensures { result ≡ list_any spec.is_master self.now }
    {
        self.pairs.iter().any(|pair| is_master(pair))
    }

    /// The pairs but `branch=master`, as the text of a query.
    #[tactic(auto, using(crate::proofs::source::QueryLemmas::kept_pairs))]
    pub(crate) fn text_without_master(&self, alloc: Global) -> Result<String, AllocError>
        ensures { IfOk result (λ text. string_bytes text ≡ spec.text_without_master self.now) }
    {
        let mut text = String::new(alloc);
        'pairs: for pair in &self.pairs {
            push_unless_master(&mut text, pair)?;
        }
        Ok(text)
    }
}
