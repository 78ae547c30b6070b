//! Sources read from texts.
ghost use Rattle.std.specs.Prelude.{◌≡◌, ◌⊎◌, Ok, Err, option_copied, option_map, IfOk, IfErr};
ghost use Rattle.graph_core.specs.source.Reading as spec;
ghost use Rattle.graph_core.specs.source.Reading.{AnswersSource, source_of, address_of};
ghost use Rattle.graph_core.specs.declared.source.source.SourceError.TheVariants.{Memory};

use crate::source::git::normalize_git_url;
use crate::source::source::{Source, SourceError};
use deny_text::ancestors::ancestors;
use deny_text::path::{file_name, parent};
use std::alloc::Global;
use url::{ParseError, Url};

/// Bytes of an address at most.
const ADDRESS_LIMIT: usize = 65_536;

fn read_address(alloc: Global, text: &str) -> Result<Url, SourceError>
    ensures { AnswersSource result (address_of text.now) }
{
    if text.len() > ADDRESS_LIMIT {
        return Err(SourceError::BadUrl);
    }
    match Url::parse(alloc, text) {
        Ok(url) => Ok(url),
        Err(ParseError::OutOfMemory | ParseError::Overflow) => Err(SourceError::Memory),
        Err(_) => Err(SourceError::BadUrl),
    }
}

/// The name of the folder that holds the folder of the manifest.
#[tactic(auto, using(crate::proofs::source::FolderLemmas::folders))]
fn folder_above(manifest: &str) -> Option<&str>
    ensures { option_copied result ≡ spec.folder_above manifest.now }
{
    file_name(parent(parent(manifest)?)?)
}

fn is_sparse_at(manifest: Option<&str>, sparse_dir: &str) -> bool
    ensures { result ≡ spec.is_sparse_at (option_copied manifest.entry) sparse_dir.now }
{
    match manifest {
        Some(manifest) => folder_above(manifest).is_some_and(|name| name == sparse_dir),
        None => true,
    }
}

fn sparse_source(alloc: Global, text: &str) -> Result<Source, SourceError>
    ensures { AnswersSource result (spec.sparse_source text.now) }
{
    if text == "sparse+https://index.crates.io/" {
        Ok(Source::CratesIo(true))
    } else {
        Ok(Source::Sparse(read_address(alloc, text)?))
    }
}

fn registry_source(alloc: Global, rest: &str, is_sparse: bool) -> Result<Source, SourceError>
    ensures { AnswersSource result (spec.registry_source is_sparse rest.now) }
{
    if rest == "https://github.com/rust-lang/crates.io-index" {
        Ok(Source::CratesIo(is_sparse))
    } else {
        Ok(Source::Registry(read_address(alloc, rest)?))
    }
}

fn git_source(alloc: Global, rest: &str) -> Result<Source, SourceError>
    ensures { AnswersSource result (spec.git_source rest.now) }
{
    let mut url = read_address(alloc, rest)?;
    let (spec, spec_value) = normalize_git_url(alloc, &mut url)?;
    Ok(Source::Git {
        spec,
        url,
        spec_value,
    })
}

/// What is before the first `+`, and what is behind it.
fn cut_at_plus(text: &str) -> Option<(&str, &str)>
    ensures { option_map (λ cut. (cut.0.now, cut.1.now)) result ≡ spec.cut_at_plus text.now }
{
    text.split_once('+')
}

impl Source {
    /// Reads a source as cargo writes it. A sparse crates.io is reported by the folder of the manifest:
    /// `sparse_dir` is the name of the folder that cargo keeps crates of the sparse index in.
    #[tactic(auto, unfolding(crate::specs::source::Reading::source_of))]
    pub fn from_metadata(
        alloc: Global,
        text: &str,
        manifest: Option<&str>,
        sparse_dir: &str,
    ) -> Result<Source, SourceError>
        ensures ok { IfOk result (λ source. source_of text.now (option_copied manifest.entry) sparse_dir.now
            ≡ Ok source) }
        ensures refused { IfErr result (λ error. (error ≡ Memory)
            ⊎ (source_of text.now (option_copied manifest.entry) sparse_dir.now ≡ Err error)) }
    {
        let Some((kind, rest)) = cut_at_plus(text) else {
            return Err(SourceError::NoPlus);
        };
        match kind {
            "sparse" => sparse_source(alloc, text),
            "registry" => registry_source(alloc, rest, is_sparse_at(manifest, sparse_dir)),
            "git" => git_source(alloc, rest),
            _ => Err(SourceError::UnknownKind),
        }
    }
}
