//! Addresses of git repositories.
ghost use Rattle.std.specs.Prelude.{◌≡◌, ◌⊎◌, IfOk, OnOk, OnErr};
ghost use Rattle.graph_core.specs.source.Git as spec;
ghost use Rattle.graph_core.specs.source.Git.{query_of, with_normal_path, without_master, normal_address, git_spec_of};
ghost use Rattle.graph_core.specs.source.Git.{IsPathOnTheWay, value_of};

use crate::source::query::{QueryPairs, query_pairs};
use crate::source::source::GitSpec;
use deny_text::Text;
use std::alloc::{AllocError, Global};
use url::{ParseResult, Url};

/// Takes `.git` from the end of the path.
fn cut_extension(alloc: Global, url: &mut Url) -> ParseResult<()>
    ensures ok { OnOk result (url.new ≡ spec.without_extension url.old) }
    ensures err { OnErr result (url.new ≡ url.old) }
{
    let path = url.path();
    if !path.as_bytes().ends_with(b".git") || url.cannot_be_a_base() {
        return Ok(());
    }
    let front = Text::copy(alloc, path.split_at(path.len() - 4).0)?;
    url.set_path(front.as_str())
}

/// Takes one `/` from the end of the path, unless it is `/` alone.
fn cut_slash(url: &mut Url) -> ParseResult<()>
    ensures ok { OnOk result (url.new ≡ spec.without_last_slash url.old) }
    ensures err { OnErr result (url.new ≡ url.old) }
{
    if url.cannot_be_a_base() {
        return Ok(());
    }
    let mut segments = url.path_segments_mut()?;
    segments.pop_if_empty()
}

fn normalize_path(alloc: Global, url: &mut Url) -> ParseResult<()>
    ensures ok { OnOk result (url.new ≡ with_normal_path url.old) }
    ensures err { OnErr result ((url.new ≡ url.old) ⊎ (url.new ≡ spec.without_extension url.old)) }
{
    cut_extension(alloc, url)?;
    cut_slash(url)
}

/// Takes `branch=master` out of the query, which has these pairs.
fn cut_master(alloc: Global, url: &mut Url, pairs: &QueryPairs) -> ParseResult<()>
    ensures ok { OnOk result (url.new ≡ without_master pairs.now url.old) }
    ensures err { OnErr result (url.new ≡ url.old) }
{
    if !pairs.has_master() {
        return Ok(());
    }
    if pairs.len() == 1 {
        return url.set_query(None);
    }
    let query = pairs.text_without_master(alloc)?;
    url.set_query(Some(query.as_str()))
}

/// Brings the address of a git repository into its normal form: its path without `.git` and then without a
/// `/` at the end, its query without `branch=master`. Answers what its query named, and the value of that.
/// Where memory is wanted its query is as before, and its path as before, without `.git`, or in normal form.
pub fn normalize_git_url(
    alloc: Global,
    url: &mut Url,
) -> Result<(GitSpec, Option<Text>), AllocError>
    ensures address { OnOk result (url.new ≡ normal_address url.old) }
    ensures spec { IfOk result (λ named. named.0 ≡ git_spec_of url.old) }
    ensures value { IfOk result (λ named. named.1 ≡ value_of url.old) }
    ensures err { OnErr result (IsPathOnTheWay url.old url.new) }
{
    let pairs = query_pairs(alloc, url)?;
    let spec = pairs.spec();
    let value = match pairs.value() {
        Some(value) => Some(Text::copy(alloc, value)?),
        None => None,
    };
    normalize_path(alloc, url).map_err(|_no_room| AllocError)?;
    cut_master(alloc, url, &pairs).map_err(|_no_room| AllocError)?;
    Ok((spec, value))
}
