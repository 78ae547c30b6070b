//! Sources, how they compare, the addresses that they match, and the normal form of git addresses.
use crate::SPARSE_DIR;
use graph_core::source::{Source, SourceError, matches_address, normalize_git_url};
use std::alloc::Global;
use std::cmp::Ordering;
use tests_files::{AnswerText, Asked, Room, Told};
use url::Url;

/// The source that metadata has, with the path of the crate's manifest behind ` at `; or `crates.io`, or `crates.io, sparse`.
fn source_of(alloc: Global, text: &str) -> Result<Source, SourceError> {
    match text {
        "crates.io" => Ok(Source::crates_io(false)),
        "crates.io, sparse" => Ok(Source::crates_io(true)),
        _ => match text.split_once(" at ") {
            Some((text, manifest)) => {
                Source::from_metadata(alloc, text, Some(manifest), SPARSE_DIR)
            }
            None => Source::from_metadata(alloc, text, None, SPARSE_DIR),
        },
    }
}

/// Puts all that a source holds.
fn put_whole(out: &mut AnswerText, source: &Source) {
    match source {
        Source::CratesIo(is_sparse) => write!(out, "CratesIo({is_sparse})"),
        Source::Git {
            spec,
            url,
            spec_value,
        } => write!(out, "{spec:?} {spec_value:?} {url}"),
        Source::Registry(url) => write!(out, "Registry {url}"),
        Source::Sparse(url) => write!(out, "Sparse {url}"),
    }
}

/// Puts which kinds a source is of, and what it names in a git repository.
fn put_kinds(out: &mut AnswerText, source: &Source) {
    for (is_so, kind) in [
        (source.is_crates_io(), "crates.io "),
        (source.is_registry(), "registry "),
        (source.is_git(), "git "),
    ] {
        out.put(if is_so { kind } else { "" });
    }
    write!(out, "{:?}", source.git_spec());
}

fn put_match(alloc: Global, out: &mut AnswerText, source: &Source, address: &str, exact: bool) {
    match &Url::parse(alloc, address) {
        Ok(address) => write!(out, "{}", matches_address(source, address, exact)),
        Err(error) => write!(out, "{error:?}"),
    }
}

/// Puts the normal form of a git repository's address, and what its query names.
fn put_normal(alloc: Global, text: &str, out: &mut AnswerText) {
    match Url::parse(alloc, text) {
        Ok(mut url) => match normalize_git_url(alloc, &mut url) {
            Ok((spec, value)) => write!(out, "{spec:?} {value:?} {}", url.as_str()),
            Err(_) => out.want_memory(),
        },
        Err(error) => write!(out, "{error:?}"),
    }
}

/// What answers of sources, and of what is behind the bar.
pub struct Sources;

impl Room for Sources {
    fn answer(&self, asked: &Asked<'_>, out: &mut AnswerText) -> Told {
        let alloc = asked.alloc;
        let (text, other) = asked.text.split_once(" | ").unwrap_or((asked.text, ""));
        match (asked.group, &source_of(alloc, text)) {
            ("normal addresses", _) => put_normal(alloc, text, out),
            ("printed sources", Ok(source)) => write!(out, "{source}"),
            ("kinds of sources", Ok(source)) => put_kinds(out, source),
            ("exact addresses", Ok(source)) => put_match(alloc, out, source, other, true),
            ("beginnings of addresses", Ok(source)) => put_match(alloc, out, source, other, false),
            // An advisory for a source is one for another, or for `none`.
            ("sources of advisories", Ok(source)) => {
                let other = source_of(alloc, other).ok();
                write!(out, "{}", source.matches_rustsec(other.as_ref()));
            }
            (_, Ok(source)) => put_whole(out, source),
            (_, Err(error)) => write!(out, "{error:?}"),
        }
        Told::Answer
    }
}

/// The sign between two sources; a question mark where the order and equality differ.
fn sign(one: &Source, other: &Source) -> &'static str {
    match (one.cmp(other), one == other) {
        (Ordering::Less, false) => "<",
        (Ordering::Equal, true) => "=",
        (Ordering::Greater, false) => ">",
        _ => "?",
    }
}

fn put_sign(alloc: Global, one: &str, other: &str, out: &mut AnswerText) {
    match &source_of(alloc, one).ok().zip(source_of(alloc, other).ok()) {
        Some((one, other)) => out.put(sign(one, other)),
        None => out.put("no source"),
    }
}

/// Puts for the source of each line a line with the signs between it and each of them.
pub fn put_order(alloc: Global, text: &str, out: &mut AnswerText) {
    for one in text.lines() {
        for other in text.lines() {
            put_sign(alloc, one, other, out);
        }
        out.put("\n");
    }
}
