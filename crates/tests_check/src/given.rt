//! What rows are given: words, expressions, a crate and policies. Each is none where it can't be read or has no memory.
use deny_text::{ListOf, PathBuf, Span, Spanned, Text, TextMap, Texts};
use graph_core::{Krate, Source};
use policy_core::valid::{ValidClarifications, ValidConfig, ValidException};
use policy_parts::entries::Licensee;
use policy_parts::spec::PackageSpec;
use policy_parts::{FileSources, LintLevel, Private, SpannedTexts};
use semver::Version;
use spdx_core::{Expression, ParseMode, Table};
use std::alloc::Global;
use tests_files::tree::number_in;
use url::Url;

/// What a piece of a text may be read as.
pub trait Piece: Drop {
    fn read(alloc: Global, piece: &str) -> Option<Self>;
}

/// What all pieces of a text are read as, which have a mark between two. It is read here for each type, so that nothing is proved
/// of letting the list go for each.
pub fn list_of<T: Piece>(alloc: Global, text: &str, mark: char) -> Option<ListOf<T>> {
    let mut list = ListOf::new(alloc);
    for piece in text.split(mark) {
        let piece = piece.trim();
        if !piece.is_empty() {
            list.push(T::read(alloc, piece)?).ok()?;
        }
    }
    Some(list)
}

impl Piece for usize {
    fn read(_alloc: Global, piece: &str) -> Option<usize> {
        Some(number_in(piece))
    }
}

impl Piece for Text {
    fn read(alloc: Global, piece: &str) -> Option<Text> {
        Text::copy(alloc, piece).ok()
    }
}

impl Piece for Url {
    fn read(alloc: Global, piece: &str) -> Option<Url> {
        Url::parse(alloc, piece).ok()
    }
}

/// What a row names, which is nowhere.
fn nowhere<T>(value: T) -> Spanned<T> {
    let span = Span { start: 0, end: 0 };
    Spanned { value, span }
}

impl Piece for Licensee {
    fn read(alloc: Global, piece: &str) -> Option<Licensee> {
        let read = spdx_core::Licensee::parse_mode(alloc, piece, ParseMode::STRICT, &Table);
        read.ok().map(|value| Licensee(nowhere(value)))
    }
}

/// A crate, and behind a colon what it may have.
impl Piece for ValidException {
    fn read(alloc: Global, piece: &str) -> Option<ValidException> {
        let (krate, names) = piece.split_once(':').unwrap_or((piece, ""));
        let name = Text::copy(alloc, krate.trim()).ok();
        let parts = name.zip(list_of::<Licensee>(alloc, names, ' '));
        parts.map(|(name, allowed)| ValidException {
            spec: PackageSpec {
                name: nowhere(name),
                version_req: None,
            },
            allowed,
            license_files: FileSources::new(alloc),
            file_id: 0,
        })
    }
}

/// An expression, read lax.
pub fn expression(alloc: Global, text: &str) -> Option<Expression> {
    Expression::parse_mode(alloc, text, ParseMode::LAX, &Table).ok()
}

/// The crate `a` of version 1.0.0 in the folder `/w`, which may be published to these registries and comes from this source.
pub fn krate_of(
    alloc: Global,
    publish: Option<Option<Texts>>,
    source: Option<Option<Source>>,
) -> Option<Krate> {
    let names = Text::copy(alloc, "a").ok().zip(Text::copy(alloc, "a").ok());
    let path = PathBuf::copy(alloc, "/w/Cargo.toml").ok();
    let parts = names.zip(path).zip(publish.zip(source));
    parts.map(|(((id, name), manifest_path), (publish, source))| Krate {
        name,
        id,
        version: Version::new(1, 0, 0),
        source,
        authors: Texts::new(alloc),
        repository: None,
        description: None,
        manifest_path,
        license: None,
        license_file: None,
        features: TextMap::new(alloc),
        publish,
        rust_version: None,
    })
}

/// The allowed licences, and the exceptions, in version 1. Private crates, which are passed over or not, are those of the registries
/// `mine` and `ours` and of the address `https://h/a`.
pub fn policy(alloc: Global, allow: &str, excepted: &str, ignore: bool) -> Option<ValidConfig> {
    let allowed = list_of::<Licensee>(alloc, allow, ' ');
    let licences = allowed.zip(list_of::<ValidException>(alloc, excepted, ';'));
    let registries = list_of::<Text>(alloc, "mine ours", ' ');
    let private = registries.zip(list_of::<Url>(alloc, "https://h/a", ' '));
    let parts = licences.zip(private);
    parts.map(|((allowed, exceptions), (registries, ignore_sources))| ValidConfig {
        file_id: 0,
        version: 1,
        private: Private {
            ignore,
            ignore_sources: SpannedTexts::new(alloc),
            registries,
        },
        unused_allowed_license: LintLevel::Warn,
        unused_license_exception: LintLevel::Warn,
        confidence_threshold: 80,
        allowed,
        clarifications: ValidClarifications::new(alloc),
        exceptions,
        ignore_sources,
        include_dev: false,
        include_build: true,
    })
}
