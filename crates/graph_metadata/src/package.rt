//! The rows of packages.
ghost use Rattle.std.specs.Prelude.{◌≡◌, map, option_copied, IfOk};
ghost use Rattle.std.specs.FinMap as finmap;
ghost use Rattle.serde_json.specs.View.{view, items_view, members_view};
ghost use Rattle.semver.specs.Identifiers.{parts_of};
ghost use Rattle.graph_core.specs.Krate.{record_of};
ghost use Rattle.graph_metadata.specs.Packages as spec;
ghost use Rattle.graph_metadata.specs.Rows.{named_of, described_of, listed_of, copies_in};
ghost use Rattle.graph_metadata.specs.Told.{AnswersMeta};

use crate::fault::{MetaError, MetaReason, ObjectPlace, fault_at};
use crate::shape::{
    IdPlaces, new_at, object_here, optional_text_at, optional_texts_at, text_at, texts_in,
    texts_or_empty_at,
};
use deny_text::path::parent;
use deny_text::text::copied;
use deny_text::{PathBuf, Text, Texts};
use graph_core::{FeatureMap, Krate, Source, SourceError};
use semver::Version;
use serde_json::{Map, Value};
use std::alloc::{AllocError, Global};

/// The id of a package, which no package before it has.
#[tactic(auto, unfolding(crate::specs::Packages::id_row))]
fn id_row<'v>(
    alloc: Global,
    known: &IdPlaces,
    index: usize,
    value: &'v Value,
) -> Result<&'v str, MetaError>
    ensures { AnswersMeta (λ id. id.now) result (spec.id_row known.now index (view value.now)) }
{
    let id = text_at(alloc, ObjectPlace::Package(index), "id", value)?;
    new_at(alloc, known, ObjectPlace::Package(index), index, id)
}

/// The path of the manifest, which is in a folder.
#[tactic(auto, unfolding(crate::specs::Packages::manifest_row))]
fn manifest_row<'v>(alloc: Global, index: usize, value: &'v Value) -> Result<&'v str, MetaError>
    ensures { AnswersMeta (λ path. path.now) result (spec.manifest_row index (view value.now)) }
{
    let path = text_at(alloc, ObjectPlace::Package(index), "manifest_path", value)?;
    match parent(path) {
        Some(_) => Ok(path),
        None => Err(fault_at(
            alloc,
            ObjectPlace::Package(index),
            "manifest_path",
            MetaReason::NoFolder,
        )),
    }
}

#[tactic(auto, unfolding(crate::specs::Packages::version_row))]
fn version_row(alloc: Global, index: usize, value: &Value) -> Result<Version, MetaError>
    ensures { AnswersMeta parts_of result (spec.version_row index (view value.now)) }
{
    let text = text_at(alloc, ObjectPlace::Package(index), "version", value)?;
    match Version::parse(alloc, text) {
        Ok(version) => Ok(version),
        Err(error) if error == semver::Error::from(AllocError) => Err(MetaError::Memory),
        Err(_) => Err(fault_at(
            alloc,
            ObjectPlace::Package(index),
            "version",
            MetaReason::BadVersion,
        )),
    }
}

/// The source of a text. One that is refused is none.
fn source_in(
    alloc: Global,
    sparse_dir: &str,
    manifest: &str,
    text: Option<&str>,
) -> Result<Option<Source>, AllocError>
    ensures { IfOk result (λ source. source
        ≡ spec.source_in sparse_dir.now manifest.now (option_copied text.entry)) }
{
    let Some(text) = text else {
        return Ok(None);
    };
    match Source::from_metadata(alloc, text, Some(manifest), sparse_dir) {
        Ok(source) => Ok(Some(source)),
        Err(SourceError::Memory) => Err(AllocError),
        Err(_) => Ok(None),
    }
}

#[tactic(auto, unfolding(crate::specs::Packages::source_row))]
fn source_row(
    alloc: Global,
    sparse_dir: &str,
    index: usize,
    manifest: &str,
    value: &Value,
) -> Result<Option<Source>, MetaError>
    ensures { AnswersMeta (λ source. source) result
        (spec.source_row sparse_dir.now index manifest.now (view value.now)) }
{
    let text = optional_text_at(alloc, ObjectPlace::Package(index), "source", value)?;
    Ok(source_in(alloc, sparse_dir, manifest, text)?)
}

/// What one feature turns on.
fn feature_row(alloc: Global, index: usize, name: &str, value: &Value) -> Result<Texts, MetaError>
    ensures { AnswersMeta (λ texts. texts) result (spec.feature_row index name.now (view value.now)) }
{
    match value {
        Value::Array(items) => texts_in(alloc, ObjectPlace::Features(index), name, items),
        _ => Err(fault_at(
            alloc,
            ObjectPlace::Features(index),
            name,
            MetaReason::WrongKind,
        )),
    }
}

fn features_in(
    alloc: Global,
    index: usize,
    members: &Map<String, Value>,
) -> Result<FeatureMap, MetaError>
    ensures { AnswersMeta (λ features. features) result
        (spec.features_in index finmap.empty (members_view members.now.entries)) }
{
    let mut features = FeatureMap::new(alloc);
    'features: for (name, value) in members {
        let texts = feature_row(alloc, index, name.as_str(), value)?;
        features.insert(Text::copy(alloc, name.as_str())?, texts)?;
    }
    Ok(features)
}

fn features_row(alloc: Global, index: usize, value: &Value) -> Result<FeatureMap, MetaError>
    ensures { AnswersMeta (λ features. features) result (spec.features_row index (view value.now)) }
{
    match value.get("features") {
        None => Ok(FeatureMap::new(alloc)),
        Some(Value::Object(members)) => features_in(alloc, index, members),
        Some(_) => Err(fault_at(
            alloc,
            ObjectPlace::Package(index),
            "features",
            MetaReason::WrongKind,
        )),
    }
}

/// The keys of a package that have to be there.
#[derive(Drop)]
struct NamedRow<'v> {
    name: &'v str,
    id: &'v str,
    manifest_path: &'v str,
    version: Version,
}

#[tactic(auto, unfolding(crate::specs::Packages::named_row))]
fn named_row<'v>(
    alloc: Global,
    known: &IdPlaces,
    index: usize,
    value: &'v Value,
) -> Result<NamedRow<'v>, MetaError>
    ensures { AnswersMeta named_of result (spec.named_row known.now index (view value.now)) }
{
    let name = text_at(alloc, ObjectPlace::Package(index), "name", value)?;
    let id = id_row(alloc, known, index, value)?;
    let manifest_path = manifest_row(alloc, index, value)?;
    let version = version_row(alloc, index, value)?;
    Ok(NamedRow {
        name,
        id,
        manifest_path,
        version,
    })
}

/// The strings of a package that may be null.
#[derive(Drop)]
struct DescribedRow<'v> {
    license: Option<&'v str>,
    license_file: Option<&'v str>,
    source: Option<Source>,
    repository: Option<&'v str>,
    description: Option<&'v str>,
    rust_version: Option<&'v str>,
}

#[tactic(auto, unfolding(crate::specs::Packages::described_row))]
fn described_row<'v>(
    alloc: Global,
    sparse_dir: &str,
    index: usize,
    manifest: &str,
    value: &'v Value,
) -> Result<DescribedRow<'v>, MetaError>
    ensures { AnswersMeta described_of result
        (spec.described_row sparse_dir.now index manifest.now (view value.now)) }
{
    let place = ObjectPlace::Package(index);
    let license = optional_text_at(alloc, place, "license", value)?;
    let license_file = optional_text_at(alloc, place, "license_file", value)?;
    let source = source_row(alloc, sparse_dir, index, manifest, value)?;
    let repository = optional_text_at(alloc, place, "repository", value)?;
    let description = optional_text_at(alloc, place, "description", value)?;
    let rust_version = optional_text_at(alloc, place, "rust_version", value)?;
    Ok(DescribedRow {
        license,
        license_file,
        source,
        repository,
        description,
        rust_version,
    })
}

/// The lists of a package.
#[derive(Drop)]
struct ListedRow {
    authors: Texts,
    features: FeatureMap,
    publish: Option<Texts>,
}

#[tactic(auto, unfolding(crate::specs::Packages::listed_row))]
fn listed_row(alloc: Global, index: usize, value: &Value) -> Result<ListedRow, MetaError>
    ensures { AnswersMeta listed_of result (spec.listed_row index (view value.now)) }
{
    let place = ObjectPlace::Package(index);
    let authors = texts_or_empty_at(alloc, place, "authors", value)?;
    let features = features_row(alloc, index, value)?;
    let publish = optional_texts_at(alloc, place, "publish", value)?;
    Ok(ListedRow {
        authors,
        features,
        publish,
    })
}

/// A copy of a path, or of none.
fn copied_path(alloc: Global, path: Option<&str>) -> Result<Option<PathBuf>, AllocError>
    ensures { IfOk result (λ copy. copy ≡ option_copied path.entry) }
{
    match path {
        Some(path) => Ok(Some(PathBuf::copy(alloc, path)?)),
        None => Ok(None),
    }
}

/// The texts of a crate, copied out of its rows.
#[derive(Drop)]
struct Copies {
    name: Text,
    id: Text,
    manifest_path: PathBuf,
    license: Option<Text>,
    license_file: Option<PathBuf>,
    repository: Option<Text>,
    description: Option<Text>,
    rust_version: Option<Text>,
}

fn copies_of(
    alloc: Global,
    named: &NamedRow<'_>,
    described: &DescribedRow<'_>,
) -> Result<Copies, AllocError>
    ensures { IfOk result (λ copies. copies
        ≡ copies_in (named_of named.now) (described_of described.now)) }
{
    let name = Text::copy(alloc, named.name)?;
    let id = Text::copy(alloc, named.id)?;
    let manifest_path = PathBuf::copy(alloc, named.manifest_path)?;
    let license = copied(alloc, described.license)?;
    let license_file = copied_path(alloc, described.license_file)?;
    let repository = copied(alloc, described.repository)?;
    let description = copied(alloc, described.description)?;
    let rust_version = copied(alloc, described.rust_version)?;
    Ok(Copies {
        name,
        id,
        manifest_path,
        license,
        license_file,
        repository,
        description,
        rust_version,
    })
}

fn krate_with(
    alloc: Global,
    named: NamedRow<'_>,
    described: DescribedRow<'_>,
    listed: ListedRow,
) -> Result<Krate, AllocError>
    ensures { IfOk result (λ krate. record_of krate
        ≡ spec.record_with (named_of named.entry) (described_of described.entry) (listed_of listed)) }
{
    let copies = copies_of(alloc, &named, &described)?;
    Ok(Krate {
        name: copies.name,
        id: copies.id,
        version: named.version,
        source: described.source,
        authors: listed.authors,
        repository: copies.repository,
        description: copies.description,
        manifest_path: copies.manifest_path,
        license: copies.license,
        license_file: copies.license_file,
        features: listed.features,
        publish: listed.publish,
        rust_version: copies.rust_version,
    })
}

/// The crate of the package at an index.
#[tactic(auto, unfolding(crate::specs::Packages::package_row))]
fn package_row(
    alloc: Global,
    sparse_dir: &str,
    known: &IdPlaces,
    index: usize,
    value: &Value,
) -> Result<Krate, MetaError>
    ensures { AnswersMeta record_of result (spec.package_row sparse_dir.now known.now index (view value.now)) }
{
    let value = object_here(alloc, ObjectPlace::Package(index), value)?;
    let named = named_row(alloc, known, index, value)?;
    let described = described_row(alloc, sparse_dir, index, named.manifest_path, value)?;
    let listed = listed_row(alloc, index, value)?;
    Ok(krate_with(alloc, named, described, listed)?)
}

/// The crates of the packages, in the order of the list.
pub(crate) fn packages_in(
    alloc: Global,
    sparse_dir: &str,
    known: &IdPlaces,
    packages: &[Value],
) -> Result<Vec<Krate>, MetaError>
    ensures { AnswersMeta (λ crates. map record_of crates.items) result
        (spec.packages_in sparse_dir.now known.now (items_view packages.now)) }
{
    let mut crates = Vec::with_capacity(alloc, packages.len())?;
    'packages: for (index, value) in packages.iter().enumerate() {
        let krate = package_row(alloc, sparse_dir, known, index, value)?;
        crates.push(krate)?;
    }
    Ok(crates)
}
