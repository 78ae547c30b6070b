//! Specs of crates that are left out.
ghost use Rattle.std.specs.Prelude.{◌≡◌, ◌++◌, Some, map, option_map, IfOk, OnOk};
ghost use Rattle.std.specs.List.{filter_map, list_any};
ghost use Rattle.std.specs.Ordering.{is_eq};
ghost use Rattle.std.specs.Result.{result_ok};
ghost use Rattle.semver.specs.Identifiers.{parts_of};
ghost use Rattle.semver.specs.Parse.{version_parts};
ghost use Rattle.graph_core.specs.Krate.{record_of};
ghost use Rattle.graph_core.specs.selection.Choice as spec;
ghost use Rattle.deny_text.specs.Fronts.{StandsInFront};
ghost use Rattle.graph_core.specs.selection.Choice.{exclude_spec_of, spec_read};
ghost use Rattle.graph_core.specs.selection.ExcludeOrder.{AreInSearchOrder, AreSorted, key_behind, key_of, key_order, key_with};
ghost use Rattle.graph_core.specs.selection.ExcludeOrder.{version_key};

use crate::Krate;
use deny_text::cut::{cut_at_colon, cut_at_sign};
use deny_text::{ListOf, Text, Texts};
use semver::Version;
use std::alloc::{AllocError, Global};
use std::cmp::Ordering;

/// A spec of crates that are left out: each crate of the name, or those of them that have the version.
/// Versions are equal with their pre-releases and their build parts.
#[derive(Drop)]
pub struct ExcludeSpec {
    pub name: Text,
    pub version: Option<Version>,
}

/// Specs, of which each leaves crates out.
pub type ExcludeSpecs = ListOf<ExcludeSpec>;

/// What is before the first `@`, or without one before the first `:`, and what is behind it.
fn first_cut(text: &str) -> Option<(&str, &str)>
    ensures { option_map (λ cut. (cut.0.now, cut.1.now)) result ≡ spec.first_cut text.now }
{
    match cut_at_sign(text) {
        Some(cut) => Some(cut),
        None => cut_at_colon(text),
    }
}

/// The full version that a text is; none where it is not one.
fn version_in(alloc: Global, text: &str) -> Result<Option<Version>, AllocError>
    ensures { IfOk result (λ version. option_map parts_of version ≡ result_ok (version_parts text.now)) }
{
    match Version::parse(alloc, text) {
        Ok(version) => Ok(Some(version)),
        Err(error) if error == semver::Error::from(AllocError) => Err(AllocError),
        Err(_) => Ok(None),
    }
}

fn spec_with(alloc: Global, name: &str, rest: &str) -> Result<Option<ExcludeSpec>, AllocError>
    ensures { IfOk result (λ read. option_map exclude_spec_of read
        ≡ spec.spec_with name.now (version_parts rest.now)) }
{
    match version_in(alloc, rest)? {
        Some(version) => Ok(Some(ExcludeSpec {
            name: Text::copy(alloc, name)?,
            version: Some(version),
        })),
        None => Ok(None),
    }
}

fn same_version(version: &Version, other: &Version) -> bool
    ensures { result ≡ spec.same_version (parts_of version.now) (parts_of other.now) }
{
    version.major == other.major
        && version.minor == other.minor
        && version.patch == other.patch
        && version.pre.as_str() == other.pre.as_str()
        && version.build.as_str() == other.build.as_str()
}

fn fits(wanted: &Option<Version>, version: &Version) -> bool
    ensures { result ≡ spec.fits (option_map parts_of wanted.now) (parts_of version.now) }
{
    match wanted {
        Some(wanted) => same_version(wanted, version),
        None => true,
    }
}

impl ExcludeSpec {
    /// Reads `name@version`, `name:version` or `name`. It is cut at the first `@`, or without one at the
    /// first `:`, and the version has to be a full one. None is an unreadable spec. The name may be empty.
    pub fn read(alloc: Global, text: &str) -> Result<Option<ExcludeSpec>, AllocError>
        ensures { IfOk result (λ read. option_map exclude_spec_of read ≡ spec_read text.now) }
    {
        match first_cut(text) {
            Some((name, rest)) => spec_with(alloc, name, rest),
            None => Ok(Some(ExcludeSpec {
                name: Text::copy(alloc, text)?,
                version: None,
            })),
        }
    }

    /// Whether it leaves a crate out.
    pub fn excludes(&self, krate: &Krate) -> bool
        ensures { result ≡ spec.excludes (exclude_spec_of self.now) (record_of krate.now) }
    {
        self.name.as_str() == krate.name.as_str() && fits(&self.version, &krate.version)
    }
}

/// Appends the spec that a text is read as. An unreadable one is passed over.
fn push_spec(alloc: Global, specs: &mut ExcludeSpecs, text: &Text) -> Result<(), AllocError>
    ensures ok { OnOk result (map exclude_spec_of specs.new ≡ map exclude_spec_of specs.old ++ spec.read_one text.now) }
    ensures front { StandsInFront specs.old specs.new }
{
    if let Some(read) = ExcludeSpec::read(alloc, text.as_str())? {
        specs.push(read)?;
    }
    Ok(())
}

/// Appends the specs that texts are read as. Unreadable ones are passed over. Where memory is wanted the specs
/// so far stay, in front of those that were read.
pub fn read_specs(alloc: Global, specs: &mut ExcludeSpecs, texts: &[Text]) -> Result<(), AllocError>
    ensures ok { OnOk result (map exclude_spec_of specs.new ≡ map exclude_spec_of specs.old ++ filter_map spec_read texts.now) }
    ensures front { StandsInFront specs.old specs.new }
{
    'texts: for text in texts {
        push_spec(alloc, specs, text)?;
    }
    Ok(())
}

/// Whether a spec holds a `/` or a `#`. Such a spec is not carried.
fn is_unsupported(text: &Text) -> bool
    ensures { result ≡ spec.is_unsupported text.now }
{
    text.as_str()
        .as_bytes()
        .iter()
        .any(|byte| *byte == b'/' || *byte == b'#')
}

/// Whether one of the specs holds a `/` or a `#`.
pub fn has_unsupported(texts: &Texts) -> bool
    ensures { result ≡ list_any spec.is_unsupported texts.now }
{
    texts.items().iter().any(|text| is_unsupported(text))
}

/// The order of versions: by their numbers, and then by their texts.
fn compare_versions(version: &Version, other: &Version) -> Ordering
    ensures { result ≡ key_order (version_key (Some (parts_of version.now)))
        (version_key (Some (parts_of other.now))) }
{
    let small = version
        .minor
        .cmp(&other.minor)
        .then(version.patch.cmp(&other.patch));
    let numbers = version.major.cmp(&other.major).then(small);
    let pre = version.pre.as_str().cmp(other.pre.as_str());
    numbers.then(pre.then(version.build.as_str().cmp(other.build.as_str())))
}

/// The order of versions, before all of which none is there.
fn compare_wanted(version: &Option<Version>, other: Option<&Version>) -> Ordering
    ensures { result ≡ key_order (version_key (option_map parts_of version.now))
        (version_key (option_map (λ version. parts_of version.now) other.entry)) }
{
    match (version, other) {
        (None, None) => Ordering::Equal,
        (None, Some(_)) => Ordering::Less,
        (Some(_), None) => Ordering::Greater,
        (Some(version), Some(other)) => compare_versions(version, other),
    }
}

/// How a spec is to one of a name and a version.
fn compare_to(spec: &ExcludeSpec, name: &str, version: Option<&Version>) -> Ordering
    ensures { result ≡ key_order (key_of (exclude_spec_of spec.now))
        (key_with name.now (option_map (λ version. parts_of version.now) version.entry)) }
{
    let wanted = compare_wanted(&spec.version, version);
    spec.name.as_str().cmp(name).then(wanted)
}

/// How a spec is to another.
fn compare_specs(spec: &ExcludeSpec, other: &ExcludeSpec) -> Ordering
    ensures { result ≡ key_order (key_of (exclude_spec_of spec.now)) (key_of (exclude_spec_of other.now)) }
{
    compare_to(spec, other.name.as_str(), other.version.as_ref())
}

/// References to specs.
pub(crate) type SpecRefs<'s> = Vec<&'s ExcludeSpec>;

fn refs_of(alloc: Global, specs: &[ExcludeSpec]) -> Result<SpecRefs<'_>, AllocError>
    ensures { IfOk result (λ refs. map (λ spec. spec.now) refs.items ≡ specs.entry.now) }
{
    let mut refs = Vec::with_capacity(alloc, specs.len())?;
    'specs: for spec in specs {
        refs.push(spec)?;
    }
    Ok(refs)
}

/// References to specs in the order in which they are found.
pub(crate) fn in_order(alloc: Global, specs: &[ExcludeSpec]) -> Result<SpecRefs<'_>, AllocError>
    ensures { IfOk result (λ refs. AreInSearchOrder specs.entry.now refs.items) }
{
    let mut refs = refs_of(alloc, specs)?;
    refs.sort_by(|spec, other| compare_specs(*spec, *other))?;
    Ok(refs)
}

/// Whether a spec of a name and a version is among specs in order.
fn finds(refs: &[&ExcludeSpec], name: &str, version: Option<&Version>) -> bool
    requires { AreSorted refs.now }
    ensures { let key = key_with name.now (option_map (λ version. parts_of version.now) version.entry) in
        result ≡ list_any (λ spec. is_eq (key_order (key_behind spec) key)) refs.now }
{
    refs.binary_search_by(|spec| compare_to(*spec, name, version))
        .is_ok()
}

/// Whether one of the specs, which are handed in once more in order, leaves a crate out.
pub(crate) fn is_excluded(specs: &[ExcludeSpec], refs: &[&ExcludeSpec], krate: &Krate) -> bool
    requires { AreInSearchOrder specs.now refs.now }
    ensures { result ≡ spec.is_excluded (map exclude_spec_of specs.now) (record_of krate.now) }
{
    let _count = specs.len();
    let name = krate.name.as_str();
    let any = finds(refs, name, None);
    let own = finds(refs, name, Some(&krate.version));
    any | own
}
