//! Package specs: how they are read and printed, their order, and the crates that they match.
use crate::Toml;
use crate::tokens::put_read;
use crate::typed::put_table;
use deny_text::{PathBuf, Span, Spanned, Text, TextMap, Texts};
use graph_core::Krate;
use policy_parts::spec::{PackageSpec, PackageSpecOrExtended, Places, SpecIndex, match_krate};
use policy_toml::{Deserialize, Value};
use semver::{Version, VersionReq};
use std::alloc::{AllocError, Global};
use tests_files::tree::first_word;
use tests_files::{AnswerText, Asked, Shown, let_go};

/// Puts what a group makes of specs, and returns whether there is such a group.
pub fn put(asked: &Asked<'_>, out: &mut AnswerText) -> bool {
    let alloc = asked.alloc;
    let (text, behind) = asked.text.split_once(" | ").unwrap_or((asked.text, ""));
    match asked.group {
        "specs in strings" => match &format!(in alloc; "         \"{text}\" | 9") {
            Ok(quoted) => put_read(asked, out, quoted.as_str(), None),
            Err(_) => out.want_memory(),
        },
        "specs in values" | "specs in values with further keys" => put_read(asked, out, text, None),
        "widened" | "narrowed" => out.made_or::<Toml, _, _>(converted(alloc, text), "refused"),
        "order of specs" => {
            let other = spec_at(alloc, behind, 8).ok();
            out.tried::<Toml, _>(spec_at(alloc, text, 3).ok().zip(other))
        }
        "printed specs" => out.printed(spec_at(alloc, text, 3)),
        "matches" => out.tried::<Toml, _>(among(alloc, text, behind)),
        "index" => out.tried::<Toml, _>(Some(alloc).zip(among(alloc, text, behind))),
        _ => return false,
    }
    true
}

/// A spec, and in values what is left of them; or a spec, and a second one where other keys are there.
pub fn put_specs(asked: &Asked<'_>, out: &mut AnswerText, value: &mut Value<'_>) {
    let alloc = asked.alloc;
    if asked.group == "specs in values with further keys" {
        return out.made::<Toml, _, _>(TwoSpecs::deserialize(alloc, value, &()));
    }
    out.made::<Toml, _, _>(PackageSpec::deserialize(alloc, value, &()));
    if asked.group == "specs in values" {
        out.put(", left: ");
        put_table(alloc, out, value, &["nothing"]);
    }
}

/// A spec with the place of its name.
impl Shown<Toml> for PackageSpec {
    fn put(&self, out: &mut AnswerText) {
        let name = &self.name.value;
        write!(out, "[{name}] {self}");
        out.put_span(" at ", self.name.span);
    }
}

type TwoSpecs = PackageSpecOrExtended<PackageSpec>;

impl Shown<Toml> for TwoSpecs {
    fn put(&self, out: &mut AnswerText) {
        let spec = &self.spec;
        match &self.inner {
            Some(inner) => write!(out, "{spec} and {inner}"),
            None => write!(out, "{spec} alone"),
        }
    }
}

/// The spec of a name and, behind a blank, a requirement.
fn spec_at(alloc: Global, text: &str, start: usize) -> Result<PackageSpec, AllocError> {
    let (name, requirement) = first_word(text);
    let span = Span { start, end: start };
    Text::copy(alloc, name).map(|value| PackageSpec {
        name: Spanned { value, span },
        version_req: VersionReq::parse(alloc, requirement).ok(),
    })
}

type WithNumber = PackageSpecOrExtended<u32>;

/// A number beside a spec, converted to a smaller type and back; nothing where that is too small.
fn converted(alloc: Global, text: &str) -> Result<Option<WithNumber>, AllocError> {
    let inner = text.parse::<u32>().ok();
    let spec = spec_at(alloc, "a", 3)?;
    match (WithNumber { spec, inner }).try_convert::<u8, _>() {
        Ok(narrow) => Ok(Some(narrow.convert())),
        Err(_) => Ok(None),
    }
}

impl Shown<Toml> for WithNumber {
    fn put(&self, out: &mut AnswerText) {
        let spec = &self.spec;
        let place = spec.name.span.start;
        let number = self.inner;
        write!(out, "{spec} at {place}, {number:?}");
    }
}

/// How two specs compare, both ways, and whether they are equal.
impl Shown<Toml> for (PackageSpec, PackageSpec) {
    fn put(&self, out: &mut AnswerText) {
        let (one, other) = self;
        let there = one.cmp(other);
        let back = other.cmp(one);
        let equal = *one == *other;
        write!(out, "{there:?}, {back:?}, {equal}");
    }
}

/// The crate of a name and, behind a blank, a version.
fn krate_of(alloc: Global, text: &str) -> Option<Krate> {
    let (text, version) = first_word(text);
    let (name, id) = (Text::copy(alloc, text).ok(), Text::copy(alloc, text).ok());
    let parts = name.zip(id).zip(PathBuf::copy(alloc, "Cargo.toml").ok());
    parts.map(|((name, id), manifest_path)| Krate {
        name,
        id,
        manifest_path,
        version: Version::parse(alloc, version).unwrap_or(Version::new(0, 0, 0)),
        source: None,
        authors: Texts::new(alloc),
        repository: None,
        description: None,
        license: None,
        license_file: None,
        features: TextMap::new(alloc),
        publish: None,
        rust_version: None,
    })
}

/// Specs, and the crate that is looked for among them.
type Among = (Vec<PackageSpec>, Krate);

fn among(alloc: Global, specs: &str, krate: &str) -> Option<Among> {
    let specs: Result<Vec<PackageSpec>, AllocError> = specs
        .split(';')
        .map(|piece| spec_at(alloc, piece.trim(), 0))
        .try_collect(alloc);
    specs.ok().zip(krate_of(alloc, krate))
}

/// Whether each spec matches the crate.
impl Shown<Toml> for Among {
    fn put(&self, out: &mut AnswerText) {
        let (specs, krate) = self;
        for spec in specs {
            let is_match = match_krate(krate, spec);
            write!(out, "{is_match}");
        }
    }
}

/// The places of the specs that match the crate, by their index, and the first of them.
impl Shown<Toml> for (Global, Among) {
    fn put(&self, out: &mut AnswerText) {
        let (alloc, (specs, krate)) = self;
        match SpecIndex::of(*alloc, specs) {
            Ok(index) => {
                out.made::<Toml, _, _>(index.matches(*alloc, specs, krate));
                let first = index.first(specs, krate);
                write!(out, "first {first:?}");
                let_go(index);
            }
            Err(_) => out.want_memory(),
        }
    }
}

impl Shown<Toml> for Places {
    fn put(&self, out: &mut AnswerText) {
        for place in self.items() {
            write!(out, "{place} ");
        }
    }
}
