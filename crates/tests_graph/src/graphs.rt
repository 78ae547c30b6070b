//! What is reached and selected in small graphs, in the form that the cases of graphs tell of, and specs of crates that are left out.
use crate::{Graph, put_made};
use graph_core::selection::{
    BuildError, DepKind, ExcludeSpec, ExcludeSpecs, Include, KrateRefs, Krates, Metadata,
    Selection, standings_of,
};
use graph_metadata::{Krate, MetaError, records};
use graph_walk::{SelectingWalks, ShortestWalks, Unchecked, shortest_walks};
use std::alloc::{AllocError, Global};
use tests_files::tree::first_word;
use tests_files::{AnswerText, Asked, Case, Shown};

/// A line's crate without what tells of its publish list, that list, and what it depends on.
fn parts_of(line: &str) -> (&str, &'static str, &str) {
    let (krate, edges) = line.split_once(" -> ").unwrap_or((line, ""));
    if let Some(plain) = krate.strip_suffix('~') {
        return (plain, r#"["own"]"#, edges);
    }
    match krate.strip_suffix('!') {
        Some(plain) => (plain, "[]", edges),
        None => (krate, "null", edges),
    }
}

fn put_package(out: &mut AnswerText, line: &str) {
    let (plain, publish, _) = parts_of(line);
    let (id, named) = plain.split_once('=').unwrap_or((plain, plain));
    let (name, version) = named.split_once('@').unwrap_or((named, "1.0.0"));
    write!(out, r#"{{"name":"{name}","id":"{id}","#);
    write!(out, r#""version":"{version}","publish":{publish},"#);
    out.put(r#""manifest_path":"/w/Cargo.toml"}"#);
}

fn put_kinds(out: &mut AnswerText, kinds: &str) {
    if kinds.is_empty() {
        return out.put("}");
    }
    out.put(r#","dep_kinds":["#);
    for kind in kinds.split_whitespace() {
        out.between(",");
        out.put(match kind {
            "none" => "",
            "dev" => r#"{"kind":"dev"}"#,
            "build" => r#"{"kind":"build"}"#,
            _ => r#"{"kind":null}"#,
        });
    }
    out.put("]}");
}

fn put_node(out: &mut AnswerText, line: &str) {
    let (plain, _, edges) = parts_of(line);
    let (id, _) = plain.split_once('=').unwrap_or((plain, ""));
    write!(out, r#"{{"id":"{id}","deps":["#);
    for edge in edges.split_terminator(", ") {
        let (to, kinds) = first_word(edge);
        out.between(",");
        write!(out, r#"{{"pkg":"{to}""#);
        put_kinds(out, kinds);
    }
    out.put("]}");
}

/// Puts the graph of a case as `cargo metadata` would print it, with its members and its root crate.
fn put_metadata(out: &mut AnswerText, case: &Case<'_>) {
    out.put(r#"{"packages":["#);
    for line in case.given("graph").lines() {
        out.between(",");
        put_package(out, line);
    }
    out.put(r#"],"workspace_members":["#);
    for id in case.word("members").split_whitespace() {
        out.between(",");
        write!(out, r#""{id}""#);
    }
    out.put(r#"],"workspace_root":"/w","resolve":{"root":"#);
    match case.word("root") {
        "" => out.put("null"),
        root => write!(out, r#""{root}""#),
    }
    out.put(r#","nodes":["#);
    for line in case.given("graph").lines() {
        out.between(",");
        put_node(out, line);
    }
    out.put("]}}");
}

fn graph_of(asked: &Asked<'_>) -> Result<Metadata, MetaError> {
    let mut text = AnswerText::new(asked.alloc);
    put_metadata(&mut text, &asked.case);
    if text.is_whole() {
        records(asked.alloc, text.text(), "index")
    } else {
        Err(MetaError::Memory)
    }
}

/// The name of a spec and its version, if it has one.
impl Shown<Graph> for ExcludeSpec {
    fn put(&self, out: &mut AnswerText) {
        write!(out, "[{}]", self.name);
        if let Some(version) = &self.version {
            write!(out, " [{version}]");
        }
    }
}

fn push_specs(alloc: Global, words: &str, specs: &mut ExcludeSpecs) -> Result<(), AllocError> {
    for word in words.split_whitespace() {
        if let Some(spec) = ExcludeSpec::read(alloc, word)? {
            specs.push(spec)?;
        }
    }
    Ok(())
}

/// A graph, and what is selected of it by the setting that a key names.
#[derive(Drop)]
pub struct Chosen<'a> {
    alloc: Global,
    key: &'a str,
    metadata: Metadata,
    selection: Selection,
    /// How many of the specs that leave crates out are those of the words.
    words: usize,
}

/// What a case selects by, and how many of its specs are those of the words. Those of the policy tell only of what is not checked.
fn selection_of(asked: &Asked<'_>) -> Result<(Selection, usize), AllocError> {
    let mut exclude = ExcludeSpecs::new(asked.alloc);
    push_specs(asked.alloc, asked.case.word("exclude"), &mut exclude)?;
    let words = exclude.items().len();
    if asked.group.starts_with("unchecked") {
        push_specs(asked.alloc, asked.case.word("policy-exclude"), &mut exclude)?;
    }
    let selection = Selection {
        workspace: asked.group == "workspace" || asked.group == "walks-workspace",
        exclude,
        exclude_dev: asked.group.ends_with("exclude-dev"),
        exclude_unpublished: asked.group.ends_with("exclude-unpublished"),
    };
    Ok((selection, words))
}

/// The graph of a case, and what a key selects of it.
pub fn chosen_of<'a>(asked: &Asked<'a>) -> Option<Chosen<'a>> {
    let parts = graph_of(asked).ok().zip(selection_of(asked).ok());
    parts.map(|(metadata, (selection, words))| Chosen {
        alloc: asked.alloc,
        key: asked.group,
        metadata,
        selection,
        words,
    })
}

/// The crates that are reached.
#[derive(Drop)]
struct Reached {
    alloc: Global,
    /// Whether it is told which of them are checked.
    is_selected: bool,
    krates: Krates,
}

fn reached_of(chosen: Chosen<'_>) -> Result<Reached, BuildError> {
    match Krates::build(chosen.alloc, chosen.metadata, &chosen.selection) {
        Ok(krates) => Ok(Reached {
            alloc: chosen.alloc,
            is_selected: chosen.key == "selected",
            krates,
        }),
        Err(error) => Err(error),
    }
}

impl Shown<Graph> for Krate {
    fn put(&self, out: &mut AnswerText) {
        out.put(self.id.as_str());
    }
}

impl Shown<Graph> for KrateRefs<'_> {
    fn put(&self, out: &mut AnswerText) {
        for krate in self.items() {
            out.put(krate.id.as_str());
        }
    }
}

/// Which crates are checked: without dev and build dependencies, with build, with dev, and with both; and what is between two.
const INCLUDES: [(&str, bool, bool); 4] = [
    ("", false, false),
    (" | ", false, true),
    (" | ", true, false),
    (" | ", true, true),
];

/// The crates that are reached, and those that are reached without normal, without dev and without build dependencies; or those that
/// are selected.
impl Shown<Graph> for Reached {
    fn put(&self, out: &mut AnswerText) {
        if self.is_selected {
            for (front, dev, build) in INCLUDES {
                out.put(front);
                out.made::<Graph, _, _>(self.krates.selected(self.alloc, Include { dev, build }));
            }
            return;
        }
        out.each::<Graph, _>("", self.krates.krates());
        for kind in [DepKind::Normal, DepKind::Dev, DepKind::Build] {
            out.put(" | ");
            out.made::<Graph, _, _>(self.krates.krates_filtered(self.alloc, kind));
        }
    }
}

/// Puts what is reached in the graph of a case.
pub fn put_reached(asked: &Asked<'_>, out: &mut AnswerText) {
    match chosen_of(asked) {
        Some(chosen) => put_made(out, reached_of(chosen)),
        None => out.cant_be_tried(),
    }
}

fn unchecked_letter(cause: Option<Unchecked>) -> &'static str {
    match cause {
        None => "+",
        Some(Unchecked::LeftOutByWords) => "w",
        Some(Unchecked::LeftOutByPolicy) => "p",
        Some(Unchecked::NeverPublished) => "n",
        Some(Unchecked::OnlyDev) => "d",
        Some(Unchecked::OnlyBuild) => "b",
        Some(Unchecked::NotLedTo) => "-",
    }
}

impl Chosen<'_> {
    /// Puts the ids of the crates of a walk, or a dash where there is none.
    fn put_walk(&self, out: &mut AnswerText, walks: &ShortestWalks, place: usize) {
        if place >= walks.len() {
            return out.put("no such place");
        }
        match &walks.walk_to(self.alloc, place) {
            Ok(Some(places)) => {
                for place in places {
                    match self.metadata.crates().get(*place) {
                        Some(krate) => out.put(krate.id.as_str()),
                        None => out.put("no such crate"),
                    }
                }
            }
            Ok(None) => out.put("-"),
            Err(_) => out.want_memory(),
        }
    }

    /// Puts the shortest walk to each crate without a kind of dependency.
    fn put_walks_without(&self, out: &mut AnswerText, kind: Option<DepKind>) {
        match &shortest_walks(self.alloc, &self.metadata, &self.selection, kind) {
            Ok(walks) => {
                let mut front = "";
                for place in 0..self.metadata.len() {
                    out.put(front);
                    self.put_walk(out, walks, place);
                    front = " ";
                }
            }
            Err(_) => out.want_memory(),
        }
    }

    /// Puts the shortest walk to each crate, with all kinds of dependency, and then without normal, dev and build ones.
    fn put_walks(&self, out: &mut AnswerText) {
        self.put_walks_without(out, None);
        for kind in [DepKind::Normal, DepKind::Dev, DepKind::Build] {
            out.put(" | ");
            self.put_walks_without(out, Some(kind));
        }
    }

    /// Puts a letter for each crate that says why it is not checked, or `+` where it is.
    fn put_unchecked(&self, out: &mut AnswerText) {
        let (metadata, selection) = (&self.metadata, &self.selection);
        match (
            &standings_of(self.alloc, metadata, selection),
            &SelectingWalks::of(self.alloc, metadata, selection),
        ) {
            (Ok(standings), Ok(walks)) => {
                for (front, dev, build) in INCLUDES {
                    out.put(front);
                    for place in 0..metadata.len() {
                        let include = Include { dev, build };
                        let words = self.words;
                        out.put(unchecked_letter(walks.why_unchecked(
                            metadata, selection, standings, words, include, place,
                        )));
                    }
                }
            }
            _ => out.want_memory(),
        }
    }
}

impl Shown<Graph> for Chosen<'_> {
    fn put(&self, out: &mut AnswerText) {
        if self.key.starts_with("walks") {
            self.put_walks(out);
        } else {
            self.put_unchecked(out);
        }
    }
}
