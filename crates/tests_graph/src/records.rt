//! The records that metadata tells, or what its fault is.
use crate::{Graph, SPARSE_DIR};
use deny_text::Texts;
use graph_metadata::{Edge, Krate, MetaError, Metadata, records};
use std::fmt::Display;
use tests_files::{AnswerText, Asked, Room, Shown, Told, let_go};

/// The metadata of one crate, in which a row puts one text in place of another.
const ONE_CRATE: &str = r#"
{"packages":[{"name":"a","version":"1.0.0","id":"a 1.0.0","license":"MIT","manifest_path":"/w/Cargo.toml"}],
"workspace_members":["a 1.0.0"],"workspace_root":"/w",
"resolve":{"nodes":[{"id":"a 1.0.0","deps":[]}],"root":"a 1.0.0"}}"#;

/// What answers of faults: the metadata of one crate with the text before the arrow replaced by the one behind it, or a text without
/// an arrow as it is. Of metadata without a fault it is only told that it is read.
pub struct Faults;

impl Room for Faults {
    fn answer(&self, asked: &Asked<'_>, out: &mut AnswerText) -> Told {
        let mut text = AnswerText::new(asked.alloc);
        match asked.text.split_once(" ->") {
            Some((part, other)) if ONE_CRATE.contains(part) => put_changed(&mut text, part, other),
            Some(_) => out.cant_be_tried(),
            None => text.put(asked.text),
        }
        if !text.is_whole() {
            out.want_memory();
        }
        match records(asked.alloc, text.text(), SPARSE_DIR) {
            Ok(metadata) => {
                let_go(metadata);
                out.put("read");
            }
            Err(error) => error.put(out),
        }
        Told::Answer
    }
}

/// Puts the metadata of one crate with one text in place of another.
fn put_changed(out: &mut AnswerText, part: &str, other: &str) {
    let (front, back) = ONE_CRATE.split_once(part).unwrap_or((ONE_CRATE, ""));
    let other = other.strip_prefix(' ').unwrap_or(other);
    write!(out, "{front}{other}{back}");
}

impl Shown<Graph> for MetaError {
    fn put(&self, out: &mut AnswerText) {
        match self {
            MetaError::Syntax => out.put("no JSON"),
            MetaError::Shape(fault) => {
                write!(out, "{:?} at {:?}", fault.fault, fault.place.as_str());
            }
            MetaError::Memory => out.want_memory(),
        }
    }
}

fn put_field<D: Display>(out: &mut AnswerText, field: &Option<D>) {
    match field {
        Some(value) => write!(out, " | {value}"),
        None => out.put(" | -"),
    }
}

/// Puts each text with a semicolon.
fn put_texts(out: &mut AnswerText, texts: &Texts) {
    for text in texts.items() {
        write!(out, "{text};");
    }
}

fn put_krate(out: &mut AnswerText, krate: &Krate) {
    write!(out, "{krate} | {}", krate.id);
    put_field(out, &krate.source);
    out.put(" | ");
    put_texts(out, &krate.authors);
    put_field(out, &krate.repository);
    put_field(out, &krate.description);
    write!(out, " | {}", krate.manifest_path);
    put_field(out, &krate.license);
    put_field(out, &krate.license_file);
    out.put(" | ");
    for (name, texts) in krate.features.iter() {
        write!(out, "{name}=[");
        put_texts(out, texts);
        out.put("]");
    }
    out.put(" | ");
    match &krate.publish {
        Some(names) => put_texts(out, names),
        None => out.put("-"),
    }
    put_field(out, &krate.rust_version);
    out.put("\n");
}

fn put_edge(out: &mut AnswerText, crates: &[Krate], edge: &Edge) {
    match crates.get(edge.to) {
        Some(krate) => write!(out, " {}", krate.id),
        None => out.put(" ?"),
    }
    out.put(if edge.kinds.normal { " normal" } else { "" });
    out.put(if edge.kinds.dev { " dev" } else { "" });
    out.put(if edge.kinds.build { " build" } else { "" });
    out.put("\n");
}

/// A line for each crate with all its fields, and below it one for each edge with its kinds.
impl Shown<Graph> for Metadata {
    fn put(&self, out: &mut AnswerText) {
        for (place, krate) in self.crates().iter().enumerate() {
            put_krate(out, krate);
            if place < self.len() {
                for edge in self.edges_at(place) {
                    put_edge(out, self.crates(), edge);
                }
            }
        }
    }
}
