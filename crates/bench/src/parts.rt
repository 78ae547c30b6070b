//! The parts that are measured, each over one text. bench/yardstick.rs does the work of most in plain Rust.
use crate::files;
use crate::meter::Meter;
use crate::texts::{ENTRY_LINE, ENTRY_LINES, LICENCE, PATHS, RETURNS};
use deny_text::hash::hash;
use deny_text::normal::normalize;
use std::alloc::{AllocError, Global};
use std::test::Fail;

/// What is done with a text.
#[derive(Clone, Copy)]
pub(crate) enum Work {
    Hash,
    Normal,
    AddPaths,
    LookUp,
    LookUpAbsent,
    Places,
}

/// A part: its name, what the text has again and again that it takes, and how often where no size is given.
pub(crate) struct BenchPart {
    pub(crate) name: &'static str,
    work: Work,
    pub(crate) piece: &'static str,
    pub(crate) small: usize,
}

/// The parts: beside the name of each its work, its text and the size of that.
macro_rules! parts {
    ($($name:literal: $work:ident of $piece:ident, $small:literal;)*) => {
        [
            $(BenchPart {
                name: $name,
                work: Work::$work,
                piece: $piece,
                small: $small,
            },)*
        ]
    };
}

pub(crate) static PARTS: [BenchPart; 7] = parts! {
    "hash": Hash of LICENCE, 16_384;
    "normal": Normal of RETURNS, 10;
    "add-paths": AddPaths of PATHS, 20;
    "look-up": LookUp of PATHS, 20;
    "look-up-absent": LookUpAbsent of PATHS, 20;
    "places-on-many-lines": Places of ENTRY_LINES, 10;
    "places-on-one-line": Places of ENTRY_LINE, 10;
};

fn normal_length(alloc: Global, text: &str) -> Result<usize, AllocError> {
    let normal = normalize(alloc, text)?;
    Ok(normal.as_str().len())
}

impl BenchPart {
    /// What comes of the part's work. Where something is prepared first, the meter starts behind that.
    pub(crate) fn done(
        &self,
        meter: &mut Meter<'_>,
        alloc: Global,
        text: &str,
    ) -> Result<usize, Fail> {
        match self.work {
            Work::Hash => Ok(hash(text.as_bytes()) as usize),
            Work::Normal => Ok(normal_length(alloc, text)?),
            Work::AddPaths => files::added(alloc, text),
            Work::LookUp => files::looked_up(meter, alloc, text, ""),
            Work::LookUpAbsent => files::looked_up(meter, alloc, text, "/Cargo.toml"),
            Work::Places => files::placed(meter, alloc, text),
        }
    }
}
