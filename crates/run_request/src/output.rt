//! How a listing is written.
//! Called by `parse` of list, used by run_list_text; how a name is found may change, the names may not.
ghost use Rattle.std.specs.Prelude.{◌≡◌, map};
ghost use Rattle.run_request.specs.Named.{named_in, pair_of};
ghost use Rattle.run_request.specs.Names.{output_names, layout_names};

use crate::from_word::{FromWord, NamedValue, value_named};

/// The form of a listing.
#[derive(Clone, Copy, Debug, PartialEq, Eq)]
pub enum OutputFormat {
    /// Lines for a person.
    Human,
    Json,
    /// Columns with tabs between.
    Tsv,
}

/// What a listing is grouped by.
#[derive(Clone, Copy, Debug, PartialEq, Eq)]
pub enum Layout {
    Crate,
    License,
}

static FORMATS: [NamedValue<OutputFormat>; 3] = [
    NamedValue {
        name: "human",
        value: OutputFormat::Human,
    },
    NamedValue {
        name: "json",
        value: OutputFormat::Json,
    },
    NamedValue {
        name: "tsv",
        value: OutputFormat::Tsv,
    },
];

static LAYOUTS: [NamedValue<Layout>; 2] = [
    NamedValue {
        name: "crate",
        value: Layout::Crate,
    },
    NamedValue {
        name: "license",
        value: Layout::License,
    },
];

fn formats() -> &'static [NamedValue<OutputFormat>]
    ensures { map pair_of result.now ≡ output_names }
{
    &FORMATS
}

fn layouts() -> &'static [NamedValue<Layout>]
    ensures { map pair_of result.now ≡ layout_names }
{
    &LAYOUTS
}

impl FromWord for OutputFormat {
    ghost read = { named_in output_names };

    fn from_word(word: &str) -> Option<OutputFormat> {
        value_named(formats(), word)
    }
}

impl FromWord for Layout {
    ghost read = { named_in layout_names };

    fn from_word(word: &str) -> Option<Layout> {
        value_named(layouts(), word)
    }
}
