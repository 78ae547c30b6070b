//! The names of levels, formats and colours of what is printed.
//! Called by `log_context` of request; a `match` may replace the tables, the names are in the clauses.
ghost use Rattle.std.specs.Prelude.{◌≡◌, map};
ghost use Rattle.run_request.specs.Named.{named_in, pair_of};
ghost use Rattle.run_request.specs.Names.{filter_names, format_names, color_names};

use crate::from_word::{FromWord, NamedValue, value_named};
use diag_core::LevelFilter;
use diag_print::{Color, Format};

static FILTERS: [NamedValue<LevelFilter>; 6] = [
    NamedValue {
        name: "off",
        value: LevelFilter::Off,
    },
    NamedValue {
        name: "error",
        value: LevelFilter::Error,
    },
    NamedValue {
        name: "warn",
        value: LevelFilter::Warn,
    },
    NamedValue {
        name: "info",
        value: LevelFilter::Info,
    },
    NamedValue {
        name: "debug",
        value: LevelFilter::Debug,
    },
    NamedValue {
        name: "trace",
        value: LevelFilter::Trace,
    },
];

static FORMATS: [NamedValue<Format>; 3] = [
    NamedValue {
        name: "human",
        value: Format::Human,
    },
    NamedValue {
        name: "json",
        value: Format::Json,
    },
    NamedValue {
        name: "sarif",
        value: Format::Sarif,
    },
];

static COLORS: [NamedValue<Color>; 3] = [
    NamedValue {
        name: "auto",
        value: Color::Auto,
    },
    NamedValue {
        name: "always",
        value: Color::Always,
    },
    NamedValue {
        name: "never",
        value: Color::Never,
    },
];

fn filters() -> &'static [NamedValue<LevelFilter>]
    ensures { map pair_of result.now ≡ filter_names }
{
    &FILTERS
}

fn formats() -> &'static [NamedValue<Format>]
    ensures { map pair_of result.now ≡ format_names }
{
    &FORMATS
}

fn colors() -> &'static [NamedValue<Color>]
    ensures { map pair_of result.now ≡ color_names }
{
    &COLORS
}

impl FromWord for LevelFilter {
    ghost read = { named_in filter_names };

    fn from_word(word: &str) -> Option<LevelFilter> {
        value_named(filters(), word)
    }
}

impl FromWord for Format {
    ghost read = { named_in format_names };

    fn from_word(word: &str) -> Option<Format> {
        value_named(formats(), word)
    }
}

impl FromWord for Color {
    ghost read = { named_in color_names };

    fn from_word(word: &str) -> Option<Color> {
        value_named(colors(), word)
    }
}
