//! The options of the command line, in the order in which help lists them.
//! Called by command, request, read and run_completions; no clause has `help`, `about`, `value`, `values`.
ghost use Rattle.std.specs.Prelude.{◌≡◌, map};
ghost use Rattle.run_request.specs.Cli.{main_rules, check_rules, list_rules};
ghost use Rattle.run_request.specs.Cli.{check_shape, list_shape, subcommand_shapes};
ghost use Rattle.run_request.specs.OptionRow.{rule_of_row, shape_of_row};

/// How an option is used.
#[derive(Clone, Copy, Debug, PartialEq, Eq)]
pub enum OptionUse {
    /// With one value, once at most.
    One,
    /// With one value, once; it is required.
    Once,
    /// With one value a use.
    Many,
    /// Without a value, once at most.
    Flag,
    /// As words without a name.
    Words,
    /// As one word without a name, which is required.
    Word,
}

/// What the value of an option is, for help and completion.
#[derive(Clone, Copy)]
pub enum OptionValues {
    /// Any text, or none.
    Any,
    /// The path of a file.
    File,
    /// The path of a folder.
    Folder,
    /// One of these names.
    Names(&'static [&'static str]),
    /// A text of a form, as this says it.
    Form(&'static str),
}

/// An option of the command line.
#[derive(Clone, Copy)]
pub struct OptionRow {
    pub kind: OptionUse,
    /// Behind `--`, but for words without a name.
    pub name: &'static str,
    /// Behind `-`.
    pub letter: Option<char>,
    /// The value where the option is not used.
    pub default: Option<&'static str>,
    /// What help calls the value.
    pub value: &'static str,
    pub values: OptionValues,
    /// What the option does.
    pub help: &'static str,
}

/// A subcommand.
#[derive(Clone, Copy)]
pub struct SubcommandRow {
    pub name: &'static str,
    /// What the subcommand does.
    pub about: &'static str,
    /// Its options and words.
    pub rows: &'static [OptionRow],
}

/// An option with one of some names.
macro_rules! chosen {
    (
        $name:literal, $letter:literal, $default:literal, $value:literal,
        [$first:literal $(, $other:literal)*], $help:literal
    ) => {
        OptionRow {
            kind: OptionUse::One,
            name: $name,
            letter: Some($letter),
            default: Some($default),
            value: $value,
            values: OptionValues::Names(&[$first $(, $other)*]),
            help: concat!($help, " [possible values: ", $first $(, ", ", $other)*, "]"),
        }
    };
}

/// An option with a value.
macro_rules! valued {
    (
        $kind:ident, $name:literal, $letter:expr, $default:expr, $value:literal,
        $values:expr, $help:literal
    ) => {
        OptionRow {
            kind: OptionUse::$kind,
            name: $name,
            letter: $letter,
            default: $default,
            value: $value,
            values: $values,
            help: $help,
        }
    };
}

/// An option that is required, with a value of a form.
macro_rules! formed {
    ($name:literal, $value:literal, $form:literal, $help:literal) => {
        OptionRow {
            kind: OptionUse::Once,
            name: $name,
            letter: None,
            default: None,
            value: $value,
            values: OptionValues::Form($form),
            help: concat!($help, " [form: ", $form, "]"),
        }
    };
}

/// An option without a value.
macro_rules! flag {
    ($name:literal, $letter:expr, $help:literal) => {
        OptionRow {
            kind: OptionUse::Flag,
            name: $name,
            letter: $letter,
            default: None,
            value: "",
            values: OptionValues::Any,
            help: $help,
        }
    };
}

/// A use of codes and levels.
macro_rules! overriding {
    ($name:literal, $letter:literal, $help:literal) => {
        valued!(
            Many, $name, Some($letter), None, "CODE",
            OptionValues::Names(&[
                "allowed", "warnings", "denied", "accepted", "rejected", "unlicensed",
                "skipped-private-workspace-crate", "license-not-encountered",
                "license-exception-not-encountered", "missing-clarification-file", "parse-error",
                "empty-license-field", "no-license-field", "gather-failure", "deprecated",
            ]),
            $help
        )
    };
}

static MAIN: [OptionRow; 19] = [
    chosen!(
        "log-level",
        'L',
        "warn",
        "LEVEL",
        ["off", "error", "warn", "info", "debug", "trace"],
        "The least level of findings that are written"
    ),
    chosen!(
        "format",
        'f',
        "human",
        "FORMAT",
        ["human", "json", "sarif"],
        "How findings and the summary are written; sarif is not carried"
    ),
    chosen!(
        "color",
        'c',
        "auto",
        "WHEN",
        ["auto", "always", "never"],
        "Whether text is coloured; read, and without effect"
    ),
    valued!(
        One,
        "manifest-path",
        None,
        None,
        "PATH",
        OptionValues::File,
        "The project's Cargo.toml [default: that of the working folder]"
    ),
    valued!(
        One,
        "metadata-path",
        None,
        None,
        "PATH",
        OptionValues::File,
        "The output of `cargo metadata --format-version 1`; it has to be given"
    ),
    valued!(
        One,
        "config",
        None,
        None,
        "PATH",
        OptionValues::File,
        "The policy [default: the nearest deny.toml, .deny.toml or .cargo/deny.toml above the manifest]"
    ),
    valued!(
        One,
        "catalog",
        None,
        None,
        "FILE",
        OptionValues::File,
        "A file of licence names, in place of the built-in catalogue"
    ),
    valued!(
        One,
        "store",
        None,
        None,
        "DIR",
        OptionValues::Folder,
        "A folder of licence texts, in place of the built-in ones"
    ),
    valued!(
        One,
        "target",
        Some('t'),
        None,
        "TARGET",
        OptionValues::Any,
        "Only what this target needs; not carried"
    ),
    valued!(
        Many,
        "exclude",
        None,
        None,
        "SPEC",
        OptionValues::Any,
        "A crate that is left out, as name, name@version or name:version; one a use"
    ),
    valued!(
        Many,
        "features",
        None,
        None,
        "FEATURES",
        OptionValues::Any,
        "Features, with commas between; read, and without effect"
    ),
    flag!(
        "workspace",
        None,
        "Every member of the workspace is a root crate"
    ),
    flag!(
        "all-features",
        None,
        "All features; read, and without effect"
    ),
    flag!(
        "no-default-features",
        None,
        "No default features; read, and without effect"
    ),
    flag!("frozen", None, "Both --locked and --offline"),
    flag!(
        "offline",
        None,
        "Uses no network, as ever; read, and without effect"
    ),
    flag!(
        "locked",
        None,
        "Changes no Cargo.lock, as ever; read, and without effect"
    ),
    flag!(
        "exclude-dev",
        None,
        "Leaves dev-dependencies out, those of tests and examples"
    ),
    flag!(
        "exclude-unpublished",
        None,
        "No member that is never published is a root crate"
    ),
];

static SUBCOMMANDS: [SubcommandRow; 8] = [
    SubcommandRow {
        name: "check",
        about: "Checks a project's crates",
        rows: &[
            valued!(
                One,
                "graph",
                Some('g'),
                None,
                "FOLDER",
                OptionValues::Folder,
                "A folder for graphs of crates; not carried"
            ),
            flag!(
                "hide-inclusion-graph",
                None,
                "Writes no graph of what includes a crate, as ever; read, and without effect"
            ),
            flag!(
                "audit-compatible-output",
                None,
                "Writes as cargo-audit does; not carried"
            ),
            flag!(
                "show-stats",
                Some('s'),
                "Writes the summary in its full form"
            ),
            overriding!(
                "warn",
                'W',
                "Findings of this code, or of a level (allowed, warnings, denied), are warnings; docs/GUIDE.md lists \
         the codes"
            ),
            overriding!(
                "allow",
                'A',
                "Findings of this code or level are notes; docs/GUIDE.md lists the codes"
            ),
            overriding!(
                "deny",
                'D',
                "Findings of this code or level are errors; docs/GUIDE.md lists the codes"
            ),
            valued!(
                One,
                "feature-depth",
                None,
                None,
                "DEPTH",
                OptionValues::Any,
                "How deep graphs tell features, below 4294967296, not beside --hide-inclusion-graph; read, and \
         without effect"
            ),
            valued!(
                Words,
                "WHICH",
                None,
                None,
                "WHICH",
                OptionValues::Names(&["advisories", "bans", "licenses", "sources", "all"]),
                "The checks; licenses has to be given, and no other is carried [possible values: advisories, bans, \
         licenses, sources, all]"
            ),
        ],
    },
    SubcommandRow {
        name: "list",
        about: "Lists the licences of a project's crates, and judges none",
        rows: &[
            valued!(
                One,
                "threshold",
                Some('t'),
                Some("0.8"),
                "SCORE",
                OptionValues::Any,
                "The least score at which a text is taken for a licence, from 0 to 1, with two decimals at most"
            ),
            chosen!(
                "format",
                'f',
                "human",
                "FORMAT",
                ["human", "json", "tsv"],
                "How the listing is written"
            ),
            chosen!(
                "layout",
                'l',
                "license",
                "LAYOUT",
                ["crate", "license"],
                "What the listing is grouped by"
            ),
        ],
    },
    SubcommandRow {
        name: "record",
        about: "Writes the verdict of each crate, with what shows it, to standard output, also of rejected ones",
        rows: &[],
    },
    SubcommandRow {
        name: "verify",
        about: "Says whether the verdicts of a file are right, also those on rejected crates",
        rows: &[valued!(
            Word,
            "FILE",
            None,
            None,
            "FILE",
            OptionValues::File,
            "The file that `record` wrote"
        )],
    },
    SubcommandRow {
        name: "bill",
        about: "Writes an SPDX 2.3 document of what is in a release to standard output, and judges nothing",
        rows: &[
            formed!(
                "name",
                "NAME",
                "characters from ! to ~",
                "The document's name"
            ),
            formed!(
                "namespace",
                "ADDRESS",
                "characters from ! to ~",
                "An absolute address that no other bill has, without #"
            ),
            formed!(
                "created",
                "MOMENT",
                "2024-05-01T12:00:00Z",
                "When the document is made"
            ),
            valued!(
                One,
                "against",
                None,
                None,
                "FILE",
                OptionValues::File,
                "A bill: writes whether anything but the moment has changed, and no bill"
            ),
        ],
    },
    SubcommandRow {
        name: "notice",
        about: "Writes which licence each accepted crate is used under, and each licence text once, to standard output",
        rows: &[],
    },
    SubcommandRow {
        name: "why",
        about: "Says what the verdicts on crates rest on, without CRATE on those that are rejected or have no licence",
        rows: &[valued!(
            Words,
            "CRATE",
            None,
            None,
            "CRATE",
            OptionValues::Any,
            "The crates to report, checked or not, each as name, name@version or name:version"
        )],
    },
    SubcommandRow {
        name: "sample",
        about: "Checks a sample of made-up crates, without any file",
        rows: &[valued!(
            Word,
            "N",
            None,
            None,
            "N",
            OptionValues::Any,
            "How many crates the sample has, from 1 to 20000"
        )],
    },
];

/// The options that are before the subcommand.
pub fn main_rows() -> &'static [OptionRow]
    ensures { map rule_of_row result.now ≡ main_rules }
{
    &MAIN
}

/// The options and words of `check`.
pub fn check_rows() -> &'static [OptionRow]
    ensures { map rule_of_row result.now ≡ check_rules }
{
    check_row().rows
}

/// The options of `list`.
pub fn list_rows() -> &'static [OptionRow]
    ensures { map rule_of_row result.now ≡ list_rules }
{
    list_row().rows
}

/// The subcommands.
pub fn subcommand_rows() -> &'static [SubcommandRow]
    ensures { map shape_of_row result.now ≡ subcommand_shapes }
{
    &SUBCOMMANDS
}

/// The subcommand `check`.
pub(crate) fn check_row() -> &'static SubcommandRow
    ensures { shape_of_row result.now ≡ check_shape }
{
    &SUBCOMMANDS[0]
}

/// The subcommand `list`.
pub(crate) fn list_row() -> &'static SubcommandRow
    ensures { shape_of_row result.now ≡ list_shape }
{
    &SUBCOMMANDS[1]
}
