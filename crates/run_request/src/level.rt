//! What is checked, and what is allowed, warned of and denied.
//! Called by `read_all` and run_overrides; a code may be tried before a level, as no name is both.
ghost use Rattle.std.specs.Prelude.{◌≡◌, map};
ghost use Rattle.run_request.specs.Named.{named_in, pair_of};
ghost use Rattle.run_request.specs.Names.{which_names, level_names, code_or_level_named, severity_of_level};

use crate::from_word::{FromWord, NamedValue, value_named};
use deny_text::ListOf;
use diag_core::{DiagnosticCode, Severity};

/// A check that words ask for.
#[derive(Clone, Copy, Debug, PartialEq, Eq)]
pub enum WhichCheck {
    Advisories,
    Bans,
    Licenses,
    Sources,
    /// Each of the four.
    All,
}

/// Checks, in the order of their words.
pub type WhichChecks = ListOf<WhichCheck>;

/// A level of findings, as words name it.
#[derive(Clone, Copy, Debug, PartialEq, Eq)]
pub enum Level {
    Allowed,
    Warnings,
    Denied,
}

/// What an override speaks of: one code, or all findings of a level.
#[derive(Clone, Copy, Debug, PartialEq, Eq)]
pub enum CodeOrLevel {
    Code(DiagnosticCode),
    Level(Level),
}

/// Codes and levels, in the order of their words.
pub type CodeOrLevels = ListOf<CodeOrLevel>;

/// What the words say of codes and levels: allowed is a note, warned of a warning, denied an error.
#[derive(Drop)]
pub struct LintLevels {
    pub warn: CodeOrLevels,
    pub allow: CodeOrLevels,
    pub deny: CodeOrLevels,
}

impl From<Level> for Severity {
    ghost from_gives = { λ level severity. severity ≡ severity_of_level level };

    fn from(level: Level) -> Severity {
        match level {
            Level::Allowed => Severity::Note,
            Level::Warnings => Severity::Warning,
            Level::Denied => Severity::Error,
        }
    }
}

static CHECKS: [NamedValue<WhichCheck>; 5] = [
    NamedValue {
        name: "advisories",
        value: WhichCheck::Advisories,
    },
    NamedValue {
        name: "bans",
        value: WhichCheck::Bans,
    },
    NamedValue {
        name: "licenses",
        value: WhichCheck::Licenses,
    },
    NamedValue {
        name: "sources",
        value: WhichCheck::Sources,
    },
    NamedValue {
        name: "all",
        value: WhichCheck::All,
    },
];

static LEVELS: [NamedValue<Level>; 3] = [
    NamedValue {
        name: "allowed",
        value: Level::Allowed,
    },
    NamedValue {
        name: "warnings",
        value: Level::Warnings,
    },
    NamedValue {
        name: "denied",
        value: Level::Denied,
    },
];

fn checks() -> &'static [NamedValue<WhichCheck>]
    ensures { map pair_of result.now ≡ which_names }
{
    &CHECKS
}

fn levels() -> &'static [NamedValue<Level>]
    ensures { map pair_of result.now ≡ level_names }
{
    &LEVELS
}

impl FromWord for WhichCheck {
    ghost read = { named_in which_names };

    fn from_word(word: &str) -> Option<WhichCheck> {
        value_named(checks(), word)
    }
}

impl FromWord for Level {
    ghost read = { named_in level_names };

    fn from_word(word: &str) -> Option<Level> {
        value_named(levels(), word)
    }
}

impl FromWord for CodeOrLevel {
    ghost read = { code_or_level_named };

    fn from_word(word: &str) -> Option<CodeOrLevel> {
        match Level::from_word(word) {
            Some(level) => Some(CodeOrLevel::Level(level)),
            None => match DiagnosticCode::from_str(word) {
                Ok(code) => Some(CodeOrLevel::Code(code)),
                Err(_) => None,
            },
        }
    }
}
