//! Other levels for findings, by their codes and by their levels.
ghost use Rattle.std.specs.Prelude.{◌≡◌, map, [], ◌∷◌, ◌++◌, IfOk, OnOk, OnErr};
ghost use Rattle.diag_core.specs.Overrides.{level_of, finding_at_level, pack_overridden, first_output_of};

use crate::pack::{Diag, Pack};
use crate::severity::Severity;
use deny_text::{ListOf, TextMap};
use std::alloc::{AllocError, Global};

/// Levels by the names of codes.
pub type CodeMap = TextMap<Severity>;

/// Findings at one level come out at another.
#[derive(Clone, Copy, Debug, PartialEq, Eq)]
pub struct LevelPair {
    pub input: Severity,
    pub output: Severity,
}

/// A list of level pairs.
pub type LevelPairs = ListOf<LevelPair>;

/// Other levels for findings.
#[derive(Drop)]
pub struct DiagnosticOverrides {
    pub code_overrides: CodeMap,
    pub level_overrides: LevelPairs,
}

/// The output of the first pair whose input is that level; the level where there is none.
fn first_output(pairs: &[LevelPair], severity: Severity) -> Severity
    ensures { result ≡ first_output_of pairs.now severity }
{
    'pairs: for pair in pairs {
        if pair.input == severity {
            return pair.output;
        }
    }
    severity
}

impl DiagnosticOverrides {
    /// The level of a finding with the code `name` and its own level `severity`: first by code, and then by
    /// level.
    pub fn get(&self, name: &str, severity: Severity) -> Severity
        ensures { result ≡ level_of self.now name.now severity }
    {
        let severity = match self.code_overrides.get(name) {
            Some(other) => *other,
            None => severity,
        };
        first_output(self.level_overrides.items(), severity)
    }

    /// Sets the level of a finding that has a code.
    fn apply(&self, finding: &mut Diag)
        ensures { finding.new ≡ finding_at_level self.now finding.old }
    {
        if let Some(code) = &finding.diag.code {
            let severity = self.get(code.as_str(), finding.diag.severity);
            finding.diag.severity = severity;
        }
    }

    /// Sets the level of each finding that has a code.
    pub(crate) fn apply_all(&self, findings: &mut [Diag])
        ensures { findings.new ≡ map (finding_at_level self.now) findings.old }
    {
        'findings: for finding in findings.iter_mut() {
            self.apply(finding);
        }
    }
}

/// A list of packs.
pub type Packs = ListOf<Pack>;

/// The packs of a run, at the levels that the overrides say.
#[derive(Drop)]
pub struct ErrorSink {
    pub overrides: Option<DiagnosticOverrides>,
    pub packs: Packs,
}

impl ErrorSink {
    /// No packs yet.
    pub fn new(alloc: Global, overrides: Option<DiagnosticOverrides>) -> ErrorSink
        ensures { result ≡ record { overrides = overrides; packs = [] } }
    {
        ErrorSink {
            overrides,
            packs: Packs::new(alloc),
        }
    }

    /// Appends a pack, with the overrides applied to each finding that has a code.
    pub fn push(&mut self, pack: Pack) -> Result<(), AllocError>
        ensures ok { OnOk result (self.new
            ≡ record self.old { packs = self.old.packs ++ pack_overridden self.old.overrides pack ∷ [] }) }
        ensures err { OnErr result (self.new ≡ self.old) }
    {
        let mut pack = pack;
        if let Some(overrides) = &self.overrides {
            pack.override_levels(overrides);
        }
        self.packs.push(pack)?;
        Ok(())
    }
}
