//! Findings, and those of one crate together.
ghost use Rattle.std.specs.Prelude.{◌≡◌, ◌==◌, [], ◌∷◌, ◌++◌, IfOk, OnOk, OnErr, None, Some, length, false};
ghost use Rattle.std.specs.Slice.Iter.{iter_rest};
ghost use Rattle.std.specs.Vec.Iter.{into_iter_items};
ghost use Rattle.diag_core.specs.Diagnostic.{with_code_of};
ghost use Rattle.diag_core.specs.Overrides.{pack_overridden};
ghost use Rattle.diag_core.specs.Pack.{PackOf, with_crate};

use crate::code::DiagnosticCode;
use crate::diagnostic::Diagnostic;
use crate::overrides::DiagnosticOverrides;
use deny_text::{ListOf, Text};
use std::alloc::{AllocError, Global};
use std::marker::Model;
use std::{slice, vec};

/// A crate that a finding is about, by its id, and maybe a feature of it.
#[derive(Drop)]
pub struct GraphNode {
    pub kid: Text,
    pub feature: Option<Text>,
}

/// A list of crates that a finding is about.
pub type GraphNodes = ListOf<GraphNode>;

/// A finding.
#[derive(Drop)]
pub struct Diag {
    pub diag: Diagnostic,
    pub code: Option<DiagnosticCode>,
    pub graph_nodes: GraphNodes,
    pub with_features: bool,
}

impl Diag {
    /// A finding about no crate yet. The name of its code is written into the diagnostic.
    pub fn new(diag: Diagnostic, code: Option<DiagnosticCode>) -> Result<Diag, AllocError>
        ensures { IfOk result (λ finding. finding ≡ record {
          diag = with_code_of code diag;
          code = code;
          graph_nodes = [];
          with_features = false;
        }) }
    {
        let graph_nodes = GraphNodes::new(diag.alloc);
        let diag = match code {
            Some(code) => diag.with_code(code.as_str())?,
            None => diag,
        };
        Ok(Diag {
            diag,
            code,
            graph_nodes,
            with_features: false,
        })
    }
}

/// What is checked.
#[derive(Clone, Copy, Debug, PartialEq, Eq)]
pub enum Check {
    Advisories,
    Bans,
    Licenses,
    Sources,
}

/// Findings of one check, maybe about one crate.
#[derive(Drop)]
pub struct Pack {
    pub check: Check,
    kid: Option<Text>,
    findings: Vec<Diag>,
    alloc: Global,
}

impl Model for Pack {
    ghost use Rattle.diag_core.specs.Pack.{PackOf};

    ghost Value = { PackOf };

    ghost view = { λ pack. record { check = pack.check; kid = pack.kid; findings = pack.findings.items } };
}

/// The findings of a pack, in order.
pub type PackIter<'a> = slice::Iter<'a, Diag>;

/// The findings of a pack that are taken out of it, in order.
pub type PackIntoIter = vec::IntoIter<Diag>;

impl Pack {
    /// No findings, and no crate that they are about.
    pub fn new(alloc: Global, check: Check) -> Pack
        ensures { result ≡ record { check = check; kid = None; findings = [] } }
    {
        Pack {
            check,
            kid: None,
            findings: Vec::new(alloc),
            alloc,
        }
    }

    /// No findings about the crate with this id.
    pub fn with_kid(alloc: Global, check: Check, kid: Text) -> Pack
        ensures { result ≡ record { check = check; kid = Some kid; findings = [] } }
    {
        Pack {
            check,
            kid: Some(kid),
            findings: Vec::new(alloc),
            alloc,
        }
    }

    /// Appends a finding. One that is about no crate is then about the pack's.
    pub fn push(&mut self, diag: Diag) -> Result<(), AllocError>
        ensures ok { OnOk result (self.new
            ≡ record self.old { findings = self.old.findings ++ with_crate self.old.kid diag ∷ [] }) }
        ensures err { OnErr result (self.new ≡ self.old) }
    {
        let mut diag = diag;
        if let Some(kid) = &self.kid
            && diag.graph_nodes.items().is_empty()
        {
            let kid = Text::copy(self.alloc, kid.as_str())?;
            let mut nodes = Vec::with_capacity(self.alloc, 1)?;
            nodes.push(GraphNode { kid, feature: None })?;
            diag.graph_nodes = GraphNodes::from(nodes);
        }
        if self.findings.is_empty() {
            self.findings.reserve_exact(1)?;
        }
        self.findings.push(diag)?;
        Ok(())
    }

    /// Sets the level of each finding that has a code.
    pub(crate) fn override_levels(&mut self, overrides: &DiagnosticOverrides)
        ensures { self.new ≡ pack_overridden (Some overrides.now) self.old }
    {
        overrides.apply_all(&mut self.findings);
    }

    /// How many findings there are.
    pub fn len(&self) -> usize
        ensures { result ≡ length self.now.findings }
    {
        self.findings.len()
    }

    pub fn is_empty(&self) -> bool
        ensures { result ≡ (length self.now.findings == 0) }
    {
        self.findings.is_empty()
    }

    /// The findings in order.
    pub fn iter(&self) -> PackIter<'_>
        ensures { iter_rest result ≡ self.now.findings }
    {
        self.findings.iter()
    }
}

impl IntoIterator for Pack {
    type Item = Diag;

    type IntoIter = PackIntoIter;

    ghost into_iter_gives = { λ pack rest. into_iter_items rest ≡ pack.findings };

    fn into_iter(self) -> PackIntoIter {
        let Pack {
            check: _,
            kid: _,
            findings,
            alloc: _,
        } = self;
        findings.into_iter()
    }
}
