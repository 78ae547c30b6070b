//! The codes of findings.
ghost use Rattle.std.specs.Prelude.{◌≡◌, ◌++◌, List, map, IfOk, Some, codes};
ghost use Rattle.std.specs.Result.{result_ok};
ghost use Rattle.std.specs.Iterator.{YieldsFirst, item_count};
ghost use Rattle.diag_core.specs.Code.{all_codes, code_name, code_description, code_named, qualified_name};
ghost use Rattle.diag_core.specs.Orders.{CodesRise};

use crate::code_table::Unknown;
use crate::{general, licenses};
use deny_text::Text;
use std::alloc::{AllocError, Global};
use std::marker::Model;
use std::{array, fmt};

/// What a finding is about.
#[derive(Clone, Copy, Debug, PartialEq, Eq, PartialOrd, Ord)]
pub enum DiagnosticCode {
    License(licenses::Code),
    General(general::Code),
}

impl DiagnosticCode {
    /// The codes: those of the licence check, and then those that the checks share.
    pub fn iter() -> DiagnosticCodeIter
        ensures { result ≡ all_codes }
    {
        DiagnosticCodeIter {
            licenses: licenses::Code::iter(),
            general: general::Code::iter(),
        }
    }

    pub fn as_str(self) -> &'static str
        ensures { result.now ≡ code_name self }
    {
        match self {
            DiagnosticCode::License(code) => code.as_str(),
            DiagnosticCode::General(code) => code.as_str(),
        }
    }

    /// The name behind the letter of its check: `l:` for licences, and `g:` for what the checks share.
    pub fn qualified_str(self, alloc: Global) -> Result<Text, AllocError>
        ensures { IfOk result (λ text. text ≡ qualified_name self) }
    {
        let text = match self {
            DiagnosticCode::License(code) => format!(in alloc; "l:{code}")?,
            DiagnosticCode::General(code) => format!(in alloc; "g:{code}")?,
        };
        Ok(Text::from(text))
    }

    pub fn description(self) -> &'static str
        ensures { result.now ≡ code_description self }
    {
        match self {
            DiagnosticCode::License(code) => code.description(),
            DiagnosticCode::General(code) => code.description(),
        }
    }

    /// The code of that name.
    pub fn from_str(text: &str) -> Result<DiagnosticCode, Unknown>
        ensures { result_ok result ≡ code_named text.now }
    {
        match licenses::Code::from_str(text) {
            Ok(code) => Ok(DiagnosticCode::License(code)),
            Err(_) => match general::Code::from_str(text) {
                Ok(code) => Ok(DiagnosticCode::General(code)),
                Err(unknown) => Err(unknown),
            },
        }
    }
}

/// A code that is read from its own name is that code.
pub fn code_reads_back(code: DiagnosticCode)
    ensures { code_named (code_name code) ≡ Some code }
{
    let _ = code;
}

impl fmt::Display for DiagnosticCode {
    ghost output = { λ code. Some (code_name code) };

    fn fmt<W: fmt::Write>(&self, f: &mut fmt::Formatter<W>) -> fmt::Result {
        let code = *self;
        f.write_str(code.as_str())
    }
}

/// The codes that are still to come.
#[derive(Drop)]
pub struct DiagnosticCodeIter {
    licenses: array::IntoIter<licenses::Code, 11>,
    general: array::IntoIter<general::Code, 1>,
}

impl Model for DiagnosticCodeIter {
    ghost use Rattle.std.specs.Prelude.{List, map, ◌++◌};
    ghost use Rattle.std.specs.Array.Iter.{array_into_iter_items};
    ghost use Rattle.diag_core.specs.declared.code.DiagnosticCode.{DiagnosticCode};
    ghost use Rattle.diag_core.specs.declared.code.DiagnosticCode.TheVariants.{License, General};

    ghost Value = { List DiagnosticCode };

    ghost view = { λ rest. map License (array_into_iter_items rest.licenses)
        ++ map General (array_into_iter_items rest.general) };
}

impl Iterator for DiagnosticCodeIter {
    type Item = DiagnosticCode;

    ghost next_gives = { YieldsFirst (λ rest. rest) };

    ghost remaining = { item_count (λ rest. rest) };

    fn next(&mut self) -> Option<DiagnosticCode> {
        match self.licenses.next() {
            Some(code) => Some(DiagnosticCode::License(code)),
            None => match self.general.next() {
                Some(code) => Some(DiagnosticCode::General(code)),
                None => None,
            },
        }
    }
}

/// The codes are ordered as they are listed.
pub fn codes_rise()
    ensures { CodesRise }
{}
