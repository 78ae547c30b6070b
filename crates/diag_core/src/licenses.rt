//! The codes of the licence check.
ghost use Rattle.std.specs.Prelude.{◌≡◌, Some, map};
ghost use Rattle.std.specs.Array.Iter.{array_into_iter_items};
ghost use Rattle.std.specs.Result.{result_ok};
ghost use Rattle.diag_core.specs.CodeTable.{HaveNames};
ghost use Rattle.diag_core.specs.LicenseCode.{license_codes, license_code_name, license_code_description};
ghost use Rattle.diag_core.specs.LicenseCode.{license_code_named};

use crate::code_table::{CodeRow, Unknown, code_named};
use std::{array, fmt};

/// What the licence check can find.
#[derive(Clone, Copy, Debug, PartialEq, Eq, PartialOrd, Ord)]
pub enum Code {
    Accepted,
    Rejected,
    Unlicensed,
    SkippedPrivateWorkspaceCrate,
    LicenseNotEncountered,
    LicenseExceptionNotEncountered,
    MissingClarificationFile,
    ParseError,
    EmptyLicenseField,
    NoLicenseField,
    GatherFailure,
}

static ROWS: [CodeRow<Code>; 11] = [
    CodeRow {
        code: Code::Accepted,
        name: "accepted",
        description: "A license was explicitly accepted",
    },
    CodeRow {
        code: Code::Rejected,
        name: "rejected",
        description: "A license was not explicitly accepted",
    },
    CodeRow {
        code: Code::Unlicensed,
        name: "unlicensed",
        description: "A license expression could not be determined for a crate",
    },
    CodeRow {
        code: Code::SkippedPrivateWorkspaceCrate,
        name: "skipped-private-workspace-crate",
        description: "A private workspace crate was skipped during the license check",
    },
    CodeRow {
        code: Code::LicenseNotEncountered,
        name: "license-not-encountered",
        description: "An allowed license was not used by any crate in the graph",
    },
    CodeRow {
        code: Code::LicenseExceptionNotEncountered,
        name: "license-exception-not-encountered",
        description: "A license exception was not used by any crate in the graph",
    },
    CodeRow {
        code: Code::MissingClarificationFile,
        name: "missing-clarification-file",
        description: "A license clarification file was not found in the crate's source",
    },
    CodeRow {
        code: Code::ParseError,
        name: "parse-error",
        description: "Failed to parse an SPDX expression",
    },
    CodeRow {
        code: Code::EmptyLicenseField,
        name: "empty-license-field",
        description: "A crate declared an empty license field",
    },
    CodeRow {
        code: Code::NoLicenseField,
        name: "no-license-field",
        description: "A crate did not have a license field",
    },
    CodeRow {
        code: Code::GatherFailure,
        name: "gather-failure",
        description: "An error occurred gathering a license file from the crate's source",
    },
];

/// The table.
fn rows() -> &'static [CodeRow<Code>]
    ensures codes { map (λ row. row.code) result.now ≡ license_codes }
    ensures names { HaveNames license_code_name result.now }
{
    &ROWS
}

impl Code {
    /// The codes, in the order of their variants.
    pub fn iter() -> array::IntoIter<Code, 11>
        ensures { array_into_iter_items result ≡ license_codes }
    {
        ROWS.map(|row| row.code).into_iter()
    }

    pub fn as_str(self) -> &'static str
        ensures { result.now ≡ license_code_name self }
    {
        ROWS[self as usize].name
    }

    pub fn description(self) -> &'static str
        ensures { result.now ≡ license_code_description self }
    {
        ROWS[self as usize].description
    }

    /// The code of that name.
    pub fn from_str(text: &str) -> Result<Code, Unknown>
        ensures { result_ok result ≡ license_code_named text.now }
    {
        code_named(rows(), text)
    }
}

impl fmt::Display for Code {
    ghost output = { λ code. Some (license_code_name code) };

    fn fmt<W: fmt::Write>(&self, f: &mut fmt::Formatter<W>) -> fmt::Result {
        let code = *self;
        f.write_str(code.as_str())
    }
}
