//! The codes that the checks share.
ghost use Rattle.std.specs.Prelude.{◌≡◌, Some, map};
ghost use Rattle.std.specs.Array.Iter.{array_into_iter_items};
ghost use Rattle.std.specs.Result.{result_ok};
ghost use Rattle.diag_core.specs.CodeTable.{HaveNames};
ghost use Rattle.diag_core.specs.GeneralCode.{general_codes, general_code_name, general_code_description};
ghost use Rattle.diag_core.specs.GeneralCode.{general_code_named};

use crate::code_table::{CodeRow, Unknown, code_named};
use std::{array, fmt};

/// What any check can find.
#[derive(Clone, Copy, Debug, PartialEq, Eq, PartialOrd, Ord)]
pub enum Code {
    Deprecated,
}

static ROWS: [CodeRow<Code>; 1] = [CodeRow {
    code: Code::Deprecated,
    name: "deprecated",
    description: "A deprecated field was detected",
}];

/// The table.
fn rows() -> &'static [CodeRow<Code>]
    ensures codes { map (λ row. row.code) result.now ≡ general_codes }
    ensures names { HaveNames general_code_name result.now }
{
    &ROWS
}

impl Code {
    /// The codes, in the order of their variants.
    pub fn iter() -> array::IntoIter<Code, 1>
        ensures { array_into_iter_items result ≡ general_codes }
    {
        ROWS.map(|row| row.code).into_iter()
    }

    pub fn as_str(self) -> &'static str
        ensures { result.now ≡ general_code_name self }
    {
        ROWS[self as usize].name
    }

    pub fn description(self) -> &'static str
        ensures { result.now ≡ general_code_description self }
    {
        ROWS[self as usize].description
    }

    /// The code of that name.
    pub fn from_str(text: &str) -> Result<Code, Unknown>
        ensures { result_ok result ≡ general_code_named text.now }
    {
        code_named(rows(), text)
    }
}

impl fmt::Display for Code {
    ghost output = { λ code. Some (general_code_name code) };

    fn fmt<W: fmt::Write>(&self, f: &mut fmt::Formatter<W>) -> fmt::Result {
        let code = *self;
        f.write_str(code.as_str())
    }
}
