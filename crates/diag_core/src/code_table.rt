//! Tables of codes.
ghost use Rattle.std.specs.Prelude.{◌≡◌, find, bytes_eq};
ghost use Rattle.std.specs.Option.{option_map};
ghost use Rattle.std.specs.Result.{result_ok};

/// A code with its name and with what it says.
#[derive(Clone, Copy)]
pub(crate) struct CodeRow<C> {
    pub(crate) code: C,
    pub(crate) name: &'static str,
    pub(crate) description: &'static str,
}

/// No code has that name.
#[derive(Clone, Copy, Debug, PartialEq, Eq)]
pub struct Unknown;

/// The code of that name in a table.
pub(crate) fn code_named<C: Copy>(rows: &[CodeRow<C>], name: &str) -> Result<C, Unknown>
    ensures { result_ok result
        ≡ option_map (λ row. row.code) (find (λ row. bytes_eq row.name.now name.now) rows.now) }
{
    'rows: for row in rows {
        if row.name == name {
            return Ok(row.code);
        }
    }
    Err(Unknown)
}
