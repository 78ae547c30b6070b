//! Why options are not read.
//! Made by check, rows and request, read by `refused`; which text of a bad value is copied first is free.
ghost use Rattle.std.specs.Prelude.{◌≡◌, ◌⊎◌, IfOk};
ghost use Rattle.run_request.specs.declared.error.ArgsError.TheVariants.{Memory};

use deny_text::Text;
use std::alloc::{AllocError, Global};

/// Why options are not read.
#[derive(Debug, Drop)]
pub enum ArgsError {
    /// A value is outside its table. The option is its long name, or what help calls the words.
    BadValue { option: Text, value: Text },
    /// A depth for graphs is beside hidden graphs.
    DepthWithHide,
    /// Memory was refused.
    Memory,
}

impl From<AllocError> for ArgsError {
    ghost from_gives = { λ _ error. error ≡ Memory };

    fn from(_refused: AllocError) -> ArgsError {
        ArgsError::Memory
    }
}

impl ArgsError {
    /// The refusal of a value, or of memory for its texts.
    pub(crate) fn bad_value(alloc: Global, option: &str, value: &str) -> ArgsError
        ensures { (result ≡ Memory) ⊎ (result ≡ ArgsError.BadValue option.now value.now) }
    {
        match copy_both(alloc, option, value) {
            Ok((option, value)) => ArgsError::BadValue { option, value },
            Err(_) => ArgsError::Memory,
        }
    }
}

fn copy_both(alloc: Global, one: &str, other: &str) -> Result<(Text, Text), AllocError>
    ensures { IfOk result (λ both. (both.0 ≡ one.now) × (both.1 ≡ other.now)) }
{
    let one = Text::copy(alloc, one)?;
    let other = Text::copy(alloc, other)?;
    Ok((one, other))
}
