//! A notice as it is written.
ghost use Rattle.std.specs.Prelude.{◌≡◌, ◌++◌, [], ◌∷◌, IfOk, OnOk, string_bytes};
ghost use Rattle.std.specs.List.{flat_map};
ghost use Rattle.check_notice.specs.Written as spec;
ghost use Rattle.check_notice.specs.Written.{crate_text, key_text, keys_behind, keys_text};

use crate::notice::{KeyNumber, Notice, NoticeCrate};
use std::alloc::{AllocError, Global};
use std::fmt::Write;

/// Appends a key and its number.
fn push_key(text: &mut String, key: &KeyNumber) -> Result<(), AllocError>
    ensures { OnOk result (string_bytes text.new ≡ string_bytes text.old ++ key_text key.now) }
{
    let KeyNumber { key, number } = key;
    write!(text, "{key} [{number}]")
}

/// Appends keys, each behind a comma.
fn push_further(text: &mut String, keys: &[KeyNumber]) -> Result<(), AllocError>
    ensures { OnOk result (string_bytes text.new ≡ string_bytes text.old ++ keys_behind keys.now) }
{
    'keys: for key in keys {
        text.push_str(", ")?;
        push_key(text, key)?;
    }
    Ok(())
}

/// Appends keys with commas between.
fn push_keys(text: &mut String, keys: &[KeyNumber]) -> Result<(), AllocError>
    ensures { OnOk result (string_bytes text.new ≡ string_bytes text.old ++ keys_text keys.now) }
{
    match keys.split_first() {
        Some((first, rest)) => {
            push_key(text, first)?;
            push_further(text, rest)
        }
        None => Ok(()),
    }
}

/// Appends the line of a crate.
fn push_crate(text: &mut String, told: &NoticeCrate) -> Result<(), AllocError>
    ensures { OnOk result (string_bytes text.new ≡ string_bytes text.old ++ crate_text told.now) }
{
    text.push_str(told.name.as_str())?;
    text.push_str(": ")?;
    push_keys(text, told.keys.items())?;
    text.push_str("\n")
}

/// The lines of a notice's crates.
pub fn notice_head(alloc: Global, notice: &Notice) -> Result<String, AllocError>
    ensures { IfOk result (λ text. string_bytes text ≡ flat_map crate_text notice.now.crates) }
{
    let mut text = String::new(alloc);
    'crates: for told in notice.crates.items() {
        push_crate(&mut text, told)?;
    }
    Ok(text)
}

/// What is before the text of a number.
pub fn text_head(alloc: Global, number: usize) -> Result<String, AllocError>
    ensures { IfOk result (λ text. string_bytes text ≡ spec.text_head number) }
{
    format!(in alloc; "\n[{number}]\n")
}
