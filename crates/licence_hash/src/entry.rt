//! The entry of a file, as a clarification takes it.
ghost use Rattle.std.specs.Prelude.{◌≡◌, ◌++◌, flat_map, IfOk, OnOk};
ghost use Rattle.licence_hash.specs.Entry.{entry_of, in_string, is_special, string_of};

use deny_text::hash::hash;
use deny_text::normal::normalize;
use std::alloc::{AllocError, Global};

/// Whether a byte is in a basic string of TOML by an escape alone.
fn is_special(byte: u8) -> bool
    ensures { result ≡ is_special byte }
{
    byte < 32 || byte == b'"' || byte == b'\\' || byte == 127
}

fn push_byte(line: &mut Vec<u8>, alloc: Global, byte: u8) -> Result<(), AllocError>
    ensures { OnOk result (line.new.items ≡ line.old.items ++ in_string byte) }
{
    if is_special(byte) {
        let digits = format!(in alloc; "{byte:02x}")?;
        line.extend_from_slice(b"\\u00")?;
        line.extend_from_slice(digits.as_bytes())
    } else {
        line.push(byte)?;
        Ok(())
    }
}

fn push_bytes(line: &mut Vec<u8>, alloc: Global, bytes: &[u8]) -> Result<(), AllocError>
    ensures { OnOk result (line.new.items ≡ line.old.items ++ flat_map in_string bytes.now) }
{
    'bytes: for byte in bytes {
        push_byte(line, alloc, *byte)?;
    }
    Ok(())
}

/// Appends the string that means a text.
#[tactic(auto, unfolding(crate::specs::Entry::string_of))]
fn push_string(line: &mut Vec<u8>, alloc: Global, text: &str) -> Result<(), AllocError>
    ensures { OnOk result (line.new.items ≡ line.old.items ++ string_of text.now) }
{
    line.extend_from_slice(b"\"")?;
    push_bytes(line, alloc, text.as_bytes())?;
    line.extend_from_slice(b"\"")
}

/// The entry of a file with this path and this text, a line with its line end.
pub fn entry_of(alloc: Global, path: &str, text: &str) -> Result<Vec<u8>, AllocError>
    ensures { IfOk result (λ line. line.items ≡ entry_of path.now text.now) }
{
    let normal = normalize(alloc, text)?;
    let number = hash(normal.as_str().as_bytes());
    let digits = format!(in alloc; "{number:08x}")?;
    let mut line = Vec::new(alloc);
    line.extend_from_slice(b"{ path = ")?;
    push_string(&mut line, alloc, path)?;
    line.extend_from_slice(b", hash = 0x")?;
    line.extend_from_slice(digits.as_bytes())?;
    line.extend_from_slice(b" },\n")?;
    Ok(line)
}
