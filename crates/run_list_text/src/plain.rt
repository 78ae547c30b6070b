//! Texts in lines and columns.
//! Called by `human` and `table`; a text may be appended byte by byte or in runs, no clause has the pieces.
ghost use Rattle.std.specs.Prelude.{◌≡◌, ◌++◌, OnOk};
ghost use Rattle.deny_text.specs.Fronts.{StandsInFront};
ghost use Rattle.run_list_text.specs.Listing.{texts_behind, joined_texts, plain_text, plain_byte};

use deny_text::Text;
use std::alloc::AllocError;

/// A space in the place of a tab or a line feed.
fn plain_byte(byte: u8) -> u8
    ensures { result ≡ plain_byte byte }
{
    if byte == b'\t' || byte == b'\n' {
        b' '
    } else {
        byte
    }
}

/// Appends a text as it is.
pub(crate) fn push_text(out: &mut Vec<u8>, text: &str) -> Result<(), AllocError>
    ensures ok { OnOk result (out.new.items ≡ out.old.items ++ text.now) }
    ensures front { StandsInFront out.old.items out.new.items }
{
    out.extend_from_slice(text.as_bytes())
}

/// Appends a text, with spaces in the place of its tabs and line feeds.
pub(crate) fn push_plain(out: &mut Vec<u8>, text: &str) -> Result<(), AllocError>
    ensures ok { OnOk result (out.new.items ≡ out.old.items ++ plain_text text.now) }
    ensures front { StandsInFront out.old.items out.new.items }
{
    let bytes = text.as_bytes();
    'places: for byte in bytes {
        out.push(plain_byte(*byte))?;
    }
    Ok(())
}

/// Appends a text behind one that is between.
fn push_behind(out: &mut Vec<u8>, between: &str, text: &str) -> Result<(), AllocError>
    ensures ok { OnOk result (out.new.items ≡ out.old.items ++ (between.now ++ plain_text text.now)) }
    ensures front { StandsInFront out.old.items out.new.items }
{
    push_text(out, between)?;
    push_plain(out, text)
}

/// Appends texts, each behind one that is between.
pub(crate) fn push_further(
    out: &mut Vec<u8>,
    between: &str,
    texts: &[Text],
) -> Result<(), AllocError>
    ensures ok { OnOk result (out.new.items ≡ out.old.items ++ texts_behind between.now texts.now) }
    ensures front { StandsInFront out.old.items out.new.items }
{
    'texts: for text in texts {
        push_behind(out, between, text.as_str())?;
    }
    Ok(())
}

/// Appends texts with one between.
pub(crate) fn push_joined(
    out: &mut Vec<u8>,
    between: &str,
    texts: &[Text],
) -> Result<(), AllocError>
    ensures ok { OnOk result (out.new.items ≡ out.old.items ++ joined_texts between.now texts.now) }
    ensures front { StandsInFront out.old.items out.new.items }
{
    match texts.split_first() {
        Some((first, rest)) => {
            push_plain(out, first.as_str())?;
            push_further(out, between, rest)
        }
        None => Ok(()),
    }
}
