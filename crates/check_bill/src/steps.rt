//! Steps of reading a bill from left to right.
ghost use Rattle.std.specs.Prelude.{◌≡◌, ◌≤◌, length};
ghost use Rattle.std.specs.List.{prefix_len};
ghost use Rattle.check_bill.specs.Reading as spec;
ghost use Rattle.check_bill.specs.Reading.{Reads, stays};

use crate::error::BillError;
use crate::forms::TextForm;
use itoa::Buffer;
use std::str;

/// What is behind a text.
#[tactic(auto, unfolding(crate::specs::Reading::behind_text))]
pub(crate) fn behind_text<'b>(bytes: &'b [u8], text: &[u8]) -> Result<&'b [u8], BillError>
    ensures { Reads (λ rest. rest.now) result (spec.behind_text text.now bytes.now) }
{
    if !bytes.starts_with(text) {
        return Err(BillError::Syntax);
    }
    Ok(bytes.split_at(text.len()).1)
}

/// What is behind a number in decimal.
#[tactic(auto, unfolding(crate::specs::Reading::behind_number))]
pub(crate) fn behind_number(bytes: &[u8], number: usize) -> Result<&[u8], BillError>
    ensures { Reads (λ rest. rest.now) result (spec.behind_number number bytes.now) }
{
    let mut digits = Buffer::new();
    behind_text(bytes, digits.format(number).as_bytes())
}

/// How many bytes are in front of the first LF.
fn line_len(bytes: &[u8]) -> usize
    ensures len { result ≡ prefix_len stays bytes.now }
    ensures bound { result ≤ length bytes.now }
{
    let mut len = 0;
    'bytes: while len < bytes.len() && bytes[len] != b'\n' {
        len += 1;
    }
    len
}

/// The text in front of the first LF, and what is from there on.
#[tactic(auto, using(crate::proofs::Fields::no_utf8, crate::proofs::Fields::is_utf8_of), unfolding(crate::specs::Reading::text_at))]
fn read_text(bytes: &[u8]) -> Result<(&str, &[u8]), BillError>
    ensures { Reads (λ read. (read.0.now, read.1.now)) result (spec.text_at bytes.now) }
{
    let (text, rest) = bytes.split_at(line_len(bytes));
    let Ok(text) = str::from_utf8(text) else {
        return Err(BillError::Syntax);
    };
    Ok((text, rest))
}

/// The text behind what its line begins with, where it has a form.
#[tactic(auto, unfolding(crate::specs::Reading::field_at))]
pub(crate) fn read_field<'b>(
    bytes: &'b [u8],
    front: &[u8],
    form: TextForm,
) -> Result<(&'b str, &'b [u8]), BillError>
    ensures { Reads (λ read. (read.0.now, read.1.now)) result
        (spec.field_at form front.now bytes.now) }
{
    let rest = behind_text(bytes, front)?;
    let (text, rest) = read_text(rest)?;
    if !form.is_of(text) {
        return Err(BillError::Syntax);
    }
    Ok((text, rest))
}
