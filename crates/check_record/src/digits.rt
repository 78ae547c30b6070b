//! Bytes and numbers at the front of a file's rest.
//! Called by decode_parts; how a number that is too large is seen is free, that 2^64 is too large is not.
ghost use Rattle.std.specs.Prelude.{◌≡◌, ◌+◌, ◌-◌, ◌*◌, ◌^◌, ◌<◌, ◌≤◌, IsTrue, SomeIff, length, drop};
ghost use Rattle.check_record.specs.Reading as spec;
ghost use Rattle.check_record.specs.Reading.{Reads};

use crate::error::RecordError;

/// Whether a byte is first.
pub fn begins(bytes: &[u8], byte: u8) -> bool
    ensures answer { result ≡ spec.begins byte bytes.now }
    ensures some { IsTrue result → 1 ≤ length bytes.now }
{
    match bytes {
        [first, ..] => *first == byte,
        [] => false,
    }
}

/// What is behind the first byte.
pub fn behind_first(bytes: &[u8]) -> &[u8]
    requires { 1 ≤ length bytes.now }
    ensures { result.now ≡ drop 1 bytes.now }
{
    bytes.split_at(1).1
}

/// What is behind a byte.
pub fn behind(bytes: &[u8], byte: u8) -> Result<&[u8], RecordError>
    ensures { Reads (λ rest. rest.now) result (spec.rest_behind byte bytes.now) }
{
    if begins(bytes, byte) {
        Ok(behind_first(bytes))
    } else {
        Err(RecordError::Syntax)
    }
}

/// Whether a decimal digit is first.
fn begins_digit(bytes: &[u8]) -> bool
    ensures answer { result ≡ spec.begins_digit bytes.now }
    ensures some { IsTrue result → 1 ≤ length bytes.now }
{
    match bytes {
        [first, ..] => first.is_ascii_digit(),
        [] => false,
    }
}

/// A further digit behind a number, where it stays below 2^64.
fn with_digit(number: usize, digit: u8) -> Option<usize>
    ensures { SomeIff result (number * 10 + (digit - 48) < 2 ^ 64) (number * 10 + (digit - 48)) }
{
    let tens = number.checked_mul(10)?;
    tens.checked_add(usize::from(digit.saturating_sub(b'0')))
}

/// The number that the digits at the front are.
#[tactic(auto, using(crate::proofs::Loops::digits_more, crate::proofs::Loops::digits_stop, crate::proofs::Loops::digits_end))]
fn read_digits(bytes: &[u8]) -> Result<(usize, &[u8]), RecordError>
    ensures { Reads (λ read. (read.0, read.1.now)) result (spec.digits_on 0 bytes.now) }
{
    let mut number = 0;
    let mut rest = bytes;
    'digits: while begins_digit(rest) {
        let Some(next) = with_digit(number, rest[0]) else {
            return Err(RecordError::Syntax);
        };
        number = next;
        rest = behind_first(rest);
    }
    Ok((number, rest))
}

/// The number at the front. Behind a leading zero it has ended.
#[tactic(auto, unfolding(crate::specs::Reading::number_at))]
pub fn read_number(bytes: &[u8]) -> Result<(usize, &[u8]), RecordError>
    ensures { Reads (λ read. (read.0, read.1.now)) result (spec.number_at bytes.now) }
{
    if begins(bytes, b'0') {
        Ok((0, behind_first(bytes)))
    } else if begins_digit(bytes) {
        read_digits(bytes)
    } else {
        Err(RecordError::Syntax)
    }
}
