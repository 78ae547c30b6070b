//! Number runs and their classes.
ghost use Rattle.std.specs.Prelude.{ℕ, ◌≡◌, ◌+◌, ◌-◌, ◌*◌, ◌^◌, ◌<◌, ◌≤◌, Bool, true, false, IsTrue, length};
ghost use Rattle.std.specs.Prelude.{take, drop, option_map};
ghost use Rattle.std.specs.List.{list_all, position_or_len, before_first, after_first};
ghost use Rattle.std.specs.Option.{SomeIff, ok_or};
ghost use Rattle.toml_subset.specs.Bytes.{is_digit as digit};
ghost use Rattle.toml_subset.specs.Answer.{AnswersSyntax};
ghost use Rattle.toml_subset.specs.Bytes.{is_run as run, begins_run};
ghost use Rattle.toml_subset.specs.Classes.{class_answer, number_found};
ghost use Rattle.toml_subset.specs.Faults.{begins_number as number_begins};
ghost use Rattle.toml_subset.specs.Places.{passes_at, run_at};
ghost use Rattle.toml_subset.specs.Reading.{number_read};
ghost use Rattle.toml_subset.specs.Numbers.{digit_value as value_of_digit, is_digit_in as digit_in};
ghost use Rattle.toml_subset.specs.Numbers.{are_grouped as grouped, are_digits as digits, number_behind};
ghost use Rattle.toml_subset.specs.Numbers.{count as counts, unsigned as without_sign};
ghost use Rattle.toml_subset.specs.Numbers.{is_negative as negative_run, is_whole as whole};
ghost use Rattle.toml_subset.specs.Numbers.{whole_part as whole_of, fraction as fraction_of, before_e};
ghost use Rattle.toml_subset.specs.Numbers.{after_e, is_mantissa as mantissa, has_exponent as exponent};
ghost use Rattle.toml_subset.specs.Numbers.{has_long_fraction as long_fraction, digits_before};
ghost use Rattle.toml_subset.specs.Numbers.{begins_date as date, is_special as special};
ghost use Rattle.toml_subset.specs.Numbers.{is_unsupported as unsupported_run, base_of as base_named};
ghost use Rattle.toml_subset.specs.Numbers.{hundredths as hundredths_of, is_decimal as decimal_form};
ghost use Rattle.toml_subset.specs.Numbers.{in_range, with_sign, decimal_count, based_form, form_of as form};
ghost use Rattle.toml_subset.specs.Numbers.{class_of};

use crate::error::{SyntaxError, SyntaxReason};
use crate::fault::fault_at;
use crate::scan::{RunKind, is_digit, is_letter, is_sign, run_end};

/// A number as it is read.
#[derive(Clone, Copy, Debug, PartialEq, Eq)]
pub enum Number {
    Integer(i64),
    /// Whole hundredths.
    Decimal(i64),
}

/// What a digit counts; of another byte nothing is meant by it.
fn digit_value(byte: u8) -> u8
    ensures { result ≡ value_of_digit byte }
{
    if is_digit(byte) {
        byte - b'0'
    } else if byte >= b'a' {
        byte - (b'a' - 10)
    } else {
        byte.saturating_sub(b'A' - 10)
    }
}

/// A digit in a base up to 36.
pub fn is_digit_in(base: u8, byte: u8) -> bool
    ensures { result ≡ digit_in base byte }
{
    (is_digit(byte) || is_letter(byte)) && digit_value(byte) < base
}

/// Whether digits are here, with single underscores between them.
fn are_grouped(base: u8, run: &[u8]) -> bool
    ensures { result ≡ grouped base run.now }
{
    let mut behind_digit = false;
    let mut place = 0;
    'bytes: while place < run.len() {
        let digit = is_digit_in(base, run[place]);
        if !(digit || (behind_digit && run[place] == b'_')) {
            return false;
        }
        behind_digit = digit;
        place += 1;
    }
    behind_digit
}

/// Whether digits alone are here.
pub fn are_digits(run: &[u8]) -> bool
    ensures { result ≡ digits run.now }
{
    !run.is_empty() && are_all_digits(run)
}

fn are_all_digits(run: &[u8]) -> bool
    ensures { result ≡ list_all digit run.now }
{
    run.iter().all(|byte| is_digit(*byte))
}

/// What grouped digits count, where it is below 2 ^ 64.
pub fn count(base: u8, run: &[u8]) -> Option<u64>
    requires { 0 < base }
    ensures { SomeIff result (counts base run.now < 2 ^ 64) (counts base run.now) }
{
    let mut total: u64 = 0;
    let mut place = 0;
    'bytes: while place < run.len() {
        if run[place] != b'_' {
            total = shifted(base, total, digit_value(run[place]))?;
        }
        place += 1;
    }
    Some(total)
}

/// A further digit behind others.
fn shifted(base: u8, high: u64, digit: u8) -> Option<u64>
    ensures { SomeIff result (high * base + digit < 2 ^ 64) (high * base + digit) }
{
    high.checked_mul(u64::from(base))?
        .checked_add(u64::from(digit))
}

/// The run without its sign.
fn unsigned(run: &[u8]) -> &[u8]
    ensures { result.now ≡ without_sign run.now }
{
    match run {
        [first, rest @ ..] if is_sign(*first) => rest,
        _ => run,
    }
}

fn is_negative(run: &[u8]) -> bool
    ensures { result ≡ negative_run run.now }
{
    match run {
        [first, ..] => *first == b'-',
        [] => false,
    }
}

/// The decimal form of an integer, its sign apart.
pub fn is_whole(run: &[u8]) -> bool
    ensures { result ≡ whole run.now }
{
    are_grouped(10, run) && (run.len() == 1 || run[0] != b'0')
}

/// What is before the point.
fn whole_part(run: &[u8]) -> &[u8]
    ensures { result.now ≡ whole_of run.now }
{
    run.split_at(run_end(run, 0, RunKind::Whole)).0
}

/// What is behind the point.
fn fraction(run: &[u8]) -> &[u8]
    ensures { result.now ≡ fraction_of run.now }
{
    behind(run, run_end(run, 0, RunKind::Whole))
}

fn mantissa_part(run: &[u8]) -> &[u8]
    ensures { result.now ≡ before_e run.now }
{
    run.split_at(run_end(run, 0, RunKind::Mantissa)).0
}

fn exponent_part(run: &[u8]) -> &[u8]
    ensures { result.now ≡ after_e run.now }
{
    behind(run, run_end(run, 0, RunKind::Mantissa))
}

/// What is behind a place, which may be the end.
fn behind(run: &[u8], place: usize) -> &[u8]
    requires { place ≤ length run.now }
    ensures { result.now ≡ drop (place + 1) run.now }
{
    if place < run.len() {
        run.split_at(place + 1).1
    } else {
        run.split_at(place).1
    }
}

fn is_mantissa(run: &[u8]) -> bool
    ensures { result ≡ mantissa run.now }
{
    is_whole(run) || (is_whole(whole_part(run)) && are_digits(fraction(run)))
}

fn has_exponent(run: &[u8]) -> bool
    ensures { result ≡ exponent run.now }
{
    is_mantissa(mantissa_part(run)) && are_digits(unsigned(exponent_part(run)))
}

fn has_long_fraction(run: &[u8]) -> bool
    ensures { result ≡ long_fraction run.now }
{
    let part = fraction(run);
    is_whole(whole_part(run)) && are_grouped(10, part) && part.len() > 2
}

/// Whether so many digits are at the front, and then a mark.
fn has_digits_before(run: &[u8], digits: usize, mark: u8) -> bool
    ensures { result ≡ digits_before digits mark run.now }
{
    if run.len() <= digits {
        return false;
    }
    let (front, rest) = run.split_at(digits);
    run_end(front, 0, RunKind::Digits) == digits && rest[0] == mark
}

fn begins_date(run: &[u8]) -> bool
    ensures { result ≡ date run.now }
{
    has_digits_before(run, 4, b'-') || has_digits_before(run, 2, b':')
}

fn is_special(run: &[u8]) -> bool
    ensures { result ≡ special run.now }
{
    let word = unsigned(run);
    word == b"inf".as_slice() || word == b"nan".as_slice()
}

fn is_unsupported(run: &[u8]) -> bool
    ensures { result ≡ unsupported_run run.now }
{
    begins_date(run)
        || is_special(run)
        || has_exponent(unsigned(run))
        || has_long_fraction(unsigned(run))
}

/// The base that the front names.
fn base_of(run: &[u8]) -> u8
    ensures { result ≡ base_named run.now }
{
    if run.starts_with(b"0x") {
        16
    } else if run.starts_with(b"0o") {
        8
    } else if run.starts_with(b"0b") {
        2
    } else {
        10
    }
}

fn is_decimal(run: &[u8]) -> bool
    ensures { result ≡ decimal_form run.now }
{
    let part = fraction(run);
    is_whole(whole_part(run)) && are_digits(part) && part.len() <= 2
}

/// The number with its sign, where it has 64 bits.
fn signed(negative: bool, magnitude: u64) -> Option<i64>
    ensures { SomeIff result (IsTrue (in_range negative magnitude)) (with_sign negative magnitude) }
{
    const LIMIT: u64 = 1 << 63;
    if magnitude < LIMIT {
        let number = magnitude as i64;
        Some(if negative { -number } else { number })
    } else if negative && magnitude == LIMIT {
        Some(i64::MIN)
    } else {
        None
    }
}

fn integer_of(negative: bool, base: u8, digits: &[u8]) -> Option<i64>
    requires { 0 < base }
    ensures { SomeIff result (IsTrue (in_range negative (counts base digits.now)))
        (with_sign negative (counts base digits.now)) }
{
    signed(negative, count(base, digits)?)
}

/// One or two digits in whole hundredths.
fn hundredths(run: &[u8]) -> Option<u64>
    ensures { SomeIff result (hundredths_of run.now < 2 ^ 64) (hundredths_of run.now) }
{
    let digits = count(10, run)?;
    if run.len() == 1 {
        digits.checked_mul(10)
    } else {
        Some(digits)
    }
}

/// A decimal in whole hundredths, its sign apart.
fn decimal_magnitude(run: &[u8]) -> Option<u64>
    ensures { SomeIff result (decimal_count run.now < 2 ^ 64) (decimal_count run.now) }
{
    shifted(100, count(10, whole_part(run))?, 0)?.checked_add(hundredths(fraction(run))?)
}

fn decimal_of(negative: bool, run: &[u8]) -> Option<i64>
    ensures { SomeIff result (IsTrue (in_range negative (decimal_count run.now)))
        (with_sign negative (decimal_count run.now)) }
{
    signed(negative, decimal_magnitude(run)?)
}

fn integer_or_range(number: Option<i64>) -> Result<Number, SyntaxReason>
    ensures { result ≡ ok_or (option_map Number.Integer number) SyntaxReason.NumberRange }
{
    match number {
        Some(number) => Ok(Number::Integer(number)),
        None => Err(SyntaxReason::NumberRange),
    }
}

fn decimal_or_range(number: Option<i64>) -> Result<Number, SyntaxReason>
    ensures { result ≡ ok_or (option_map Number.Decimal number) SyntaxReason.NumberRange }
{
    match number {
        Some(number) => Ok(Number::Decimal(number)),
        None => Err(SyntaxReason::NumberRange),
    }
}

/// The class of a run that is not unsupported.
fn form_of(run: &[u8]) -> Result<Number, SyntaxReason>
    ensures { result ≡ class_answer (form run.now) }
{
    let base = base_of(run);
    let negative = is_negative(run);
    let body = unsigned(run);
    if base == 10 {
        if is_whole(body) {
            integer_or_range(integer_of(negative, 10, body))
        } else if is_decimal(body) {
            decimal_or_range(decimal_of(negative, body))
        } else {
            Err(SyntaxReason::NumberForm)
        }
    } else {
        based(base, behind(run, 1))
    }
}

/// An integer behind the front that names its base.
fn based(base: u8, digits: &[u8]) -> Result<Number, SyntaxReason>
    requires { 0 < base }
    ensures { result ≡ class_answer (based_form base digits.now) }
{
    if are_grouped(base, digits) {
        integer_or_range(integer_of(false, base, digits))
    } else {
        Err(SyntaxReason::NumberForm)
    }
}

/// The number that a run is, or why it is refused: unsupported first, then its form, then its range.
pub fn classify(run: &[u8]) -> Result<Number, SyntaxReason>
    ensures { result ≡ class_answer (class_of run.now) }
{
    if is_unsupported(run) {
        Err(SyntaxReason::Unsupported)
    } else {
        form_of(run)
    }
}

/// The number whose run begins at a place, and the place behind it.
pub fn read_number(text: &str, place: usize) -> Result<(Number, usize), SyntaxError>
    requires { place ≤ length text.now }
    ensures { AnswersSyntax (number_found place) (number_read text.now place (class_of (run_at run text.now place)))
        result }
{
    let bytes = text.as_bytes();
    let end = run_end(bytes, place, RunKind::Number);
    match classify(&bytes[place..end]) {
        Ok(number) => Ok((number, end)),
        Err(reason) => Err(fault_at(reason, place, end)),
    }
}

/// Whether a number run begins at a place.
pub fn begins_number(text: &str, place: usize) -> bool
    requires { place ≤ length text.now }
    ensures { result ≡ number_begins text.now place }
{
    let bytes = text.as_bytes();
    let end = run_end(bytes, place, RunKind::Number);
    starts_number(bytes, place) || is_special(&bytes[place..end])
}

/// Whether a digit or a sign is at a place.
fn starts_number(text: &[u8], place: usize) -> bool
    ensures { result ≡ passes_at begins_run text.now place }
{
    match text.get(place) {
        Some(byte) => is_digit(*byte) || is_sign(*byte),
        None => false,
    }
}
