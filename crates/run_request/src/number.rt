//! The numbers that words write.
//! Called by `read_first` for check, list and request; sums may be wider, the digits taken are in clauses.
ghost use Rattle.std.specs.Prelude.{◌≡◌, ◌+◌, ◌-◌, ◌*◌, ◌≤◌, pos, Some, option_map};
ghost use Rattle.run_request.specs.Number.{number_of, sample_size_of, threshold_read, hundredths_of};
ghost use Rattle.run_request.specs.Number.{behind_point, digit_of};

use crate::from_word::FromWord;

/// The least score at which a text counts as a licence, in hundredths: 80 is 0.8.
#[derive(Clone, Copy, Debug, PartialEq, Eq)]
pub struct Threshold(pub u8);

/// How many crates a sample has: from 1 to 20,000.
#[derive(Clone, Copy, Debug, PartialEq, Eq)]
pub struct SampleSize(pub u32);

/// An optional plus and decimal digits, below 2^32.
#[tactic(auto, using(crate::proofs::NumberLemmas::number_read))]
impl FromWord for u32 {
    ghost read = { number_of };

    fn from_word(word: &str) -> Option<u32> {
        match word.parse::<u32>() {
            Ok(number) => Some(number),
            Err(_) => None,
        }
    }
}

impl FromWord for SampleSize {
    ghost read = { sample_size_of };

    fn from_word(word: &str) -> Option<SampleSize> {
        let size = u32::from_word(word)?;
        if 1 <= size && size <= 20_000 {
            Some(SampleSize(size))
        } else {
            None
        }
    }
}

/// `0`, `1`, or one of these with a point and one or two digits, at most 1.
impl FromWord for Threshold {
    ghost read = { threshold_read };

    fn from_word(word: &str) -> Option<Threshold> {
        match word.as_bytes() {
            [ones] => hundredths_of(*ones, b'0', b'0'),
            [ones, point, tenths] => behind_point(*point, *ones, *tenths, b'0'),
            [ones, point, tenths, hundredths] => {
                behind_point(*point, *ones, *tenths, *hundredths)
            }
            _ => None,
        }
    }
}

fn behind_point(point: u8, ones: u8, tenths: u8, hundredths: u8) -> Option<Threshold>
    ensures { result ≡ behind_point point ones tenths hundredths }
{
    if point == b'.' {
        hundredths_of(ones, tenths, hundredths)
    } else {
        None
    }
}

/// The number that three digits write, where it is at most one.
fn hundredths_of(ones: u8, tenths: u8, hundredths: u8) -> Option<Threshold>
    ensures { result ≡ hundredths_of ones tenths hundredths }
{
    let total = digit(ones)? as u16 * 100 + digit(tenths)? as u16 * 10 + digit(hundredths)? as u16;
    if total <= 100 {
        Some(Threshold(total as u8))
    } else {
        None
    }
}

/// The value of a decimal digit.
fn digit(byte: u8) -> Option<u8>
    ensures { result ≡ digit_of byte }
{
    if b'0' <= byte && byte <= b'9' {
        Some(byte - b'0')
    } else {
        None
    }
}
