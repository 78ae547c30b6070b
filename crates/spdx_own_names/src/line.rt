//! What a line of a catalogue's file says.
ghost use Rattle.std.specs.Prelude.{◌≡◌, option_map};
ghost use Rattle.std.specs.Char.{is_ascii_digit};
ghost use Rattle.std.specs.List.{list_all};
ghost use Rattle.std.specs.Map.{lookup};
ghost use Rattle.std.specs.Str.{bytes_eq};
ghost use Rattle.spdx_terms.specs.catalog.TextWords.{has_some};
ghost use Rattle.spdx_terms.specs.catalog.Words.{is_space};
ghost use Rattle.spdx_own_names.specs.Form.{form_of, form_by, license_cut, imprecise_cut};
ghost use Rattle.spdx_own_names.specs.Form.{decimal_of, is_decimal, has_leading_zero, marks_of, rank_of};
ghost use Rattle.spdx_own_names.specs.Form.{says_nothing};
ghost use Rattle.spdx_own_names.specs.FormView.{form_view, marks_told, marks_view, rank_view};
ghost use Rattle.deny_text.specs.Cut.{cut_at};

use crate::form::{LineForm, LineMarks};
use crate::words::cut_at_space;
use spdx_terms::catalog::LicenseEntry;

/// Whether there is a byte.
fn has_some(bytes: &[u8]) -> bool
    ensures { result ≡ has_some bytes.now }
{
    match bytes.first() {
        None => false,
        Some(_) => true,
    }
}

/// Whether there is a zero before other digits.
fn has_leading_zero(word: &[u8]) -> bool
    ensures { result ≡ has_leading_zero word.now }
{
    match word.split_first() {
        None => false,
        Some((first, rest)) => *first == b'0' && has_some(rest),
    }
}

fn are_digits(word: &[u8]) -> bool
    ensures { result ≡ list_all is_ascii_digit word.now }
{
    word.iter().all(|byte| byte.is_ascii_digit())
}

/// Whether these are digits, and no zero before others.
fn is_decimal(word: &str) -> bool
    ensures { result ≡ is_decimal word.now }
{
    let bytes = word.as_bytes();
    has_some(bytes) && are_digits(bytes) && !has_leading_zero(bytes)
}

/// The number that a word is.
#[tactic(auto, using(crate::proofs::NumberLemmas::decimal_read, crate::proofs::NumberLemmas::decimal_none))]
fn decimal(word: &str) -> Option<u32>
    ensures { result ≡ decimal_of word.now }
{
    if !is_decimal(word) {
        return None;
    }
    match word.parse::<u32>() {
        Ok(number) => Some(number),
        Err(_) => None,
    }
}

const NO_MARKS: LineMarks = LineMarks {
    text: "",
    later: false,
    deprecated: false,
    gnu: false,
};

/// The marks of a licence, as a line writes them.
static MARKS: [LineMarks; 7] = [
    LineMarks {
        text: "gnu",
        later: false,
        deprecated: false,
        gnu: true,
    },
    LineMarks {
        text: "deprecated",
        later: false,
        deprecated: true,
        gnu: false,
    },
    LineMarks {
        text: "deprecated gnu",
        later: false,
        deprecated: true,
        gnu: true,
    },
    LineMarks {
        text: "later",
        later: true,
        deprecated: false,
        gnu: false,
    },
    LineMarks {
        text: "later gnu",
        later: true,
        deprecated: false,
        gnu: true,
    },
    LineMarks {
        text: "later deprecated",
        later: true,
        deprecated: true,
        gnu: false,
    },
    LineMarks {
        text: "later deprecated gnu",
        later: true,
        deprecated: true,
        gnu: true,
    },
];

/// The first of the marks whose text this is.
fn marks_among(marks: &[LineMarks], text: &str) -> Option<LineMarks>
    ensures { option_map marks_view result ≡ lookup (bytes_eq text.now) (marks_told marks.now) }
{
    let (first, rest) = marks.split_first()?;
    if text == first.text {
        return Some(*first);
    }
    marks_among(rest, text)
}

/// The marks whose text this is.
fn marks_of(text: &str) -> Option<LineMarks>
    ensures { option_map marks_view result ≡ marks_of text.now }
{
    marks_among(&MARKS, text)
}

/// A rank and the marks behind it.
fn rank_of(text: &str) -> Option<(u32, LineMarks)>
    ensures { option_map rank_view result ≡ rank_of text.now (cut_at is_space text.now) }
{
    match cut_at_space(text) {
        None => {
            let rank = decimal(text)?;
            Some((rank, NO_MARKS))
        }
        Some((rank, marks)) => {
            let rank = decimal(rank)?;
            let marks = marks_of(marks)?;
            Some((rank, marks))
        }
    }
}

/// What a line says behind `license `.
fn license_form(rest: &str) -> Option<LineForm<'_>>
    ensures { option_map form_view result ≡ license_cut (cut_at is_space rest.now) }
{
    let (name, numbers) = cut_at_space(rest)?;
    let (family, ranked) = cut_at_space(numbers)?;
    let family = decimal(family)?;
    let (rank, marks) = rank_of(ranked)?;
    let entry = LicenseEntry {
        family,
        rank,
        later: marks.later,
        deprecated: marks.deprecated,
        gnu: marks.gnu,
    };
    Some(LineForm::License { name, entry })
}

/// What a line says behind `imprecise `.
fn imprecise_form(rest: &str) -> Option<LineForm<'_>>
    ensures { option_map form_view result ≡ imprecise_cut (cut_at is_space rest.now) }
{
    let (name, text) = cut_at_space(rest)?;
    Some(LineForm::Imprecise { text, name })
}

/// What a line says by its first word and what is behind that.
fn form_by<'l>(word: &str, rest: &'l str) -> Option<LineForm<'l>>
    ensures { option_map form_view result ≡ form_by word.now rest.now }
{
    if word == "license" {
        license_form(rest)
    } else if word == "exception" {
        Some(LineForm::Exception { name: rest })
    } else if word == "imprecise" {
        imprecise_form(rest)
    } else {
        None
    }
}

/// Whether a line is empty or a remark.
fn says_nothing(line: &[u8]) -> bool
    ensures { result ≡ says_nothing line.now }
{
    match line.first() {
        None => true,
        Some(first) => *first == b'#',
    }
}

/// What a line says, without its line feed; none where it has none of the forms.
#[tactic(auto, unfolding(crate::specs::Form::form_of))]
pub(crate) fn form_of(line: &str) -> Option<LineForm<'_>>
    ensures { option_map form_view result ≡ form_of line.now }
{
    if says_nothing(line.as_bytes()) {
        return Some(LineForm::Nothing);
    }
    let (word, rest) = cut_at_space(line)?;
    form_by(word, rest)
}
