//! Words and texts that a catalogue can name.
ghost use Rattle.std.specs.Prelude.{◌≡◌, ◌&&◌, option_map};
ghost use Rattle.deny_text.specs.Cut.{cut_at};
ghost use Rattle.std.specs.Str.{str_eq_ignore_ascii_case};
ghost use Rattle.spdx_terms.specs.catalog.TextWords.{is_line_end};
ghost use Rattle.std.specs.List.{before_first, list_all, slice_split};
ghost use Rattle.spdx_terms.specs.catalog.Words.{is_word_byte, is_word, is_operator, is_reference};
ghost use Rattle.spdx_terms.specs.catalog.Words.{is_name, is_imprecise, is_space};

/// What is before the first space, and what is behind it.
pub(crate) fn cut_at_space(text: &str) -> Option<(&str, &str)>
    ensures { option_map (λ cut. (cut.0.now, cut.1.now)) result ≡ cut_at is_space text.now }
{
    text.split_once(' ')
}

/// The first line that a line feed ends, and what is behind that.
pub(crate) fn cut_at_line_end(text: &str) -> Option<(&str, &str)>
    ensures { option_map (λ cut. (cut.0.now, cut.1.now)) result ≡ cut_at is_line_end text.now }
{
    text.split_once('\n')
}

/// Whether a byte is an ASCII letter, a digit, `-` or `.`.
fn is_word_byte(byte: u8) -> bool
    ensures { result ≡ is_word_byte byte }
{
    byte.is_ascii_alphanumeric() || byte == b'-' || byte == b'.'
}

fn all_in_word(bytes: &[u8]) -> bool
    ensures { result ≡ list_all is_word_byte bytes.now }
{
    bytes.iter().all(|byte| is_word_byte(*byte))
}

/// Whether there is at least one such byte, and no other.
fn is_word(word: &str) -> bool
    ensures { result ≡ is_word word.now }
{
    match word.as_bytes().split_first() {
        None => false,
        Some((first, rest)) => is_word_byte(*first) && all_in_word(rest),
    }
}

/// Whether two texts are the same but for ASCII case.
#[tactic(auto, using(crate::proofs::WordLemmas::same_lower))]
fn is_in_any_case(word: &str, other: &str) -> bool
    ensures { result ≡ str_eq_ignore_ascii_case word.now other.now }
{
    word.eq_ignore_ascii_case(other)
}

/// Whether this is `AND`, `OR` or `WITH`, in any case.
fn is_operator(word: &str) -> bool
    ensures { result ≡ is_operator word.now }
{
    is_in_any_case(word, "AND") || is_in_any_case(word, "OR") || is_in_any_case(word, "WITH")
}

/// Whether this begins as a reference does.
fn is_reference(word: &str) -> bool
    ensures { result ≡ is_reference word.now }
{
    let bytes = word.as_bytes();
    bytes.starts_with(b"LicenseRef-") || bytes.starts_with(b"DocumentRef-")
}

/// Whether this can be the name of a licence or of an exception.
pub(crate) fn is_name(word: &str) -> bool
    ensures { result ≡ is_name word.now }
{
    is_word(word) && !is_operator(word) && !is_reference(word)
}

/// Whether this one is a word too.
fn and_word(all: bool, word: &str) -> bool
    ensures { result ≡ (all && is_word word.now) }
{
    all && is_word(word)
}

/// Whether a text is words with single spaces between.
fn are_words(text: &str) -> bool
    ensures { result ≡ list_all is_word (slice_split is_space text.now) }
{
    let mut rest = text;
    let mut all = true;
    'pieces: while let Some((word, behind)) = cut_at_space(rest) {
        all = and_word(all, word);
        rest = behind;
    }
    and_word(all, rest)
}

/// What is before the first space, or all.
pub(crate) fn first_word(text: &str) -> &str
    ensures { result.now ≡ before_first is_space text.now }
{
    match cut_at_space(text) {
        Some((word, _)) => word,
        None => text,
    }
}

/// Whether this can be an imprecise text.
pub(crate) fn is_imprecise(text: &str) -> bool
    ensures { result ≡ is_imprecise text.now }
{
    are_words(text) && !is_operator(first_word(text))
}
