//! The words of a text, by which texts are distinguished.
ghost use Rattle.std.specs.Prelude.{◌≡◌, ◌<◌, ◌∷◌, ◌++◌, [], IfOk, OnOk, IfSome, MatchOption, length};
ghost use Rattle.std.specs.Prelude.{position};
ghost use Rattle.std.specs.Char.{is_ascii_alphanumeric, is_ascii_digit};
ghost use Rattle.std.specs.List.{list_all};
ghost use Rattle.std.specs.Str.{str_to_ascii_lowercase};
ghost use Rattle.spdx_terms.specs.catalog.TextWords.{is_between, is_copyright, line_words, lower_of, runs_of};
ghost use Rattle.spdx_terms.specs.catalog.TextWords.{words_with_spaces, words_of};

use std::alloc::{AllocError, Global};

/// Whether a byte is a letter or a digit. Most are small letters, which are asked for first.
#[tactic(auto, using(crate::proofs::catalog::RunLemmas::small_letter))]
fn is_letter_or_digit(byte: u8) -> bool
    ensures { result ≡ is_ascii_alphanumeric byte }
{
    if byte.is_ascii_lowercase() {
        return true;
    }
    byte.is_ascii_alphanumeric()
}

/// The place of the first letter or digit.
fn run_start(line: &[u8]) -> Option<usize>
    ensures { result ≡ position is_ascii_alphanumeric line.now }
{
    line.iter().position(|byte| is_letter_or_digit(*byte))
}

/// The place of the first byte that is neither a letter nor a digit.
fn run_end(line: &[u8]) -> Option<usize>
    ensures { result ≡ position is_between line.now }
{
    line.iter().position(|byte| !is_letter_or_digit(*byte))
}

/// The first run of ASCII letters and digits in a line, and what follows it.
fn next_run(line: &[u8]) -> Option<(&[u8], &[u8])>
    ensures run { MatchOption result (runs_of line.now ≡ [])
        (λ found. runs_of line.now ≡ found.0.now ∷ runs_of found.1.now) }
    ensures shorter { IfSome result (λ found. length found.1.now < length line.now) }
{
    let start = run_start(line)?;
    let (_, left) = line.split_at(start);
    let end = run_end(left).unwrap_or(left.len());
    Some(left.split_at(end))
}

/// Whether a run has digits alone.
fn is_number(run: &[u8]) -> bool
    ensures { result ≡ list_all is_ascii_digit run.now }
{
    run.iter().all(|byte| byte.is_ascii_digit())
}

/// Whether a line tells of a copyright: its first word is `copyright`, and its second `c` or all digits.
fn is_copyright(line: &[u8]) -> bool
    ensures { result ≡ is_copyright (lower_of (runs_of line.now)) }
{
    let Some((first, rest)) = next_run(line) else {
        return false;
    };
    let Some((second, _)) = next_run(rest) else {
        return false;
    };
    first.eq_ignore_ascii_case(b"copyright")
        && (second.eq_ignore_ascii_case(b"c") || is_number(second))
}

/// Appends a run as it is written and a space.
fn push_run(words: &mut Vec<u8>, run: &[u8]) -> Result<(), AllocError>
    ensures { OnOk result (words.new.items ≡ words.old.items ++ (run.now ++ 32 ∷ [])) }
{
    words.extend_from_slice(run)?;
    words.push(b' ')?;
    Ok(())
}

/// Appends the words of a line as they are written, with a space after each.
fn push_line(words: &mut Vec<u8>, line: &[u8]) -> Result<(), AllocError>
    ensures { OnOk result (str_to_ascii_lowercase words.new.items ≡ str_to_ascii_lowercase words.old.items ++ words_with_spaces (line_words line.now)) }
{
    if is_copyright(line) {
        return Ok(());
    }
    let mut left = line;
    'left: while let Some((run, rest)) = next_run(left) {
        push_run(words, run)?;
        left = rest;
    }
    Ok(())
}

/// The words of a text as they are written, with a space after each.
fn written_words(alloc: Global, text: &str) -> Result<Vec<u8>, AllocError>
    ensures { IfOk result (λ words. str_to_ascii_lowercase words.items ≡ words_with_spaces (words_of text.now)) }
{
    // They take about as many bytes as the text.
    let mut words = Vec::with_capacity(alloc, text.len())?;
    'lines: for line in text.split('\n') {
        push_line(&mut words, line.as_bytes())?;
    }
    Ok(words)
}

/// The words of a text in lower case, with a space after each.
pub(crate) fn spelled_words(alloc: Global, text: &str) -> Result<Vec<u8>, AllocError>
    ensures { IfOk result (λ words. words.items ≡ words_with_spaces (words_of text.now)) }
{
    let mut words = written_words(alloc, text)?;
    words.as_mut_slice().make_ascii_lowercase();
    Ok(words)
}
