//! What the matches of a command line say of an option.
//! Called by check, context, list and request; how the lists grow may change, the order in them may not.
ghost use Rattle.std.specs.Prelude.{◌≡◌, ◌++◌, map, option_map, IfOk, OnOk};
ghost use Rattle.std.specs.List.{flat_map, slice_split};
ghost use Rattle.clap.specs.Words.{found_of, rows_of, first_of, all_of};
ghost use Rattle.run_request.specs.Reading.{AnswersArgs, option_value, maybe_read, first_read, words_read};
ghost use Rattle.run_request.specs.Reading.{all_read, option_words, is_set, is_comma};

use crate::error::ArgsError;
use crate::from_word::FromWord;
use clap::ArgMatches;
use deny_text::{ListOf, PathBuf, Text, Texts};
use std::alloc::{AllocError, Global};

/// The first word of an option.
#[tactic(auto, using(crate::proofs::RowLemmas::first_word))]
pub(crate) fn word_under<'a>(matches: &ArgMatches<'a>, option: &str) -> Option<&'a str>
    ensures { option_map (λ word. word.now) result ≡ first_of option.now (rows_of (found_of matches.now)) }
{
    matches.get_str(option)
}

/// The words of an option, of all its uses.
#[tactic(auto, using(crate::proofs::RowLemmas::all_words))]
fn words_under<'m, 'a>(matches: &'m ArgMatches<'a>, option: &str) -> Option<&'m [&'a str]>
    ensures { option_map (λ words. map (λ word. word.now) words.now) result
        ≡ all_of option.now (rows_of (found_of matches.now)) }
{
    matches.get_strs(option)
}

/// Whether an option without a value was used.
pub(crate) fn is_set(matches: &ArgMatches<'_>, option: &str) -> bool
    ensures { result ≡ is_set option.now (rows_of (found_of matches.now)) }
{
    match word_under(matches, option) {
        Some(word) => word == "true",
        None => false,
    }
}

/// The value that a word stands for.
fn read_value<T: FromWord>(alloc: Global, option: &str, word: &str) -> Result<T, ArgsError>
    ensures { AnswersArgs (option_value T.read option.now word.now) result }
{
    match T::from_word(word) {
        Some(value) => Ok(value),
        None => Err(ArgsError::bad_value(alloc, option, word)),
    }
}

/// The value of an option, where it has one.
pub(crate) fn read_first<T: FromWord>(
    alloc: Global,
    matches: &ArgMatches<'_>,
    option: &str,
) -> Result<Option<T>, ArgsError>
    ensures { AnswersArgs (first_read T.read option.now (rows_of (found_of matches.now))) result }
{
    match word_under(matches, option) {
        Some(word) => {
            let value: T = read_value(alloc, option, word)?;
            Ok(Some(value))
        }
        None => Ok(None),
    }
}

/// The values of an option, of all its uses.
pub(crate) fn read_all<T: FromWord + Drop>(
    alloc: Global,
    matches: &ArgMatches<'_>,
    option: &str,
) -> Result<ListOf<T>, ArgsError>
    ensures { AnswersArgs (all_read T.read option.now (rows_of (found_of matches.now))) result }
{
    match words_under(matches, option) {
        Some(words) => read_words(alloc, option, words),
        None => Ok(ListOf::new(alloc)),
    }
}

fn read_words<T: FromWord + Drop>(
    alloc: Global,
    option: &str,
    words: &[&str],
) -> Result<ListOf<T>, ArgsError>
    ensures { AnswersArgs (words_read T.read option.now (map (λ word. word.now) words.now)) result }
{
    let mut values = ListOf::new(alloc);
    'words: for word in words {
        let value: T = read_value(alloc, option, word)?;
        values.push(value)?;
    }
    Ok(values)
}

/// The words of an option, of all its uses, as they were written.
pub(crate) fn copied_words(
    alloc: Global,
    matches: &ArgMatches<'_>,
    option: &str,
) -> Result<Texts, AllocError>
    ensures { IfOk result (λ texts. texts ≡ option_words option.now (rows_of (found_of matches.now))) }
{
    match words_under(matches, option) {
        Some(words) => copied(alloc, words),
        None => Ok(Texts::new(alloc)),
    }
}

fn copied(alloc: Global, words: &[&str]) -> Result<Texts, AllocError>
    ensures { IfOk result (λ texts. texts ≡ map (λ word. word.now) words.now) }
{
    let mut texts = Texts::new(alloc);
    'words: for word in words {
        let text = Text::copy(alloc, word)?;
        texts.push(text)?;
    }
    Ok(texts)
}

/// The pieces between the commas of the words of an option, of all its uses.
pub(crate) fn pieces(
    alloc: Global,
    matches: &ArgMatches<'_>,
    option: &str,
) -> Result<Texts, AllocError>
    ensures { IfOk result (λ texts. texts
        ≡ flat_map (slice_split is_comma) (option_words option.now (rows_of (found_of matches.now)))) }
{
    match words_under(matches, option) {
        Some(words) => all_pieces(alloc, words),
        None => Ok(Texts::new(alloc)),
    }
}

fn all_pieces(alloc: Global, words: &[&str]) -> Result<Texts, AllocError>
    ensures { IfOk result (λ texts. texts
        ≡ flat_map (slice_split is_comma) (map (λ word. word.now) words.now)) }
{
    let mut texts = Texts::new(alloc);
    'words: for word in words {
        push_pieces(alloc, &mut texts, word)?;
    }
    Ok(texts)
}

fn push_pieces(alloc: Global, texts: &mut Texts, word: &str) -> Result<(), AllocError>
    ensures { OnOk result (texts.new ≡ texts.old ++ slice_split is_comma word.now) }
{
    'pieces: for piece in word.split(',') {
        let text = Text::copy(alloc, piece)?;
        texts.push(text)?;
    }
    Ok(())
}

/// The path of an option, as it was written.
pub(crate) fn copied_path(
    alloc: Global,
    matches: &ArgMatches<'_>,
    option: &str,
) -> Result<Option<PathBuf>, AllocError>
    ensures { IfOk result (λ path. path ≡ first_of option.now (rows_of (found_of matches.now))) }
{
    match word_under(matches, option) {
        Some(word) => {
            let path = PathBuf::copy(alloc, word)?;
            Ok(Some(path))
        }
        None => Ok(None),
    }
}
