//! An identifier of texts that are the name of a licence.
ghost use Rattle.std.specs.Prelude.{◌≡◌, None, option_copied};
ghost use Rattle.tests_files.specs.Said.{is_within, match_with, name_in, score_in};

use deny_text::Text;
use spdx_terms::catalog::{Identifier, Match, TextLookup};
use std::alloc::{AllocError, Global};

/// Says of a text of one line, which is the name of a licence, that it is that one, at 80 or at the score
/// that is behind the name; and of two texts that they are the licence of Pixar, at 90.
pub struct NameIdentifier;

fn name_in(text: &str) -> Option<&'static str>
    ensures { option_copied result ≡ name_in text.now }
{
    if text == "MIT\n" {
        Some("MIT")
    } else if text == "MIT at 79\n" {
        Some("MIT")
    } else if text == "MIT at 49\n" {
        Some("MIT")
    } else if text == "ISC\n" {
        Some("ISC")
    } else if text == "Pixar\n" {
        Some("Pixar")
    } else if text == "Apache 2.0 License\n" {
        Some("Pixar")
    } else if text == "\n\nModified Apache 2.0 License\n" {
        Some("Pixar")
    } else if text == "GPL-2.0\n" {
        Some("GPL-2.0")
    } else if text == "Nobody\n" {
        Some("Nobody")
    } else {
        None
    }
}

fn score_in(text: &str) -> u8
    ensures { result ≡ score_in text.now }
{
    if text == "MIT at 79\n" {
        79
    } else if text == "MIT at 49\n" {
        49
    } else if text == "Apache 2.0 License\n" {
        90
    } else if text == "\n\nModified Apache 2.0 License\n" {
        90
    } else {
        80
    }
}

impl Identifier for NameIdentifier {
    ghost match_of = { λ _ text. match_with text (name_in text) };

    ghost within_hundred = { λ _ text. is_within text (name_in text) };

    fn scan(&self, alloc: Global, text: &str) -> Result<Match, AllocError> {
        match name_in(text) {
            Some(name) => {
                let name = Text::copy(alloc, name)?;
                Ok(Match {
                    name: Some(name),
                    score: score_in(text),
                })
            }
            None => Ok(Match {
                name: None,
                score: 0,
            }),
        }
    }
}

/// It keeps no text.
impl TextLookup for NameIdentifier {
    ghost text_of = { λ _ _. None };

    fn text(&self, _name: &str) -> Option<&str> {
        None
    }
}
