//! The words of a command line that are read.
//! Called by `read` alone; room for all words may be taken at once, the words that are kept may not change.
ghost use Rattle.std.specs.Prelude.{◌≡◌, ◌++◌, IfOk, OnOk, map};
ghost use Rattle.run_request.specs.Given.{texts};
ghost use Rattle.run_request.specs.Request.{gate_words, without_deny};

use std::alloc::{AllocError, Global};

/// The words less a second one `deny`; no words are the program's name alone.
pub(crate) fn gate_words(alloc: Global, words: &[String]) -> Result<Vec<&str>, AllocError>
    ensures { IfOk result (λ kept. map (λ word. word.now) kept.items ≡ gate_words (texts words.now)) }
{
    let mut kept = Vec::new(alloc);
    match words.split_first() {
        Some((program, rest)) => {
            kept.push(program.as_str())?;
            push_words(&mut kept, without_deny(rest))?;
        }
        None => kept.push("cargo-deny")?,
    }
    Ok(kept)
}

fn without_deny(words: &[String]) -> &[String]
    ensures { texts result.now ≡ without_deny (texts words.now) }
{
    match words.split_first() {
        Some((first, rest)) => {
            if first.as_str() == "deny" {
                rest
            } else {
                words
            }
        }
        None => words,
    }
}

fn push_words<'a>(kept: &mut Vec<&'a str>, words: &'a [String]) -> Result<(), AllocError>
    ensures { OnOk result (map (λ word. word.now) kept.new.items
        ≡ map (λ word. word.now) kept.old.items ++ texts words.now) }
{
    'words: for word in words {
        kept.push(word.as_str())?;
    }
    Ok(())
}
