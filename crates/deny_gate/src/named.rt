//! The paths that words name.
//! Called by `start_of` of `lib`; room may be taken first, the order of the words is in a clause.
ghost use Rattle.std.specs.Prelude.{◌≡◌, ◌++◌, IfOk, OnOk, option_copied};
ghost use Rattle.run_request.specs.Given.{texts};
ghost use Rattle.deny_gate.specs.Named.{paths_in, paths_named, value_in};

use deny_text::PathBuf;
use deny_text::path::join;
use std::alloc::{AllocError, Global};

/// What is behind the first `=` of a word, as the value of an option does.
fn value_of(word: &str) -> Option<&str>
    ensures { option_copied result ≡ value_in word.now }
{
    match word.split_once('=') {
        Some((_, value)) => Some(value),
        None => None,
    }
}

/// Appends the paths of a word.
fn push_paths(
    named: &mut Vec<PathBuf>,
    alloc: Global,
    folder: &str,
    word: &str,
) -> Result<(), AllocError>
    ensures { OnOk result (named.new.items ≡ named.old.items ++ paths_in folder.now word.now) }
{
    let path = join(alloc, folder, word)?;
    named.push(path)?;
    if let Some(value) = value_of(word) {
        let path = join(alloc, folder, value)?;
        named.push(path)?;
    }
    Ok(())
}

/// The paths that the words name: each word, and what is behind its first `=`, joined to the folder. A pipe
/// or a device is read at these alone.
pub fn named_paths(
    alloc: Global,
    words: &[String],
    folder: &str,
) -> Result<Vec<PathBuf>, AllocError>
    ensures { IfOk result (λ named. named.items ≡ paths_named (texts words.now) folder.now) }
{
    let mut named = Vec::new(alloc);
    'words: for word in words {
        push_paths(&mut named, alloc, folder, word.as_str())?;
    }
    Ok(named)
}
