//! What is read of the policy once more, behind a run that refused it.
//! Called by `tell_help` of `tell`; the text may be left unread, then help names a byte in place of a line.
ghost use Rattle.std.specs.Prelude.{◌≡◌, Some, None};
ghost use Rattle.std.specs.Option.{ForSome};
ghost use Rattle.refusal_help.specs.Again.{AsksAgain, AsksForText, AsksWhere, IsAgain, IsAskedWhereDue, IsReadAgain};
ghost use Rattle.run_found.specs.Hearing.{seen_between, HasMade};

use deny_text::{PathBuf, Text};
use run_context::config_path_since;
use run_found::Error;
use run_request::KrateContext;
use std::alloc::Global;
use tree_core::Tree;
use tree_core::texts::read_file_text;

/// Where the policy is, and its text, as they were read behind a run.
#[derive(Drop)]
pub struct Again {
    pub policy: Option<PathBuf>,
    /// Only of a regular file, and only where its syntax was refused.
    pub text: Option<Text>,
}

impl Again {
    /// Nothing was read.
    pub(crate) fn nothing() -> Again
        ensures { result.policy ≡ None }
    {
        Again {
            policy: None,
            text: None,
        }
    }
}

/// The text of a regular file. A pipe is not read twice: a second read could wait for ever.
fn text_again<T: Tree>(alloc: Global, tree: &mut T, path: &str) -> Option<Text>
    ensures read { ForSome result (IsReadAgain (T.trace tree.old) (T.trace tree.new) path.now) }
    ensures asked { AsksForText path.now (T.trace tree.old) (T.trace tree.new) }
    ensures made { HasMade (seen_between T.content T.fault_count T.trace tree.old tree.new) }
{
    let Ok(true) = tree.is_file(alloc, path) else {
        return None;
    };
    let begun = tree.faults();
    match read_file_text(alloc, tree, path, begun) {
        Ok(Ok(text)) => Some(text),
        _ => None,
    }
}

/// The same where it is asked for.
fn text_where<T: Tree>(alloc: Global, tree: &mut T, path: &str, is_asked: bool) -> Option<Text>
    ensures read { ForSome result (IsReadAgain (T.trace tree.old) (T.trace tree.new) path.now) }
    ensures asked { AsksWhere is_asked (Some path.now) (T.trace tree.old) (T.trace tree.new) }
    ensures made { HasMade (seen_between T.content T.fault_count T.trace tree.old tree.new) }
{
    if is_asked {
        text_again(alloc, tree, path)
    } else {
        None
    }
}

/// The search for the policy once more, and its text where that is asked for.
fn policy_again<T: Tree>(
    alloc: Global,
    tree: &mut T,
    context: &KrateContext,
    with_text: bool,
) -> Again
    ensures again { IsAgain context.now (T.trace tree.old) (T.trace tree.new) result }
    ensures asked { AsksAgain context.now with_text (T.trace tree.old) (T.trace tree.new) }
    ensures made { HasMade (seen_between T.content T.fault_count T.trace tree.old tree.new) }
{
    let begun = tree.faults();
    match config_path_since(context, alloc, tree, begun) {
        Ok(Some(policy)) => {
            let text = text_where(alloc, tree, policy.as_path(), with_text);
            Again {
                policy: Some(policy),
                text,
            }
        }
        Ok(None) => Again::nothing(),
        Err(_) => Again::nothing(),
    }
}

/// What is read of the policy behind a run that ended with a refusal: nothing, where the refusal is not one
/// of the policy's file.
pub(crate) fn heard_again<T: Tree>(
    alloc: Global,
    tree: &mut T,
    context: &KrateContext,
    error: &Error,
) -> Again
    ensures again { IsAgain context.now (T.trace tree.old) (T.trace tree.new) result }
    ensures due { IsAskedWhereDue context.now error.now (T.trace tree.old) (T.trace tree.new) }
    ensures made { HasMade (seen_between T.content T.fault_count T.trace tree.old tree.new) }
{
    match error {
        Error::ConfigRead(_) => policy_again(alloc, tree, context, false),
        Error::ConfigSyntax(_) => policy_again(alloc, tree, context, true),
        _ => Again::nothing(),
    }
}
