//! The options of `bill`.
//! Called by `subcommand_named`; the path may be copied first, the order of the values that are refused is in a clause.
ghost use Rattle.std.specs.Prelude.{◌≡◌};
ghost use Rattle.clap.specs.Words.{found_of, rows_of};
ghost use Rattle.run_request.specs.Reading.{AnswersArgs};
ghost use Rattle.run_request.specs.Bill.{bill_args_of, formed, of_form};

use crate::error::ArgsError;
use crate::rows::word_under;
use check_bill::TextForm;
use clap::ArgMatches;
use deny_text::{PathBuf, Text};
use std::alloc::Global;

/// What `bill` is asked for.
#[derive(Drop)]
pub struct BillArgs {
    /// The document's name.
    pub name: Text,
    /// The absolute address that is the document's own.
    pub namespace: Text,
    /// The moment at which the document is made, such as 2024-05-01T12:00:00Z.
    pub created: Text,
    /// The bill that is compared with, joined to the working folder.
    pub against: Option<PathBuf>,
}

impl BillArgs {
    /// What the matches of `bill` ask for, beside the path of the bill that is compared with. The first refusal is
    /// reported, in the order of the options.
    pub(crate) fn parse(
        alloc: Global,
        matches: &ArgMatches<'_>,
        against: Option<PathBuf>,
    ) -> Result<BillArgs, ArgsError>
        ensures { AnswersArgs (bill_args_of (rows_of (found_of matches.now)) against) result }
    {
        let name = formed(alloc, matches, "name", TextForm::Word)?;
        let namespace = formed(alloc, matches, "namespace", TextForm::Word)?;
        let created = formed(alloc, matches, "created", TextForm::Moment)?;
        Ok(BillArgs {
            name,
            namespace,
            created,
            against,
        })
    }
}

/// The text of an option, where it has a form.
fn formed(
    alloc: Global,
    matches: &ArgMatches<'_>,
    option: &str,
    form: TextForm,
) -> Result<Text, ArgsError>
    ensures { AnswersArgs (formed form option.now (rows_of (found_of matches.now))) result }
{
    match word_under(matches, option) {
        Some(word) => of_form(alloc, option, word, form),
        None => Err(ArgsError::bad_value(alloc, option, "")),
    }
}

/// A word, where it has a form.
fn of_form(alloc: Global, option: &str, word: &str, form: TextForm) -> Result<Text, ArgsError>
    ensures { AnswersArgs (of_form form option.now word.now) result }
{
    if !form.is_of(word) {
        return Err(ArgsError::bad_value(alloc, option, word));
    }
    let text = Text::copy(alloc, word)?;
    Ok(text)
}
