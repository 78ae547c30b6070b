//! A listing in columns.
//! Called by `write_table` of `listing`; a mark may be sought in all licences, the one walk is for speed.
ghost use Rattle.std.specs.Prelude.{◌≡◌, ◌++◌, IfOk, OnOk};
ghost use Rattle.deny_text.specs.Fronts.{StandsInFront};
ghost use Rattle.run_list_text.specs.Listing.{crate_row, head_row, mark_if, marks};
ghost use Rattle.run_list_text.specs.Marks.{HasColumns, is_next, rest_if};

use crate::lines::Lines;
use crate::listed::ListedCrate;
use crate::plain::{push_further, push_plain, push_text};
use deny_text::Text;
use std::alloc::{AllocError, Global};

/// The row that names the columns.
pub(crate) fn head_row(alloc: Global, columns: &[Text]) -> Result<Vec<u8>, AllocError>
    ensures { IfOk result (λ row. row.items ≡ head_row columns.now) }
{
    let mut row = Vec::new(alloc);
    push_text(&mut row, "crate")?;
    push_further(&mut row, "\t", columns)?;
    push_text(&mut row, "\tUnlicensed\n")?;
    Ok(row)
}

/// A column, with or without a mark.
fn mark_if(is_marked: bool) -> &'static str
    ensures { result.now ≡ mark_if is_marked }
{
    if is_marked { "\tX" } else { "\t" }
}

/// Whether the first of the licences is the column.
fn is_next(licenses: &[Text], column: &str) -> bool
    ensures { result ≡ is_next licenses.now column.now }
{
    match licenses.split_first() {
        Some((first, _)) => first.as_str() == column,
        None => false,
    }
}

/// The licences behind the first, where that was used up.
fn rest_if(is_used: bool, licenses: &[Text]) -> &[Text]
    ensures { result.now ≡ rest_if is_used licenses.now }
{
    if !is_used {
        return licenses;
    }
    match licenses.split_first() {
        Some((_, rest)) => rest,
        None => licenses,
    }
}

/// Appends the columns of a crate. Its licences are in the order of the columns, so both are walked once.
fn push_marks(out: &mut Vec<u8>, columns: &[Text], licenses: &[Text]) -> Result<(), AllocError>
    requires { HasColumns columns.now licenses.now }
    ensures ok { OnOk result (out.new.items ≡ out.old.items ++ marks columns.now licenses.now) }
    ensures front { StandsInFront out.old.items out.new.items }
{
    let mut rest = licenses;
    'columns: for column in columns {
        let is_marked = is_next(rest, column.as_str());
        push_text(out, mark_if(is_marked))?;
        rest = rest_if(is_marked, rest);
    }
    Ok(())
}

/// A crate and its columns.
#[derive(Clone, Copy)]
pub(crate) struct CrateRows<'c> {
    pub(crate) columns: &'c [Text],
}

impl<'c> Lines<ListedCrate> for CrateRows<'c> {
    ghost line = { λ rows listed. crate_row rows.columns.now listed };

    ghost fits = { λ rows listed. HasColumns rows.columns.now listed.licenses };

    fn push(
        &self,
        out: &mut Vec<u8>,
        _alloc: Global,
        item: &ListedCrate,
    ) -> Result<(), AllocError> {
        let licenses = item.licenses.items();
        push_plain(out, item.name.as_str())?;
        push_marks(out, self.columns, licenses)?;
        push_text(out, mark_if(licenses.is_empty()))?;
        push_text(out, "\n")
    }
}
