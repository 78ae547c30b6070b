//! Whether a file is the bill that was made, but for its moment.
//! Called by `compared_bill` of billing; the bills may be compared in any way that `is_same` allows.
ghost use Rattle.std.specs.Prelude.{◌≡◌, Ok};
ghost use Rattle.run_found.specs.Hearing.{seen_between};
ghost use Rattle.run_bill.specs.Billed as spec;
ghost use Rattle.run_bill.specs.Steps.{IsCompared, TellsHeard};

use crate::billed::{BilledCrates, ReportedBill};
use check_bill::{BillError, is_same, read_bill};
use run_found::Error;
use std::alloc::Global;
use tree_core::Tree;
use tree_core::texts::read_file_text;

/// Whether the bill whose lines a text is, is the same as one that was made.
fn compare_text(alloc: Global, made: ReportedBill, text: &str) -> Result<BilledCrates, Error>
    ensures { TellsHeard made (Ok text.now) result }
{
    let other = match read_bill(alloc, text.as_bytes()) {
        Ok(other) => other,
        Err(BillError::Syntax) => return Err(Error::BillSyntax),
        Err(BillError::Memory) => return Err(Error::Memory),
    };
    let same = is_same(&other, &made.bill);
    let ReportedBill { reads, .. } = made;
    Ok(BilledCrates { same, reads })
}

/// Whether the bill at a path is the same as one that was made. A failed read carries the tree's counts of faults at
/// the start of this call and after the read.
pub(crate) fn compare_file<T: Tree>(
    alloc: Global,
    made: ReportedBill,
    path: &str,
    tree: &mut T,
) -> Result<BilledCrates, Error>
    ensures { IsCompared made path.now
        (seen_between T.content T.fault_count T.trace tree.old tree.new) result }
{
    let begun = tree.faults();
    match read_file_text(alloc, tree, path, begun)? {
        Ok(text) => compare_text(alloc, made, text.as_str()),
        Err(fault) => {
            let ReportedBill { reads, .. } = made;
            Err(Error::BillRead { fault, reads })
        }
    }
}

/// The words of an answer, with its line end.
pub(crate) fn answer_words(same: bool) -> &'static str
    ensures { result.now ≡ spec.answer_text same }
{
    if same {
        "bill unchanged\n"
    } else {
        "bill changed\n"
    }
}
