//! Reading a bill.
ghost use Rattle.std.specs.Prelude.{◌≡◌};
ghost use Rattle.check_bill.specs.Answers.{AnswersRead};
ghost use Rattle.check_bill.specs.Reading as spec;
ghost use Rattle.check_bill.specs.Reading.{Reads};

use crate::bill::Bill;
use crate::error::BillError;
use crate::parts::{read_head, read_packages};
use std::alloc::Global;

#[tactic(auto, unfolding(crate::specs::Reading::whole_at))]
fn read_whole(alloc: Global, bytes: &[u8]) -> Result<Bill, BillError>
    ensures { Reads (λ bill. bill) result (spec.whole_at bytes.now) }
{
    let (head, rest) = read_head(bytes)?;
    let packages = read_packages(alloc, rest)?;
    let bill = head.with(alloc, packages)?;
    Ok(bill)
}

/// The bill whose lines the bytes are. They have to be its one spelling, each byte of it.
pub fn read_bill(alloc: Global, bytes: &[u8]) -> Result<Bill, BillError>
    ensures { AnswersRead bytes.now result }
{
    let bill = read_whole(alloc, bytes)?;
    Ok(bill)
}
