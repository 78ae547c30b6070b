//! What holds of all bills. These functions do nothing: their contracts are the laws.
ghost use Rattle.check_bill.specs.Laws.{BillsReadBack, ReadIsWritten};

/// A bill reads back: what is answered to its lines is this bill, or that memory was refused.
pub fn bills_read_back()
    ensures { BillsReadBack }
{}

/// What is read is a bill, and is written as the same bytes.
pub fn read_is_written()
    ensures { ReadIsWritten }
{}
