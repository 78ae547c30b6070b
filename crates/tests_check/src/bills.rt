//! Bills.
use crate::recorded::put_written;
use check_bill::{BillError, read_bill, write_bill};
use std::alloc::Global;
use tests_files::AnswerText;

/// Whether a text is a bill, and is written as it was read.
pub fn put_read(alloc: Global, text: &str, out: &mut AnswerText) {
    match &read_bill(alloc, text.as_bytes()) {
        Ok(bill) => put_written(out, &write_bill(alloc, bill), text),
        Err(BillError::Memory) => out.want_memory(),
        Err(BillError::Syntax) => out.put("none"),
    }
}
