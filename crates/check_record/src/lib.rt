//! Verdict files: what is recorded of each crate, and the one spelling of it.
//! Used by check_verify, run_record and tests_check; what is passed on may change, no clause is here.
#![tactic(auto)]

mod decode_parts;
pub mod decoding;
mod digits;
mod encode_parts;
pub mod encoding;
pub mod error;
pub mod items;
pub mod laws;

pub use decoding::decode;
pub use encoding::encode;
pub use error::RecordError;
pub use items::{Record, RecordItem, RecordItems, RecordVerdict};
