//! Writing a file.
//! Called by `file_of` of run_record; room for all lines may be taken first, each byte is in a clause.
ghost use Rattle.std.specs.Prelude.{◌≡◌, IfOk};
ghost use Rattle.check_record.specs.Spelling.{spelled_of};

use crate::encode_parts::put_item;
use crate::items::Record;
use deny_text::Bytes;
use std::alloc::{AllocError, Global};

/// The one spelling of a record.
pub fn encode(alloc: Global, verdicts: &Record) -> Result<Bytes, AllocError>
    ensures { IfOk result (λ bytes. bytes ≡ spelled_of verdicts.now) }
{
    let mut out = Vec::from_slice(alloc, b"deny-record 1\n")?;
    'items: for item in verdicts.items() {
        put_item(&mut out, item)?;
    }
    out.extend_from_slice(b"end\n")?;
    Ok(Bytes::from(out))
}
