//! Addresses whose crates are passed over.
ghost use Rattle.std.specs.Prelude.{◌≡◌, ◌++◌, IfOk, OnOk};
ghost use Rattle.std.specs.Result.{result_ok};
ghost use Rattle.deny_text.specs.Fronts.{StandsInFront};
ghost use Rattle.graph_core.specs.source.Reading.{address_of};
ghost use Rattle.policy_core.specs.validate.Valid.{address_judged, kept_by, findings_by_each};

use crate::valid::Urls;
use crate::validate::findings::{ItemOrFinding, error_at, push_judged};
use deny_text::{Spanned, Text};
use diag_core::FileId;
use diag_core::lists::Diagnostics;
use graph_core::source::normalize_git_url;
use std::alloc::{AllocError, Global};
use url::{ParseError, Url};

/// Bytes of an address at most.
const ADDRESS_LIMIT: usize = 65_536;

/// The address that a text is read as; none where it is too long or refused.
fn read_address(alloc: Global, text: &str) -> Result<Option<Url>, AllocError>
    ensures { IfOk result (λ read. read ≡ result_ok (address_of text.now)) }
{
    if text.len() > ADDRESS_LIMIT {
        return Ok(None);
    }
    match Url::parse(alloc, text) {
        Ok(address) => Ok(Some(address)),
        Err(ParseError::OutOfMemory | ParseError::Overflow) => Err(AllocError),
        Err(_) => Ok(None),
    }
}

/// An address in normal form, or that it can't be read.
fn judge_address(
    alloc: Global,
    file: FileId,
    string: &Spanned<Text>,
) -> Result<ItemOrFinding<Url>, AllocError>
    ensures { IfOk result (λ judged. judged ≡ address_judged file string.now) }
{
    match read_address(alloc, string.value.as_str())? {
        Some(mut address) => {
            normalize_git_url(alloc, &mut address)?;
            Ok(Ok(address))
        }
        None => {
            let place = string.span;
            let diag = error_at(alloc, file, "failed to parse url", place, "invalid address")?;
            Ok(Err(diag))
        }
    }
}

/// The addresses that can be read, in normal form; each other one is reported.
pub(crate) fn judge_addresses(
    alloc: Global,
    file: FileId,
    strings: &[Spanned<Text>],
    found: &mut Diagnostics,
) -> Result<Urls, AllocError>
    ensures kept { IfOk result (λ kept. kept ≡ kept_by (address_judged file) strings.now) }
    ensures told { OnOk result (found.new ≡ found.old ++ findings_by_each (address_judged file) strings.now) }
    ensures front { StandsInFront found.old found.new }
{
    let mut kept = Urls::new(alloc);
    'strings: for string in strings {
        let judged = judge_address(alloc, file, string)?;
        push_judged(judged, &mut kept, found)?;
    }
    Ok(kept)
}
