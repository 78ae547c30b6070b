//! What is recorded.
//! Made by decoding and run_record, read by encoding and check_verify; variants may be in any order.
ghost use Rattle.std.specs.Prelude.{◌≡◌};
ghost use Rattle.check_record.specs.Items.{IsRecord};

use deny_text::{ListOf, Text};
use spdx_core::certificates::{Hits, TermPlaces};
use std::marker::Model;

/// The verdict on a crate with what shows it.
#[derive(Drop)]
pub enum RecordVerdict {
    /// The policy passes the crate over.
    Skipped,
    /// The crate has no licence expression.
    Unlicensed,
    /// A choice of terms that are all allowed, and what allows each of them.
    Accepted { choice: TermPlaces, hits: Hits },
    /// Terms that are not allowed, of which every choice holds one.
    Rejected { blocks: TermPlaces },
}

/// What is recorded of one crate.
#[derive(Drop)]
pub struct RecordItem {
    /// The crate's id, as Cargo has it.
    pub id: Text,
    pub verdict: RecordVerdict,
}

/// What is recorded of crates, in order.
pub type RecordItems = ListOf<RecordItem>;

/// The verdicts on some crates, each with what shows it, in the byte order of the crates' ids.
#[derive(Drop)]
pub struct Record {
    items: RecordItems,
}

impl Model for Record {
    ghost use Rattle.std.specs.Prelude.{List};
    ghost use Rattle.check_record.specs.declared.items.RecordItem.{RecordItem};
    ghost use Rattle.check_record.specs.Items.{IsRecord};

    ghost Value = { List RecordItem };

    ghost view = { λ r. r.items };

    ghost invariant = { λ r. IsRecord r.items };
}

impl Record {
    /// A record of some items.
    pub fn of(items: RecordItems) -> Record
        requires { IsRecord items }
        ensures { result ≡ items }
    {
        Record { items }
    }

    /// The items in order.
    pub fn items(&self) -> &[RecordItem]
        ensures items { result.now ≡ self.now }
        ensures is { IsRecord self.now }
    {
        self.items.items()
    }
}
