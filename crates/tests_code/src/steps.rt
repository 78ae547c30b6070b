//! Counted steps, at a ledger of the test's own.
ghost use Rattle.std.specs.Prelude.{◌≡◌, ◌<◌};

use deny_text::Steps;
use std::marker::Brand;
use std::sync::ledger::{Blank, Ledger};

fn two_steps<L: Ledger>(ledger: Blank) -> Steps<L>
    requires name { ledger.name ≡ L.name }
    requires parts { ledger.parts ≡ L.parts }
    requires some { 0 < ledger.parts }
    ensures { result ≡ 2 }
{
    let mut steps = Steps::new(ledger);
    steps.tick();
    steps.tick();
    steps
}

fn count<L: Ledger>(ledger: Blank)
    requires name { ledger.name ≡ L.name }
    requires parts { ledger.parts ≡ L.parts }
    requires some { 0 < ledger.parts }
{
    let _steps = two_steps::<L>(ledger);
}

#[test]
fn counts_at_a_ledger_of_its_own() {
    count::<Brand>(Blank::new(1));
}
