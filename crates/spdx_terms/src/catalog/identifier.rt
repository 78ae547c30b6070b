//! Finding the licence that a text is.
ghost use Rattle.std.specs.Prelude.{◌≡◌, ◌≤◌, ℕ, List, IfOk};
ghost use Rattle.spdx_terms.specs.declared.catalog.identifier.Match.{Match};

use deny_text::Text;
use std::alloc::{AllocError, Global};

/// What an identifier says of a text.
#[derive(Drop, PartialEq, Eq, Debug)]
pub struct Match {
    /// The licence name, where one was found.
    pub name: Option<Text>,
    /// How sure it is, in hundredths.
    pub score: u8,
}

/// Tells which licence a text is. The same text gets the same answer.
pub trait Identifier {
    ghost match_of: { Self → List ℕ → Match };

    fn scan(&self, alloc: Global, text: &str) -> Result<Match, AllocError>
        ensures { IfOk result (λ found. found ≡ match_of self.now text.now) };

    ghost within_hundred: { (identifier : Self) (text : List ℕ) → (match_of identifier text).score ≤ 100 };
}
