//! Verdicts on a crate, each with what shows it.

use deny_text::ListOf;

/// Places of terms in an expression, each counted from 0 in text order.
pub type TermPlaces = ListOf<usize>;

/// What allows the terms at some places, place by place.
pub type Hits = ListOf<Hit>;

/// The entry of a policy that allows a term. Places count from 0.
#[derive(Clone, Copy, Debug, PartialEq, Eq)]
pub enum Hit {
    /// A place in the policy's allowed licences, in sorted order.
    Allowed(usize),
    /// A place in the policy's exceptions, and a place among the licences that this exception allows.
    Exception { exception: usize, entry: usize },
}

/// The verdict on a crate.
#[derive(Drop)]
pub enum Verdict {
    /// The policy passes the crate over.
    Skipped,
    /// The crate has no licence expression.
    Unlicensed,
    /// The first choice of terms that are all allowed, and what allows each of them.
    Accepted {
        choice: TermPlaces,
        hits: Hits,
    },
    /// No choice of terms is allowed.
    Rejected {
        /// The first choice with the fewest terms that are not allowed.
        least: TermPlaces,
        /// Terms that are not allowed, of which every choice holds one.
        blocks: TermPlaces,
    },
}
