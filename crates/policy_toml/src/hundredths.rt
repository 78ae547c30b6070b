//! Decimal numbers of the policy.

/// Whole hundredths: 80 is 0.8, and 100 is 1.
#[derive(Clone, Copy, Debug, PartialEq, Eq)]
pub struct Hundredths(pub i64);
