//! Places in a text.
ghost use Rattle.std.specs.Prelude.{◌≡◌, ◌↔◌, IsTrue};

use std::cmp::Ordering;

/// The bytes from `start` up to and without `end`, counted from 0.
#[derive(Clone, Copy, Debug, PartialEq, Eq)]
pub struct Span {
    pub start: usize,
    pub end: usize,
}

/// A value and where it is in its text. The place does not count in comparisons.
#[derive(Drop, Debug)]
#[derive_where(PartialEq, Eq, PartialOrd, Ord; T)]
pub struct Spanned<T> {
    pub value: T,
    #[derive_where(skip(EqHashOrd))]
    pub span: Span,
}

/// The equality and the order of spanned values: both are those of the values alone, and they agree.
pub fn compares_by_value<T: Ord>(x: &Spanned<T>, y: &Spanned<T>) -> (bool, Ordering)
    ensures equality { result.0 ≡ T.eq x.now.value y.now.value }
    ensures order { result.1 ≡ T.cmp x.now.value y.now.value }
    ensures agree { IsTrue result.0 ↔ (result.1 ≡ Ordering.Equal) }
{
    (x == y, x.cmp(y))
}
