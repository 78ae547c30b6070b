//! Searches in slices.
ghost use Rattle.std.specs.Prelude.{◌↔◌, Any, IfOk, IfErr, IsTrue, IsSorted};
ghost use Rattle.deny_text.specs.Search.{IsEqualPlace, IsOwnPlace};

/// A place at which `query` is, or else the place where it belongs.
#[tactic(auto, using(crate::proofs::SearchLemmas::own_place))]
pub fn binary_search<T: Ord>(s: &[T], query: &T) -> Result<usize, usize>
    requires { IsSorted T.cmp s.now }
    ensures found { IfOk result (IsEqualPlace T.cmp s.now query.now) }
    ensures absent { IfErr result (IsOwnPlace T.cmp s.now query.now) }
{
    s.binary_search(query)
}

/// Whether some item equals `query`.
pub fn contains<T: Eq>(s: &[T], query: &T) -> bool
    ensures { IsTrue result ↔ Any (λ item. IsTrue (T.eq item query.now)) s.now }
{
    s.contains(query)
}
