//! Sources by variant, then by the text of the address, then by the value of a git source.
ghost use Rattle.std.specs.Prelude.{◌≡◌, Some, option_copied};
ghost use Rattle.std.proofs.Common.{rules};
ghost use Rattle.std.specs.Ordering.{eq_by_cmp};
ghost use Rattle.std.specs.Cmp.{eq_by_cmp_equiv, partial_equiv_from_equiv, partial_order_from_total};
ghost use Rattle.std.specs.Cmp.Rules.{comparing};
ghost use Rattle.graph_core.specs.source.Source as spec;
ghost use Rattle.graph_core.specs.source.Source.{source_order, source_order_total};

use crate::source::source::{GitSpec, Source};
use std::cmp::Ordering;

fn git_rank(named: GitSpec) -> u8
    ensures { result ≡ spec.git_rank named }
{
    match named {
        GitSpec::Any => 2,
        GitSpec::Branch => 3,
        GitSpec::Tag => 4,
        GitSpec::Rev => 5,
    }
}

impl Source {
    fn rank(&self) -> u8
        ensures { result ≡ spec.rank_of self.now }
    {
        match self {
            Source::CratesIo(false) => 0,
            Source::CratesIo(true) => 1,
            Source::Git { spec, .. } => git_rank(*spec),
            Source::Registry(_) => 6,
            Source::Sparse(_) => 7,
        }
    }

    fn address_text(&self) -> &str
        ensures { result.now ≡ spec.address_text self.now }
    {
        match self {
            Source::CratesIo(_) => "",
            Source::Git { url, .. } | Source::Registry(url) | Source::Sparse(url) => url.as_str(),
        }
    }

    fn git_value(&self) -> Option<&str>
        ensures { option_copied result ≡ spec.git_value self.now }
    {
        match self {
            Source::Git {
                spec_value: Some(value),
                ..
            } => Some(value.as_str()),
            _ => None,
        }
    }
}

impl PartialEq for Source {
    ghost eq = { eq_by_cmp source_order };

    ghost laws = { partial_equiv_from_equiv (eq_by_cmp_equiv source_order_total) };

    fn eq(&self, other: &Source) -> bool {
        self.cmp(other).is_eq()
    }
}

impl Eq for Source {
    ghost laws = { eq_by_cmp_equiv source_order_total };
}

impl PartialOrd for Source {
    ghost partial_cmp = { λ x y. Some (source_order x y) };

    ghost laws = { partial_order_from_total source_order_total };

    fn partial_cmp(&self, other: &Source) -> Option<Ordering> {
        Some(self.cmp(other))
    }
}

impl Ord for Source {
    ghost cmp = { source_order };

    ghost total = { source_order_total };

    ghost matches_partial_cmp = { Prim.search (comparing, rules) };

    ghost matches_eq = { Prim.search (comparing, rules) };

    fn cmp(&self, other: &Source) -> Ordering {
        self.rank()
            .cmp(&other.rank())
            .then(self.address_text().cmp(other.address_text()))
            .then(self.git_value().cmp(&other.git_value()))
    }
}
