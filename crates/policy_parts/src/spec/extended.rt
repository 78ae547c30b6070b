//! Package specs with further keys in their table.
ghost use Rattle.std.specs.Prelude.{◌≡◌, Some, refl};
ghost use Rattle.std.specs.Cmp.{on_per, on_equiv, on_po, on_total, partial_equiv_from_equiv};
ghost use Rattle.toml_subset.specs.shapes.Shaped.{AnswersShape, OnAnswer};
ghost use Rattle.toml_value.specs.Views.{value_view};
ghost use Rattle.policy_parts.specs.spec.Extended.{with_rest, extended_of, rest_left, left_of_extended};
ghost use Rattle.policy_parts.specs.spec.Extended.{BothOrNeither, Converts, spec_in};
ghost use Rattle.policy_parts.specs.spec.Order.{spec_order};
ghost use Rattle.policy_parts.specs.spec.OrderLaws.{same_spec_equiv, spec_order_total, spec_po, spec_ties};
ghost use Rattle.policy_parts.specs.spec.Same.{same_spec};

use crate::spec::package_spec::PackageSpec;
use crate::spec::reading::read_spec;
use policy_toml::{DeserError, Deserialize, Value};
use std::alloc::Global;
use std::cmp::Ordering;

/// A spec, and what the other keys of its table stand for. It is compared by its spec alone.
#[derive(Drop)]
pub struct PackageSpecOrExtended<T> {
    pub spec: PackageSpec,
    /// Nothing where no other key is there.
    pub inner: Option<T>,
}

impl<T> PackageSpecOrExtended<T> {
    /// The same spec, with the rest converted.
    pub fn convert<V: From<T>>(self) -> PackageSpecOrExtended<V>
        ensures spec { result.spec ≡ self.spec }
        ensures inner { BothOrNeither V.from_gives self.inner result.inner }
    {
        let PackageSpecOrExtended { spec, inner } = self;
        PackageSpecOrExtended {
            spec,
            inner: match inner {
                Some(inner) => Some(V::from(inner)),
                None => None,
            },
        }
    }

    /// The same spec, with the rest converted, or what refuses that.
    pub fn try_convert<V: TryFrom<T, Error = E>, E>(self) -> Result<PackageSpecOrExtended<V>, E>
        ensures { Converts V.try_from_gives self result }
    {
        let PackageSpecOrExtended { spec, inner } = self;
        match inner {
            Some(inner) => match V::try_from(inner) {
                Ok(inner) => Ok(PackageSpecOrExtended {
                    spec,
                    inner: Some(inner),
                }),
                Err(error) => Err(error),
            },
            None => Ok(PackageSpecOrExtended { spec, inner: None }),
        }
    }
}

impl<X, T: Deserialize<X>> Deserialize<X> for PackageSpecOrExtended<T> {
    ghost reads = { λ context. extended_of (T.reads context) };

    ghost leaves = { λ context. left_of_extended (T.leaves context) };

    fn deserialize(
        alloc: Global,
        value: &mut Value<'_>,
        context: &X,
    ) -> Result<PackageSpecOrExtended<T>, DeserError> {
        match read_spec(alloc, value) {
            Ok(spec) => read_rest(alloc, value, context, spec),
            Err(error) => Err(error),
        }
    }
}

/// Reads the keys that are left, where there are some.
fn read_rest<X, T: Deserialize<X>>(
    alloc: Global,
    value: &mut Value<'_>,
    context: &X,
    spec: PackageSpec,
) -> Result<PackageSpecOrExtended<T>, DeserError>
    ensures read { AnswersShape (with_rest (T.reads context.now) (value_view value.old) spec) result }
    ensures left { let left = rest_left (T.leaves context.now) (value_view value.old) in
        OnAnswer result (value_view value.new ≡ left) }
{
    if !value.has_keys() {
        return Ok(PackageSpecOrExtended { spec, inner: None });
    }
    match T::deserialize(alloc, value, context) {
        Ok(inner) => Ok(PackageSpecOrExtended {
            spec,
            inner: Some(inner),
        }),
        Err(error) => Err(error),
    }
}

impl<T> PartialEq for PackageSpecOrExtended<T> {
    ghost eq = { λ x y. same_spec x.spec y.spec };

    ghost laws = { on_per spec_in (partial_equiv_from_equiv same_spec_equiv) };

    fn eq(&self, other: &PackageSpecOrExtended<T>) -> bool {
        self.spec == other.spec
    }
}

impl<T> Eq for PackageSpecOrExtended<T> {
    ghost laws = { on_equiv spec_in same_spec_equiv };
}

impl<T> PartialOrd for PackageSpecOrExtended<T> {
    ghost partial_cmp = { λ x y. Some (spec_order x.spec y.spec) };

    ghost laws = { on_po spec_in spec_po };

    fn partial_cmp(&self, other: &PackageSpecOrExtended<T>) -> Option<Ordering> {
        Some(self.cmp(other))
    }
}

impl<T> Ord for PackageSpecOrExtended<T> {
    ghost cmp = { λ x y. spec_order x.spec y.spec };

    ghost total = { on_total spec_in spec_order_total };

    ghost matches_partial_cmp = { λ x y. refl };

    ghost matches_eq = { λ x y. spec_ties x.spec y.spec };

    fn cmp(&self, other: &PackageSpecOrExtended<T>) -> Ordering {
        self.spec.cmp(&other.spec)
    }
}
