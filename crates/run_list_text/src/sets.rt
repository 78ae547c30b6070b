//! Texts in byte order, each once.
//! Called by `listed`; `distinct` may sort and drop repeats in place of a set, its clause has the texts.
ghost use Rattle.std.specs.Prelude.{◌≡◌, [], IfOk, OnOk};
ghost use Rattle.std.specs.List.{fold};
ghost use Rattle.std.specs.Ordering.{nat_cmp};
ghost use Rattle.std.specs.Cmp.Lexicographic.{slice_cmp};
ghost use Rattle.std.specs.BTreeSet.{insert_key};
ghost use Rattle.graph_core.specs.Metadata.{AreRising};
ghost use Rattle.run_list_text.specs.Listed as spec;

use deny_text::{Text, Texts};
use std::alloc::{AllocError, Global};
use std::collections::BTreeSet;

/// Puts copies of texts into a set.
pub(crate) fn copies_in(
    alloc: Global,
    set: &mut BTreeSet<Text>,
    texts: &[Text],
) -> Result<(), AllocError>
    ensures { OnOk result (set.new.keys ≡ fold (insert_key (slice_cmp nat_cmp)) set.old.keys texts.now) }
{
    'texts: for text in texts {
        let copy = Text::copy(alloc, text.as_str())?;
        set.insert(copy)?;
    }
    Ok(())
}

/// The texts of a set, in order.
pub(crate) fn texts_of(alloc: Global, set: BTreeSet<Text>) -> Result<Texts, AllocError>
    ensures texts { IfOk result (λ texts. texts ≡ set.keys) }
    ensures ordered { IfOk result AreRising }
{
    let _count = set.len();
    let mut texts = Texts::new(alloc);
    'texts: for text in set {
        texts.push(text)?;
    }
    Ok(texts)
}

/// The texts in byte order, each once.
pub(crate) fn distinct(alloc: Global, texts: &[Text]) -> Result<Texts, AllocError>
    ensures texts { IfOk result (λ distinct. distinct ≡ spec.distinct_texts texts.now) }
    ensures ordered { IfOk result AreRising }
{
    let mut set = BTreeSet::new(alloc);
    copies_in(alloc, &mut set, texts)?;
    texts_of(alloc, set)
}
