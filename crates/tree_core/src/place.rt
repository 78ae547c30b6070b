//! Places in a tree: the names that lead there from the root.
ghost use Rattle.std.specs.Prelude.{◌≡◌, ℕ, List, [], ◌∷◌, IfOk, OnOk, IfSome, IfNone, ◌≢◌, ◌++◌, IsTrue};
ghost use Rattle.std.specs.Prelude.{◌↔◌, Some};
ghost use Rattle.std.proofs.Common.{rules};
ghost use Rattle.std.specs.Ordering.{eq_by_cmp};
ghost use Rattle.std.specs.Cmp.{eq_by_cmp_equiv, partial_equiv_from_equiv, partial_order_from_total};
ghost use Rattle.std.specs.Cmp.Rules.{comparing};
ghost use Rattle.tree_core.specs.Content.{Place, names_cmp, place_above, place_cmp, place_cmp_total, step, resolve};

use deny_text::Text;
use deny_text::path::components;
use std::alloc::{AllocError, Global};
use std::cmp::Ordering;
use std::marker::Model;

/// The names that lead to a place from the root. Places are ordered by the folder that they are in, and
/// then by their name.
#[derive(Drop)]
pub struct Place {
    names: Vec<Text>,
}

impl Model for Place {
    ghost Value = { List (List ℕ) };

    ghost view = { λ p. p.names.items };
}

impl Place {
    /// The root, which takes no memory.
    pub fn root(alloc: Global) -> Place
        ensures { result ≡ [] }
    {
        Place {
            names: Vec::new(alloc),
        }
    }

    /// The place that a path leads to, from the root on.
    pub fn resolve(alloc: Global, path: &str) -> Result<Place, AllocError>
        ensures { IfOk result (λ p. p ≡ resolve path.now) }
    {
        let mut place = Place::root(alloc);
        let mut parts = components(path);
        'parts: while let Some(part) = parts.next() {
            place.go(alloc, part.as_str())?;
        }
        Ok(place)
    }

    /// Takes one part of a path.
    fn go(&mut self, alloc: Global, part: &str) -> Result<(), AllocError>
        ensures { OnOk result (self.new ≡ step self.old part.now) }
    {
        match part {
            "/" => self.names.clear(),
            "." => {}
            ".." => {
                let _name = self.names.pop();
            }
            _ => {
                let name = Text::copy(alloc, part)?;
                self.names.push(name)?;
            }
        }
        Ok(())
    }

    pub fn copy(&self, alloc: Global) -> Result<Place, AllocError>
        ensures { IfOk result (λ p. p ≡ self.now) }
    {
        let names = copy_names(alloc, &self.names)?;
        Ok(Place { names })
    }

    /// The folder that this is in; the root for the root.
    pub fn above(&self, alloc: Global) -> Result<Place, AllocError>
        ensures { IfOk result (λ p. p ≡ place_above self.now) }
    {
        let names = copy_names(alloc, self.names_above())?;
        Ok(Place { names })
    }

    fn names_above(&self) -> &[Text]
        ensures { result.now ≡ place_above self.now }
    {
        let count = self.names.len().saturating_sub(1);
        &self.names[..count]
    }

    /// The place right in this folder with the name, which may be empty.
    pub fn child(&self, alloc: Global, name: &str) -> Result<Place, AllocError>
        ensures { IfOk result (λ p. p ≡ self.now ++ name.now ∷ []) }
    {
        let mut names = copy_names(alloc, &self.names)?;
        let name = Text::copy(alloc, name)?;
        names.push(name)?;
        Ok(Place { names })
    }

    pub fn is_root(&self) -> bool
        ensures { IsTrue result ↔ (self.now ≡ []) }
    {
        self.names.is_empty()
    }

    /// The name of what is right in the folder, where this is such a place.
    pub fn name_in(&self, folder: &Place) -> Option<&str>
        ensures some { IfSome result (λ name. self.now ≡ folder.now ++ name.now ∷ []) }
        ensures none { IfNone result ((name : List ℕ) → self.now ≢ folder.now ++ name ∷ []) }
    {
        name_right_in(&self.names, folder.names())
    }

    pub fn names(&self) -> &[Text]
        ensures { result.now ≡ self.now }
    {
        &self.names
    }
}

fn name_right_in<'a>(names: &'a [Text], folder: &[Text]) -> Option<&'a str>
    ensures some { IfSome result (λ name. names.now ≡ folder.now ++ name.now ∷ []) }
    ensures none { IfNone result ((name : List ℕ) → names.now ≢ folder.now ++ name ∷ []) }
{
    if names.is_empty() {
        return None;
    }
    let last = names.len() - 1;
    let above = &names[..last];
    if above.cmp(folder).is_eq() {
        return Some(names[last].as_str());
    }
    None
}

fn copy_names(alloc: Global, names: &[Text]) -> Result<Vec<Text>, AllocError>
    ensures { IfOk result (λ copies. copies.items ≡ names.now) }
{
    let mut copies = Vec::new(alloc);
    'names: for name in names {
        let copy = Text::copy(alloc, name.as_str())?;
        copies.push(copy)?;
    }
    Ok(copies)
}

/// Of places in one folder the last names decide; the root comes before all others.
fn compare_last(left: &[Text], right: &[Text]) -> Ordering
    requires { place_above left.now ≡ place_above right.now }
    ensures { result ≡ names_cmp left.now right.now }
{
    match (left.last(), right.last()) {
        (None, None) => Ordering::Equal,
        (None, Some(_)) => Ordering::Less,
        (Some(_), None) => Ordering::Greater,
        (Some(left), Some(right)) => left.cmp(right),
    }
}

fn compare(left: &Place, right: &Place) -> Ordering
    ensures { result ≡ place_cmp left.now right.now }
{
    match left.names_above().cmp(right.names_above()) {
        Ordering::Equal => compare_last(left.names(), right.names()),
        order => order,
    }
}

impl PartialEq for Place {
    ghost eq = { eq_by_cmp place_cmp };

    ghost laws = { partial_equiv_from_equiv (eq_by_cmp_equiv place_cmp_total) };

    fn eq(&self, other: &Place) -> bool {
        compare(self, other).is_eq()
    }
}

impl Eq for Place {
    ghost laws = { eq_by_cmp_equiv place_cmp_total };
}

impl PartialOrd for Place {
    ghost partial_cmp = { λ x y. Some (place_cmp x y) };

    ghost laws = { partial_order_from_total place_cmp_total };

    fn partial_cmp(&self, other: &Place) -> Option<Ordering> {
        Some(compare(self, other))
    }
}

impl Ord for Place {
    ghost cmp = { place_cmp };

    ghost total = { place_cmp_total };

    ghost matches_partial_cmp = { Prim.search (comparing, rules) };

    ghost matches_eq = { Prim.search (comparing, rules) };

    fn cmp(&self, other: &Place) -> Ordering {
        compare(self, other)
    }
}
