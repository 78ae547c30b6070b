//! A path and the paths above it.
ghost use Rattle.std.specs.Prelude.{◌≡◌, ℕ, List};
ghost use Rattle.std.specs.Option.{option_copied};
ghost use Rattle.std.specs.Iterator.{YieldsFirstBy, item_count};
ghost use Rattle.deny_text.specs.Path.{ancestors_of, ancestors_from, AncestorsGoUp};

use crate::path::parent;
use std::marker::Model;

/// A path and the paths above it that are still to come, seen as their texts.
#[derive(Drop)]
pub struct AncestorIter<'a> {
    path: Option<&'a str>,
}

impl<'a> Model for AncestorIter<'a> {
    ghost Value = { List (List ℕ) };

    ghost view = { λ a. ancestors_from (option_copied a.path) };
}

impl<'a> Iterator for AncestorIter<'a> {
    type Item = &'a str;

    ghost next_gives = { YieldsFirstBy (λ path. path.now) (λ paths. paths) };

    ghost remaining = { item_count (λ paths. paths) };

    fn next(&mut self) -> Option<&'a str> {
        let path = self.path?;
        self.path = parent(path);
        Some(path)
    }
}

/// The path, then its parent, and so on up.
pub fn ancestors(path: &str) -> AncestorIter<'_>
    ensures { result ≡ ancestors_of path.now }
{
    AncestorIter { path: Some(path) }
}

/// The ancestors of a path are the path, and then the ancestors of its parent, where it has one.
pub fn ancestors_go_up()
    ensures { AncestorsGoUp }
{}
