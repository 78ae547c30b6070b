//! Paths, read by their components.
ghost use Rattle.std.specs.Prelude.{◌≡◌, ℕ, ◌↔◌, ◌==◌, List, IfOk, IfSome, IsTrue, string_bytes, Some};
ghost use Rattle.std.specs.Prelude.{if◌then◌else◌};
ghost use Rattle.std.specs.Option.{option_copied};
ghost use Rattle.std.specs.Path.{components_remaining};
ghost use Rattle.std.specs.Iterator.{item_count};
ghost use Rattle.std.specs.Ordering.{eq_by_cmp};
ghost use Rattle.std.specs.Cmp.{eq_by_cmp_equiv, partial_equiv_from_equiv, partial_order_from_total};
ghost use Rattle.std.specs.Cmp.Rules.{comparing};
ghost use Rattle.std.proofs.Common.{rules};
ghost use Rattle.deny_text.specs.Path.{components_of, join_of, parent_of, ParentDropsLast, RootHasNoParent};
ghost use Rattle.deny_text.specs.Path.{JoinsByParts, IsSharedSlash, KeysTellPaths, key_of, part_rank};
ghost use Rattle.deny_text.specs.Path.{part_cmp, path_order, path_order_total, file_name_of, EndsWithParts};
ghost use Rattle.deny_text.specs.Path.{BeginsAtRoot};

use crate::text::Text;
use std::alloc::{AllocError, Global};
use std::cmp::Ordering;
use std::marker::Model;
use std::{fmt, path};

/// A part of a path.
#[derive(Clone, Copy, Debug, PartialEq, Eq)]
pub enum Component<'a> {
    /// The leading slash of an absolute path.
    Root,
    /// A `.` at the start of a relative path.
    Cur,
    /// A `..`.
    Parent,
    Name(&'a str),
}

impl<'a> Component<'a> {
    ghost use Rattle.deny_text.specs.Component.{component_text};

    pub fn as_str(self) -> &'a str
        ensures { result.now ≡ component_text self.entry }
    {
        match self {
            Component::Root => "/",
            Component::Cur => ".",
            Component::Parent => "..",
            Component::Name(name) => name,
        }
    }
}

/// The parts of a path that are still to come, seen as their texts.
#[derive(Drop)]
pub struct ComponentIter<'a> {
    inner: path::Components<'a>,
}

impl<'a> Model for ComponentIter<'a> {
    ghost Value = { List (List ℕ) };

    ghost view = { λ c. components_remaining c.inner };
}

impl<'a> Iterator for ComponentIter<'a> {
    ghost use Rattle.deny_text.specs.Component.{YieldsPart};

    type Item = Component<'a>;

    ghost next_gives = { YieldsPart };

    ghost remaining = { item_count (λ parts. parts) };

    fn next(&mut self) -> Option<Component<'a>> {
        Some(match self.inner.next()? {
            path::Component::RootDir => Component::Root,
            path::Component::CurDir => Component::Cur,
            path::Component::ParentDir => Component::Parent,
            path::Component::Normal(name) => Component::Name(name),
        })
    }
}

/// The parts of a path, in order.
pub fn components(path: &str) -> ComponentIter<'_>
    ensures { result ≡ components_of path.now }
{
    ComponentIter {
        inner: path::Path::new(path).components(),
    }
}

/// The root comes before `.`, that before `..`, and that before the names.
fn rank(part: &str) -> u8
    ensures { result ≡ part_rank part.now }
{
    if part == "/" {
        0
    } else if part == "." {
        1
    } else if part == ".." {
        2
    } else {
        3
    }
}

fn compare_parts(x: &str, y: &str) -> Ordering
    ensures { result ≡ part_cmp x.now y.now }
{
    rank(x).cmp(&rank(y)).then(x.cmp(y))
}

/// The last place at which both texts have a slash, and up to which they are the same.
fn last_shared_slash(x: &str, y: &str) -> Option<usize>
    ensures { IfSome result (IsSharedSlash x.now y.now) }
{
    let (x, y) = (x.as_bytes(), y.as_bytes());
    let shorter = x.len().min(y.len());
    let mut slash = None;
    let mut place = 0;
    'shared: while place < shorter && x[place] == y[place] {
        slash = slash_at(x[place], place, slash);
        place += 1;
    }
    slash
}

/// The place where a slash is there, and else the one before.
fn slash_at(byte: u8, place: usize, before: Option<usize>) -> Option<usize>
    ensures { result ≡ (if byte == 47 then Some place else before) }
{
    if byte == b'/' { Some(place) } else { before }
}

/// By components: the first parts that differ decide, and a proper front comes first.
pub fn compare(x: &str, y: &str) -> Ordering
    ensures { result ≡ path_order x.now y.now }
{
    match last_shared_slash(x, y) {
        Some(place) => compare_components(x.split_at(place).1, y.split_at(place).1),
        None => compare_components(x, y),
    }
}

fn compare_components(x: &str, y: &str) -> Ordering
    ensures { result ≡ path_order x.now y.now }
{
    let mut xs = components(x);
    let mut ys = components(y);
    'parts: loop {
        match (xs.next(), ys.next()) {
            (None, None) => return Ordering::Equal,
            (None, Some(_)) => return Ordering::Less,
            (Some(_), None) => return Ordering::Greater,
            (Some(a), Some(b)) => match compare_parts(a.as_str(), b.as_str()) {
                Ordering::Equal => {}
                Ordering::Less => return Ordering::Less,
                Ordering::Greater => return Ordering::Greater,
            },
        }
    }
}

/// An owned path, seen as its text. Paths are equal and ordered by components.
#[derive(Drop)]
pub struct PathBuf {
    text: Text,
}

impl Model for PathBuf {
    ghost Value = { List ℕ };

    ghost view = { λ p. p.text };
}

impl PathBuf {
    pub fn copy(alloc: Global, path: &str) -> Result<PathBuf, AllocError>
        ensures { IfOk result (λ p. p ≡ path.now) }
    {
        let text = Text::copy(alloc, path)?;
        Ok(PathBuf { text })
    }

    pub fn as_path(&self) -> &str
        ensures { result.now ≡ self.now }
    {
        self.text.as_str()
    }
}

impl fmt::Display for PathBuf {
    ghost output = { λ path. Some path };

    fn fmt<W: fmt::Write>(&self, f: &mut fmt::Formatter<W>) -> fmt::Result {
        fmt::Display::fmt(&self.text, f)
    }
}

impl fmt::Debug for PathBuf {
    fn fmt<W: fmt::Write>(&self, f: &mut fmt::Formatter<W>) -> fmt::Result {
        fmt::Debug::fmt(&self.text, f)
    }
}

impl PartialEq for PathBuf {
    ghost eq = { eq_by_cmp path_order };

    ghost laws = { partial_equiv_from_equiv (eq_by_cmp_equiv path_order_total) };

    fn eq(&self, other: &PathBuf) -> bool {
        compare(self.as_path(), other.as_path()).is_eq()
    }
}

impl Eq for PathBuf {
    ghost laws = { eq_by_cmp_equiv path_order_total };
}

impl PartialOrd for PathBuf {
    ghost partial_cmp = { λ x y. Some (path_order x y) };

    ghost laws = { partial_order_from_total path_order_total };

    fn partial_cmp(&self, other: &PathBuf) -> Option<Ordering> {
        Some(compare(self.as_path(), other.as_path()))
    }
}

impl Ord for PathBuf {
    ghost cmp = { path_order };

    ghost total = { path_order_total };

    ghost matches_partial_cmp = { Prim.search (comparing, rules) };

    ghost matches_eq = { Prim.search (comparing, rules) };

    fn cmp(&self, other: &PathBuf) -> Ordering {
        compare(self.as_path(), other.as_path())
    }
}

/// `path` where it is absolute. Else `base`, a `/` where `base` is not empty and lacks one at its end, and
/// `path`.
pub fn join(alloc: Global, base: &str, path: &str) -> Result<PathBuf, AllocError>
    ensures { IfOk result (λ p. p ≡ join_of base.now path.now) }
{
    let mut joined = path::PathBuf::from_str(alloc, base)?;
    joined.push(path)?;
    let text = Text::from(joined.into_string());
    Ok(PathBuf { text })
}

/// The path without its last part; none for the root alone and for a path with no part.
pub fn parent(path: &str) -> Option<&str>
    ensures { option_copied result ≡ parent_of path.now }
{
    let above = path::Path::new(path).parent()?;
    Some(above.as_str())
}

/// The parent of a path has all its parts but the last.
pub fn parent_drops_last()
    ensures { ParentDropsLast }
{}

/// The root alone and a path with no part have no parent, and all others have one.
pub fn root_has_no_parent()
    ensures { RootHasNoParent }
{}

/// The parts of a join are the parts of the paths.
pub fn joins_by_parts()
    ensures { JoinsByParts }
{}

/// A text for look-ups of paths: paths have one key exactly where they are equal.
pub fn key(alloc: Global, path: &str) -> Result<Text, AllocError>
    ensures { IfOk result (λ key. key ≡ key_of path.now) }
{
    let mut key = String::with_capacity(alloc, path.len() + 2)?;
    let mut parts = components(path);
    'parts: while let Some(part) = parts.next() {
        key.push_str(part.as_str())?;
        key.push_str("/")?;
    }
    Ok(Text::from(key))
}

/// Paths have one key exactly where they are equal.
pub fn keys_tell_paths()
    ensures { KeysTellPaths }
{}

/// The last part where it is a name.
pub fn file_name(path: &str) -> Option<&str>
    ensures { option_copied result ≡ file_name_of path.now }
{
    match path::Path::new(path).components().next_back()? {
        path::Component::Normal(name) => Some(name),
        _ => None,
    }
}

/// Whether the parts of `path` end with all the parts of `end`.
pub fn ends_with(path: &str, end: &str) -> bool
    ensures { IsTrue result ↔ EndsWithParts path.now end.now }
{
    path::Path::new(path).ends_with(end)
}

/// Whether the path begins with `/`.
pub fn is_absolute(path: &str) -> bool
    ensures { IsTrue result ↔ BeginsAtRoot path.now }
{
    path::Path::new(path).is_absolute()
}
