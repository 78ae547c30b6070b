//! Tables that are taken out of one another, and put back.
ghost use Rattle.std.specs.Prelude.{◌≡◌, ◌<◌, ◌++◌, [], ◌∷◌, length, IsTrue, IfOk, IfSome, option_map};
ghost use Rattle.toml_subset.specs.frames.Levels.{steps_in, around_node, header_branches as opened_in, new_around as fresh_in};
ghost use Rattle.toml_value.specs.BranchViews.{node_view, branches_view, is_whole, is_whole_node};
ghost use Rattle.toml_value.specs.AroundViews.{around_view, is_whole_around, opened_view};
ghost use Rattle.toml_value.specs.declared.tree.Branches.{out-Branches};

use super::fault::DEPTH_LIMIT;
use super::{Body, Branches, Mark, Node};
use deny_text::Span;
use std::alloc::{AllocError, Global};
use toml_subset::Key;
use toml_subset::frames::HeaderPart;

/// What a table that was taken out is where it is there.
#[derive(Drop)]
pub(crate) enum Around<'de> {
    /// A table of its own.
    Alone(Span, Mark),
    /// The last of an array of tables: the array's place, the tables before, and the last one's place.
    Behind(Span, Vec<Body<'de>>, Span),
}

/// A table without the one that was taken out of it, and the place of its key.
#[derive(Drop)]
pub(crate) struct TableLevel<'de> {
    pub(crate) table: Branches<'de>,
    pub(crate) place: usize,
    pub(crate) around: Around<'de>,
    ghost whole: { IsTrue (is_whole table) },
    ghost inside: { place < length (out-Branches table).nodes.items },
    ghost around_whole: { IsTrue (is_whole_around around) },
}

/// What a part of a header opens of what is at it.
type OpenedTable<'de> = Option<(Around<'de>, Branches<'de>)>;

impl<'de> Around<'de> {
    /// How many tables and arrays it puts around what is in it.
    pub(crate) fn steps(&self) -> usize
        ensures { result ≡ steps_in (around_view self.now) }
    {
        match self {
            Around::Alone(_, _) => 1,
            Around::Behind(_, _, _) => 2,
        }
    }

    /// Lets go what is around the table.
    pub(crate) fn let_go(self) {}

    /// What is there with the table put back.
    fn with(self, inner: Branches<'de>) -> Node<'de>
        requires around { IsTrue (is_whole_around self) }
        requires inner { IsTrue (is_whole inner) }
        ensures view { node_view result ≡ around_node (around_view self.entry) (branches_view inner.entry) }
        ensures whole { IsTrue (is_whole_node result) }
    {
        match self {
            Around::Alone(span, mark) => Node::Growing(span, mark, inner),
            Around::Behind(span, before, last) => Node::Tables(span, before, last, inner),
        }
    }
}

impl<'de> TableLevel<'de> {
    ghost use Rattle.std.specs.Prelude.{◌≡◌, IsTrue};
    ghost use Rattle.toml_subset.specs.frames.Levels.{table_with_inner};
    ghost use Rattle.toml_value.specs.BranchViews.{branches_view, is_whole};
    ghost use Rattle.toml_value.specs.LevelViews.{level_view};

    /// The table with the one that was taken out, as it is now, put back.
    pub(crate) fn with(self, inner: Branches<'de>) -> Branches<'de>
        requires { IsTrue (is_whole inner) }
        ensures view { branches_view result ≡ table_with_inner (level_view self.entry) (branches_view inner.entry) }
        ensures whole { IsTrue (is_whole result) }
    {
        let TableLevel {
            mut table,
            place,
            around,
        } = self;
        table.put_back(place, around.with(inner));
        table
    }
}

/// A table with keys of its own, or the last one of an array of tables.
fn opened_through(node: Node<'_>) -> OpenedTable<'_>
    requires { IsTrue (is_whole_node node) }
    ensures view { option_map opened_view result ≡ opened_in HeaderPart.Through (node_view node.entry) }
    ensures around { IfSome result (λ o. IsTrue (is_whole_around o.0)) }
    ensures inner { IfSome result (λ o. IsTrue (is_whole o.1)) }
{
    match node {
        Node::Closed(value) => {
            value.let_go();
            None
        }
        Node::Growing(span, mark, inner) => Some((Around::Alone(span, mark), inner)),
        Node::Tables(span, before, last, inner) => {
            Some((Around::Behind(span, before, last), inner))
        }
    }
}

/// An implicit table, which a header takes over.
fn taken_over(node: Node<'_>, at: Span) -> OpenedTable<'_>
    requires { IsTrue (is_whole_node node) }
    ensures view { option_map opened_view result ≡ opened_in (HeaderPart.Table at) (node_view node.entry) }
    ensures around { IfSome result (λ o. IsTrue (is_whole_around o.0)) }
    ensures inner { IfSome result (λ o. IsTrue (is_whole o.1)) }
{
    match node {
        Node::Growing(_, Mark::Implicit, inner) => Some((Around::Alone(at, Mark::Header), inner)),
        other => {
            other.let_go();
            None
        }
    }
}

/// The tables of an array of tables, and a further one.
fn with_body<'de>(before: Vec<Body<'de>>, body: Body<'de>) -> Result<Vec<Body<'de>>, AllocError>
    ensures { IfOk result (λ new. new.items ≡ before.entry.items ++ body.entry ∷ []) }
{
    let mut before = before;
    before.push(body)?;
    Ok(before)
}

/// A further table of an array of tables.
fn appended(alloc: Global, node: Node<'_>, at: Span) -> Result<OpenedTable<'_>, AllocError>
    requires { IsTrue (is_whole_node node) }
    ensures view { let wanted = opened_in (HeaderPart.Array at) (node_view node.entry) in
        IfOk result (λ found. option_map opened_view found ≡ wanted) }
    ensures around { IfOk result (λ found. IfSome found (λ o. IsTrue (is_whole_around o.0))) }
    ensures inner { IfOk result (λ found. IfSome found (λ o. IsTrue (is_whole o.1))) }
{
    match node {
        Node::Tables(span, before, last, inner) => {
            let body = Body {
                span: last,
                table: inner,
            };
            let tables = with_body(before, body)?;
            Ok(Some((Around::Behind(span, tables, at), Branches::new(alloc))))
        }
        other => {
            other.let_go();
            Ok(None)
        }
    }
}

/// What a part of a header opens of what is at it. Where memory ends, nothing is left.
pub(crate) fn opened(
    alloc: Global,
    part: HeaderPart,
    node: Node<'_>,
) -> Result<OpenedTable<'_>, AllocError>
    requires { IsTrue (is_whole_node node) }
    ensures view { let wanted = opened_in part (node_view node.entry) in
        IfOk result (λ found. option_map opened_view found ≡ wanted) }
    ensures around { IfOk result (λ found. IfSome found (λ o. IsTrue (is_whole_around o.0))) }
    ensures inner { IfOk result (λ found. IfSome found (λ o. IsTrue (is_whole o.1))) }
{
    match part {
        HeaderPart::Through => Ok(opened_through(node)),
        HeaderPart::Table(at) => Ok(taken_over(node, at)),
        HeaderPart::Array(at) => appended(alloc, node, at),
    }
}

/// What a part of a header makes where nothing is there, unless that is too deep.
pub(crate) fn fresh<'de>(
    alloc: Global,
    part: HeaderPart,
    key: &Key<'_>,
    above: usize,
) -> Option<Around<'de>>
    ensures view { option_map around_view result ≡ fresh_in part key.now above }
    ensures around { IfSome result (λ around. IsTrue (is_whole_around around)) }
{
    match part {
        HeaderPart::Through if above != DEPTH_LIMIT => Some(Around::Alone(
            key.span,
            Mark::Implicit,
        )),
        HeaderPart::Table(at) if above != DEPTH_LIMIT => Some(Around::Alone(at, Mark::Header)),
        HeaderPart::Array(at) if above < DEPTH_LIMIT - 1 => Some(Around::Behind(
            at,
            Vec::new(alloc),
            at,
        )),
        _ => None,
    }
}
