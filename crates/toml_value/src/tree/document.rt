//! The tables that the lines of a text make.
ghost use Rattle.std.specs.Prelude.{◌≡◌, ◌+◌, ◌≤◌, length, Some, None, IsTrue, IfOk, option_map};
ghost use Rattle.toml_subset.specs.Answer.{AnswersToml};
ghost use Rattle.toml_subset.specs.Data.{depth_limit};
ghost use Rattle.toml_subset.specs.TableFaults.{put_fault};
ghost use Rattle.toml_subset.specs.Tables.{Node};
ghost use Rattle.toml_subset.specs.frames.Levels.{refusal, found_at, branches_with_node, hole as hole_at, header_branches as opened_in};
ghost use Rattle.toml_value.specs.AroundViews.{opened_view, or_redefined, is_whole_around};
ghost use Rattle.toml_value.specs.BranchViews.{branches_view, is_whole};
ghost use Rattle.toml_value.specs.TreeViews.{tree_view};

use super::levels::{Around, TableLevel, fresh, opened};
use super::{Awaiting, Branches, TableTree, hole};
use crate::value::{Entries, Value};
use std::alloc::{AllocError, Global};
use toml_subset::frames::HeaderPart;
use toml_subset::key_index::KeyParts;
use toml_subset::{Key, Keys, SyntaxError, SyntaxReason, TomlError};

/// The table that the last header opened, taken out of the tables around it. So a further key of it is looked
/// up in it alone.
#[derive(Drop)]
pub(crate) struct Document<'de> {
    around: Vec<TableLevel<'de>>,
    body: TableTree<'de>,
    /// How many tables and arrays are around its entries.
    above: usize,
}

/// A document and a further key of its open table, which nothing refuses and whose value is still to come.
#[derive(Drop)]
pub(crate) struct Pending<'de> {
    around: Vec<TableLevel<'de>>,
    awaiting: Awaiting<'de>,
    above: usize,
    ghost free: { put_fault awaiting.keys (tree_view awaiting.tree) above ≡ None },
    ghost room: { above + length awaiting.keys ≤ depth_limit + 1 },
}

impl<'de> Document<'de> {
    ghost use Rattle.std.specs.Prelude.{◌≡◌, ◌+◌, ◌<◌, ◌≤◌, ◌++◌, [], ◌∷◌, length, map};
    ghost use Rattle.std.specs.Prelude.{Some, None, IsTrue, IfOk, option_map};
    ghost use Rattle.toml_subset.specs.Answer.{AnswersToml};
    ghost use Rattle.toml_subset.specs.Data.{depth_limit};
    ghost use Rattle.toml_subset.specs.TableFaults.{put_fault};
    ghost use Rattle.toml_subset.specs.Tables.{entries_of};
    ghost use Rattle.toml_subset.specs.frames.Levels.{at_start, at_root, found_at, into_part, into_header, steps_in};
    ghost use Rattle.toml_value.specs.BranchViews.{branches_view, is_whole};
    ghost use Rattle.toml_value.specs.LevelViews.{level_view, cursor_view, IsPending, IsShallowCursor};
    ghost use Rattle.toml_value.specs.Views.{entries_view};

    /// The document of no lines, which takes no memory.
    pub(crate) fn new(alloc: Global) -> Document<'de>
        ensures { cursor_view result ≡ at_start }
    {
        Document {
            around: Vec::new(alloc),
            body: TableTree::new(alloc),
            above: 0,
        }
    }

    /// A further key of the open table. It is refused before its value is looked at, and then nothing is
    /// left.
    pub(crate) fn await_value(self, keys: Keys<'de>) -> Result<Pending<'de>, SyntaxError>
        requires some { 0 < length keys }
        requires shallow { IsShallowCursor (cursor_view self) }
        ensures { let c = cursor_view self.entry in
            IsPending (put_fault keys.entry c.here c.above) keys.entry c result }
    {
        let Document {
            around,
            body,
            above,
        } = self;
        match body.await_value(keys, above) {
            Ok(awaiting) => Ok(Pending {
                around,
                awaiting,
                above,
            }),
            Err(fault) => {
                let_levels_go(around);
                Err(fault)
            }
        }
    }

    /// Lets the document go.
    pub(crate) fn let_go(self) {
        let Document { around, body, .. } = self;
        let_way_go(around, body.into_root());
    }

    /// The document with the root as the open table.
    fn at_root(self) -> Document<'de>
        ensures { cursor_view result ≡ at_root (cursor_view self.entry) }
    {
        let Document {
            mut around,
            body,
            ..
        } = self;
        let mut table = body.into_root();
        'levels: while let Some(level) = around.pop() {
            table = level.with(table);
        }
        Document {
            around,
            body: TableTree::from_root(table),
            above: 0,
        }
    }

    /// The way one table further.
    fn further(
        around: Vec<TableLevel<'de>>,
        above: usize,
        level: TableLevel<'de>,
        inner: Branches<'de>,
    ) -> Result<Document<'de>, AllocError>
        requires whole { IsTrue (is_whole inner) }
        requires shallow { above + steps_in (level_view level).around ≤ depth_limit }
        ensures { IfOk result (λ document. cursor_view document ≡ record {
          around = map (λ l. level_view l) around.entry.items ++ level_view level.entry ∷ [];
          here = branches_view inner.entry;
          above = above + steps_in (level_view level.entry).around;
        }) }
    {
        let mut around = around;
        let above = above + level.around.steps();
        around.push(level)?;
        Ok(Document {
            around,
            body: TableTree::from_root(inner),
            above,
        })
    }

    /// A part of a header.
    fn enter(
        self,
        alloc: Global,
        key: Key<'de>,
        part: HeaderPart,
    ) -> Result<Document<'de>, TomlError>
        requires { IsShallowCursor (cursor_view self) }
        ensures { AnswersToml cursor_view (into_part part key.entry (cursor_view self.entry)) result }
    {
        match self.body.find(&key) {
            Some(place) => self.enter_old(alloc, &key, part, place),
            None => self.enter_new(alloc, key, part),
        }
    }

    /// A part of a header whose key the open table has at a place.
    fn enter_old(
        self,
        alloc: Global,
        key: &Key<'_>,
        part: HeaderPart,
        place: usize,
    ) -> Result<Document<'de>, TomlError>
        requires shallow { IsShallowCursor (cursor_view self) }
        requires found { option_map (λ found. found.0) (found_at key.now (cursor_view self).here)
            ≡ Some place }
        ensures { AnswersToml cursor_view (into_part part key.now (cursor_view self.entry)) result }
    {
        let Document {
            around,
            body,
            above,
        } = self;
        let mut table = body.into_root();
        match take_opened(alloc, &mut table, place, key, part) {
            Ok((kind, inner)) => {
                let level = TableLevel {
                    table,
                    place,
                    around: kind,
                };
                let document = Document::further(around, above, level, inner)?;
                Ok(document)
            }
            Err(error) => {
                let_way_go(around, table);
                Err(error)
            }
        }
    }

    /// A part of a header whose key the open table does not have.
    fn enter_new(
        self,
        alloc: Global,
        key: Key<'de>,
        part: HeaderPart,
    ) -> Result<Document<'de>, TomlError>
        requires shallow { IsShallowCursor (cursor_view self) }
        requires new { found_at key (cursor_view self).here ≡ None }
        ensures { AnswersToml cursor_view (into_part part key.entry (cursor_view self.entry)) result }
    {
        let Document {
            around,
            body,
            above,
        } = self;
        let root = body.into_root();
        let Some(kind) = fresh(alloc, part, &key, above) else {
            let_way_go(around, root);
            return Err(TomlError::Syntax(refuse(SyntaxReason::TooDeep, &key)));
        };
        let place = root.size();
        let empty = hole(&key);
        match root.with(alloc, key, empty) {
            Ok(table) => {
                let level = TableLevel {
                    table,
                    place,
                    around: kind,
                };
                let document = Document::further(around, above, level, Branches::new(alloc))?;
                Ok(document)
            }
            Err(_) => {
                kind.let_go();
                let_levels_go(around);
                Err(TomlError::Memory)
            }
        }
    }

    /// The table of a header, whose last part this is, as the open one. Where it is refused, nothing is left.
    pub(crate) fn with_header(
        self,
        alloc: Global,
        keys: Keys<'de>,
        last: HeaderPart,
    ) -> Result<Document<'de>, TomlError>
        requires some { 0 < length keys }
        requires shallow { IsShallowCursor (at_root (cursor_view self)) }
        ensures { AnswersToml cursor_view (into_header last keys.entry (cursor_view self.entry)) result }
    {
        let mut document = self.at_root();
        let mut parts = KeyParts::new(keys);
        let Some(first) = parts.next() else {
            return Ok(document);
        };
        let mut key = first;
        'parts: while let Some(next) = parts.next() {
            match document.enter(alloc, key, HeaderPart::Through) {
                Ok(inner) => document = inner,
                Err(error) => return Err(error),
            }
            key = next;
        }
        document.enter(alloc, key, last)
    }

    /// The entries of the root. Where memory ends, nothing is left.
    pub(crate) fn into_entries(self, alloc: Global) -> Result<Entries<'de>, AllocError>
        ensures { let root = (at_root (cursor_view self.entry)).here in
            IfOk result (λ entries. entries_view entries ≡ entries_of root) }
    {
        let document = self.at_root();
        document.body.into_entries(alloc)
    }
}

impl<'de> Pending<'de> {
    ghost use Rattle.std.specs.Prelude.{◌≡◌, ◌+◌, ◌-◌, length, Some, IfOk};
    ghost use Rattle.toml_subset.specs.Tables.{branches_with_value};
    ghost use Rattle.toml_value.specs.BranchViews.{closed_node};
    ghost use Rattle.toml_value.specs.LevelViews.{cursor_view, pending_view};

    /// How many tables and arrays are around the value.
    pub(crate) fn inside(&self) -> usize
        ensures { result ≡ self.now.above + (length self.now.awaiting.keys - 1) }
    {
        self.above + self.awaiting.parts().saturating_sub(1)
    }

    /// The document with the value at the key. Where memory ends, nothing is left.
    pub(crate) fn put(self, alloc: Global, value: Value<'de>) -> Result<Document<'de>, AllocError>
        ensures { let c = pending_view self.entry in
            let made = branches_with_value self.entry.awaiting.keys (closed_node value.entry) c.here in
            IfOk result (λ document. made ≡ Some (cursor_view document).here
            × (cursor_view document ≡ record c { here = (cursor_view document).here })) }
    {
        let Pending {
            around,
            awaiting,
            above,
        } = self;
        match awaiting.put(alloc, value) {
            Ok(body) => Ok(Document {
                around,
                body,
                above,
            }),
            Err(error) => {
                let_levels_go(around);
                Err(error)
            }
        }
    }

    /// Lets the document and the key go.
    pub(crate) fn let_go(self) {
        let Pending {
            around,
            awaiting,
            ..
        } = self;
        let_levels_go(around);
        awaiting.let_go();
    }
}

/// Takes out what a part of a header opens at the place of its key.
fn take_opened<'de>(
    alloc: Global,
    table: &mut Branches<'de>,
    place: usize,
    key: &Key<'_>,
    part: HeaderPart,
) -> Result<(Around<'de>, Branches<'de>), TomlError>
    requires whole { IsTrue (is_whole table.old) }
    requires found { option_map (λ found. found.0) (found_at key.now (branches_view table.old)) ≡ Some place }
    ensures opened { (node : Node) → found_at key.now (branches_view table.old) ≡ Some (place, node)
        → AnswersToml opened_view (or_redefined key.now (opened_in part node)) result }
    ensures left { branches_view table.new ≡ branches_with_node place (hole_at key.now) (branches_view table.old) }
    ensures whole { IsTrue (is_whole table.new) }
    ensures around { IfOk result (λ found. IsTrue (is_whole_around found.0)) }
    ensures inner { IfOk result (λ found. IsTrue (is_whole found.1)) }
{
    let node = table.take(place, key);
    let seen = opened(alloc, part, node)?;
    match seen {
        Some(found) => Ok(found),
        None => Err(TomlError::Syntax(refuse(SyntaxReason::RedefinedTable, key))),
    }
}

/// Lets the levels of a way and the table at its end go.
fn let_way_go(around: Vec<TableLevel<'_>>, table: Branches<'_>) {
    let_levels_go(around);
    table.let_go();
}

/// Lets levels go.
fn let_levels_go(_around: Vec<TableLevel<'_>>) {}

/// The fault at a part of a header.
fn refuse(reason: SyntaxReason, key: &Key<'_>) -> SyntaxError
    ensures { result ≡ refusal reason key.now }
{
    SyntaxError {
        reason,
        span: key.span,
    }
}
