//! Values, read with a stack of what is open.
ghost use Rattle.std.specs.Prelude.{◌≡◌, ◌+◌, ◌-◌, ◌<◌, ◌≤◌, ◌||◌, ◌++◌, length, map, true, false, [], ◌∷◌};
ghost use Rattle.std.specs.Prelude.{IfOk, OnOk};
ghost use Rattle.toml_subset.specs.Answer.{AnswersToml};
ghost use Rattle.toml_subset.specs.Bytes.{open_bracket, open_brace};
ghost use Rattle.toml_subset.specs.Data as «data»;
ghost use Rattle.toml_subset.specs.Data.{depth_of, depth_limit};
ghost use Rattle.toml_subset.specs.Places.{stands as stands_at};
ghost use Rattle.toml_subset.specs.Reading.{read_scalar as scalar_at, value_at};
ghost use Rattle.toml_subset.specs.Tables.{entries_of};
ghost use Rattle.toml_subset.specs.frames.Between.{next_place};
ghost use Rattle.toml_subset.specs.frames.Frames.{in_array, in_table, depth_around, depth_within as inside_of, IsShallowFrame};
ghost use Rattle.toml_subset.specs.frames.Frames.{on_with, array_turn as turn_of_array, table_turn as turn_of_table};
ghost use Rattle.toml_subset.specs.frames.Frames.{table_on};
ghost use Rattle.toml_subset.specs.frames.Scalars.{scalar_content};
ghost use Rattle.toml_value.specs.StackViews.{value_found, frame_view, turn_view, TakesTurn};
ghost use Rattle.toml_value.specs.TreeViews.{tree_view};
ghost use Rattle.toml_value.specs.Views.{value_view, content_view, values_view};

use crate::tree::{Awaiting, DEPTH_LIMIT, TableTree};
use crate::value::{Value, ValueInner, Values};
use deny_text::Span;
use std::alloc::{AllocError, Global};
use toml_subset::frames::{
    Next, Scalar, behind_entry, behind_item, entry_place, item_place, read_scalar,
};
use toml_subset::{Number, SyntaxReason, TomlError, fault_at, read_left, stands};

/// Where an array or an inline table opens, and how many tables and arrays are around it.
#[derive(Clone, Copy)]
struct Opening {
    place: usize,
    above: usize,
}

/// An array or an inline table that a value is being read for.
#[derive(Drop)]
enum Frame<'de> {
    /// Its items so far.
    Array(Opening, Values<'de>),
    /// Its entries so far, and the key whose `=` was read.
    Table(Opening, Awaiting<'de>),
}

/// One turn of reading.
#[derive(Drop)]
enum ValueStep<'de> {
    /// A value was read, up to a place.
    Read(Value<'de>, usize),
    /// The value of what is open is at a place.
    Waits(Frame<'de>, usize),
}

impl Frame<'_> {
    /// How many tables and arrays are around its value.
    fn inside(&self) -> usize
        requires { IsShallowFrame (frame_view self.now) }
        ensures { result ≡ inside_of (frame_view self.now) }
    {
        match self {
            Frame::Array(at, _) => at.above + 1,
            Frame::Table(at, awaiting) => at.above + 1 + awaiting.parts().saturating_sub(1),
        }
    }
}

fn inner_of(scalar: Scalar<'_>) -> ValueInner<'_>
    ensures { content_view result ≡ scalar_content scalar.entry }
{
    match scalar {
        Scalar::String(string) => ValueInner::String(string),
        Scalar::Number(Number::Integer(number)) => ValueInner::Integer(number),
        Scalar::Number(Number::Decimal(number)) => ValueInner::Decimal(number),
        Scalar::Boolean(value) => ValueInner::Boolean(value),
    }
}

/// A value that begins with no bracket and no brace.
fn scalar_turn(
    alloc: Global,
    text: &str,
    above: usize,
    place: usize,
) -> Result<ValueStep<'_>, TomlError>
    requires inside { place ≤ length text.now }
    requires shallow { above ≤ depth_limit }
    requires scalar { (stands_at text.now place open_bracket || stands_at text.now place open_brace) ≡ false }
    ensures { TakesTurn text.now (place + 1) above (value_at text.now above place) result }
{
    match read_scalar(alloc, text, place) {
        Ok((scalar, span, next)) => Ok(ValueStep::Read(Value::new(inner_of(scalar), span), next)),
        Err(error) => Err(error),
    }
}

/// An array that goes on.
fn array_turn(at: Opening, items: Values<'_>, next: Next) -> ValueStep<'_>
    ensures { turn_view result ≡ turn_of_array at.place at.above (values_view items.entry) next }
{
    match next {
        Next::Closed(end) => {
            let span = Span {
                start: at.place,
                end,
            };
            ValueStep::Read(Value::new(ValueInner::Array(items), span), end)
        }
        Next::Further(place) => ValueStep::Waits(Frame::Array(at, items), place),
    }
}

/// An inline table that is closed.
fn closed_table(
    alloc: Global,
    at: Opening,
    tree: TableTree<'_>,
    end: usize,
) -> Result<ValueStep<'_>, AllocError>
    ensures { IfOk result (λ turn. turn_view turn ≡ turn_of_table at.place (tree_view tree.entry) end) }
{
    let entries = tree.into_entries(alloc)?;
    let span = Span {
        start: at.place,
        end,
    };
    Ok(ValueStep::Read(Value::new(ValueInner::Table(entries), span), end))
}

/// An inline table whose next key is at a place.
fn entry_turn<'de>(
    alloc: Global,
    text: &'de str,
    at: Opening,
    tree: TableTree<'de>,
    place: usize,
) -> Result<ValueStep<'de>, TomlError>
    requires inside { place ≤ length text.now }
    requires shallow { at.above + depth_of (data.table (entries_of (tree_view tree))) ≤ depth_limit }
    ensures { TakesTurn text.now place at.above
        (table_on text.now at.place at.above (tree_view tree.entry) (Next.Further place)) result }
{
    match read_left(alloc, text, place) {
        Ok((keys, next)) => match tree.await_value(keys, at.above + 1) {
            Ok(awaiting) => Ok(ValueStep::Waits(Frame::Table(at, awaiting), next)),
            Err(fault) => Err(TomlError::Syntax(fault)),
        },
        Err(error) => {
            tree.let_go();
            Err(error)
        }
    }
}

/// An inline table that goes on.
fn table_turn<'de>(
    alloc: Global,
    text: &'de str,
    at: Opening,
    tree: TableTree<'de>,
    next: Next,
) -> Result<ValueStep<'de>, TomlError>
    requires inside { next_place next ≤ length text.now }
    requires shallow { at.above + depth_of (data.table (entries_of (tree_view tree))) ≤ depth_limit }
    ensures { TakesTurn text.now (next_place next) at.above
        (table_on text.now at.place at.above (tree_view tree.entry) next) result }
{
    match next {
        Next::Closed(end) => match closed_table(alloc, at, tree, end) {
            Ok(turn) => Ok(turn),
            Err(_) => Err(TomlError::Memory),
        },
        Next::Further(place) => entry_turn(alloc, text, at, tree, place),
    }
}

/// Whether a bracket or a brace is at a place.
fn opens(text: &[u8], place: usize) -> bool
    ensures { result ≡ (stands_at text.now place open_bracket || stands_at text.now place open_brace) }
{
    stands(text, place, b'[') || stands(text, place, b'{')
}

/// A value that begins with a bracket or a brace.
fn opening_turn(alloc: Global, text: &str, at: Opening) -> Result<ValueStep<'_>, TomlError>
    requires shallow { at.above < depth_limit }
    requires opens { (stands_at text.now at.place open_bracket || stands_at text.now at.place open_brace)
        ≡ true }
    ensures { TakesTurn text.now (at.place + 1) at.above (value_at text.now at.above at.place) result }
{
    if stands(text.as_bytes(), at.place, b'[') {
        match item_place(text, at.place + 1) {
            Ok(next) => Ok(array_turn(at, Values::new(alloc), next)),
            Err(fault) => Err(TomlError::Syntax(fault)),
        }
    } else {
        let next = entry_place(text, at.place + 1);
        table_turn(alloc, text, at, TableTree::new(alloc), next)
    }
}

/// The first turn of a value.
fn first_turn(
    alloc: Global,
    text: &str,
    above: usize,
    place: usize,
) -> Result<ValueStep<'_>, TomlError>
    requires inside { place ≤ length text.now }
    requires shallow { above ≤ depth_limit }
    ensures { TakesTurn text.now (place + 1) above (value_at text.now above place) result }
{
    if !opens(text.as_bytes(), place) {
        scalar_turn(alloc, text, above, place)
    } else if above == DEPTH_LIMIT {
        let fault = fault_at(SyntaxReason::TooDeep, place, place + 1);
        Err(TomlError::Syntax(fault))
    } else {
        opening_turn(alloc, text, Opening { place, above })
    }
}

/// An array with a further item, and what follows it.
fn behind_value<'de>(
    text: &'de str,
    at: Opening,
    items: Values<'de>,
    value: Value<'de>,
    next: usize,
) -> Result<ValueStep<'de>, TomlError>
    requires inside { next ≤ length text.now }
    requires shallow { IsShallowFrame (in_array at.place at.above (values_view items)) }
    requires value { at.above + 1 + depth_of (value_view value).content ≤ depth_limit }
    ensures { TakesTurn text.now (next + 1) at.above (on_with text.now
        (in_array at.place at.above (values_view items.entry)) (value_found (value.entry, next))) result }
{
    let items = items.with(value)?;
    match behind_item(text, next) {
        Ok(next) => Ok(array_turn(at, items, next)),
        Err(fault) => {
            items.let_go();
            Err(TomlError::Syntax(fault))
        }
    }
}

/// An inline table with a further entry, and what follows it.
fn behind_pair<'de>(
    alloc: Global,
    text: &'de str,
    at: Opening,
    awaiting: Awaiting<'de>,
    value: Value<'de>,
    next: usize,
) -> Result<ValueStep<'de>, TomlError>
    requires inside { next ≤ length text.now }
    requires shallow { IsShallowFrame (in_table at.place at.above (tree_view awaiting.tree) awaiting.keys) }
    requires value { at.above + 1 + (length awaiting.keys - 1) + depth_of (value_view value).content
        ≤ depth_limit }
    ensures { TakesTurn text.now (next + 1) at.above (on_with text.now (in_table at.place at.above
        (tree_view awaiting.entry.tree) awaiting.entry.keys) (value_found (value.entry, next))) result }
{
    let tree = awaiting.put(alloc, value)?;
    match behind_entry(text, next) {
        Ok(next) => table_turn(alloc, text, at, tree, next),
        Err(fault) => {
            tree.let_go();
            Err(TomlError::Syntax(fault))
        }
    }
}

/// What is open, its value read.
fn next_turn<'de>(
    alloc: Global,
    text: &'de str,
    frame: Frame<'de>,
    value: Value<'de>,
    next: usize,
) -> Result<ValueStep<'de>, TomlError>
    requires inside { next ≤ length text.now }
    requires shallow { IsShallowFrame (frame_view frame) }
    requires value { inside_of (frame_view frame) + depth_of (value_view value).content ≤ depth_limit }
    ensures { let seen = frame_view frame.entry in
        TakesTurn text.now (next + 1) (depth_around seen) (on_with text.now seen (value_found (value.entry, next)))
        result }
{
    match frame {
        Frame::Array(at, items) => behind_value(text, at, items, value, next),
        Frame::Table(at, awaiting) => behind_pair(alloc, text, at, awaiting, value, next),
    }
}

/// One more that is open.
fn open_further<'de>(waiting: &mut Vec<Frame<'de>>, frame: Frame<'de>) -> Result<(), AllocError>
    ensures { OnOk result (waiting.new.items ≡ waiting.old.items ++ frame.entry ∷ []) }
{
    waiting.push(frame)?;
    Ok(())
}

/// One more that is open, whose value is at a place.
fn deeper<'de>(
    alloc: Global,
    text: &'de str,
    waiting: &mut Vec<Frame<'de>>,
    frame: Frame<'de>,
    place: usize,
) -> Result<ValueStep<'de>, TomlError>
    requires inside { place ≤ length text.now }
    requires shallow { IsShallowFrame (frame_view frame) }
    requires room { inside_of (frame_view frame) ≤ depth_limit }
    ensures stack { OnOk result (waiting.new.items ≡ waiting.old.items ++ frame.entry ∷ []) }
    ensures turn { let above = inside_of (frame_view frame.entry) in
        TakesTurn text.now (place + 1) above (value_at text.now above place) result }
{
    let above = frame.inside();
    open_further(waiting, frame)?;
    first_turn(alloc, text, above, place)
}

/// The value at a place, read with a stack on which nothing is open at first.
fn read_with<'de>(
    alloc: Global,
    text: &'de str,
    waiting: &mut Vec<Frame<'de>>,
    above: usize,
    place: usize,
) -> Result<(Value<'de>, usize), TomlError>
    requires inside { place ≤ length text.now }
    requires shallow { above ≤ depth_limit }
    requires none { waiting.old.items ≡ [] }
    ensures answer { AnswersToml value_found (value_at text.now above place) result }
    ensures within { IfOk result (λ found. found.1 ≤ length text.now) }
{
    let mut turn = first_turn(alloc, text, above, place)?;
    'turns: loop {
        match turn {
            ValueStep::Waits(frame, place) => match deeper(alloc, text, waiting, frame, place) {
                Ok(first) => turn = first,
                Err(error) => return Err(error),
            },
            ValueStep::Read(value, next) => match waiting.pop() {
                Some(frame) => match next_turn(alloc, text, frame, value, next) {
                    Ok(further) => turn = further,
                    Err(error) => return Err(error),
                },
                None => return Ok((value, next)),
            },
        }
    }
}

/// The value at a place, so many tables and arrays standing around it, and the place behind it.
pub fn read_value(
    alloc: Global,
    text: &str,
    above: usize,
    place: usize,
) -> Result<(Value<'_>, usize), TomlError>
    requires inside { place ≤ length text.now }
    requires shallow { above ≤ depth_limit }
    ensures answer { AnswersToml value_found (value_at text.now above place) result }
    ensures within { IfOk result (λ found. found.1 ≤ length text.now) }
{
    let mut waiting = Vec::new(alloc);
    read_with(alloc, text, &mut waiting, above, place)
}
