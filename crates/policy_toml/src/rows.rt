//! Types that are tables of keys: how a table is opened, read row by row, and ended.

ghost use Rattle.std.specs.Prelude.{◌≡◌, ◌⊎◌, [], ◌++◌, false, option_map, option_to_list, unwrap_or};
ghost use Rattle.std.specs.Prelude.{IfOk, OnOk, OnErr};
ghost use Rattle.deny_text.specs.declared.span.Span.{Span};
ghost use Rattle.toml_subset.specs.Data as «data»;
ghost use Rattle.toml_subset.specs.shapes.Shaped.{ShapeReading, AnswersShape, shaped_of};
ghost use Rattle.toml_value.specs.Lookup.{value_at};
ghost use Rattle.toml_value.specs.Removal.{entries_without};
ghost use Rattle.toml_value.specs.Views.{value_view, entries_view};
ghost use Rattle.policy_toml.specs.HelperState.{state_of, without_key, optional_of, faults_at_end};
ghost use Rattle.policy_toml.specs.rows.Rows.{in_table, key_span, left_of_table};

use crate::{DeserError, Deserialize, Entries, TableHelper, Value};
use deny_text::{ListOf, Span};
use std::alloc::{AllocError, Global};

/// Places in order.
pub type Spans = ListOf<Span>;

/// A type that is read from the keys of a table, in a context.
pub trait FromKeys<X> {
    /// What the entries of a table at a place stand for, as they were written.
    ghost shape: { X → data.Entries → Span → ShapeReading Self };

    /// Reads the keys of a table of which none was read yet.
    fn read_keys(alloc: Global, table: TableHelper<'_>, context: &X) -> Result<Self, DeserError>
        requires { (state_of table).faults ≡ [] }
        ensures { let state = state_of table.entry in
            AnswersShape (shape context.now state.left state.span) result };
}

/// Reads a type from a value that has to be a table, and takes that out.
pub fn read_table<T: FromKeys<X>, X>(
    alloc: Global,
    value: &mut Value<'_>,
    context: &X,
) -> Result<T, DeserError>
    ensures read { AnswersShape (in_table (T.shape context.now) (value_view value.old)) result }
    ensures left { value_view value.new ≡ left_of_table (value_view value.old) }
{
    match TableHelper::new(alloc, value) {
        Ok(table) => T::read_keys(alloc, table, context),
        Err(error) => Err(error),
    }
}

/// Takes the value at a key out of entries.
#[tactic(auto, using(crate::proofs::rows::Keys::value_at_of_entry))]
pub fn take_value<'de>(entries: &mut Entries<'de>, name: &str) -> Option<Value<'de>>
    ensures taken { option_map value_view result ≡ value_at name.now (entries_view entries.old) }
    ensures left { entries_view entries.new ≡ entries_without name.now (entries_view entries.old) }
{
    match entries.remove(name) {
        Some((_, value)) => Some(value),
        None => None,
    }
}

/// Takes a key that is no longer used, and appends its place. A value that is refused is passed over. Where
/// memory is wanted the key is taken, and its place was appended or not.
pub fn deprecated<T: Deserialize<X>, X>(
    alloc: Global,
    table: &mut TableHelper<'_>,
    name: &str,
    spans: &mut Spans,
    context: &X,
) -> Result<Option<T>, AllocError>
    ensures read { IfOk result (λ x. x ≡ optional_of name.now (T.reads context.now) (state_of table.old)) }
    ensures after { OnOk result (state_of table.new ≡ without_key name.now (state_of table.old)) }
    ensures spans { let place = key_span name.now (state_of table.old).left in
        OnOk result (spans.new ≡ spans.old ++ option_to_list place) }
    ensures taken { OnErr result (state_of table.new ≡ without_key name.now (state_of table.old)) }
    ensures err { let place = key_span name.now (state_of table.old).left in
        OnErr result ((spans.new ≡ spans.old) ⊎ (spans.new ≡ spans.old ++ option_to_list place)) }
{
    match table.take(name) {
        Some((key, mut value)) => {
            spans.push(key.span)?;
            match T::deserialize(alloc, &mut value, context) {
                Ok(thing) => Ok(Some(thing)),
                Err(DeserError::Faults(_)) => Ok(None),
                Err(DeserError::Memory) => Err(AllocError),
            }
        }
        None => Ok(None),
    }
}

/// Ends a table whose keys were all read, with what it stands for. A key that is left is a fault.
pub fn finish<T: Drop>(alloc: Global, table: TableHelper<'_>, value: T) -> Result<T, DeserError>
    ensures { AnswersShape (shaped_of (faults_at_end false (state_of table.entry)) value) result }
{
    match table.finalize(alloc, None) {
        Ok(()) => Ok(value),
        Err(error) => Err(error),
    }
}

/// A list that may have been left out, and is empty then.
pub fn or_empty<T: Drop>(alloc: Global, list: Option<ListOf<T>>) -> ListOf<T>
    ensures { result ≡ unwrap_or list [] }
{
    match list {
        Some(list) => list,
        None => ListOf::new(alloc),
    }
}
