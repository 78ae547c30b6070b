//! Types that are read from values.
ghost use Rattle.std.specs.Prelude.{◌≡◌, ◌++◌, List, map, None, IfOk, OnOk, option_to_list};
ghost use Rattle.std.specs.Result.{result_ok};
ghost use Rattle.toml_subset.specs.Data.{Toml};
ghost use Rattle.policy_toml.specs.Readings.{text_of, boolean_of, i64_of, i32_of, u32_of, hundredths_of};
ghost use Rattle.policy_toml.specs.Readings.{spanned_of, array_of, each_of, list_of};
ghost use Rattle.toml_value.specs.Taken.{values_of, left_by};
ghost use Rattle.policy_toml.specs.Readings.{thing_of_name, name_of, rows_of};
ghost use Rattle.toml_subset.specs.shapes.Shaped.{ShapeReading, AnswersShape, OnAnswer, faults_in};
ghost use Rattle.toml_value.specs.Views.{value_view, values_view};

use crate::hundredths::Hundredths;
use deny_text::{ListOf, Spanned, Text, Texts};
use std::alloc::{AllocError, Global};
use toml_subset::shapes::{DeserError, ErrorKind, ShapeErrors, ValueKind, answer, refuse};
use toml_value::{Value, ValueInner, Values, refuse_kind};

/// A type that is read from a value, in a context.
pub trait Deserialize<X> {
    /// What the type makes of a value.
    ghost reads: { X → Toml → ShapeReading Self };

    /// What is left of the value then, also where it was refused.
    ghost leaves: { X → Toml → Toml };

    fn deserialize(alloc: Global, value: &mut Value<'_>, context: &X) -> Result<Self, DeserError>
        ensures read { AnswersShape (reads context.now (value_view value.old)) result }
        ensures left { OnAnswer result (value_view value.new ≡ leaves context.now (value_view value.old)) };
}

impl<X> Deserialize<X> for Text {
    ghost reads = { λ _ value. text_of value };

    ghost leaves = { λ _ value. left_by (text_of value) value };

    fn deserialize(alloc: Global, value: &mut Value<'_>, _context: &X) -> Result<Text, DeserError> {
        match value.take_string(alloc, ValueKind::String.word()) {
            Ok(string) => Ok(Text::copy(alloc, string.as_str())?),
            Err(error) => Err(error),
        }
    }
}

impl<X> Deserialize<X> for bool {
    ghost reads = { λ _ value. boolean_of value };

    ghost leaves = { λ _ value. left_by (boolean_of value) value };

    fn deserialize(alloc: Global, value: &mut Value<'_>, _context: &X) -> Result<bool, DeserError> {
        match value.inner() {
            ValueInner::Boolean(flag) => {
                let flag = *flag;
                let _ = value.take();
                Ok(flag)
            }
            _ => refuse_kind(alloc, ValueKind::Boolean.word(), value),
        }
    }
}

/// The number of an integer, which is left where it is.
fn look_at_integer(alloc: Global, value: &Value<'_>) -> Result<i64, DeserError>
    ensures { AnswersShape (i64_of (value_view value.now)) result }
{
    match value.inner() {
        ValueInner::Integer(number) => Ok(*number),
        _ => refuse_kind(alloc, ValueKind::Integer.word(), value),
    }
}

impl<X> Deserialize<X> for i64 {
    ghost reads = { λ _ value. i64_of value };

    ghost leaves = { λ _ value. left_by (i64_of value) value };

    fn deserialize(alloc: Global, value: &mut Value<'_>, _context: &X) -> Result<i64, DeserError> {
        match look_at_integer(alloc, value) {
            Ok(number) => {
                let _ = value.take();
                Ok(number)
            }
            Err(error) => Err(error),
        }
    }
}

impl<X> Deserialize<X> for i32 {
    ghost reads = { λ _ value. i32_of value };

    ghost leaves = { λ _ value. left_by (i32_of value) value };

    fn deserialize(alloc: Global, value: &mut Value<'_>, _context: &X) -> Result<i32, DeserError> {
        match look_at_integer(alloc, value) {
            Ok(number) => match i32::try_from(number) {
                Ok(number) => {
                    let _ = value.take();
                    Ok(number)
                }
                Err(_) => refuse(alloc, ErrorKind::OutOfRange("i32"), value.span()),
            },
            Err(error) => Err(error),
        }
    }
}

impl<X> Deserialize<X> for u32 {
    ghost reads = { λ _ value. u32_of value };

    ghost leaves = { λ _ value. left_by (u32_of value) value };

    fn deserialize(alloc: Global, value: &mut Value<'_>, _context: &X) -> Result<u32, DeserError> {
        match look_at_integer(alloc, value) {
            Ok(number) => match u32::try_from(number) {
                Ok(number) => {
                    let _ = value.take();
                    Ok(number)
                }
                Err(_) => refuse(alloc, ErrorKind::OutOfRange("u32"), value.span()),
            },
            Err(error) => Err(error),
        }
    }
}

/// An integer counts a hundred times, cut to 64 bits.
impl<X> Deserialize<X> for Hundredths {
    ghost reads = { λ _ value. hundredths_of value };

    ghost leaves = { λ _ value. left_by (hundredths_of value) value };

    fn deserialize(
        alloc: Global,
        value: &mut Value<'_>,
        _context: &X,
    ) -> Result<Hundredths, DeserError> {
        let hundredths = match value.inner() {
            ValueInner::Integer(number) => number.saturating_mul(100),
            ValueInner::Decimal(hundredths) => *hundredths,
            _ => return refuse_kind(alloc, ValueKind::Decimal.word(), value),
        };
        let _ = value.take();
        Ok(Hundredths(hundredths))
    }
}

impl<X, T: Deserialize<X>> Deserialize<X> for Spanned<T> {
    ghost reads = { λ context. spanned_of (T.reads context) };

    ghost leaves = { T.leaves };

    fn deserialize(
        alloc: Global,
        value: &mut Value<'_>,
        context: &X,
    ) -> Result<Spanned<T>, DeserError> {
        let span = value.span();
        match T::deserialize(alloc, value, context) {
            Ok(value) => Ok(Spanned { value, span }),
            Err(error) => Err(error),
        }
    }
}

/// Reads a value that nothing else is read of.
pub(crate) fn read_value<T: Deserialize<X>, X>(
    alloc: Global,
    mut value: Value<'_>,
    context: &X,
) -> Result<T, DeserError>
    ensures { AnswersShape (T.reads context.now (value_view value.entry)) result }
{
    T::deserialize(alloc, &mut value, context)
}

/// All faulty items of a list are reported, in the order of their places.
impl<X, T: Deserialize<X> + Drop> Deserialize<X> for ListOf<T> {
    ghost reads = { λ context. list_of (T.reads context) };

    ghost leaves = { λ _ value. left_by (array_of value) value };

    fn deserialize(
        alloc: Global,
        value: &mut Value<'_>,
        context: &X,
    ) -> Result<ListOf<T>, DeserError> {
        match value.take_array() {
            Some(values) => read_items(alloc, values, context),
            None => refuse_kind(alloc, ValueKind::Array.word(), value),
        }
    }
}

fn read_items<X, T: Deserialize<X> + Drop>(
    alloc: Global,
    values: Values<'_>,
    context: &X,
) -> Result<ListOf<T>, DeserError>
    ensures { AnswersShape (each_of (T.reads context.now) (values_of (values_view values.entry))) result }
{
    let mut items = ListOf::new(alloc);
    let mut errors = ShapeErrors::new(alloc);
    'values: for value in values.into_items() {
        read_item(alloc, value, context, &mut items, &mut errors)?;
    }
    answer(errors, items)
}

/// Reads one item: it is appended to the items, or its faults to the faults.
fn read_item<X, T: Deserialize<X> + Drop>(
    alloc: Global,
    value: Value<'_>,
    context: &X,
    items: &mut ListOf<T>,
    errors: &mut ShapeErrors,
) -> Result<(), AllocError>
    ensures items { let read = T.reads context.now (value_view value.entry) in
        OnOk result (items.new ≡ items.old ++ option_to_list (result_ok read)) }
    ensures errors { let read = T.reads context.now (value_view value.entry) in
        OnOk result (errors.new ≡ errors.old ++ faults_in read) }
{
    match read_value(alloc, value, context) {
        Ok(item) => items.push(item),
        Err(DeserError::Faults(faults)) => errors.append(faults),
        Err(DeserError::Memory) => Err(AllocError),
    }
}

/// A type that is one of a written table of names. Its name is what is wanted where the value is no string.
pub fn deserialize_name<T: Copy>(
    alloc: Global,
    value: &mut Value<'_>,
    wanted: &'static str,
    table: &[(&'static str, T)],
) -> Result<T, DeserError>
    ensures read { AnswersShape (name_of wanted.now (rows_of table.now) (value_view value.old)) result }
    ensures left { let read = name_of wanted.now (rows_of table.now) (value_view value.old) in
        OnAnswer result (value_view value.new ≡ left_by read (value_view value.old)) }
{
    match value.as_str() {
        Some(name) => match find_name(table, name) {
            Some(thing) => {
                let _ = value.take();
                Ok(thing)
            }
            None => {
                let names = names_of(alloc, table)?;
                refuse(alloc, ErrorKind::UnexpectedValue(names), value.span())
            }
        },
        None => refuse_kind(alloc, wanted, value),
    }
}

fn find_name<T: Copy>(table: &[(&'static str, T)], name: &str) -> Option<T>
    ensures { result ≡ thing_of_name (rows_of table.now) name.now }
{
    'rows: for (known, thing) in table {
        if *known == name {
            return Some(*thing);
        }
    }
    None
}

fn names_of<T>(alloc: Global, table: &[(&'static str, T)]) -> Result<Texts, AllocError>
    ensures { IfOk result (λ names. names ≡ map (λ row. row.0) (rows_of table.now)) }
{
    let mut names = Texts::new(alloc);
    'rows: for (known, _) in table {
        let name = Text::copy(alloc, known)?;
        names.push(name)?;
    }
    Ok(names)
}
