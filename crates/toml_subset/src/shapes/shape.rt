//! What is wrong with the shape of a value.
ghost use Rattle.std.specs.Prelude.{◌≡◌, [], ◌∷◌, ◌++◌, map, Some, Err, OnOk, OnErr};
ghost use Rattle.toml_subset.specs.shapes.DeserText.{deser_text};
ghost use Rattle.toml_subset.specs.shapes.Kinds.{kind_word};
ghost use Rattle.toml_subset.specs.shapes.Shaped.{AnswersShape, IsToldBy, shaped_of};
ghost use Rattle.toml_subset.specs.shapes.Shapes.{fault_alone, names_text, reason_text, faults_text};
ghost use Rattle.toml_subset.specs.shapes.ShapeViews.{reason_of, fault_of};

use deny_text::{Span, Text, Texts};
use std::alloc::{AllocError, Global};
use std::fmt;
use std::marker::Model;

/// The kinds of values.
#[derive(Clone, Copy)]
pub enum ValueKind {
    String,
    Integer,
    Decimal,
    Boolean,
    Array,
    Table,
}

impl ValueKind {
    /// The words for a value of the kind.
    pub fn word(self) -> &'static str
        ensures { result.now ≡ kind_word self }
    {
        match self {
            ValueKind::String => "a string",
            ValueKind::Integer => "an integer",
            ValueKind::Decimal => "a decimal",
            ValueKind::Boolean => "a boolean",
            ValueKind::Array => "an array",
            ValueKind::Table => "a table",
        }
    }
}

/// What is wrong with a value.
#[derive(Drop)]
pub enum ErrorKind {
    /// It is of another kind than was wanted.
    Wanted {
        expected: &'static str,
        found: &'static str,
    },
    /// The table lacks a key that has to be there.
    MissingField(&'static str),
    /// The table has keys that nothing asked for, reported in the order in which they first appear.
    UnexpectedKeys(Texts),
    /// The string is none of these names.
    UnexpectedValue(Texts),
    /// What a type says in its own words.
    Custom(Text),
    /// The number leaves the range of this type.
    OutOfRange(&'static str),
}

/// A fault of a shape and where it is in the text.
#[derive(Drop)]
pub struct ShapeError {
    pub kind: ErrorKind,
    pub span: Span,
}

/// The faults of a shape, in the order in which they were found.
#[derive(Drop)]
pub struct ShapeErrors {
    list: Vec<ShapeError>,
}

impl Model for ShapeErrors {
    ghost use Rattle.std.specs.Prelude.{List, map};
    ghost use Rattle.toml_subset.specs.shapes.Shapes.{ShapeFault};

    ghost Value = { List ShapeFault };

    ghost use Rattle.toml_subset.specs.shapes.ShapeViews.{fault_of};

    ghost view = { λ errors. map fault_of errors.list.items };
}

/// Why a type was not read from a value.
#[derive(Drop)]
pub enum DeserError {
    /// The value has another shape. The list is not empty.
    Faults(ShapeErrors),
    /// No memory was left.
    Memory,
}

impl From<AllocError> for DeserError {
    ghost use Rattle.std.specs.Prelude.{◌≡◌};
    ghost use Rattle.toml_subset.specs.declared.shapes.shape.DeserError.TheVariants.{Memory};

    ghost from_gives = { λ _ error. error ≡ Memory };

    fn from(_failed: AllocError) -> DeserError {
        DeserError::Memory
    }
}

impl ShapeErrors {
    /// The empty list, which takes no memory.
    pub fn new(alloc: Global) -> ShapeErrors
        ensures { result ≡ [] }
    {
        ShapeErrors {
            list: Vec::new(alloc),
        }
    }

    /// Appends a fault. One that finds no room is dropped.
    pub fn push(&mut self, error: ShapeError) -> Result<(), AllocError>
        ensures ok { OnOk result (self.new ≡ self.old ++ fault_of error ∷ []) }
        ensures err { OnErr result (self.new ≡ self.old) }
    {
        self.list.push(error)?;
        Ok(())
    }

    /// The faults in order.
    pub fn items(&self) -> &[ShapeError]
        ensures { map fault_of result.now ≡ self.now }
    {
        &self.list
    }

    /// Appends the faults of another list. Where memory is wanted none is appended.
    pub fn append(&mut self, mut others: ShapeErrors) -> Result<(), AllocError>
        ensures ok { OnOk result (self.new ≡ self.old ++ others) }
        ensures err { OnErr result (self.new ≡ self.old) }
    {
        self.list.append(&mut others.list)
    }
}

/// One fault by itself.
pub fn one_fault(alloc: Global, kind: ErrorKind, span: Span) -> DeserError
    ensures { IsToldBy result (fault_alone (reason_of kind) span) }
{
    let mut errors = ShapeErrors::new(alloc);
    match errors.push(ShapeError { kind, span }) {
        Ok(()) => DeserError::Faults(errors),
        Err(_) => DeserError::Memory,
    }
}

/// An answer that is one fault.
pub fn refuse<T>(alloc: Global, kind: ErrorKind, span: Span) -> Result<T, DeserError>
    ensures { AnswersShape (Err (fault_alone (reason_of kind) span)) result }
{
    Err(one_fault(alloc, kind, span))
}

/// The value, or the faults where there are some.
pub fn answer<T: Drop>(errors: ShapeErrors, value: T) -> Result<T, DeserError>
    ensures { AnswersShape (shaped_of errors value) result }
{
    if errors.items().is_empty() {
        Ok(value)
    } else {
        Err(DeserError::Faults(errors))
    }
}

/// Names, printed with commas between.
#[derive(Drop)]
struct NameList<'n> {
    names: &'n [Text],
}

impl fmt::Display for NameList<'_> {
    ghost output = { λ list. Some (names_text list.names.now) };

    fn fmt<W: fmt::Write>(&self, f: &mut fmt::Formatter<W>) -> fmt::Result {
        let Some((first, others)) = self.names.split_first() else {
            return Ok(());
        };
        write!(f, "{first}")?;
        'others: for name in others {
            write!(f, ", {name}")?;
        }
        Ok(())
    }
}

impl fmt::Display for ErrorKind {
    ghost output = { λ kind. Some (reason_text (reason_of kind)) };

    fn fmt<W: fmt::Write>(&self, f: &mut fmt::Formatter<W>) -> fmt::Result {
        match self {
            ErrorKind::Wanted { expected, found } => {
                write!(f, "expected {expected}, found {found}")
            }
            ErrorKind::MissingField(name) => write!(f, "missing field '{name}'"),
            ErrorKind::UnexpectedKeys(keys) => {
                let names = keys.items();
                write!(f, "unexpected keys: {}", NameList { names })
            }
            ErrorKind::UnexpectedValue(expected) => {
                let names = expected.items();
                write!(
                    f,
                    "unexpected value, expected one of: {}",
                    NameList { names }
                )
            }
            ErrorKind::Custom(text) => write!(f, "{text}"),
            ErrorKind::OutOfRange(name) => write!(f, "out of range of {name}"),
        }
    }
}

impl fmt::Display for ShapeError {
    ghost output = { λ error. Some (reason_text (reason_of error.kind)) };

    fn fmt<W: fmt::Write>(&self, f: &mut fmt::Formatter<W>) -> fmt::Result {
        fmt::Display::fmt(&self.kind, f)
    }
}

/// A line for each fault.
impl fmt::Display for ShapeErrors {
    ghost output = { λ errors. Some (faults_text errors) };

    fn fmt<W: fmt::Write>(&self, f: &mut fmt::Formatter<W>) -> fmt::Result {
        'errors: for error in self.items() {
            write!(f, "{error}\n")?;
        }
        Ok(())
    }
}

impl fmt::Display for DeserError {
    ghost output = { λ error. Some (deser_text error) };

    fn fmt<W: fmt::Write>(&self, f: &mut fmt::Formatter<W>) -> fmt::Result {
        match self {
            DeserError::Faults(errors) => write!(f, "{errors}"),
            DeserError::Memory => write!(f, "out of memory"),
        }
    }
}
