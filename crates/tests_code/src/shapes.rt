//! How faults of a shape are printed.
use deny_text::{Span, Text};
use std::alloc::{AllocError, Global};
use tests_files::{AnswerText, Shown};
use toml_subset::shapes::{DeserError, ErrorKind, ShapeError, ShapeErrors};

struct Shapes;

impl Shown<Shapes> for DeserError {
    fn put(&self, out: &mut AnswerText) {
        write!(out, "{self}");
    }
}

/// Faults of three kinds.
fn faults(alloc: Global, message: &str) -> Result<DeserError, AllocError> {
    let span = Span { start: 1, end: 3 };
    let message = Text::copy(alloc, message)?;
    let mut errors = ShapeErrors::new(alloc);
    for kind in [
        ErrorKind::MissingField("name"),
        ErrorKind::Custom(message),
        ErrorKind::OutOfRange("i32"),
    ] {
        errors.push(ShapeError { kind, span })?;
    }
    Ok(DeserError::Faults(errors))
}

#[test]
fn faults_are_printed(rt: HostRuntime) {
    let mut out = AnswerText::new(rt.alloc());
    out.made::<Shapes, _, _>(faults(rt.alloc(), "no licence"));
    DeserError::Memory.put(&mut out);
    let wanted = "missing field 'name'\nno licence\nout of range of i32\nout of memory";
    assert_eq!(rt; out.text(), wanted);
}
