//! What may be wrong with the shape of a value: the words for it, and how an answer tells it.

pub mod shape;

pub use shape::{
    DeserError, ErrorKind, ShapeError, ShapeErrors, ValueKind, answer, one_fault, refuse,
};
