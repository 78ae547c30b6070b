//! Values of the subset of TOML, each with its place in the text: what they hold, how they are read, and what
//! is taken out of them.
#![tactic(auto)]

mod kind;
pub mod reader;
mod tree;
pub mod value;
mod values;

pub use kind::{kind_fault, refuse_kind};
pub use reader::parse;
pub use value::{Entries, Value, ValueInner, Values};
pub use values::read_value;
