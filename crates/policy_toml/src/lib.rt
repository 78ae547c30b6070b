//! Types that are read from the values of the subset of TOML, each fault with its place in the text.
#![tactic(auto)]

pub mod deserialize;
pub mod helper;
pub mod hundredths;
pub mod rows;

pub use deserialize::{Deserialize, deserialize_name};
pub use helper::{TableHelper, add_unexpected};
pub use hundredths::Hundredths;
pub use toml_subset::shapes::{DeserError, ErrorKind, ShapeError, ShapeErrors};
pub use toml_subset::{Key, Str, SyntaxError, SyntaxReason, TomlError};
pub use toml_value::{Entries, Value, ValueInner, Values, parse};
