//! A subset of TOML 1.0: what its texts stand for, the scanners of its tokens, its numbers and its strings.
#![tactic(auto)]

mod error;
mod fault;
pub mod frames;
pub mod key_index;
mod keys;
pub mod laws;
mod number;
mod scan;
pub mod shapes;
mod string;
mod strings;
pub mod text_laws;

pub use error::{SyntaxError, SyntaxReason, TomlError};
pub use fault::{control_character, fault_at, stuck};
pub use keys::{Keys, read_keys, read_left};
pub use number::{Number, are_digits, begins_number, classify, count, is_whole, read_number};
pub use scan::{
    RunKind, Space, after_blanks, after_comment, after_white, char_end, line_end, next_line,
    run_end, space_from, stands,
};
pub use string::{Key, Str, escaped_string, plain_string};
pub use strings::read_string;
