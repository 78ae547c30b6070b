//! Rows and cases that are in files: how they are written, and how a program compares them with what it
//! answers.
#![tactic(auto)]

pub mod case;
pub mod compared;
pub mod escapes;
pub mod names;
pub mod room;
pub mod rows;
pub mod shown;
pub mod told;
pub mod tree;

pub use case::{Case, CaseEntry};
pub use compared::{Comparison, compare, compare_all};
pub use names::NameIdentifier;
pub use room::{Asked, Room, Told};
pub use shown::{AnswerText, Shown, let_go};
pub use told::{Tally, exit_code};
