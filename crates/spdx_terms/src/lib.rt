//! What licence expressions are made of: their words and marks, terms, and licensees.
#![tactic(auto)]

pub mod catalog;
pub mod error;
pub mod families;
pub mod fault;
pub mod item;
pub mod items;
pub mod laws;
pub mod licensee;
pub mod mode;
pub mod term;
mod words;

pub use error::{ExprError, ParseError, ParseReason};
pub use item::{Item, ItemKind, LicenseMarks, Simple, WantedItem};
pub use licensee::Licensee;
pub use mode::ParseMode;
pub use term::{ExpressionReq, Family, LicenseItem, LicenseReq};
