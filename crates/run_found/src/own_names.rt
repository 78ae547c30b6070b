//! The catalogue and the licence texts of a run: those that are built in, or an organisation's own.
//! Used by the prelude of run_command; the split into files may change, no clause is here.

pub mod found;
pub mod lists;
pub mod texts;

pub use found::{ListsFound, lists_found};
pub use lists::ChosenCatalog;
pub use texts::ChosenIdentifier;
