//! Overrides of the levels of findings, as the words of a command line ask for them.
//! Used by run_command and run_found; what is passed on may change, no clause is here.
#![tactic(auto)]

pub mod error;
pub mod items;
pub mod laws;
pub mod overrides;

pub use error::OverrideError;
pub use items::{LevelItem, LevelItems};
pub use overrides::overrides_of;
