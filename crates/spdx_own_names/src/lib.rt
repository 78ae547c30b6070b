//! An organisation's own catalogue and licence texts: a catalogue that is read of a file, and an identifier over
//! the texts of a folder.
#![tactic(auto)]

mod entries;
pub mod error;
mod form;
pub mod laws;
mod line;
pub mod listing;
mod lists;
mod meanings;
mod names;
mod ordered;
pub mod reading;
pub mod store;
mod words;

pub use error::{ListingError, StoreError, StoreFault};
pub use listing::FileCatalog;
pub use reading::read_catalog;
pub use store::read_store;
