//! What is known of licences: the catalogue of their names, the identifier of their texts, and the texts.

mod built_in;
pub mod catalog;
pub mod identifier;
pub mod lookup;
pub mod store;
pub mod table;
mod text_words;

pub use catalog::{Catalog, Imprecise, LicenseEntry};
pub use identifier::{Identifier, Match};
pub use lookup::TextLookup;
pub use store::{LicenseStore, StoreText, StoreTexts};
pub use table::Table;
