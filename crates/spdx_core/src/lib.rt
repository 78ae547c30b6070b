//! Licence expressions over a catalogue of licences.
#![tactic(auto)]

pub mod certificates;
pub mod expression;
pub mod laws;
pub mod node;
mod read;
mod reader;
mod stack;

pub use expression::Expression;
pub use node::ExprNode;
pub use spdx_terms::catalog::{
    Catalog, Identifier, Imprecise, LicenseEntry, LicenseStore, Match, Table, TextLookup,
};
pub use spdx_terms::{
    ExprError, ExpressionReq, Family, LicenseItem, LicenseReq, Licensee, ParseError, ParseMode,
    ParseReason,
};
