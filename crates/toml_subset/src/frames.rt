//! Values of the subset of TOML without what is in them: scalars, where arrays and inline tables go on,
//! what reading owes of those that are open, and which tables headers open.

mod between;
pub mod laws;
mod part;
mod scalar;

pub use between::{Next, behind_entry, behind_item, entry_place, item_place};
pub use part::HeaderPart;
pub use scalar::{Scalar, read_scalar};
