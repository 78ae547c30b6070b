//! Package specs: which crates an entry of a policy is about.

pub mod extended;
mod fault;
pub mod index;
pub mod laws;
pub mod matching;
pub mod number;
pub mod number_index;
mod order;
pub mod package_spec;
mod reading;
mod same;
mod text;

pub use extended::PackageSpecOrExtended;
pub use index::{HasSpec, SpecIndex};
pub use matching::{match_krate, match_req};
pub use number_index::{NumberIndex, Places};
pub use package_spec::PackageSpec;
