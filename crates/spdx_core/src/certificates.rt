//! Certificates of verdicts on licence expressions: which terms are chosen and what allows each of them, or
//! which terms stand in the way.

pub mod certificates;
pub mod laws;
mod mark;
mod stack;
pub mod verdict;
mod walk;

pub use certificates::certificate;
pub use verdict::{Hit, Hits, TermPlaces, Verdict};
