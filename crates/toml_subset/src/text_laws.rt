//! The laws of the subset: the first fault of a text, and where its values and keys are in it.

pub mod faults;
pub mod places;
