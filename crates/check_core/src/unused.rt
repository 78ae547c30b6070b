//! What of a policy no crate needed: the allowed licensees and the exceptions that allow no term.
//! Used by crate_check and tests_check; what is passed on may change, no clause is here.

pub mod encountered;
pub mod laws;
pub mod unused;

pub use encountered::EntryHits;
pub use unused::last_pack;
