//! The places of a policy: what its load ensures of them is what gathering and the check ask.
//! Used by no code: it holds laws alone, and may be one file with them, no clause is here.

pub mod laws;
