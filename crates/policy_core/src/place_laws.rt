//! The law on the places of a policy: what is read from a value that is in a text keeps and tells places
//! of that text alone; of each part, of the entries that know licences, and of the whole policy.

pub mod entries;
pub mod parts;
