//! Tests that no row of a file can be: of files that can't be read as rows, of rows that definitions compute, of generic code at
//! types of the tests' own, of sinks over writers, and of values that are built by calls.
#![tactic(auto)]

#[cfg(test)]
mod files;
#[cfg(test)]
mod licenses;
#[cfg(test)]
mod listing;
#[cfg(test)]
mod searches;
#[cfg(test)]
mod shapes;
#[cfg(test)]
mod sinks;
#[cfg(test)]
mod steps;
#[cfg(test)]
mod verdicts;
