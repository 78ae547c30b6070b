//! The printer of findings, over any sink.
#![tactic(auto)]

pub mod context;
pub mod findings;
pub mod flat;
mod human;
mod json_line;
pub mod lines;
pub mod place;
pub mod printer;

pub use context::{Color, Format, LogContext};
pub use findings::{index_packs, print_findings, print_packs};
pub use flat::push_flat;
pub use human::place_of;
pub use lines::push_printed;
pub use place::{labels_are_inside, pack_labels_are_inside};
pub use printer::{DiagPrinter, OutputLock, PrintError};
