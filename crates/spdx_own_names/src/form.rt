//! What the lines of a catalogue's file say.

use spdx_terms::catalog::LicenseEntry;

/// What a line says.
#[derive(Clone, Copy)]
pub(crate) enum LineForm<'l> {
    Nothing,
    License { name: &'l str, entry: LicenseEntry },
    Exception { name: &'l str },
    /// An imprecise text, and the name of the licence that it means.
    Imprecise { text: &'l str, name: &'l str },
}

/// The marks of a licence behind its rank.
#[derive(Clone, Copy)]
pub(crate) struct LineMarks {
    pub(crate) text: &'static str,
    pub(crate) later: bool,
    pub(crate) deprecated: bool,
    pub(crate) gnu: bool,
}
