//! What a notice is made of.
use check_core::CrateReport;
use gather_license::OwnTexts;
use graph_core::Krate;

/// What the texts of licences are found by.
#[derive(Drop)]
pub struct TextFinder<'i, I> {
    /// Tells which licence a text is, and the text of each licence.
    pub identifier: &'i I,
    /// The least score at which a text is taken for a licence, in hundredths. It is 50 at least.
    pub threshold: u8,
}

/// A crate as a notice looks at it.
#[derive(Drop)]
pub struct NoticeSource<'s> {
    pub krate: &'s Krate,
    /// The expression that the crate is under, and the verdict on that.
    pub report: &'s CrateReport,
    /// The licence texts that the crate comes with.
    pub own: &'s OwnTexts,
}
