//! What licence texts are identified by.

/// What licence texts are identified by, and read by.
#[derive(Drop)]
pub struct Scan<'a, I, C> {
    /// Without an identifier no text is identified.
    pub identifier: Option<&'a I>,
    /// The least score of a name that is joined, in hundredths.
    pub threshold: u8,
    pub catalog: &'a C,
    /// Whether it is kept what each licence file is.
    pub keeps: bool,
}
