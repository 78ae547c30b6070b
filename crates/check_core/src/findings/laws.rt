//! What holds of the labels of all expressions. These functions do nothing: their contracts are the laws.
//! Called by no code: two laws of labels and their files, whose bodies hold nothing to change.
ghost use Rattle.check_core.specs.findings.Laws.{LabelsAlwaysPoint, StandsOn};

/// Where an expression's text is in its file, its first label cuts out just this text, and each further one
/// just the words of its term, in text order, between characters. Where the text was written with escapes,
/// each label is the whole string.
pub fn labels_point()
    ensures { LabelsAlwaysPoint }
{}

/// A text that is in a file still does once the table of files has grown.
pub fn stands_on()
    ensures { StandsOn }
{}
